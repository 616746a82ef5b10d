// Files that are refused: the line that is printed, and that nothing is written. Places are worked out by hand.
use crate::sessions::commands_refuse;
use std::test::Fail;

// Each row has the number of the answer, the fault with its place, the need and the room, and the line.
const HEADERS: &str = "\
# Other kinds of files: flags, and a type.
like exit7
- patch 30 05 => 221 Flags 30 0 0 refused 3 Flags at 30/
- patch 10 03 => 221 NotStatic 10 0 0 refused 4 NotStatic at 10/

# A segment of code of two sizes, and one that may be written.
like exit7
- patch 68 89 => 221 ExecSegments 40 0 0 refused 5 ExecSegments at 40/
- patch 44 07 => 221 WritableCode 40 0 0 refused 6 WritableCode at 40/

# The first address that is too high for a byte of a file.
like exit7
- patch 50 0000ff7f | patch f0 7800ff7f => 221 HighAddress 7fff0000 0 0 refused 7 HighAddress at 7fff0000/

# A flag of compressed sections.
like exit7
- patch 129 08 => 221 CompressedSection 2 0 0 refused 8 CompressedSection at 2/

# Files of other machines, also cut.
like exit7
- patch 12 00 => 221 NotElf 0 0 0 refused 1 NotElf at 0/
- patch 12 00 | size 13 => 221 Truncated 0 0 0 refused 2 Truncated at 0/";

#[test]
fn files_that_are_not_read(rt: HostRuntime) -> Result<(), Fail> {
    let commands = [
        "$ rewrite in profile out map",
        "$ map in profile",
        "$ run in",
        "$ record in out",
    ];
    commands_refuse(&rt, rt.alloc(), &commands, HEADERS)
}

const CODE: &str = "\
# A type that isn't one, and one that doesn't apply to the first instruction.
like exit7
- reloc 10078 type=62 10078 => 221 RelocType 10078 0 0 refused 9 RelocType at 10078/
- reloc 10078 PCREL_HI20 10078 => 221 RelocMismatch 10078 0 0 refused 10 RelocMismatch at 10078/

# Two lower parts of one address that differ.
code .text 10078 auipc a0,0; addi a0,a0,16; addi a0,a0,20; exit
label p 10078
reloc 10078 PCREL_HI20 10088
- reloc 1007c PCREL_LO12_I @p | reloc 10080 PCREL_LO12_I @p
  => 221 LoMismatch 10078 0 0 refused 11 LoMismatch at 10078/

# A difference in 16 bits in data behind the code, and stubs of a linker.
code .text 10078 addi a0,zero,1; lui a1,16; addi a1,a1,156; addi a2,zero,2; addi a7,zero,64; ecall; addi a0,zero,0; exit
- loaded .rodata 1009c 0400 | reloc 1009c ADD16 1007c | reloc 1009c SUB16 10078
  => 221 NarrowDiff 1009c 0 0 refused 12 NarrowDiff at 1009c/
- loaded .iplt 1009c 6869 => 221 IfuncOrPlt 1009c 0 0 refused 13 IfuncOrPlt at 1009c/

# An entry point in the middle of an instruction.
like exit7
- entry 1007a => 221 BadEntry 1007a 0 0 refused 15 BadEntry at 1007a/

# A word that is no instruction, an AUIPC to which no relocation applies, and a jump into its own middle.
- code .text 10078 .word 00000000; addi a0,a0,7; exit
  => 221 BadInstruction 10078 0 0 refused 16 BadInstruction at 10078/
- code .text 10078 auipc a0,0; addi a0,a0,7; exit => 221 BareAuipc 10078 0 0 refused 16 BareAuipc at 10078/
- code .text 10078 jal zero,2; addi a0,a0,7; exit => 221 BadTarget 10078 0 0 refused 17 BadTarget at 10078/";

// The unwind table of a loop: a CIE, an FDE for its 24 bytes with DW_CFA_advance_loc 8 and DW_CFA_def_cfa_offset 16,
// and the end mark. The last FDE names an exception table at 10000. The line table has one unit, with a directory, a
// file twice, and a sequence of three rows.
const FRAMES: &str = "\
# Another version of a CIE.
like countdown
loaded .eh_frame 10090 1400000000000000027a5200017801011b0c020000000000100000001c000000c8ffffff1800000000480e1000000000
- => 221 FrameFault 0 0 0 refused 21 FrameFault at 0/

# A program that registers its table itself.
like countdown
loaded .eh_frame 10090 1400000000000000017a5200017801011b0c020000000000100000001c000000c8ffffff1800000000480e1000000000
function __register_frame 10078 18
- => 221 RegisteredFrames 10090 0 0 refused 20 RegisteredFrames at 10090/

# A branch out of a function that has an exception table.
code .text 10078 addi a0,zero,3; beq a0,zero,20; addi a0,a0,-1; jal zero,-8; exit; exit
function f 10078 18
function g 10090 8
loaded .eh_frame 10098 1400000000000000017a4c520001780102031b0c02000000140000001c000000c0ffffff180000000400000100000000\
00000000
- => 221 KeptBranch 1007c 0 0 refused 19 KeptBranch at 1007c/

# A line table of another version, and one whose line range is 0. A malformed unwind table comes before it.
like countdown
- unloaded .debug_line 0 4c0000000400080029000000010101fb0e0d000101010100000001000001010108012f7300020108020b02612e6300\
00612e630000000902780001000000000001020803010102080301010208000101
  => 221 DwarfVersion 0 0 0 refused 22 DwarfVersion at 0/
- unloaded .debug_line 0 4c0000000500080029000000010101fb000d000101010100000001000001010108012f7300020108020b02612e6300\
00612e630000000902780001000000000001020803010102080301010208000101
  => 221 LineFault 0 0 0 refused 26 LineFault at 0/
- unloaded .debug_line 0 4c0000000500080029000000010101fb000d000101010100000001000001010108012f7300020108020b02612e6300\
00612e630000000902780001000000000001020803010102080301010208000101
  loaded .eh_frame 10090 1400000000000000027a5200017801011b0c020000000000100000001c000000c8ffffff1800000000480e10000000\
00
  => 221 FrameFault 0 0 0 refused 21 FrameFault at 0/

# A table of units with a unit of no bytes, which comes behind a fault of the code.
like exit7
- unloaded .debug_info 0 00000000 => 221 DwarfFault 0 0 0 refused 25 DwarfFault at 0/
- unloaded .debug_info 0 00000000 | patch 78 17 => 221 BareAuipc 10078 0 0 refused 16 BareAuipc at 10078/";

#[test]
fn unwind_tables_that_are_not_carried(rt: HostRuntime) -> Result<(), Fail> {
    commands_refuse(&rt, rt.alloc(), &["$ rewrite in profile out map"], FRAMES)
}

#[test]
fn files_that_are_not_rewritten(rt: HostRuntime) -> Result<(), Fail> {
    let commands = ["$ run --symbols in", "$ rewrite in profile out map"];
    commands_refuse(&rt, rt.alloc(), &commands, CODE)
}
