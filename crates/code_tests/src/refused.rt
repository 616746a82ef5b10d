// Tests refused files: which fault, and at which place.
use crate::analysis::check_rows;
use std::test::Fail;

const REFUSED: &str = "\
# A number that is no type, and types that don't apply to a LUI.
code .text 10078 lui a0,0; addi a0,a0,7; exit
- reloc 10078 type=62 => refused RelocType 10078
- reloc 10078 PCREL_HI20 => refused RelocMismatch 10078
- reloc 10078 CALL_PLT => refused RelocMismatch 10078
- reloc 10078 PCREL_LO12_I => refused RelocMismatch 10078

# Two lower parts of one AUIPC differ; a fault of a lower number counts instead, though its place is higher.
code .text 10078 auipc a0,0; addi a1,a0,16; addi a2,a0,20; exit
label p 10078
reloc 10078 PCREL_HI20 10088
reloc 1007c PCREL_LO12_I @p
reloc 10080 PCREL_LO12_I @p
- reloc 10084 RELAX => refused LoMismatch 10078
- reloc 10084 PCREL_HI20 => refused RelocMismatch 10084
- reloc 10084 type=62 => refused RelocType 10084

# A difference of code addresses in 16 bits; and a field that holds another number.
code .text 10078 lui a0,0; addi a0,a0,7; exit
- loaded .rodata 10088 0400 | reloc 10088 ADD16 1007c | reloc 10088 SUB16 10078 => refused NarrowDiff 10088
- loaded .rodata 10088 0500 | reloc 10088 ADD16 1007c | reloc 10088 SUB16 10078 => refused RelocMismatch 10088

# Stubs of a linker, and a file that was moved.
- code .text 10078 lui a0,0; addi a0,a0,7; exit | loaded .iplt 10088 6869 => refused IfuncOrPlt 10088
- code .old.text 10078 lui a0,0; addi a0,a0,7; exit => refused AlreadyMoved 1

# The entry point in the middle of an instruction; a word that is no instruction, an AUIPC without a relocation, and a
# jump into the middle of an instruction.
- code .text 10078 lui a0,0; addi a0,a0,7; exit | entry 1007a => refused BadEntry 1007a
- code .text 10078 .word 00000000; addi a0,a0,7; exit => refused BadInstruction 10078
- code .text 10078 auipc a0,0; addi a0,a0,7; exit => refused BareAuipc 10078
- code .text 10078 jal zero,2; addi a0,a0,7; exit => refused BadTarget 10078

# An AUIPC without a relocation that can't be an instruction either: at an odd address, and cut off by a symbol.
- code .text 10079 auipc a0,0; exit => refused BadInstruction 10079
- code .text 10078 auipc a0,0; exit | function f 1007a 0 => refused BadInstruction 10078

# An AUIPC without a relocation before what is no instruction, and behind it: the lower place counts.
- code .text 10078 auipc a0,0; .word 00000000; exit => refused BareAuipc 10078
- code .text 10078 .word 00000000; auipc a0,0; exit => refused BadInstruction 10078

# Zeros of a function, and the entry point in the middle of an instruction behind them: that counts.
- code .text 10078 exit; .word 00000000 | function f 10078 c | entry 1007e => refused BadEntry 1007e";

#[test]
fn files_that_are_refused(rt: HostRuntime) -> Result<(), Fail> {
    check_rows(&rt, rt.alloc(), REFUSED)
}
