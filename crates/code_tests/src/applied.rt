// Tests relocations of each type, on instructions and fields that they fit and on others. psABI, "Relocations".
use crate::analysis::check_rows;
use std::test::Fail;

const DISTANCES: &str = "\
# The upper parts of distances, GOT_HI20 for a symbol of value 0, with lower parts, as the code sequences of the models
# of thread-local storage have them.
segment rw 1000 20000
writable .data 20000 0000000000000000
headers behind
label p 10078
- code .text 10078 auipc a5,16; ld a4,-120(a5); exit | reloc 10078 GOT_HI20
  reloc 1007c PCREL_LO12_I @p => roles 10078 Hi 20000 1007c Lo 20000 10078 | cells
- code .text 10078 auipc a5,16; ld a4,-120(a5); exit | reloc 10078 TLS_GOT_HI20
  reloc 1007c PCREL_LO12_I @p => roles 10078 Hi 20000 1007c Lo 20000 10078 | cells
- code .text 10078 auipc a5,16; addi a0,a5,-120; exit | reloc 10078 TLS_GD_HI20
  reloc 1007c PCREL_LO12_I @p => roles 10078 Hi 20000 1007c Lo 20000 10078 | cells
- code .text 10078 auipc a5,16; addi a0,a5,-120; exit | reloc 10078 PCREL_HI20
  reloc 1007c PCREL_LO12_I @p => roles 10078 Hi 20000 1007c Lo 20000 10078 | cells
- code .text 10078 auipc a5,16; jalr ra,-120(a5); exit | reloc 10078 PCREL_HI20
  reloc 1007c PCREL_LO12_I @p => roles 10078 Hi 20000 1007c Lo 20000 10078 | cells
- code .text 10078 auipc a5,16; sd a0,-120(a5); exit | reloc 10078 PCREL_HI20
  reloc 1007c PCREL_LO12_S @p => roles 10078 Hi 20000 1007c Lo 20000 10078 | cells

# A lower part of a format that the instruction doesn't have.
segment rw 1000 20000
writable .data 20000 0000000000000000
headers behind
label p 10078
- code .text 10078 auipc a5,16; sd a0,-120(a5); exit | reloc 10078 PCREL_HI20
  reloc 1007c PCREL_LO12_I @p => refused RelocMismatch 1007c
- code .text 10078 auipc a5,16; addi a0,a5,-120; exit | reloc 10078 PCREL_HI20
  reloc 1007c PCREL_LO12_S @p => refused RelocMismatch 1007c
- code .text 10078 auipc a5,16; add a0,a5,a5; exit | reloc 10078 PCREL_HI20
  reloc 1007c PCREL_LO12_I @p => refused RelocMismatch 1007c

# An upper part of each type that no lower part names.
code .text 10078 auipc a5,16; ld a5,-120(a5); exit
label p 10078
- reloc 10078 GOT_HI20 | reloc 1007c NONE @p => refused RelocMismatch 10078
- reloc 10078 TLS_GOT_HI20 | reloc 1007c NONE @p => refused RelocMismatch 10078
- reloc 10078 TLS_GD_HI20 | reloc 1007c NONE @p => refused RelocMismatch 10078
- reloc 10078 PCREL_HI20 | reloc 1007c NONE @p => refused RelocMismatch 10078

# A target below 0 or above 7fff0000, and that one: 10078 + 7ffe0000 - 78.
label p 10078
- code .text 10078 auipc a5,-17; ld a5,-120(a5); exit | reloc 10078 PCREL_HI20
  reloc 1007c PCREL_LO12_I @p => refused RelocMismatch 10078
- code .text 10078 auipc a5,524272; ld a5,-120(a5); exit | reloc 10078 PCREL_HI20
  reloc 1007c PCREL_LO12_I @p => refused RelocMismatch 10078
- code .text 10078 auipc a5,524256; ld a5,-120(a5); exit | reloc 10078 PCREL_HI20
  reloc 1007c PCREL_LO12_I @p => roles 10078 Hi 7fff0000 1007c Lo 7fff0000 10078

# A lower part's symbol is at the AUIPC, whatever the addend is.
label q 10078
- code .text 10078 auipc a5,16; ld a4,-120(a5); ld a4,-120(a5); exit
  label p 10078 | reloc 10078 PCREL_HI20 | reloc 1007c PCREL_LO12_I @p 4 | reloc 10080 PCREL_LO12_I @q
  => roles 10078 Hi 20000 1007c Lo 20000 10078 10080 Lo 20000 10078
- code .text 10078 auipc a5,16; ld a4,-120(a5); ld a4,-120(a5); exit
  label p 1007c | reloc 10078 PCREL_HI20 | reloc 1007c PCREL_LO12_I @p -4 | reloc 10080 PCREL_LO12_I @q
  => refused RelocMismatch 1007c
- code .text 10078 auipc a5,16; sd a4,-120(a5); ld a4,-120(a5); exit
  label p 10078 | reloc 10078 PCREL_HI20 | reloc 1007c PCREL_LO12_S @p 4 | reloc 10080 PCREL_LO12_I @q
  => roles 10078 Hi 20000 1007c Lo 20000 10078 10080 Lo 20000 10078
- code .text 10078 auipc a5,16; sd a4,-120(a5); ld a4,-120(a5); exit
  label p 1007c | reloc 10078 PCREL_HI20 | reloc 1007c PCREL_LO12_S @p -4 | reloc 10080 PCREL_LO12_I @q
  => refused RelocMismatch 1007c

# A lower part for the AUIPC of a call.
code .text 10078 auipc ra,0; jalr ra,8(ra); addi a0,ra,8; exit
label p 10078
- reloc 10078 CALL_PLT 10080 | reloc 10080 PCREL_LO12_I @p => refused RelocMismatch 10080";

#[test]
fn parts_of_distances(rt: HostRuntime) -> Result<(), Fail> {
    check_rows(&rt, rt.alloc(), DISTANCES)
}

const ADDRESSES: &str = "\
# Parts of the absolute address of the fourth instruction, 10084, whose upper part is 10 and whose lower part 84.
- code .text 10078 lui a5,16; lui a4,16; exit | reloc 1007c HI20 10084 => roles 1007c AbsHi 10084
- code .text 10078 lui a5,16; addi a5,a5,132; exit | reloc 1007c LO12_I 10084 => roles 1007c AbsLo 10084
- code .text 10078 lui a5,16; ld a5,132(a5); exit | reloc 1007c LO12_I 10084 => roles 1007c AbsLo 10084
- code .text 10078 lui a5,16; jalr ra,132(a5); exit | reloc 1007c LO12_I 10084 => roles 1007c AbsLo 10084
- code .text 10078 lui a5,16; sd a4,132(a5); exit | reloc 1007c LO12_S 10084 => roles 1007c AbsLo 10084

# Another instruction, or another immediate.
- code .text 10078 lui a5,16; addi a5,a5,132; exit | reloc 1007c HI20 10084 => refused RelocMismatch 1007c
- code .text 10078 lui a5,16; sd a4,132(a5); exit | reloc 1007c LO12_I 10084 => refused RelocMismatch 1007c
- code .text 10078 lui a5,16; addi a5,a5,132; exit | reloc 1007c LO12_S 10084 => refused RelocMismatch 1007c
- code .text 10078 lui a5,16; lui a4,17; exit | reloc 1007c HI20 10084 => refused RelocMismatch 1007c
- code .text 10078 lui a5,16; addi a5,a5,128; exit | reloc 1007c LO12_I 10084 => refused RelocMismatch 1007c
- code .text 10078 lui a5,16; sd a4,128(a5); exit | reloc 1007c LO12_S 10084 => refused RelocMismatch 1007c

# A call of the older type.
- code .text 10078 auipc ra,0; jalr ra,8(ra); exit
  reloc 10078 CALL 10080 => roles 10078 CallHi 10080 1007c CallLo 10080 10078

# No JALR; one through another register; through x0 to another address than 0, by either part; and a target below 0 or
# above 7fff0000.
- code .text 10078 auipc ra,0; addi ra,ra,8; exit | reloc 10078 CALL 10080 => refused RelocMismatch 10078
- code .text 10078 auipc ra,0; jalr ra,8(a0); exit | reloc 10078 CALL 10080 => refused RelocMismatch 10078
- code .text 10078 auipc ra,0; jalr ra,8(zero); exit | reloc 10078 CALL 10080 => refused RelocMismatch 10078
- code .text 10078 auipc ra,1; jalr ra,0(zero); exit | reloc 10078 CALL 10080 => refused RelocMismatch 10078
- code .text 10078 auipc ra,-17; jalr ra,0(ra); exit | reloc 10078 CALL 10080 => refused RelocMismatch 10078
- code .text 10078 auipc ra,524272; jalr ra,0(ra); exit | reloc 10078 CALL 10080 => refused RelocMismatch 10078";

#[test]
fn parts_of_addresses(rt: HostRuntime) -> Result<(), Fail> {
    check_rows(&rt, rt.alloc(), ADDRESSES)
}

const DIFFERENCES: &str = "\
# Differences of code addresses in 32 and 64 bits, in a field behind the code.
code .text 10078 lui a0,0; addi a0,a0,7; exit
loaded .rodata 10088 0400000000000000
- reloc 10088 ADD32 1007c | reloc 10088 SUB32 10078 => cells 10088 4 1007c 10078
- reloc 10088 ADD64 1007c | reloc 10088 SUB64 10078 => cells 10088 8 1007c 10078

# From the field itself: -12, and another number.
code .text 10078 lui a0,0; addi a0,a0,7; exit
- loaded .rodata 10088 f4ffffff | reloc 10088 32_PCREL 1007c => cells 10088 4 1007c 10088
- loaded .rodata 10088 f3ffffff | reloc 10088 32_PCREL 1007c => refused RelocMismatch 10088
- loaded .rodata 10088 f4ffffff | reloc 10088 PLT32 1007c => cells 10088 4 1007c 10088
- loaded .rodata 10088 f3ffffff | reloc 10088 PLT32 1007c => refused RelocMismatch 10088

# Those of 8 and 16 bits, and those that are set, of 6, 8, 16 and 32 bits and in LEB128: refused, unless both labels are
# in a function that stays whole, of which the end counts as one; they are no cells there.
code .text 10078 lui a0,0; addi a0,a0,7; exit
loaded .rodata 10088 1000000000000000
- reloc 10088 ADD8 10088 | reloc 10088 SUB8 10078 => refused NarrowDiff 10088
- reloc 10088 ADD8 10088 | reloc 10088 SUB8 10078 | whole 10078 1007c => cells
- reloc 10088 ADD16 10088 | reloc 10088 SUB16 10078 => refused NarrowDiff 10088
- reloc 10088 ADD16 10088 | reloc 10088 SUB16 10078 | whole 10078 1007c => cells
- reloc 10088 SET6 10088 | reloc 10088 SUB6 10078 => refused NarrowDiff 10088
- reloc 10088 SET6 10088 | reloc 10088 SUB6 10078 | whole 10078 1007c => cells
- reloc 10088 SET8 10088 | reloc 10088 SUB8 10078 => refused NarrowDiff 10088
- reloc 10088 SET8 10088 | reloc 10088 SUB8 10078 | whole 10078 1007c => cells
- reloc 10088 SET16 10088 | reloc 10088 SUB16 10078 => refused NarrowDiff 10088
- reloc 10088 SET16 10088 | reloc 10088 SUB16 10078 | whole 10078 1007c => cells
- reloc 10088 SET32 10088 | reloc 10088 SUB32 10078 => refused NarrowDiff 10088
- reloc 10088 SET32 10088 | reloc 10088 SUB32 10078 | whole 10078 1007c => cells
- reloc 10088 SET_ULEB128 10088 | reloc 10088 SUB_ULEB128 10078 => refused NarrowDiff 10088
- reloc 10088 SET_ULEB128 10088 | reloc 10088 SUB_ULEB128 10078 | whole 10078 1007c => cells

# Another number in the field.
code .text 10078 lui a0,0; addi a0,a0,7; exit
loaded .rodata 10088 0500000000000000
- reloc 10088 ADD8 1007c | reloc 10088 SUB8 10078 => refused RelocMismatch 10088
- reloc 10088 ADD16 1007c | reloc 10088 SUB16 10078 => refused RelocMismatch 10088
- reloc 10088 ADD32 1007c | reloc 10088 SUB32 10078 => refused RelocMismatch 10088
- reloc 10088 ADD64 1007c | reloc 10088 SUB64 10078 => refused RelocMismatch 10088
- reloc 10088 SET6 1007c | reloc 10088 SUB6 10078 => refused RelocMismatch 10088
- reloc 10088 SET8 1007c | reloc 10088 SUB8 10078 => refused RelocMismatch 10088
- reloc 10088 SET16 1007c | reloc 10088 SUB16 10078 => refused RelocMismatch 10088
- reloc 10088 SET32 1007c | reloc 10088 SUB32 10078 => refused RelocMismatch 10088
- reloc 10088 SET_ULEB128 1007c | reloc 10088 SUB_ULEB128 10078 => refused RelocMismatch 10088

# A label whose partner is of another width or of the same sign.
code .text 10078 lui a0,0; addi a0,a0,7; exit
loaded .rodata 10088 0400000000000000
- reloc 10088 ADD32 1007c | reloc 10088 SUB64 10078 => refused RelocMismatch 10088
- reloc 10088 SET6 1007c | reloc 10088 SUB8 10078 => refused RelocMismatch 10088
- reloc 10088 SET32 1007c | reloc 10088 SUB_ULEB128 10078 => refused RelocMismatch 10088
- reloc 10088 ADD32 1007c | reloc 10088 ADD32 10078 => refused RelocMismatch 10088
- reloc 10088 SUB32 1007c | reloc 10088 SUB32 10078 => refused RelocMismatch 10088

# A code address that is added twice; one that is subtracted alone; and a number in LEB128 that goes on behind its
# section.
code .text 10078 lui a0,0; addi a0,a0,7; exit
- loaded .rodata 10088 04000000 | reloc 10088 ADD32 1007c | reloc 10088 ADD32 1007c | reloc 10088 SUB32 10078
  => refused RelocMismatch 10088
- loaded .rodata 10088 04000000 | reloc 10088 SUB32 10078 | reloc 10088 NONE 0 | reloc 10088 NONE 0
  => refused RelocMismatch 10088
- loaded .rodata 10088 88808080 | reloc 10088 SET_ULEB128 10080 | reloc 10088 SUB_ULEB128 10078 | reloc 10088 NONE 0
  => refused RelocMismatch 10088

# Labels that are no code addresses: alone, and two outside all memory, of which the difference alone counts.
code .text 10078 lui a0,0; addi a0,a0,7; exit
loaded .rodata 10088 04000000
- reloc 10088 ADD32 20000 | reloc 10088 NONE 0 => cells
- reloc 10088 SUB32 20000 | reloc 10088 NONE 0 => cells
- reloc 10088 ADD32 -4 | reloc 10088 SUB32 -8 => cells
- reloc 10088 ADD32 7fff0008 | reloc 10088 SUB32 7fff0004 => cells";

#[test]
fn differences(rt: HostRuntime) -> Result<(), Fail> {
    check_rows(&rt, rt.alloc(), DIFFERENCES)
}
