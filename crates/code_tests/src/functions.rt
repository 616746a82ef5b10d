// Tests bounds of functions, and valid instructions.
use crate::analysis::check_rows;
use std::test::Fail;

const FUNCTIONS: &str = "\
# A file without symbols is one function.
code .text 10078 lui a0,0; addi a0,a0,7; exit
- => functions 10078 10088 | instructions 10078 Lui { rd: 10, imm: 0 } 1007c Addi { rd: 10, rs1: 10, imm: 7 } \
10080 Addi { rd: 17, rs1: 0, imm: 93 } 10084 Ecall

# A function's symbol of size 0 begins a function, and so does one that isn't defined.
code .text 10078 lui a0,0; addi a0,a0,7; exit
- function g 10080 8 => functions 10078 10080 10080 10088
- function g 10080 0 => functions 10078 10080 10080 10088
- function g 10080 0 type=2 section=0 => functions 10078 10080 10080 10088

# Zeros behind a function are padding; those of a function are no instruction.
code .text 10078 lui a0,0; addi a0,a0,7; exit; .word 00000000
- function f 10078 10 => starts 10078 1007c 10080 10084 | functions 10078 10088
- function f 10078 14 => refused BadInstruction 10088

# A call into the middle of an instruction; of an address outside all functions, which stays a number; and across two
# functions.
- code .text 10078 auipc ra,0; jalr ra,6(ra); exit | function f 10078 10 | reloc 10078 CALL_PLT @f
  => refused BadTarget 10078
- code .text 10078 auipc ra,0; jalr ra,1024(ra); exit | function f 10078 10 | reloc 10078 CALL_PLT @f
  => roles 10078 CallHi 10478 1007c CallLo 10478 10078
- code .text 10078 auipc ra,0; jalr ra,8(ra); exit | function f 10078 4 | reloc 10078 CALL_PLT @f
  => refused RelocMismatch 10078

# An AUIPC, a load of four bytes, the same of two bytes, which has no part of an address, and the end; with the flag for
# instructions of two bytes (psABI, \"File Header\", EF_RISCV_RVC) and without it.
code .text 10078 auipc a5,16; ld a4,0(a5); .half 6398; exit
label p 10078
reloc 10078 PCREL_HI20 20078
reloc 1007c PCREL_LO12_I @p
- flags 1 | reloc 10080 RELAX @p => starts 10078 1007c 10080 10082 10086
- flags 1 | reloc 10080 PCREL_LO12_I @p => refused RelocMismatch 10080
- flags 0 | reloc 10080 RELAX @p => refused BadInstruction 10080

# A nop behind a function is padding, unless the function falls into it, as it does after a system call.
function f 10078 4
- code .text 10078 jal zero,0; nop => starts 10078 1007c | functions 10078 1007c
- code .text 10078 ecall; nop => starts 10078 1007c | functions 10078 1007c 1007c 10080

# A call that is its function's last instruction isn't taken to come back, so a nop behind it is padding.
code .text 10078 auipc ra,0; jalr ra,0(ra); nop
function f 10078 8
- reloc 10078 CALL_PLT @f => roles 10078 CallHi 10078 1007c CallLo 10078 10078 | functions 10078 10080";

#[test]
fn where_functions_are(rt: HostRuntime) -> Result<(), Fail> {
    check_rows(&rt, rt.alloc(), FUNCTIONS)
}
