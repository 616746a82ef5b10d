// Tests which fields are code cells.
use crate::analysis::check_rows;
use std::test::Fail;

const CELLS: &str = "\
# The address of an instruction is one; those of its middle and of the code's end aren't. The file's header has the
# entry point, which is no cell: the header is written anew.
code .text 10078 lui a0,0; addi a0,a0,7; exit
- loaded .data 10088 7c00010000000000 | reloc 10088 64 => cells 10088 8 1007c
- loaded .data 10088 7e00010000000000 | reloc 10088 64 => cells
- loaded .data 10088 8800010000000000 | reloc 10088 64 => cells
- loaded .data 10018 7800010000000000 | reloc 10018 64 => cells

# A field that is an address and the difference of that address and 0 is the address.
code .text 10078 lui a0,0; addi a0,a0,7; exit
loaded .rodata 10088 7c000100
- reloc 10088 ADD32 1007c | reloc 10088 SUB32 0 | reloc 10088 32 0 => cells 10088 4 1007c

# A difference of equal labels where memory is filled with zeros, which the file has no bytes of.
code .text 10078 lui a0,0; addi a0,a0,7; exit
segment rw 1000 20000
zeroed .bss 20000 8
headers behind
- reloc 20000 ADD32 1007c | reloc 20000 SUB32 1007c => cells

# A difference, an address that begins in its middle, and a difference that shares bytes with that address alone: the
# first and the last count.
code .text 10078 lui a0,0; addi a0,a0,7; exit
loaded .data 10088 00007c00010000000000
- reloc 1008e ADD32 1007c | reloc 1008e SUB32 1007c | reloc 1008a 64
reloc 10088 ADD32 7d007c | reloc 10088 SUB32 1007c
  => cells 10088 4 7d007c 1007c 1008e 4 1007c 1007c

# A label that is no address doesn't matter where the difference is no cell: behind the first bytes of an address, and
# in the file's header, whose entry point is the first instruction.
code .text 10078 lui a0,0; addi a0,a0,7; exit
- loaded .data 10088 7800010000000000 | reloc 10088 64 | reloc 1008c ADD32 1007c | reloc 1008c SUB32 -fffeff84
  => cells 10088 8 10078
- loaded .data 10018 78000100 | reloc 10018 ADD32 10078 | reloc 10018 SUB32 -100000000 => cells

# A field for the address behind a function. Zeros there have no code address; a nop has one, and becomes a function by
# the field that names it.
loaded .data 10080 7c00010000000000
function f 10078 4
reloc 10080 64
- code .text 10078 jal zero,0; .word 00000000 => cells | functions 10078 1007c
- code .text 10078 jal zero,0; nop => cells 10080 8 1007c | functions 10078 1007c 1007c 10080

# Two functions, and a field of one byte for the difference of a label and the first one's start. Both labels have to be
# of one whole function; its end is one of its labels.
code .text 10078 lui a0,0; addi a0,a0,7; exit
function f 10078 8
function g 10080 8
- loaded .data 10088 08 | reloc 10088 ADD8 10080 | reloc 10088 SUB8 10078 | whole 10078 1007c | whole 10078 1007c
  => cells | functions 10078 10080 whole 10080 10088
- loaded .data 10088 08 | reloc 10088 ADD8 10080 | reloc 10088 SUB8 10078 | whole 10080 10084 | whole 10080 10084
  => refused NarrowDiff 10088
- loaded .data 10088 0c | reloc 10088 ADD8 10084 | reloc 10088 SUB8 10078 | whole 10078 1007c | whole 10080 10084
  => refused NarrowDiff 10088";

#[test]
fn fields_that_are_cells(rt: HostRuntime) -> Result<(), Fail> {
    check_rows(&rt, rt.alloc(), CELLS)
}
