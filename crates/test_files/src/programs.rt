// Descriptions of programs that tests of several crates read, lay out and run. The code of each starts at 10078, which
// is the entry point, unless its name says otherwise.
use crate::error::BuildError;

// A paragraph is a name, and then the lines that describe a file.
const PROGRAMS: &str = "\
exit7
# The smallest example, which ends with status 7. Its file has 352 bytes: its header, its program header at 40, code at
# 78, names at 88, and at a0 the section headers: the null one, `.text` and `.shstrtab`.
code .text 10078 lui a0,0; addi a0,a0,7; exit

countdown
# Counts from three down, in a loop of two blocks: 1007c goes to 10088, and 10084 back to 1007c.
code .text 10078 addi a0,zero,3; beq a0,zero,12; addi a0,a0,-1; jal zero,-8; exit

greeting
# Writes the two bytes behind it.
code .text 10078 addi a0,zero,1; lui a1,16; addi a1,a1,156; addi a2,zero,2; addi a7,zero,64; ecall; addi a0,zero,0; exit
loaded .rodata 1009c 6869

switch-by-distances
# A table of distances from the table: the jump at 10088 goes to 1008c or 10090.
code .text 10078 auipc a5,0; addi a5,a5,32; lw a4,4(a5); add a4,a4,a5; jalr zero,0(a4); addi a0,zero,5; exit
loaded .rodata 10098 f4fffffff8ffffff
label p 10078
reloc 10078 PCREL_HI20 10098
reloc 1007c PCREL_LO12_I @p
reloc 10098 ADD32 1008c
reloc 10098 SUB32 10098
reloc 1009c ADD32 10090
reloc 1009c SUB32 10098

switch-by-addresses
# A table of addresses: the jump at 10080 goes to 10084 or 10088.
code .text 10078 lui a5,16; lw a4,148(a5); jalr zero,0(a4); addi a0,zero,5; exit
like table-of-addresses

return-by-addresses
# The same jump through ra.
code .text 10078 lui a5,16; lw ra,148(a5); jalr zero,0(ra); addi a0,zero,5; exit
like table-of-addresses

table-of-addresses
loaded .rodata 10090 8400010088000100
reloc 10078 HI20 10094
reloc 1007c LO12_I 10094
reloc 10090 32 10084
reloc 10094 32 10088

call
# Two functions of two instructions each, of which the first calls the second.
code .text 10078 auipc ra,0; jalr ra,8(ra); exit
function f 10078 8
function g 10080 8
reloc 10078 CALL_PLT @g

call-of-nothing
# The same with a call of an undefined weak symbol, which has the address 0.
code .text 10078 auipc ra,0; jalr ra,0(zero); exit
function f 10078 8
function g 10080 8
reloc 10078 CALL_PLT

falling
# A function that goes on in the next one.
code .text 10078 addi a0,zero,4; exit
function f 10078 4
function g 1007c 8

addresses-in-data
# A function's address from the global offset table and from an array of functions.
code .text 10078 auipc a5,16; ld a5,-112(a5); lui a4,32; ld a4,0(a4); jalr zero,0(a4); exit
segment rw 1000 20000
writable .init_array 20000 8c00010000000000
writable .got 20008 8c00010000000000
headers behind
function f 10078 14
function g 1008c 8
label p 10078
reloc 10078 GOT_HI20 @g
reloc 1007c PCREL_LO12_I @p
reloc 20000 64 @g

address-added-to
# Adds to a function's address.
code .text 10078 lui a5,16; addi a5,a5,136; addi a5,a5,4; jalr zero,0(a5); addi a0,zero,1; exit
reloc 10078 HI20 10088
reloc 1007c LO12_I 10088

address-in-pieces
# Copies a function's address in two pieces.
code .text 10078 lui a4,32; lw a5,0(a4); sw a5,8(a4); lw a5,4(a4); sw a5,12(a4); ld a5,8(a4); jalr zero,0(a5); exit
segment rw 1000 20000
writable .data 20000 94000100000000000000000000000000
headers behind
reloc 20000 64 10094

addresses-that-differ
# Compares two addresses by subtraction, and takes the low bit of one.
code .text 10078 lui a4,32; ld a5,0(a4); ld a6,8(a4); sub a3,a5,a6; sltiu a0,a3,1; andi a3,a5,1; exit
segment rw 1000 20000
writable .first 20000 9000010000000000
writable .second 20008 9400010000000000
headers behind
reloc 20000 64 10090
reloc 20008 64 10094

addresses-that-are-equal
# The same with one address twice.
code .text 10078 lui a4,32; ld a5,0(a4); ld a6,8(a4); sub a3,a5,a6; sltiu a0,a3,1; andi a3,a5,1; exit
segment rw 1000 20000
writable .first 20000 9000010000000000
writable .second 20008 9000010000000000
headers behind
reloc 20000 64 10090
reloc 20008 64 10090

headers-from-stack-at-10fd0
# Loads the address of the program headers from the stack. Behind its code another segment is loaded, with 32 bytes of
# room between them, which is enough for new code.
code .text 10fd0 ld a0,40(sp); addi a0,a0,7; exit
segment r 1000 11000
loaded .rodata 11000 6e657874

headers-from-stack-at-10fe0
# The same with 16 bytes of room, which is too little: new code needs 20.
code .text 10fe0 ld a0,40(sp); addi a0,a0,7; exit
segment r 1000 11000
loaded .rodata 11000 6e657874

exit7-at-10fd0
# The smallest example's code with 32 bytes of room behind it, which is enough for new code.
code .text 10fd0 lui a0,0; addi a0,a0,7; exit
segment r 1000 11000
loaded .rodata 11000 0000000000000000

exit7-at-10fe0
# The same with 16 bytes of room, which is too little: new code needs 20.
code .text 10fe0 lui a0,0; addi a0,a0,7; exit
segment r 1000 11000
loaded .rodata 11000 0000000000000000

exit7-below-data
# The same with a segment behind it that may be written.
code .text 10fe0 lui a0,0; addi a0,a0,7; exit
segment rw 1000 11000
loaded .rodata 11000 0000000000000000";

/// The description of the program called `name`.
pub fn program_called(name: &str) -> Result<&'static str, BuildError> {
    for paragraph in PROGRAMS.split("\n\n") {
        if let Some((found, lines)) = paragraph.split_once('\n') {
            if found == name {
                return Ok(lines);
            }
        }
    }
    Err(BuildError::NoWord)
}
