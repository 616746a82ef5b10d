// Programs that are rewritten: their maps and new code, worked out by hand, and the runs of the programs and of their
// outputs.
use crate::sessions::play_rows;
use std::test::Fail;

const REWRITTEN: &str = "\
# Code that reads data.
like greeting
- => $ rewrite in profile out map
     | 0 Ok moved 1 functions, 9 instructions, 36 bytes; 0 hot blocks; 0 profile lines ignored/
     | starts map 100a0 4 10078/ | ends map /100c0 4 10098/ | bytes out 9c 6869
     | $ run in | 0 Ended(0) hi[ended 0 after 9 steps]/ | $ run out | 0 Ended(0) hi[ended 0 after 9 steps]/

# A loop that counts from three down: the jump back is dropped, and one into the loop is added. The new code is ADDI
# a0,x0,3; JAL x0,8; ADDI a0,a0,-1; BNE a0,x0,-4; ADDI a7,x0,93; ECALL.
like countdown
- profile 1 @10078 c 1 @10078 4 0 3
  profile 1 @10078 4 1 @10078 10 0 1
  => $ rewrite in profile out map
     | 0 Ok moved 1 functions, 6 instructions, 24 bytes; 3 hot blocks; 0 profile lines ignored/
     | text map 10090 8 10078/10098 4 10080/1009c 0 10084/1009c 4 1007c/100a0 4 10088/100a4 4 1008c/
     | bytes out 90 130530006f0080001305f5ffe31e05fe9308d00573000000
     | $ run in | 0 Ended(0) [ended 0 after 13 steps]/ | $ run out | 0 Ended(0) [ended 0 after 11 steps]/

# The loop with an unwind table, in which the frame grows by 16 bytes from the third instruction on: the new code starts
# behind it.
like countdown
loaded .eh_frame 10090 1400000000000000017a5200017801011b0c020000000000100000001c000000c8ffffff1800000000480e1000000000
- profile 1 @10078 c 1 @10078 4 0 3
  profile 1 @10078 4 1 @10078 10 0 1
  => $ rewrite in profile out map
     | 0 Ok moved 1 functions, 6 instructions, 24 bytes; 3 hot blocks; 0 profile lines ignored/
     | text map 100c0 8 10078/100c8 4 10080/100cc 0 10084/100cc 4 1007c/100d0 4 10088/100d4 4 1008c/
     | $ verify in out map | 0 Ok faithful/
     | $ run --symbols in | 0 Ended(0) [ended 0 after 13 steps]/ | $ run out | 0 Ended(0) [ended 0 after 11 steps]/

# The loop with a line table of three lines for two instructions each: line 1 for the first two and where the last of
# them went, and lines 2 and 3. The new unit has its header as it was, and the rows 1 at 10090, 2 at 10098, 1 at 1009c
# and 3 at 100a0 up to 100a8: DW_LNE_set_address, DW_LNS_set_file, four special opcodes, DW_LNS_advance_pc and
# DW_LNE_end_sequence.
like countdown
unloaded .debug_line 0 4c0000000500080029000000010101fb0e0d000101010100000001000001010108012f7300020108020b02612e630000\
612e630000000902780001000000000001020803010102080301010208000101
- profile 1 @10078 c 1 @10078 4 0 3
  profile 1 @10078 4 1 @10078 10 0 1
  => $ rewrite in profile out map
     | 0 Ok moved 1 functions, 6 instructions, 24 bytes; 3 hot blocks; 0 profile lines ignored/
     | text map 10090 8 10078/10098 4 10080/1009c 0 10084/1009c 4 1007c/100a0 4 10088/100a4 4 1008c/
     | bytes out a8 470000000500080029000000010101fb0e0d000101010100000001000001010108012f7300020108020b02612e63000061\
2e630000000902900001000000000004011283494c0208000101
     | $ run in | 0 Ended(0) [ended 0 after 13 steps]/ | $ run out | 0 Ended(0) [ended 0 after 11 steps]/

# The loop with an exception table: its function stays in one piece.
like countdown
loaded .eh_frame 10090 1400000000000000017a4c520001780102031b0c02000000140000001c000000c8ffffff180000000400000100000000\
00000000
- profile 1 @10078 c 1 @10078 4 0 3
  profile 1 @10078 4 1 @10078 10 0 1
  => $ rewrite in profile out map
     | 0 Ok moved 1 functions, 6 instructions, 24 bytes; 1 hot blocks; 0 profile lines ignored/
     | text map 100d0 4 10078/100d4 4 1007c/100d8 4 10080/100dc 4 10084/100e0 4 10088/100e4 4 1008c/
     | $ verify in out map | 0 Ok faithful/
     | $ run --symbols in | 0 Ended(0) [ended 0 after 13 steps]/ | $ run out | 0 Ended(0) [ended 0 after 13 steps]/

# The same with two lines that say nothing, which are counted, and one twice: counts are added up above 2^64.
like countdown
- profile hello
  profile 1 nobody 0 1 @10078 4 0 7
  profile 1 @10078 c 1 @10078 4 0 18446744073709551615
  profile 1 @10078 c 1 @10078 4 0 18446744073709551615
  => $ rewrite in profile out map
     | 0 Ok moved 1 functions, 6 instructions, 24 bytes; 2 hot blocks; 2 profile lines ignored/
     | text map 10090 8 10078/10098 4 10080/1009c 0 10084/1009c 4 1007c/100a0 4 10088/100a4 4 1008c/
     | $ run in | 0 Ended(0) [ended 0 after 13 steps]/ | $ run out | 0 Ended(0) [ended 0 after 11 steps]/

# Of two edges with one count, that to the lower target wins.
like countdown
- profile 1 @10078 4 1 @10078 8 0 2
  profile 1 @10078 4 1 @10078 10 0 2
  => $ rewrite in profile out map
     | 0 Ok moved 1 functions, 6 instructions, 24 bytes; 3 hot blocks; 0 profile lines ignored/
     | text map 10090 4 10078/10094 4 1007c/10098 4 10080/1009c 4 10084/100a0 4 10088/100a4 4 1008c/
     | $ run in | 0 Ended(0) [ended 0 after 13 steps]/ | $ run out | 0 Ended(0) [ended 0 after 13 steps]/

# A switch by distances: the table, and AUIPC a5,0; ADDI a5,a5,-8.
like switch-by-distances
- => $ rewrite in profile out map
     | 0 Ok moved 1 functions, 8 instructions, 32 bytes; 0 hot blocks; 0 profile lines ignored/
     | starts map 100a0 4 10078/ | ends map /100bc 4 10094/
     | bytes out 98 1c00000020000000 | bytes out a0 97070000938787ff | $ verify in out map | 0 Ok faithful/
     | $ run in | 0 Ended(0) [ended 0 after 7 steps]/ | $ run out | 0 Ended(0) [ended 0 after 7 steps]/

# A switch by addresses: the table, and LUI a5,10; LW a4,148(a5).
like switch-by-addresses
- => $ rewrite in profile out map
     | 0 Ok moved 1 functions, 6 instructions, 24 bytes; 0 hot blocks; 0 profile lines ignored/
     | starts map 100a0 4 10078/ | ends map /100b4 4 1008c/
     | bytes out 90 ac000100b0000100 | bytes out a0 b707010003a74709 | $ verify in out map | 0 Ok faithful/
     | $ run in | 0 Ended(0) [ended 0 after 5 steps]/ | $ run out | 0 Ended(0) [ended 0 after 5 steps]/

# Two functions of which the second is hot: AUIPC ra,0; JALR ra,-8(ra).
like call
- profile 1 g 0 1 g 4 0 9
  => $ rewrite in profile out map
     | 0 Ok moved 2 functions, 4 instructions, 16 bytes; 1 hot blocks; 0 profile lines ignored/
     | text map 10090 4 10080/10094 4 10084/10098 4 10078/1009c 4 1007c/ | bytes out 98 97000000e78080ff
     | $ verify in out map | 0 Ok faithful/
     | $ run in | 0 Ended(0) [ended 0 after 4 steps]/ | $ run out | 0 Ended(0) [ended 0 after 4 steps]/

# A call of an undefined symbol: AUIPC ra,0; JALR ra,0(x0).
like call-of-nothing
- profile 1 g 0 1 g 4 0 9
  => $ rewrite in profile out map
     | 0 Ok moved 2 functions, 4 instructions, 16 bytes; 1 hot blocks; 0 profile lines ignored/
     | text map 10090 4 10080/10094 4 10084/10098 4 10078/1009c 4 1007c/ | bytes out 98 97000000e7000000
     | $ run in | 225 Trapped 0 Fetch [trapped Fetch at 0 after 2 steps]/
     | $ run out | 225 Trapped 0 Fetch [trapped Fetch at 0 after 2 steps]/

# A function that falls into the next: JAL x0,-12.
like falling
- profile 1 g 0 1 g 4 0 1
  => $ rewrite in profile out map
     | 0 Ok moved 2 functions, 3 instructions, 16 bytes; 1 hot blocks; 0 profile lines ignored/
     | text map 10090 4 1007c/10094 4 10080/10098 8 10078/ | bytes out 9c 6ff05fff
     | $ run in | 4 Ended(4) [ended 4 after 3 steps]/ | $ run out | 4 Ended(4) [ended 4 after 4 steps]/";

#[test]
fn programs_are_rewritten(rt: HostRuntime) -> Result<(), Fail> {
    play_rows(&rt, rt.alloc(), REWRITTEN)
}

const ADDRESSES: &str = "\
# Addresses of functions in data: AUIPC a5,10; LD a5,-152(a5), and both entries.
like addresses-in-data
- => $ rewrite in profile out map
     | 0 Ok moved 2 functions, 7 instructions, 28 bytes; 0 hot blocks; 0 profile lines ignored/
     | starts map 100a0 4 10078/ | ends map /100b4 4 1008c/100b8 4 10090/
     | bytes out a0 9707010083b787f6 | bytes out 1000 b400010000000000b400010000000000
     | $ run in | 0 Ended(0) [ended 0 after 7 steps]/ | $ run out | 0 Ended(0) [ended 0 after 7 steps]/

# The symbol machine gets stuck where an address is added to. The file is rewritten, and nothing is said of its runs.
like address-added-to
- => $ rewrite in profile out map
     | 0 Ok moved 1 functions, 7 instructions, 28 bytes; 0 hot blocks; 0 profile lines ignored/
     | starts map 100a0 4 10078/ | ends map /100b8 4 10090/
     | $ run in | 0 Ended(0) [ended 0 after 6 steps]/ | $ run out | 0 Ended(0) [ended 0 after 6 steps]/

# A function's address that is copied in two pieces.
like address-in-pieces
- => $ rewrite in profile out map
     | 0 Ok moved 1 functions, 9 instructions, 36 bytes; 0 hot blocks; 0 profile lines ignored/
     | starts map 100a0 4 10078/ | ends map /100c0 4 10098/ | bytes out 1000 bc00010000000000
     | $ run in | 0 Ended(0) [ended 0 after 9 steps]/ | $ run out | 0 Ended(0) [ended 0 after 9 steps]/

# Addresses that are compared.
like addresses-that-differ
- => $ rewrite in profile out map
     | 0 Ok moved 1 functions, 8 instructions, 32 bytes; 0 hot blocks; 0 profile lines ignored/
     | starts map 100a0 4 10078/ | ends map /100bc 4 10094/ | bytes out 1000 b800010000000000
     | $ run in | 0 Ended(0) [ended 0 after 8 steps]/ | $ run out | 0 Ended(0) [ended 0 after 8 steps]/

# The same with one address twice.
like addresses-that-are-equal
- => $ rewrite in profile out map
     | 0 Ok moved 1 functions, 8 instructions, 32 bytes; 0 hot blocks; 0 profile lines ignored/
     | starts map 100a0 4 10078/ | ends map /100bc 4 10094/ | bytes out 1000 b800010000000000
     | $ run in | 1 Ended(1) [ended 1 after 8 steps]/ | $ run out | 1 Ended(1) [ended 1 after 8 steps]/

# Files without relocations that have no AUIPC are rewritten, but for their pointers to code, which nothing tells from
# numbers. A run with `--symbols` does. A pointer in instructions, and one in data.
- code .text 10078 lui a5,16; addi a5,a5,136; jalr zero,0(a5); addi a0,zero,1; exit
  => $ rewrite in profile out map
     | 0 Ok moved 1 functions, 6 instructions, 24 bytes; 0 hot blocks; 0 profile lines ignored/
     | $ run --symbols in | 227 Stuck 10080 NotCode [stuck NotCode at 10080 after 2 steps]/
     | $ run in | 0 Ended(0) [ended 0 after 5 steps]/
- code .text 10078 lui a4,32; ld a5,0(a4); jalr zero,0(a5); addi a0,zero,1; exit
  segment rw 1000 20000
  writable .data 20000 8800010000000000
  headers behind
  => $ rewrite in profile out map
     | 0 Ok moved 1 functions, 6 instructions, 24 bytes; 0 hot blocks; 0 profile lines ignored/
     | $ run --symbols in | 227 Stuck 10080 NotCode [stuck NotCode at 10080 after 2 steps]/
     | $ run in | 0 Ended(0) [ended 0 after 5 steps]/";

#[test]
fn programs_with_pointers_are_rewritten(rt: HostRuntime) -> Result<(), Fail> {
    play_rows(&rt, rt.alloc(), ADDRESSES)
}

const ROOM: &str = "\
# New code behind the old, before another segment. The output isn't rewritten again.
like exit7-at-10fd0
- => $ rewrite in profile out map
     | 0 Ok moved 1 functions, 4 instructions, 16 bytes; 0 hot blocks; 0 profile lines ignored/
     | text map 10fe0 4 10fd0/10fe4 4 10fd4/10fe8 4 10fd8/10fec 4 10fdc/
     | $ verify in out map | 0 Ok faithful/
     | $ run in | 7 Ended(7) [ended 7 after 4 steps]/ | $ run out | 7 Ended(7) [ended 7 after 4 steps]/
     | $ rewrite out profile again map | 221 AlreadyMoved 1 0 0 refused 14 AlreadyMoved at 1/

# New code above all: a third segment, which begins with the table of program headers, then of three entries, and has
# the new code behind it.
like exit7-at-10fe0
- => $ rewrite in profile out map
     | 0 Ok moved 1 functions, 4 instructions, 16 bytes; 0 hot blocks; 0 profile lines ignored/
     | text map 120b0 4 10fe0/120b4 4 10fe4/120b8 4 10fe8/120bc 4 10fec/
     | bytes out 20 0020000000000000 | bytes out 38 0300
     | bytes out 2070 0100000005000000002000000000000000200100000000000020010000000000
     | bytes out 2090 c000000000000000c0000000000000000010000000000000 | $ verify in out map | 0 Ok faithful/
     | $ run in | 7 Ended(7) [ended 7 after 4 steps]/ | $ run out | 7 Ended(7) [ended 7 after 4 steps]/
     | $ rewrite out profile again map | 221 AlreadyMoved 1 0 0 refused 14 AlreadyMoved at 1/

# What a program may ask the system for comes behind its segments.
like exit7-below-data
- => $ rewrite in profile out map
     | 0 Ok moved 1 functions, 4 instructions, 16 bytes; 0 hot blocks; 0 profile lines ignored/
     | text map 40120b0 4 10fe0/40120b4 4 10fe4/40120b8 4 10fe8/40120bc 4 10fec/
     | $ verify in out map | 0 Ok faithful/
     | $ run in | 7 Ended(7) [ended 7 after 4 steps]/ | $ run out | 7 Ended(7) [ended 7 after 4 steps]/

# No room above: a segment on the last page, above which new code would stand behind a table of four program headers.
like exit7-at-10fe0
- segment r 2000 7ffef000 | loaded .more 7ffef000 0000000000000000
  => $ rewrite in profile out map | 221 NoRoom 7fff00e0 20 0 refused 27 NoRoom at 7fff00e0: need 20 room 0/

# A program that reads the address of its program headers from the stack keeps its run where there is room.
like headers-from-stack-at-10fd0
- => $ rewrite in profile out map
     | 0 Ok moved 1 functions, 4 instructions, 16 bytes; 0 hot blocks; 0 profile lines ignored/
     | text map 10fe0 4 10fd0/10fe4 4 10fd4/10fe8 4 10fd8/10fec 4 10fdc/
     | $ run in | 71 Ended(71) [ended 71 after 4 steps]/ | $ run out | 71 Ended(71) [ended 71 after 4 steps]/";

#[test]
fn room_for_new_code(rt: HostRuntime) -> Result<(), Fail> {
    play_rows(&rt, rt.alloc(), ROOM)
}
