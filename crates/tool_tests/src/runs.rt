// Runs on both machines: their ends, and profiles of runs.
use crate::sessions::play_rows;
use std::test::Fail;

const ENDINGS: &str = "\
# Programs that end, and one that is given too few steps.
like greeting
- => $ run in | 0 Ended(0) hi[ended 0 after 9 steps]/

# 13 steps.
like countdown
- => $ run --steps 14 in | 0 Ended(0) [ended 0 after 13 steps]/
- => $ run --steps 13 in | 0 Ended(0) [ended 0 after 13 steps]/
- => $ run --steps 12 in | 226 OutOfSteps [out of steps after 12 steps]/
- => $ run --steps 1 in | 226 OutOfSteps [out of steps after 1 steps]/
- => $ run --steps 0 in | 226 OutOfSteps [out of steps after 0 steps]/

# Traps.
- code .text 10078 ld a0,0(zero) => $ run in | 225 Trapped 10078 Load [trapped Load at 10078 after 0 steps]/
- code .text 10078 nop; sd a0,0(zero) => $ run in | 225 Trapped 1007c Store [trapped Store at 1007c after 1 steps]/
- code .text 10078 jalr zero,0(zero) => $ run in | 225 Trapped 0 Fetch [trapped Fetch at 0 after 1 steps]/
- code .text 10078 ebreak => $ run in | 225 Trapped 10078 Break [trapped Break at 10078 after 0 steps]/
- code .text 10078 .word 00000000 => $ run in | 225 Trapped 10078 Illegal [trapped Illegal at 10078 after 0 steps]/

# A long program.
- code .text 10078 .rept 249997 nop; exit => $ run in | 0 Ended(0) [ended 0 after 249999 steps]/

# A program that copies its input byte by byte.
code .text 10078 addi sp,sp,-16; addi a0,zero,0; addi a1,sp,0; addi a2,zero,1; addi a7,zero,63; ecall; beq a0,zero,20; \
addi a0,zero,1; addi a7,zero,64; ecall; jal zero,-36; exit
input abc
- => $ run in | 0 Ended(0) abc[ended 0 after 39 steps]/

# Files that are refused.
like exit7
- size 0 => $ run in | 221 NotElf 0 0 0 refused 1 NotElf at 0/
- size 3f => $ run in | 221 Truncated 0 0 0 refused 2 Truncated at 0/";

#[test]
fn runs_end(rt: HostRuntime) -> Result<(), Fail> {
    play_rows(&rt, rt.alloc(), ENDINGS)
}

const ON_SYMBOLS: &str = "\
# Programs that end alike on the symbol machine and on the byte machine.
- like exit7 => $ run in | 7 Ended(7) [ended 7 after 4 steps]/
     | $ run --symbols in | 7 Ended(7) [ended 7 after 4 steps]/
- like greeting => $ run --symbols in | 0 Ended(0) hi[ended 0 after 9 steps]/
- like countdown => $ run --symbols in | 0 Ended(0) [ended 0 after 13 steps]/
- like switch-by-distances
  => $ run in | 0 Ended(0) [ended 0 after 7 steps]/ | $ run --symbols in | 0 Ended(0) [ended 0 after 7 steps]/
- like switch-by-addresses
  => $ run in | 0 Ended(0) [ended 0 after 5 steps]/ | $ run --symbols in | 0 Ended(0) [ended 0 after 5 steps]/
- like call => $ run in | 0 Ended(0) [ended 0 after 4 steps]/ | $ run --symbols in | 0 Ended(0) [ended 0 after 4 steps]/
- like falling => $ run in | 4 Ended(4) [ended 4 after 3 steps]/
     | $ run --symbols in | 4 Ended(4) [ended 4 after 3 steps]/
- like addresses-in-data
  => $ run in | 0 Ended(0) [ended 0 after 7 steps]/ | $ run --symbols in | 0 Ended(0) [ended 0 after 7 steps]/
- like address-in-pieces
  => $ run in | 0 Ended(0) [ended 0 after 9 steps]/ | $ run --symbols in | 0 Ended(0) [ended 0 after 9 steps]/
- like addresses-that-differ
  => $ run in | 0 Ended(0) [ended 0 after 8 steps]/ | $ run --symbols in | 0 Ended(0) [ended 0 after 8 steps]/
- like addresses-that-are-equal
  => $ run in | 1 Ended(1) [ended 1 after 8 steps]/ | $ run --symbols in | 1 Ended(1) [ended 1 after 8 steps]/

# With another segment behind the code, and no room for new code.
- like exit7-at-10fe0
  => $ run in | 7 Ended(7) [ended 7 after 4 steps]/ | $ run --symbols in | 7 Ended(7) [ended 7 after 4 steps]/
- like exit7-below-data
  => $ run in | 7 Ended(7) [ended 7 after 4 steps]/ | $ run --symbols in | 7 Ended(7) [ended 7 after 4 steps]/

# A pointer is added to.
- like address-added-to => $ run in | 0 Ended(0) [ended 0 after 6 steps]/
     | $ run --symbols in | 227 Stuck 10080 Operate [stuck Operate at 10080 after 2 steps]/

# What a rewriting changes is hidden: in a file without room for new code behind the old one, the table of program
# headers is to move.
- like headers-from-stack-at-10fd0
  => $ run in | 71 Ended(71) [ended 71 after 4 steps]/ | $ run --symbols in | 71 Ended(71) [ended 71 after 4 steps]/
- like headers-from-stack-at-10fe0 => $ run in | 71 Ended(71) [ended 71 after 4 steps]/
     | $ run --symbols in | 227 Stuck 10fe0 Hidden [stuck Hidden at 10fe0 after 0 steps]/";

#[test]
fn runs_on_symbols(rt: HostRuntime) -> Result<(), Fail> {
    play_rows(&rt, rt.alloc(), ON_SYMBOLS)
}

const RECORDINGS: &str = "\
# A loop, and four steps of it: the last one goes back to 1007c.
like countdown
- => $ record in out | 0 Ended(0) [ended 0 after 13 steps]/
     | text out 1 @10078 0 1 @10078 4 0 1/1 @10078 4 1 @10078 8 0 3/1 @10078 4 1 @10078 10 0 1/1 @10078 c 1 @10078 4 0 \
3/
- => $ record in --steps=4 out word | 226 OutOfSteps [out of steps after 4 steps]/
     | text out 1 @10078 0 1 @10078 4 0 1/1 @10078 4 1 @10078 8 0 1/1 @10078 c 1 @10078 4 0 1/

# A call of 10084, which goes back to 1007c.
code .text 10078 jal ra,12; exit; addi a0,zero,1; jalr zero,0(ra)
- => $ record in out | 1 Ended(1) [ended 1 after 5 steps]/
     | text out 1 @10078 0 1 @10078 c 0 1/1 @10078 10 1 @10078 4 0 1/

# A jump to the next instruction, and one out of the code, which is not counted. The step after it traps.
code .text 10078 jal zero,4; jalr zero,256(zero)
- => $ record in out | 225 Trapped 100 Fetch [trapped Fetch at 100 after 2 steps]/
     | text out 1 @10078 0 1 @10078 4 0 1/";

#[test]
fn runs_are_recorded(rt: HostRuntime) -> Result<(), Fail> {
    play_rows(&rt, rt.alloc(), RECORDINGS)
}
