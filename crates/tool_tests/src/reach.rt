// Branches whose targets move away: the shortest form that reaches is taken. Functions of the greatest size.
use crate::sessions::play_rows;
use std::test::Fail;

const REACH: &str = "\
# A branch of two bytes over one instruction, that was taken once, reaches 254 bytes far: C.BEQZ a0,254; C.NOP and JAL
# x0,-254.
flags 1
profile 1 @10078 0 1 @10078 4 0 1
- code .text 10078 .half e111; .rept 123 .half 0001; exit
  => $ rewrite in profile out map
     | 0 Ok moved 1 functions, 126 instructions, 260 bytes; 2 hot blocks; 0 profile lines ignored/
     | starts map 10180 2 10078/ | ends map /1027e 6 1007a/ | bytes out 180 7dcd | bytes out 27e 01006ff03ff0
     | $ run in | 0 Ended(0) [ended 0 after 126 steps]/ | $ run out | 0 Ended(0) [ended 0 after 127 steps]/

# One of four bytes is wanted: BEQ a0,x0,258; C.NOP and JAL x0,-256.
flags 1
profile 1 @10078 0 1 @10078 4 0 1
- code .text 10078 .half e111; .rept 124 .half 0001; exit
  => $ rewrite in profile out map
     | 0 Ok moved 1 functions, 127 instructions, 264 bytes; 2 hot blocks; 0 profile lines ignored/
     | starts map 10180 4 10078/ | ends map /10282 6 1007a/ | bytes out 180 63010510 | bytes out 282 01006ff01ff0
     | $ run in | 0 Ended(0) [ended 0 after 127 steps]/ | $ run out | 0 Ended(0) [ended 0 after 128 steps]/

# The branch of four bytes reaches 4094 bytes far: BEQ a0,x0,4094.
flags 1
profile 1 @10078 0 1 @10078 6 0 1
- code .text 10078 bne a0,zero,6; .rept 2042 .half 0001; exit
  => $ rewrite in profile out map
     | 0 Ok moved 1 functions, 2045 instructions, 4100 bytes; 2 hot blocks; 0 profile lines ignored/
     | starts map 11080 4 10078/ | ends map /1207e 6 1007c/ | bytes out 1080 e30f057e
     | $ run in | 0 Ended(0) [ended 0 after 2045 steps]/ | $ run out | 0 Ended(0) [ended 0 after 2046 steps]/

# A branch around a jump is wanted: BNE a0,x0,8; JAL x0,4096.
flags 1
profile 1 @10078 0 1 @10078 6 0 1
- code .text 10078 bne a0,zero,6; .rept 2043 .half 0001; exit
  => $ rewrite in profile out map
     | 0 Ok moved 1 functions, 2046 instructions, 4106 bytes; 2 hot blocks; 0 profile lines ignored/
     | starts map 11080 8 10078/ | ends map /12084 6 1007c/ | bytes out 1080 631405006f100000
     | $ run in | 0 Ended(0) [ended 0 after 2046 steps]/ | $ run out | 0 Ended(0) [ended 0 after 2048 steps]/";

#[test]
fn branches_reach(rt: HostRuntime) -> Result<(), Fail> {
    play_rows(&rt, rt.alloc(), REACH)
}

const LONG_FUNCTIONS: &str = "\
# A function of 999,996 bytes may fall, which takes 4 more; and one that is too long.
room files 800000
- code .text 10078 .rept 249997 nop; exit
  => $ rewrite in profile out map
     | 0 Ok moved 1 functions, 249999 instructions, 999996 bytes; 0 hot blocks; 0 profile lines ignored/
     | starts map 1042c0 4 10078/ | ends map /1f84f8 4 1042b0/
     | $ run in | 0 Ended(0) [ended 0 after 249999 steps]/ | $ run out | 0 Ended(0) [ended 0 after 249999 steps]/
- code .text 10078 .rept 249998 nop; exit
  => $ rewrite in profile out map | 221 UnitTooLong 10078 0 0 refused 18 UnitTooLong at 10078/";

#[test]
fn long_functions(rt: HostRuntime) -> Result<(), Fail> {
    play_rows(&rt, rt.alloc(), LONG_FUNCTIONS)
}
