// The functions that contain an address, including inlined ones.
use crate::sessions::play_rows;
use std::test::Fail;

const FRAMES: &str = "\
# The third sample: the second line of f0, also where that went, and an address without code. Frame tables aren't asked:
# the common entry of the second file has version 2. The unit of the third has version 4, and lines of the last go in 0
# steps.
like exit7
- => $ sample 3 out map | $ frames out 11010 | 0 Ok f0 /s/sample.c:2:0/ | $ frames out 0 | 0 Ok none/
     | $ rewrite out map moved spans | $ frames moved 111dc | 0 Ok f0 /s/sample.c:2:0/
- => $ sample 3 out map | patch out 10b0 02 | $ frames out 0x11018 | 0 Ok f0 /s/sample.c:3:0/
- => $ sample 3 out map | patch out 20c7 04 | $ frames out 11010 | 221 DwarfVersion 0 0 0 refused 22 DwarfVersion at 0/
- => $ sample 3 out map | patch out 2140 00 | $ frames out 11010 | 221 LineFault 0 0 0 refused 26 LineFault at 0/

# A loop with three lines, the second of them 20. Its unit has `step`, which has no code of its own, and `main` over all
# code; in that a call of `step`, in file 1, line 7, column 3, stands for the second line's code.
like countdown
unloaded .debug_line 0 4c0000000500080029000000010101fb0e0d000101010100000001000001010108012f7300020108020b02612e630000\
612e63000000090278000100000000000102080313010208036f010208000101
unloaded .debug_abbrev 0 0111011017110112060000022e0003080000032e010308110112060000041d00311311011206580b590b570b000000
unloaded .debug_info 0 4700000005000108000000000100000000780001000000000018000000027374657000036d61696e0078000100000000\
0018000000041d0000008000010000000000080000000107030000
- => $ frames in 10078 | 0 Ok main /s/a.c:1:0/ | $ frames in 10080 | 0 Ok step /s/a.c:20:0/main /s/a.c:7:3/
     | $ frames in 10087 | 0 Ok step /s/a.c:20:0/main /s/a.c:7:3/ | $ frames in 10088 | 0 Ok main /s/a.c:3:0/
     | $ frames in 10090 | 0 Ok none/
- profile 1 @10078 c 1 @10078 4 0 3
  profile 1 @10078 4 1 @10078 10 0 1
  => $ rewrite in profile out map | $ frames out 10098 | 0 Ok step /s/a.c:20:0/main /s/a.c:7:3/
     | $ frames out 1009c | 0 Ok main /s/a.c:1:0/ | $ frames out 10080 | 0 Ok none/
- fail files 1 => $ frames in 10080 | 222 ReadFault
- room printed 9 => $ frames in 10080 | 223 WriteFault step /s/a";

#[test]
fn functions_of_addresses(rt: HostRuntime) -> Result<(), Fail> {
    play_rows(&rt, rt.alloc(), FRAMES)
}
