// Sample programs, and the answers of files' tables at an address.
use crate::sessions::play_rows;
use std::test::Fail;

const SAMPLES: &str = "\
# The third sample: f0 adds 5 to 0, f1 adds 3 and f2 adds 5. Its second line begins at 11010, its third at 11018.
like exit7
- => $ sample 3 out map | 0 Ok sample 3/
     | text map 1 f0 c 1 f0 18 0 1/1 f0 18 1 f0 1c 0 1/1 f0 20 1 f1 0 0 1/1 f1 c 1 f1 10 0 1/1 f1 14 1 f1 1c 0 1/\
1 f1 20 1 f2 0 0 1/1 f2 c 1 f2 18 0 1/1 f2 18 1 f2 1c 0 1/1 _start 8 1 f0 0 0 1/
     | $ run out | 13 Ended(13) [ended 13 after 36 steps]/
     | $ run --symbols out | 13 Ended(13) [ended 13 after 36 steps]/
     | $ lookup out 11010
     | 0 Ok line /s/sample.c:2:0 stmt/covers c/covers 2a/places 2a 40 9c/unwind cfa r2+16 ra r1 r1=[cfa-8]/
     | $ lookup out 0x1101A
     | 0 Ok line /s/sample.c:3:0 stmt/covers c/covers 2a/places 2a 40 9c/unwind cfa r2+16 ra r1 r1=[cfa-8]/
     | $ lookup out 0 | 0 Ok none/

# The first one, as its run is recorded.
like exit7
- => $ sample 0001 out map | 0 Ok sample 1/ | $ record out map | 5 Ended(5) [ended 5 after 15 steps]/
     | text map 1 @11000 c 1 @11000 18 0 1/1 @11000 18 1 @11000 1c 0 1/1 @11000 2c 1 @11030 c 0 1/1 @11030 8 1 @11000 \
0 0 1/";

#[test]
fn samples_are_made(rt: HostRuntime) -> Result<(), Fail> {
    play_rows(&rt, rt.alloc(), SAMPLES)
}

const LOOKED_UP: &str = "\
# A file without tables.
like exit7
- => $ lookup in 10078 | 0 Ok none/

# Faults of the third sample's tables, for which it isn't rewritten either: version 2 of the common entry of frames;
# version 4 of the unit of entries; form 2d of a name, and form 0f of an end, in the second declaration, at d; a unit
# longer by 1; and lines in 0 steps.
like exit7
- => $ sample 3 out map | patch out 10b0 02 | $ lookup out 11010 | 221 FrameFault 0 0 0 refused 21 FrameFault at 0/
     | $ rewrite out map moved spans | 221 FrameFault 0 0 0 refused 21 FrameFault at 0/ | none moved
- => $ sample 3 out map | patch out 20c7 04 | $ lookup out 11010 | 221 DwarfVersion 0 0 0 refused 22 DwarfVersion at 0/
     | $ rewrite out map moved spans | 221 DwarfVersion 0 0 0 refused 22 DwarfVersion at 0/ | none moved
- => $ sample 3 out map | patch out 20b9 2d | $ lookup out 11010 | 221 DwarfForm d 0 0 refused 23 DwarfForm at d/
     | $ rewrite out map moved spans | 221 DwarfForm d 0 0 refused 23 DwarfForm at d/ | none moved
- => $ sample 3 out map | patch out 20bd 0f | $ lookup out 11010 | 221 HighPcForm d 0 0 refused 24 HighPcForm at d/
     | $ rewrite out map moved spans | 221 HighPcForm d 0 0 refused 24 HighPcForm at d/ | none moved
- => $ sample 3 out map | patch out 20c3 6a | $ lookup out 11010 | 221 DwarfFault 0 0 0 refused 25 DwarfFault at 0/
     | $ rewrite out map moved spans | 221 DwarfFault 0 0 0 refused 25 DwarfFault at 0/ | none moved
- => $ sample 3 out map | patch out 2140 00 | $ lookup out 11010 | 221 LineFault 0 0 0 refused 26 LineFault at 0/
     | $ rewrite out map moved spans | 221 LineFault 0 0 0 refused 26 LineFault at 0/ | none moved";

#[test]
fn addresses_are_looked_up(rt: HostRuntime) -> Result<(), Fail> {
    play_rows(&rt, rt.alloc(), LOOKED_UP)
}
