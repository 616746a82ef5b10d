// Debug tables of rewritten programs: their answers for moved code, as `lookup` prints them.
use crate::sessions::play_rows;
use std::test::Fail;

// In each row the new code begins at 10090: 8 bytes of 10078, 4 of the third instruction at 10080, 4 of the second one
// at 1007c, and 8 of the last two at 10088. The jump back at 10084 is left out.
const COVERED: &str = "\
# The loop with a unit from 10078 to 10090, and a block in it of 8 bytes from 10080 on. Entries are at c and 19; both
# have a DW_AT_low_pc, and a DW_AT_high_pc in DW_FORM_data4.
like countdown
profile 1 @10078 c 1 @10078 4 0 3
profile 1 @10078 4 1 @10078 10 0 1
unloaded .debug_abbrev 0 011101110112060000020b0011011206000000
unloaded .debug_info 0 230000000500010800000000017800010000000000180000000280000100000000000800000000
- => $ rewrite in profile out map
     | 0 Ok moved 1 functions, 6 instructions, 24 bytes; 3 hot blocks; 0 profile lines ignored/
     | text map 10090 8 10078/10098 4 10080/1009c 0 10084/1009c 4 1007c/100a0 4 10088/100a4 4 1008c/
     | $ lookup out 1008f | 0 Ok none/
     | $ lookup out 10090 | 0 Ok covers c/ | $ lookup out 10097 | 0 Ok covers c/
     | $ lookup out 10098 | 0 Ok covers c/covers 19/ | $ lookup out 1009b | 0 Ok covers c/covers 19/
     | $ lookup out 1009c | 0 Ok covers c/ | $ lookup out 100a7 | 0 Ok covers c/ | $ lookup out 100a8 | 0 Ok none/
     | $ verify in out map | 0 Ok faithful/ | $ run out | 0 Ended(0) [ended 0 after 11 steps]/

# The same, where both starts are in DW_FORM_addrx, with DW_AT_addr_base 8 in the unit's entry. The second is at 16.
like countdown
profile 1 @10078 c 1 @10078 4 0 3
profile 1 @10078 4 1 @10078 10 0 1
unloaded .debug_abbrev 0 0111017317111b12060000020b00111b1206000000
unloaded .debug_info 0 1900000005000108000000000108000000001800000002010800000000
unloaded .debug_addr 0 140000000500080078000100000000008000010000000000
- => $ rewrite in profile out map
     | 0 Ok moved 1 functions, 6 instructions, 24 bytes; 3 hot blocks; 0 profile lines ignored/
     | $ lookup out 1008f | 0 Ok none/
     | $ lookup out 10090 | 0 Ok covers c/ | $ lookup out 10097 | 0 Ok covers c/
     | $ lookup out 10098 | 0 Ok covers c/covers 16/ | $ lookup out 1009b | 0 Ok covers c/covers 16/
     | $ lookup out 1009c | 0 Ok covers c/ | $ lookup out 100a7 | 0 Ok covers c/ | $ lookup out 100a8 | 0 Ok none/

# The same, where the block's end is in DW_FORM_udata, by the second declaration, at 9.
like countdown
unloaded .debug_abbrev 0 011101110112060000020b001101120f000000
unloaded .debug_info 0 200000000500010800000000017800010000000000180000000280000100000000000800
- => $ rewrite in profile out map | 221 HighPcForm 9 0 0 refused 24 HighPcForm at 9/ | none out | none map
     | $ map in profile | 221 HighPcForm 9 0 0 refused 24 HighPcForm at 9/

# A variable at 26 in the block of the first, by a list at c: DW_OP_reg0 up to 10084, and DW_OP_reg1 elsewhere.
like countdown
profile 1 @10078 c 1 @10078 4 0 3
profile 1 @10078 4 1 @10078 10 0 1
unloaded .debug_abbrev 0 011101110112060000020b011101120600000334000217000000
unloaded .debug_info 0 2900000005000108000000000178000100000000001800000002800001000000000008000000030c0000000000
unloaded .debug_loclists 0 11000000050008000000000004000c015005015100
- => $ lookup in 10083 | 0 Ok covers c/covers 19/places 26 2 50/
     | $ lookup in 10084 | 0 Ok covers c/covers 19/places 26 2 51/
     | $ rewrite in profile out map
     | 0 Ok moved 1 functions, 6 instructions, 24 bytes; 3 hot blocks; 0 profile lines ignored/
     | $ lookup out 10097 | 0 Ok covers c/ | $ lookup out 10098 | 0 Ok covers c/covers 19/places 26 2 50/
     | $ lookup out 1009b | 0 Ok covers c/covers 19/places 26 2 50/ | $ lookup out 1009c | 0 Ok covers c/

# Three entries, at d, 12 and 17, that name one list of the 8 bytes from 10080 on. The output has it once, and all three
# name it.
like countdown
profile 1 @10078 c 1 @10078 4 0 3
profile 1 @10078 4 1 @10078 10 0 1
unloaded .debug_abbrev 0 0111010000022e005517000000
unloaded .debug_info 0 19000000050001080000000001020c000000020c000000020c00000000
unloaded .debug_rnglists 0 1000000005000800000000000480810488810400
- => $ rewrite in profile out map
     | 0 Ok moved 1 functions, 6 instructions, 24 bytes; 3 hot blocks; 0 profile lines ignored/
     | bytes out b5 19000000050001080000000001020c000000020c000000020c000000001300000005000800000000000798000100000000\
000400
     | $ lookup out 10097 | 0 Ok none/ | $ lookup out 10098 | 0 Ok covers d/covers 12/covers 17/
     | $ lookup out 1009b | 0 Ok covers d/covers 12/covers 17/ | $ lookup out 1009c | 0 Ok none/

# Three variables, at 19, 1e and 23, that name one list: DW_OP_reg0 in the 8 bytes from 10080 on. The output has it
# once, and all three name it. Their unit's end becomes a list of ranges, at c too, and its start is 0.
like countdown
profile 1 @10078 c 1 @10078 4 0 3
profile 1 @10078 4 1 @10078 10 0 1
unloaded .debug_abbrev 0 0111011101120600000234000217000000
unloaded .debug_info 0 25000000050001080000000001780001000000000018000000020c000000020c000000020c00000000
unloaded .debug_loclists 0 0e0000000500080000000000040810015000
- => $ lookup in 10080 | 0 Ok covers c/places 19 2 50/places 1e 2 50/places 23 2 50/
     | $ rewrite in profile out map
     | 0 Ok moved 1 functions, 6 instructions, 24 bytes; 3 hot blocks; 0 profile lines ignored/
     | bytes out b9 2500000005000108000000000100000000000000000c000000020c000000020c000000020c000000001500000005000800\
0000000008980001000000000004015000
     | $ lookup out 10097 | 0 Ok covers c/
     | $ lookup out 10098 | 0 Ok covers c/places 19 2 50/places 1e 2 50/places 23 2 50/
     | $ lookup out 1009c | 0 Ok covers c/";

#[test]
fn ranges_and_locations_move(rt: HostRuntime) -> Result<(), Fail> {
    play_rows(&rt, rt.alloc(), COVERED)
}

const SAMPLES: &str = "\
# The third sample: its line 2 went from 11010 to 111dc, and its frame entry for that begins with the whole row.
like exit7
- => $ sample 3 out map | $ rewrite out map moved spans
     | 0 Ok moved 4 functions, 41 instructions, 164 bytes; 10 hot blocks; 0 profile lines ignored/
     | starts spans 11150 4 11090/ | ends spans /111dc 4 11010/111e0 4 11014/111e4 8 11048/111ec 4 11070/111f0 4 11074/
     | $ run out | 13 Ended(13) [ended 13 after 36 steps]/
     | $ run --symbols out | 13 Ended(13) [ended 13 after 36 steps]/
     | $ run moved | 13 Ended(13) [ended 13 after 35 steps]/
     | $ lookup moved 111dc
     | 0 Ok line /s/sample.c:2:0 stmt/covers c/covers 2a/places 2a 40 9c/unwind cfa r2+16 ra r1 r1=[cfa-8]/
     | $ lookup moved 11150 | 0 Ok line /s/sample.c:31:0 stmt/covers c/
     | $ verify out moved spans | 0 Ok faithful/

# The hundredth one.
like exit7
room files 20000
- => $ sample 100 out map | $ rewrite out map moved spans
     | 0 Ok moved 101 functions, 1205 instructions, 4820 bytes; 301 hot blocks; 0 profile lines ignored/
     | $ run out | 144 Ended(144) [ended 144 after 1055 steps]/
     | $ run moved | 144 Ended(144) [ended 144 after 1005 steps]/
     | $ verify out moved spans | 0 Ok faithful/

# The third one, where f0 is called `__register_frame`, by a table of names in place of lines, and nothing names the
# unwind table.
like exit7
- => $ sample 3 out map | patch out b0 00000000
     | patch out 2130 005f5f72656769737465725f6672616d65006631006632005f737461727400
     | patch out 21f0 12 | patch out 2208 15 | patch out 2220 18 | patch out 25a0 3021 | patch out 25a8 1f
     | $ rewrite out map moved spans | 221 RegisteredFrames 110a8 0 0 refused 20 RegisteredFrames at 110a8/
     | none moved | none spans";

#[test]
fn samples_are_rewritten(rt: HostRuntime) -> Result<(), Fail> {
    play_rows(&rt, rt.alloc(), SAMPLES)
}
