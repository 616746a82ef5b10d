// Functions that call one another in a row: they are split by the profiles of their runs, and run on both machines.
use crate::sessions::{files_with, play};
use rb_io::MemFiles;
use std::alloc::Global;
use std::process::Abort;
use std::test::Fail;
use test_files::samples::{
    HUNDRED_FUNCTIONS, ONE_FUNCTION, Sample, THREE_FUNCTIONS, sample_in_words,
};
use test_files::words::file_in_words;

// Plays a session with a sample, and returns the files after it.
fn play_sample(
    rt: &impl Abort,
    alloc: Global,
    sample: &Sample,
    session: &str,
) -> Result<MemFiles, Fail> {
    let words = sample_in_words(alloc, sample)?;
    let mut files = files_with(alloc, &words, file_in_words(alloc, &words)?)?;
    play(rt, alloc, &mut files, session, session)?;
    Ok(files)
}

#[test]
fn one_function_is_run_and_recorded(rt: HostRuntime) -> Result<(), Fail> {
    let session = "\
$ run in | 5 Ended(5) [ended 5 after 15 steps]/ \
| $ run --symbols in | 5 Ended(5) [ended 5 after 15 steps]/ \
| $ record in out | 5 Ended(5) [ended 5 after 15 steps]/ \
| text out 1 @11000 c 1 @11000 18 0 1/1 @11000 18 1 @11000 1c 0 1/1 @11000 2c 1 @11030 c 0 1/1 @11030 8 1 @11000 0 0 \
1/ \
| $ repair in out map | 0 Ok price 11000 0/price 11010 0/price 11018 0/price 1101c 0/link - 11000 1 1/\
link 11000 11010 0 0/link 11000 11018 1 1/link 11010 1101c 0 0/link 11018 1101c 1 1/link 1101c - 1 1/\
8 links, total change 0/ \
| text map 1 @11000 c 1 @11000 18 0 1/1 @11000 18 1 @11000 1c 0 1/1 @11000 2c 1 @11030 c 0 1/1 @11030 8 1 @11000 0 0 \
1/";
    play_sample(&rt, rt.alloc(), &ONE_FUNCTION, session)?;
    Ok(())
}

// The entry point, then the hot part of each function, and then the cold parts.
const THREE_FUNCTIONS_MAP: &[u8] = b"\
11150 4 11090
11154 4 11094
11158 4 11098
1115c 4 1109c
11160 4 110a0
11164 4 11000
11168 4 11004
1116c 4 11008
11170 4 1100c
11174 4 11018
11178 4 1101c
1117c 4 11020
11180 4 11024
11184 4 11028
11188 4 1102c
1118c 4 11030
11190 4 11034
11194 4 11038
11198 4 1103c
1119c 4 11040
111a0 0 11044
111a0 4 1104c
111a4 4 11050
111a8 4 11054
111ac 4 11058
111b0 4 1105c
111b4 4 11060
111b8 4 11064
111bc 4 11068
111c0 4 1106c
111c4 4 11078
111c8 4 1107c
111cc 4 11080
111d0 4 11084
111d4 4 11088
111d8 4 1108c
111dc 4 11010
111e0 4 11014
111e4 8 11048
111ec 4 11070
111f0 4 11074
";

// Callers come before the functions that they call, and the cold parts of functions after all hot code.
#[test]
fn three_functions_are_split(rt: HostRuntime) -> Result<(), Fail> {
    let session = "\
$ rewrite in profile out map \
| 0 Ok moved 4 functions, 41 instructions, 164 bytes; 10 hot blocks; 0 profile lines ignored/ \
| $ verify in out map | 0 Ok faithful/ \
| $ run in | 13 Ended(13) [ended 13 after 36 steps]/ \
| $ run --symbols in | 13 Ended(13) [ended 13 after 36 steps]/ \
| $ run out | 13 Ended(13) [ended 13 after 35 steps]/";
    let files = play_sample(&rt, rt.alloc(), &THREE_FUNCTIONS, session)?;
    assert_eq!(rt; files.content("map").ok_or("no map")?, THREE_FUNCTIONS_MAP);
    Ok(())
}

#[test]
fn a_hundred_functions_are_split(rt: HostRuntime) -> Result<(), Fail> {
    let session = "\
$ rewrite in profile out map \
| 0 Ok moved 101 functions, 1205 instructions, 4820 bytes; 301 hot blocks; 0 profile lines ignored/ \
| starts map 132a0 4 122c0/132a4 4 122c4/132a8 4 122c8/132ac 4 122cc/132b0 4 122d0/132b4 4 11000/ \
| ends map /1455c 8 12248/14564 4 12270/14568 4 12274/1456c 8 122a8/ \
| $ verify in out map | 0 Ok faithful/ \
| $ run in | 144 Ended(144) [ended 144 after 1055 steps]/ \
| $ run out | 144 Ended(144) [ended 144 after 1005 steps]/";
    play_sample(&rt, rt.alloc(), &HUNDRED_FUNCTIONS, session)?;
    Ok(())
}
