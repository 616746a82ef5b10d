// Tests the decoder against GNU binutils.
use crate::instruction_table::full::FULL;
use crate::instruction_table::half::HALF;
use rv_decode::decode;
use std::alloc::AllocError;
use std::process::Abort;

// Two-byte instructions are decoded without a next halfword, and four-byte ones aren't.
fn check_table(rt: &(impl Abort + AllocGlobal), table: &str) -> Result<(), AllocError> {
    for line in table.lines() {
        let Some((digits, meaning)) = line.split_once(' ') else {
            assert!(rt; false, "no meaning: {line}");
            continue;
        };
        let Ok(word) = u32::from_str_radix(digits, 16) else {
            assert!(rt; false, "no number: {line}");
            continue;
        };
        let half = (word % 65536) as u16;
        let upper = (word / 65536) as u16;
        let bytes = digits.len() / 2;
        let next = if bytes == 4 { Some(upper) } else { None };
        match decode(half, next) {
            Some((inst, len)) => {
                let shown = format!(in rt.alloc(); "{inst:?}")?;
                assert_eq!(rt; shown.as_str(), meaning, "{line}");
                assert_eq!(rt; usize::from(len), bytes, "{line}");
            }
            None => assert_eq!(rt; "none", meaning, "{line}"),
        }
        if bytes == 4 {
            assert!(rt; decode(half, None).is_none(), "{line}");
        }
    }
    Ok(())
}

#[test]
fn four_bytes_decode(rt: HostRuntime) -> Result<(), AllocError> {
    check_table(&rt, FULL)
}

#[test]
fn two_bytes_decode(rt: HostRuntime) -> Result<(), AllocError> {
    check_table(&rt, HALF)
}
