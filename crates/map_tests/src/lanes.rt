// Tests ranks and marks at each length around that of a vector and of a 64-bit number.
use rb_lanes::{length_marks, rank};
use std::test::Fail;

// More marks than two 64-bit numbers hold.
const LONGEST: usize = 130;

#[test]
fn ranks_in_even_numbers(rt: HostRuntime) -> Result<(), Fail> {
    let mut evens = Vec::new(rt.alloc());
    for n in 0..=LONGEST {
        for x in 0..2 * n {
            assert_eq!(rt; rank(&evens, x as u64), x / 2 + 1, "{x} among {n}");
        }
        assert_eq!(rt; rank(&evens, u64::MAX), n);
        evens.push(2 * n as u64)?;
    }
    Ok(())
}

#[test]
fn ranks_among_equals(rt: HostRuntime) -> Result<(), Fail> {
    let mut low = Vec::new(rt.alloc());
    let mut high = Vec::new(rt.alloc());
    for n in 0..=LONGEST {
        assert_eq!(rt; rank(&low, 0), n);
        assert_eq!(rt; rank(&high, u64::MAX), n);
        assert_eq!(rt; rank(&high, u64::MAX - 1), 0);
        assert_eq!(rt; rank(&high, 0), 0);
        low.push(0)?;
        high.push(u64::MAX)?;
    }
    Ok(())
}

// Every third halfword begins a long instruction. The others end in the other pairs of bits.
fn halfword(i: usize) -> u16 {
    match i % 3 {
        0 => 0xfff3,
        1 => 0xfffe,
        _ => 0x0001,
    }
}

#[test]
fn marks_of_every_length(rt: HostRuntime) -> Result<(), Fail> {
    let mut halves = Vec::new(rt.alloc());
    for n in 0..=LONGEST {
        let mut marks = [u64::MAX; 4];
        if halves.len() <= 256 {
            length_marks(&halves, &mut marks);
        }
        for i in 0..256 {
            let marked = marks[i / 64] >> (i % 64) & 1 == 1;
            assert_eq!(rt; marked, i < n && i % 3 == 0, "halfword {i} of {n}");
        }
        halves.push(halfword(n))?;
    }
    Ok(())
}
