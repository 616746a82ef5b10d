// Tests maps: searches, the order of lines, and the text, by the rules of the map's definitions.
use crate::valid::map_of;
use addr_map::{AddrMap, Span};
use rb_io::{MemSink, Put};
use std::alloc::Global;
use std::process::Abort;
use std::test::Fail;

fn span(out: u64, len: u8, input: u64) -> Span {
    Span { out, len, input }
}

// A jump was added after the instruction at 10078. The instructions at 10084 and 1008a were left out before their
// target at 1007c. An empty span is inside another one, and two spans have the greatest numbers.
fn spans() -> [Span; 9] {
    [
        span(0x1009c, 4, 0x1007c),
        span(0x10090, 8, 0x10078),
        span(0x1009c, 0, 0x1008a),
        span(0x10098, 4, 0x10080),
        span(0x10092, 0, 0x10070),
        span(0x1009c, 0, 0x10084),
        span(u64::MAX, 0, u64::MAX),
        span(0x100a0, 255, 0),
        span(0x101a0, 2, 0x10088),
    ]
}

const TEXT: &str = "\
10090 8 10078
10092 0 10070
10098 4 10080
1009c 0 10084
1009c 0 1008a
1009c 4 1007c
100a0 255 0
101a0 2 10088
ffffffffffffffff 0 ffffffffffffffff
";

#[test]
fn lines_ascend(rt: HostRuntime) -> Result<(), Fail> {
    let map = map_of(&rt, rt.alloc(), &spans())?;
    let mut text = Vec::new(rt.alloc());
    map.text(&mut text)?;
    assert_eq!(rt; text.as_slice(), TEXT.as_bytes());
    assert_eq!(rt; map.len(), 9);
    assert_eq!(rt; map.span(3), Some(span(0x1009c, 0, 0x10084)));
    assert_eq!(rt; map.span(9), None);
    Ok(())
}

#[test]
fn prints_the_same(rt: HostRuntime) -> Result<(), Fail> {
    let map = map_of(&rt, rt.alloc(), &spans())?;
    let mut sink = MemSink::new(rt.alloc(), 1000, Vec::new(rt.alloc()))?;
    assert_eq!(rt; map.print(&mut sink), Put::Took(TEXT.len()));
    assert_eq!(rt; sink.taken(), TEXT.as_bytes());
    let mut short = MemSink::new(rt.alloc(), 20, Vec::new(rt.alloc()))?;
    assert_eq!(rt; map.print(&mut short), Put::Failed);
    assert_eq!(rt; short.taken(), b"10090 8 10078\n10092 ".as_slice());
    Ok(())
}

#[test]
fn where_instructions_went(rt: HostRuntime) -> Result<(), Fail> {
    let map = map_of(&rt, rt.alloc(), &spans())?;
    for s in spans() {
        assert_eq!(rt; map.moved(s.input), Some(s.out));
    }
    for a in [1, 0x1006f, 0x10071, 0x1008b, u64::MAX - 1] {
        assert_eq!(rt; map.moved(a), None);
    }
    let owners = [
        (0x1008f, None),
        (0x10090, Some(0x10078)),
        (0x10091, Some(0x10078)),
        (0x10092, Some(0x10078)),
        (0x10097, Some(0x10078)),
        (0x10098, Some(0x10080)),
        (0x1009c, Some(0x1007c)),
        (0x1009f, Some(0x1007c)),
        (0x1019e, Some(0)),
        (0x1019f, None),
        (0x101a1, Some(0x10088)),
        (0x101a2, None),
        (u64::MAX, None),
    ];
    for (p, owner) in owners {
        assert_eq!(rt; map.owner(p), owner, "{p:x}");
    }
    Ok(())
}

#[test]
fn a_map_of_nothing(rt: HostRuntime) -> Result<(), Fail> {
    let map = map_of(&rt, rt.alloc(), &[])?;
    let mut text = Vec::new(rt.alloc());
    map.text(&mut text)?;
    assert_eq!(rt; text.len(), 0);
    assert_eq!(rt; map.len(), 0);
    assert_eq!(rt; map.moved(0), None);
    assert_eq!(rt; map.owner(0), None);
    Ok(())
}

// More than two full levels.
const MANY: u64 = 5000;

// Two-byte instructions in the opposite order, in four bytes each.
fn reversed(alloc: Global) -> Result<Vec<Span>, Fail> {
    let mut spans = Vec::new(alloc);
    for i in 0..MANY {
        spans.push(span(0x200000 + 4 * i, 4, 0x10000 + 2 * (MANY - 1 - i)))?;
    }
    Ok(spans)
}

#[test]
fn a_map_of_many(rt: HostRuntime) -> Result<(), Fail> {
    let map = map_of(&rt, rt.alloc(), &reversed(rt.alloc())?)?;
    for i in 0..MANY {
        let (out, input) = (0x200000 + 4 * i, 0x10000 + 2 * (MANY - 1 - i));
        assert_eq!(rt; map.moved(input), Some(out));
        assert_eq!(rt; map.moved(input + 1), None);
        assert_eq!(rt; map.owner(out), Some(input));
        assert_eq!(rt; map.owner(out + 3), Some(input));
    }
    assert_eq!(rt; map.owner(0x1fffff), None);
    assert_eq!(rt; map.owner(0x200000 + 4 * MANY), None);
    Ok(())
}

#[test]
fn a_text_of_many(rt: HostRuntime) -> Result<(), Fail> {
    let map = map_of(&rt, rt.alloc(), &reversed(rt.alloc())?)?;
    let mut text = Vec::new(rt.alloc());
    map.text(&mut text)?;
    // Each line has 6, 1 and 5 digits, two blanks and a line feed.
    assert_eq!(rt; text.len(), 5000 * 15);
    assert_eq!(rt;
        text.as_slice().get(..30),
        Some(b"200000 4 1270e\n200004 4 1270c\n".as_slice())
    );
    assert_eq!(rt;
        text.as_slice().get(64 * 15..65 * 15),
        Some(b"200100 4 1268e\n".as_slice())
    );
    assert_eq!(rt;
        text.as_slice().get(4999 * 15..),
        Some(b"204e1c 4 10000\n".as_slice())
    );
    Ok(())
}
