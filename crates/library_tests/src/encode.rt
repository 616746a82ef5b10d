// Tests the encoder with one instruction of each width, and some that have no encoding.
use rv_code::{Inst, Width};
use rv_encode::{Word, encode};

// ISA manual, sections 2.5 and 26.4: the range of JAL and C.J.
#[test]
fn encodes_jumps(rt: HostRuntime) {
    for (rd, imm, half, full) in [
        (
            0,
            2046,
            Some(Word::Half(0xaffd)),
            Some(Word::Full(0x7fe0_006f)),
        ),
        (
            0,
            -2048,
            Some(Word::Half(0xb001)),
            Some(Word::Full(0x801f_f06f)),
        ),
        (0, 2048, None, Some(Word::Full(0x0010_006f))),
        (1, 2046, None, Some(Word::Full(0x7fe0_00ef))),
        (0, 3, None, None),
        (0, 1048574, None, Some(Word::Full(0x7fff_f06f))),
        (0, 1048576, None, None),
        (32, 0, None, None),
    ] {
        let inst = Inst::Jal { rd, imm };
        assert_eq!(rt; encode(&inst, Width::Half), half, "{inst:?}");
        assert_eq!(rt; encode(&inst, Width::Full), full, "{inst:?}");
    }
}
