// The kinds of frames: one CIE is written for each.
ghost use Rattle.std.specs.Prelude.{◌≡◌, ◌<◌, ◌^◌};
ghost use Rattle.frame_rewrite.specs.SpelledFrames.{key_of, has_handler, has_data};

use crate::answer::FrameAt;
use addr_map::AddrMap;

/// What the CIE of a written entry says: the register with the return address, the new address of the handler and
/// whether that is indirect, and whether the frame is one of a signal handler.
#[derive(Clone, Copy, PartialEq, Eq, PartialOrd, Ord)]
pub struct CieKey {
    pub ra: u64,
    pub handler: u64,
    pub indirect: bool,
    pub signal: bool,
    /// Whether the entry has an exception table.
    pub tabled: bool,
}

/// The kind of frame that an answer needs.
pub(crate) fn key_of(map: &AddrMap, answer: &FrameAt) -> CieKey
    ensures key { result ≡ key_of map.now answer.now }
    ensures low { result.handler < 2 ^ 64 }
{
    CieKey {
        ra: answer.ra,
        handler: map.new_address(answer.handler),
        indirect: answer.indirect,
        signal: answer.signal,
        tabled: answer.table != 0,
    }
}

/// Whether there is a handler.
pub(crate) fn has_handler(key: &CieKey) -> bool
    ensures { result ≡ has_handler key.now }
{
    key.handler != 0 || key.indirect
}

/// Whether a kind of frame needs an augmentation: in `.eh_frame` each does, for the encoding of addresses.
pub(crate) fn has_data(debug: bool, key: &CieKey) -> bool
    ensures { result ≡ has_data debug key.now }
{
    !debug || has_handler(key) || key.tabled || key.signal
}
