// A cache of decoded instructions.
ghost use Rattle.std.specs.Prelude.{◌≡◌, ◌<◌, ℕ, IfSome, IfNone};
ghost use Rattle.rv_code.specs.isa.InstBytes.{Decodes};
ghost use Rattle.rv_code.specs.declared.inst.Inst.{Inst};

use rv_code::Action;
use rv_decode::decode;
use std::alloc::Global;

/// An entry: the halfwords of an instruction, its action, and its length in bytes.
#[derive(Clone, Copy)]
pub struct KnownAction {
    pub half: u16,
    pub next: Option<u16>,
    pub action: Action,
    pub length: u8,
}

/// Decoded instructions by their halfwords, so that an instruction in a loop is decoded once. Instructions with the
/// same index share an entry, which then holds the one that was decoded last.
#[derive(Drop)]
pub struct KnownActions {
    pub entries: Vec<KnownAction>,
}

// The number of entries.
const PLACES: usize = 16384;

// C.NOP, which fills the table before anything is decoded.
const NOP: u16 = 1;

// The index of an instruction's entry. The choice only affects speed: the factor spreads instructions that differ only
// in their second halfword.
fn place(half: u16, next: Option<u16>) -> usize {
    let upper = next.unwrap_or(0) as usize;
    (half as usize / 4 + upper * 5) % PLACES
}

impl KnownActions {
    ghost use Rattle.rv_machine.specs.KnownInsts.{AreKnown, IsAction};

    /// A cache without entries, in which nothing is found.
    pub fn none(alloc: Global) -> KnownActions
        ensures { AreKnown result }
    {
        KnownActions {
            entries: Vec::new(alloc),
        }
    }

    /// A cache that is filled as instructions are decoded. If memory runs out, the cache has no entries.
    pub fn new(alloc: Global) -> KnownActions
        ensures { AreKnown result }
    {
        let Some(nop) = decoded(NOP, None) else {
            return KnownActions::none(alloc);
        };
        match Vec::from_elem(alloc, nop, PLACES) {
            Ok(entries) => KnownActions { entries },
            Err(_) => KnownActions::none(alloc),
        }
    }

    /// The action of the instruction with these halfwords, and its length in bytes.
    pub fn find(&mut self, half: u16, next: Option<u16>) -> Option<(Action, u8)>
        requires { AreKnown self.old }
        ensures known { AreKnown self.new }
        ensures found { IfSome result (λ r. IsAction half next r.0 r.1) }
        ensures none { IfNone result ((i : Inst) (bytes : ℕ) → Decodes half next i bytes → ⊥) }
    {
        let at = place(half, next);
        if at < self.entries.len() {
            let entry = self.entries[at];
            if entry.half == half && entry.next == next {
                return Some((entry.action, entry.length));
            }
        }
        self.learn(at, half, next)
    }

    // Decodes these halfwords, and puts the result into entry `at`.
    fn learn(&mut self, at: usize, half: u16, next: Option<u16>) -> Option<(Action, u8)>
        requires { AreKnown self.old }
        ensures known { AreKnown self.new }
        ensures found { IfSome result (λ r. IsAction half next r.0 r.1) }
        ensures none { IfNone result ((i : Inst) (bytes : ℕ) → Decodes half next i bytes → ⊥) }
    {
        let entry = decoded(half, next)?;
        if at < self.entries.len() {
            self.entries[at] = entry;
        }
        Some((entry.action, entry.length))
    }
}

ghost use Rattle.rv_machine.specs.KnownInsts.{IsAction};

fn decoded(half: u16, next: Option<u16>) -> Option<KnownAction>
    ensures half { IfSome result (λ e. e.half ≡ half) }
    ensures next { IfSome result (λ e. e.next ≡ next) }
    ensures known { IfSome result (λ e. IsAction half next e.action e.length) }
    ensures none { IfNone result ((i : Inst) (bytes : ℕ) → Decodes half next i bytes → ⊥) }
{
    let (inst, length) = decode(half, next)?;
    Some(KnownAction {
        half,
        next,
        action: inst.action(),
        length,
    })
}
