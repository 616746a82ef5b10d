// A cache of instructions by their addresses.
ghost use Rattle.std.specs.Prelude.{◌≡◌, ◌<◌, ◌%◌, ℕ, List, option_map};
ghost use Rattle.rv_code.specs.declared.placed.Func.{Func};
ghost use Rattle.sym_machine.specs.SymStep.{instruction};
ghost use Rattle.sym_machine.specs.internal.KnownInsts.{AreKnown, decoded_inst};

use crate::inst_index::InstIndex;
use rv_code::{Action, Placed, Role};
use std::alloc::Global;

/// What an instruction does, its role, and its length in bytes.
#[derive(Clone, Copy)]
pub struct Decoded {
    pub action: Action,
    pub role: Role,
    pub length: u8,
}

/// The instruction at an address, or none.
#[derive(Clone, Copy)]
pub struct KnownInst {
    pub address: u64,
    pub found: Option<Decoded>,
}

/// Instructions by their addresses, so that an instruction in a loop is looked up once. Addresses with the same index
/// share an entry, which then holds the instruction that was looked up last.
#[derive(Drop)]
pub struct KnownInsts {
    pub entries: Vec<KnownInst>,
}

// The number of entries.
const PLACES: usize = 8192;

// The index of an address's entry.
fn place(address: u64) -> usize {
    (address / 2 % PLACES as u64) as usize
}

fn decoded_inst(inst: Placed) -> Decoded
    ensures { result ≡ decoded_inst inst }
{
    Decoded {
        action: inst.inst.action(),
        role: inst.role,
        length: inst.len,
    }
}

impl KnownInsts {
    /// A cache without entries, in which nothing is found.
    pub fn none(alloc: Global) -> KnownInsts
        ensures { (funcs : List Func) → AreKnown funcs result }
    {
        KnownInsts {
            entries: Vec::new(alloc),
        }
    }

    /// A cache that is filled as instructions are looked up. If memory runs out, the cache has no entries.
    pub fn new(alloc: Global) -> KnownInsts
        ensures { (funcs : List Func) → AreKnown funcs result }
    {
        // No instruction starts at an odd address.
        let nothing = KnownInst {
            address: 1,
            found: None,
        };
        match Vec::from_elem(alloc, nothing, PLACES) {
            Ok(entries) => KnownInsts { entries },
            Err(_) => KnownInsts::none(alloc),
        }
    }

    /// The instruction at `pc`, decoded. There is none at an odd pc.
    pub fn find(&mut self, code: &InstIndex, pc: u64) -> Option<Decoded>
        requires { AreKnown code.now.funcs.now self.old }
        ensures known { AreKnown code.now.funcs.now self.new }
        ensures is { result ≡ option_map decoded_inst (instruction code.now.funcs.now pc) }
    {
        let at = place(pc);
        if at < self.entries.len() {
            let entry = self.entries[at];
            if entry.address == pc {
                return entry.found;
            }
        }
        self.learn(at, code, pc)
    }

    // Looks an instruction up, and puts it into entry `at`.
    fn learn(&mut self, at: usize, code: &InstIndex, pc: u64) -> Option<Decoded>
        requires { AreKnown code.now.funcs.now self.old }
        ensures known { AreKnown code.now.funcs.now self.new }
        ensures is { result ≡ option_map decoded_inst (instruction code.now.funcs.now pc) }
    {
        let found = look_up(code, pc);
        if at < self.entries.len() {
            self.entries[at] = KnownInst { address: pc, found };
        }
        found
    }
}

fn look_up(code: &InstIndex, pc: u64) -> Option<Decoded>
    ensures { result ≡ option_map decoded_inst (instruction code.now.funcs.now pc) }
{
    code.fetch(pc).map(decoded_inst)
}
