// The moves of a run that are counted.
ghost use Rattle.std.specs.Prelude.{◌≡◌, ◌+◌, ◌<◌, ◌≤◌, ◌||◌, ℕ, All, IfOk, IfSome, option_copied};
ghost use Rattle.std.specs.List.{list_any};
ghost use Rattle.rv_code.specs.layout.FunctionLists.{AreLaidOut};
ghost use Rattle.edge_profile.specs.Weights.{starts_at};
ghost use Rattle.edge_record.specs.AddressSets.{in_set, HasRoomFor, HaveSameRoom, watches};
ghost use Rattle.edge_record.specs.Moves.{Move};
ghost use Rattle.edge_record.specs.MoveCounts.{ends_at, is_counted, last_of, saves_at};

use crate::address_set::AddressSet;
use rb_bytes::fault::NoMemory;
use rv_code::flow::is_call;
use rv_code::{Block, Func, Placed};
use std::alloc::Global;

/// The moves that are counted: from one of the sources to an instruction.
#[derive(Drop)]
pub struct Watched {
    /// The addresses of all instructions.
    pub(crate) code: AddressSet,
    /// The addresses of the instructions that end a block or save a return address.
    pub(crate) sources: AddressSet,
}

impl Watched {
    ghost use Rattle.std.specs.Prelude.{◌≡◌, IfOk};
    ghost use Rattle.rv_code.specs.layout.FunctionLists.{AreLaidOut};
    ghost use Rattle.edge_record.specs.AddressSets.{watches};
    ghost use Rattle.edge_record.specs.Moves.{Move};
    ghost use Rattle.edge_record.specs.MoveCounts.{is_counted};

    /// The moves that are counted in `funcs`, whose blocks are `blocks`.
    pub fn new(alloc: Global, funcs: &[Func], blocks: &[Block]) -> Result<Watched, NoMemory>
        requires { AreLaidOut funcs.now }
        ensures { IfOk result (λ watched. (m : Move) → watches watched m ≡ is_counted funcs.now blocks.now m) }
    {
        let (low, size) = code_range(funcs);
        let mut code = AddressSet::new(alloc, low, size)?;
        let mut sources = AddressSet::new(alloc, low, size)?;
        insert_insts(&mut code, &mut sources, funcs);
        insert_ends(&mut sources, funcs, blocks);
        Ok(Watched { code, sources })
    }

    /// Whether a move from `from` to `to` is counted.
    pub fn has(&self, from: u64, to: u64) -> bool
        ensures { result ≡ watches self.now (from, to) }
    {
        self.sources.has(from) && self.code.has(to)
    }
}

// The start of the functions' code, and its length with everything between them.
fn code_range(funcs: &[Func]) -> (u64, usize)
    requires { AreLaidOut funcs.now }
    ensures { All (λ f. All (λ p. (result.0 ≤ p.addr) × (p.addr < result.0 + result.1)) f.insts.items) funcs.now }
{
    if funcs.is_empty() {
        return (0, 0);
    }
    let low = funcs[0].start;
    let high = funcs[funcs.len() - 1].end;
    (low, (high - low) as usize)
}

// Adds the addresses of all instructions to `code`, and the addresses of instructions that save a return address to
// `sources`.
fn insert_insts(code: &mut AddressSet, sources: &mut AddressSet, funcs: &[Func])
    requires code_room { All (λ f. All (λ p. HasRoomFor code.old p.addr) f.insts.items) funcs.now }
    requires source_room { All (λ f. All (λ p. HasRoomFor sources.old p.addr) f.insts.items) funcs.now }
    ensures code { (a : ℕ) → in_set code.new a ≡ (list_any (λ f. starts_at f.insts.items a) funcs.now
        || in_set code.old a) }
    ensures sources { (a : ℕ) →
        in_set sources.new a ≡ (list_any (λ f. saves_at f.insts.items a) funcs.now || in_set sources.old a) }
    ensures code_room { HaveSameRoom code.old code.new }
    ensures source_room { HaveSameRoom sources.old sources.new }
{
    for func in funcs {
        insert_insts_of(code, sources, &func.insts);
    }
}

// Does this for the instructions of one function.
fn insert_insts_of(code: &mut AddressSet, sources: &mut AddressSet, insts: &[Placed])
    requires code_room { All (λ p. HasRoomFor code.old p.addr) insts.now }
    requires source_room { All (λ p. HasRoomFor sources.old p.addr) insts.now }
    ensures code { (a : ℕ) → in_set code.new a ≡ (starts_at insts.now a || in_set code.old a) }
    ensures sources { (a : ℕ) → in_set sources.new a ≡ (saves_at insts.now a || in_set sources.old a) }
    ensures code_room { HaveSameRoom code.old code.new }
    ensures source_room { HaveSameRoom sources.old sources.new }
{
    for inst in insts {
        code.insert(inst.addr);
        if is_call(&inst.inst) {
            sources.insert(inst.addr);
        }
    }
}

// Adds the addresses of the last instructions of blocks.
fn insert_ends(set: &mut AddressSet, funcs: &[Func], blocks: &[Block])
    requires { All (λ f. All (λ p. HasRoomFor set.old p.addr) f.insts.items) funcs.now }
    ensures { (a : ℕ) → in_set set.new a ≡ (list_any (λ b. ends_at funcs.now a b) blocks.now || in_set set.old a) }
{
    for block in blocks {
        if let Some(inst) = last_of(funcs, block) {
            set.insert(inst.addr);
        }
    }
}

// The last instruction of a block.
fn last_of<'a>(funcs: &'a [Func], block: &Block) -> Option<&'a Placed>
    ensures { option_copied result ≡ last_of funcs.now block.now }
{
    let func = funcs.get(block.func)?;
    func.insts.get(block.last)
}
