// The instructions of functions by their addresses.
ghost use Rattle.std.specs.Prelude.{◌≡◌, ◌<◌, ◌≤◌, ◌%◌, ◌^◌, ◌+◌, ℕ, List, None, IfSome, IfNone, IsTrue, length};
ghost use Rattle.std.specs.Prelude.{slice_index_or};
ghost use Rattle.std.specs.List.Sorted.{IsNonDecreasingBy};
ghost use Rattle.rv_code.specs.declared.placed.Func.{Func};
ghost use Rattle.rv_code.specs.declared.placed.Placed.{Placed};
ghost use Rattle.rv_code.specs.layout.FunctionLists.{AreLaidOut};
ghost use Rattle.rv_code.specs.layout.Flow.{placed_at};
ghost use Rattle.rv_code.specs.layout.FunctionMembers.{IsInstPlace};
ghost use Rattle.rv_code.specs.layout.ProgramCode.{is_code_address};
ghost use Rattle.sym_machine.specs.internal.FunctionOrder.{IsSearchable, addr_at};

use rv_code::functions::starts_up_to;
use rv_code::{Func, InstPlace, Placed};

/// Functions with a look-up of instructions by address.
#[derive(Drop)]
pub struct InstIndex<'a> {
    pub funcs: &'a [Func],
    pub ghost searchable: { IsSearchable funcs.now },
}

impl<'a> InstIndex<'a> {
    ghost use Rattle.sym_machine.specs.SymStep.{instruction};
    ghost use Rattle.rv_code.specs.layout.Flow.{next_of};

    /// An index of functions.
    pub fn new(funcs: &'a [Func]) -> InstIndex<'a>
        requires { AreLaidOut funcs.now }
        ensures { result.funcs.now ≡ funcs.now }
    {
        InstIndex { funcs }
    }

    /// The indices of the function and of the instruction that starts at `address`.
    pub fn place(&self, address: u64) -> Option<InstPlace>
        ensures found { IfSome result (λ at. IsInstPlace self.now.funcs.now address at.func at.inst) }
        ensures none { IfNone result (placed_at self.now.funcs.now address ≡ None) }
    {
        place_in(self.funcs, address)
    }

    /// Whether an instruction starts at an address.
    pub fn is_code_address(&self, address: u64) -> bool
        ensures { result ≡ is_code_address self.now.funcs.now address }
    {
        self.place(address).is_some()
    }

    /// The instruction at a pc. There is none at an odd pc.
    pub fn fetch(&self, pc: u64) -> Option<Placed>
        ensures { result ≡ instruction self.now.funcs.now pc }
    {
        if pc % 2 != 0 {
            return None;
        }
        let at = self.place(pc)?;
        Some(inst_at(self.funcs, at))
    }

    /// The address of the instruction after the one at an address, in its function.
    pub fn next_of(&self, address: u64) -> Option<u64>
        ensures { result ≡ next_of self.now.funcs.now address }
    {
        let at = self.place(address)?;
        next_in(self.funcs, at)
    }
}

// The instruction at these indices.
fn inst_at(funcs: &[Func], at: InstPlace) -> Placed
    requires func { at.func < length funcs.now }
    requires inst { (d : Func) → at.inst < length (slice_index_or funcs.now at.func d).insts.items }
    ensures { (d : Func) (e : Placed) → result ≡ slice_index_or (slice_index_or funcs.now at.func d).insts.items at.inst
        e }
{
    let insts: &[Placed] = &funcs[at.func].insts;
    insts[at.inst]
}

// The address of an instruction of a function.
fn address_at(insts: &[Placed], index: usize) -> u64
    requires { index < length insts.now }
    ensures { (e : Placed) → result ≡ (slice_index_or insts.now index e).addr }
{
    insts[index].addr
}

// The address of the instruction after the one at these indices, in its function.
fn next_in(funcs: &[Func], at: InstPlace) -> Option<u64>
    requires func { at.func < length funcs.now }
    ensures { (d : Func) → result ≡ addr_at (slice_index_or funcs.now at.func d).insts.items (at.inst + 1) }
{
    let insts: &[Placed] = &funcs[at.func].insts;
    if at.inst >= insts.len() {
        return None;
    }
    let next = insts.get(at.inst + 1)?;
    Some(next.addr)
}

fn place_in(funcs: &[Func], address: u64) -> Option<InstPlace>
    requires { IsSearchable funcs.now }
    ensures found { IfSome result (λ at. IsInstPlace funcs.now address at.func at.inst) }
    ensures none { IfNone result (placed_at funcs.now address ≡ None) }
{
    let above = starts_up_to(funcs, address);
    if above == 0 {
        return None;
    }
    let func = &funcs[above - 1];
    if func.end <= address {
        return None;
    }
    let insts: &[Placed] = &func.insts;
    let below = insts_up_to(insts, address);
    if below == 0 {
        return None;
    }
    if address_at(insts, below - 1) != address {
        return None;
    }
    Some(InstPlace {
        func: above - 1,
        inst: below - 1,
    })
}

// The number of instructions that start at or below `address`.
fn insts_up_to(insts: &[Placed], address: u64) -> usize
    requires { IsNonDecreasingBy (λ p. p.addr) insts.now }
    ensures bound { result ≤ length insts.now }
    ensures below { (k : ℕ) (d : Placed) → k < result → (slice_index_or insts.now k d).addr ≤ address }
    ensures above { (k : ℕ) (d : Placed) → result ≤ k → k < length insts.now →
        address < (slice_index_or insts.now k d).addr }
{
    insts.partition_point(|p| p.addr <= address)
}
