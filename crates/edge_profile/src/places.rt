// The indices of instructions in functions.
ghost use Rattle.std.specs.Prelude.{◌≡◌, ◌==◌, ◌<◌, ◌≤◌, ◌+◌, ◌-◌, ℕ, false, IsTrue, IfSome, IfNone, AllPairs, length};
ghost use Rattle.std.specs.Prelude.{slice_index_or};
ghost use Rattle.std.specs.List.{list_any};
ghost use Rattle.rv_code.specs.layout.FunctionLists.{AreLaidOut};
ghost use Rattle.rv_code.specs.layout.FunctionMembers.{IsInstPlace};
ghost use Rattle.rv_code.specs.layout.ProgramCode.{is_code_address};
ghost use Rattle.rv_code.specs.declared.placed.Func.{Func};
ghost use Rattle.rv_code.specs.declared.placed.Placed.{Placed};
ghost use Rattle.edge_profile.specs.Weights.{starts_at};

use rv_code::functions::starts_up_to;
use rv_code::{Func, InstPlace, Placed};

/// The indices of the function and of the instruction that starts at an address.
pub fn place_of(funcs: &[Func], address: u64) -> Option<InstPlace>
    requires { AreLaidOut funcs.now }
    ensures some { IfSome result (λ p. IsInstPlace funcs.now address p.func p.inst) }
    ensures none { IfNone result (is_code_address funcs.now address ≡ false) }
{
    place_near(funcs, address, 0)
}

/// The indices of the function and of the instruction that starts at `address`. Function `near` is looked at first.
pub fn place_near(funcs: &[Func], address: u64, near: usize) -> Option<InstPlace>
    requires { AreLaidOut funcs.now }
    ensures some { IfSome result (λ p. IsInstPlace funcs.now address p.func p.inst) }
    ensures none { IfNone result (is_code_address funcs.now address ≡ false) }
{
    let below = count_up_to(funcs, address, near);
    if below == 0 {
        return None;
    }
    let func = below - 1;
    let inst = inst_at(&funcs[func].insts, address)?;
    Some(InstPlace { func, inst })
}

/// Whether an instruction starts at an address.
pub fn starts_instruction(funcs: &[Func], address: u64) -> bool
    requires { AreLaidOut funcs.now }
    ensures { result ≡ is_code_address funcs.now address }
{
    match place_of(funcs, address) {
        Some(_place) => true,
        None => false,
    }
}

/// Whether a function starts at an address.
pub fn starts_function(funcs: &[Func], address: u64) -> bool
    requires { AreLaidOut funcs.now }
    ensures { result ≡ list_any (λ f. f.start == address) funcs.now }
{
    let below = count_up_to(funcs, address, 0);
    if below == 0 {
        return false;
    }
    funcs[below - 1].start == address
}

// The number of functions that start at or below `address`. Function `near` is looked at first.
fn count_up_to(funcs: &[Func], address: u64, near: usize) -> usize
    requires { AreLaidOut funcs.now }
    ensures bound { result ≤ length funcs.now }
    ensures below { (k : ℕ) (d : Func) → k < result → (slice_index_or funcs.now k d).start ≤ address }
    ensures above { (k : ℕ) (d : Func) → result ≤ k → k < length funcs.now →
        address < (slice_index_or funcs.now k d).start }
{
    if is_last_up_to(funcs, address, near) {
        return near + 1;
    }
    starts_up_to(funcs, address)
}

// Whether function `index` is the last that starts at or below `address`.
fn is_last_up_to(funcs: &[Func], address: u64, index: usize) -> bool
    requires { AreLaidOut funcs.now }
    ensures within { IsTrue result → index < length funcs.now }
    ensures below { IsTrue result → (k : ℕ) (d : Func) → k < index + 1 →
        (slice_index_or funcs.now k d).start ≤ address }
    ensures above { IsTrue result → (k : ℕ) (d : Func) → index + 1 ≤ k → k < length funcs.now →
        address < (slice_index_or funcs.now k d).start }
{
    if funcs.len() <= index || address < funcs[index].start {
        return false;
    }
    if index + 1 == funcs.len() {
        return true;
    }
    address < funcs[index + 1].start
}

// The index of the instruction that starts at an address.
fn inst_at(insts: &[Placed], address: u64) -> Option<usize>
    requires { AllPairs (λ p q. p.addr < q.addr) insts.now }
    ensures within { IfSome result (λ i. i < length insts.now) }
    ensures starts { IfSome result (λ i. (d : Placed) → (slice_index_or insts.now i d).addr ≡ address) }
    ensures none { IfNone result (starts_at insts.now address ≡ false) }
{
    let below = count_below(insts, address);
    if below == insts.len() {
        return None;
    }
    if insts[below].addr != address {
        return None;
    }
    Some(below)
}

// The number of instructions that start below an address.
fn count_below(insts: &[Placed], address: u64) -> usize
    requires { AllPairs (λ p q. p.addr < q.addr) insts.now }
    ensures bound { result ≤ length insts.now }
    ensures below { (k : ℕ) (d : Placed) → k < result → (slice_index_or insts.now k d).addr < address }
    ensures above { (k : ℕ) (d : Placed) → result ≤ k → k < length insts.now →
        address ≤ (slice_index_or insts.now k d).addr }
{
    insts.partition_point(|p| p.addr < address)
}
