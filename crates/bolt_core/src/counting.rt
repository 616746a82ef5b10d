// The counts in the summary of a rewrite.
ghost use Rattle.std.specs.Prelude.{◌≡◌, IfOk, count_by, length, nat_lt};
ghost use Rattle.rv_code.specs.layout.Flow.{insts_of};

use rb_bytes::fault::NoMemory;
use rv_code::Func;

/// The number of instructions of all functions. The sum can't overflow, since all instructions are in memory; the
/// overflow check gives `NoMemory`.
pub fn count_insts(funcs: &[Func]) -> Result<u64, NoMemory>
    ensures { IfOk result (λ count. count ≡ length (insts_of funcs.now)) }
{
    let mut count: u64 = 0;
    for func in funcs {
        count = count.checked_add(func.insts.len() as u64).ok_or(NoMemory)?;
    }
    Ok(count)
}

/// The number of hot blocks: of weights that aren't 0.
pub fn count_hot(weights: &[u128]) -> u64
    ensures { result ≡ count_by (nat_lt 0) weights.now }
{
    let mut count = 0;
    for weight in weights {
        if *weight > 0 {
            count += 1;
        }
    }
    count
}
