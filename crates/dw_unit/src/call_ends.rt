// The ends of calls.
ghost use Rattle.std.specs.Prelude.{◌≡◌, ◌+◌, ◌^◌, ◌<◌, All, ℕ, IfOk, IfSome, Some};
ghost use Rattle.elf_code.specs.Parts.{halfword_at};
ghost use Rattle.dw_unit.specs.CallEnds.{AreCallEnds, HasCall};

use addr_map::AddrMap;
use elf_image::Elf;
use rb_bytes::fault::NoMemory;
use rv_code::flow::is_call;
use rv_decode::decode;
use std::alloc::Global;
use std::collections::BTreeMap;

// The halfword at an address. Bytes that aren't loaded count as zero.
fn halfword_at(elf: &Elf, address: u64) -> u16
    requires { address + 1 < 2 ^ 64 }
    ensures { result ≡ halfword_at elf.now address }
{
    let low = elf.image_byte(address).unwrap_or(0);
    let high = elf.image_byte(address + 1).unwrap_or(0);
    low as u16 + 256 * high as u16
}

// The size in bytes of the call at an address, if a call is there.
fn call_at(elf: &Elf, address: u64) -> Option<u64>
    requires { address + 3 < 2 ^ 64 }
    ensures there { IfSome result (HasCall elf.now address) }
    ensures below { IfSome result (λ n. n < 2 ^ 8) }
    ensures only { (n : ℕ) → HasCall elf.now address n → result ≡ Some n }
{
    let half = halfword_at(elf, address);
    let next = halfword_at(elf, address + 2);
    let (inst, bytes) = decode(half, Some(next))?;
    if is_call(&inst) {
        Some(bytes as u64)
    } else {
        None
    }
}

/// Maps the end of each call that `map` moves to the end of the moved call, which has the same size.
pub fn call_ends(alloc: Global, elf: &Elf, map: &AddrMap) -> Result<BTreeMap<u64, u64>, NoMemory>
    ensures ends { IfOk result (AreCallEnds elf.now map.now) }
    ensures below { IfOk result (λ _. All (λ s. s.out < 2 ^ 64) map.now) }
{
    let mut ends = BTreeMap::new(alloc);
    'spans: for index in 0..map.len() {
        let Some(span) = map.span(index) else {
            unreachable!();
        };
        // No code is at so high an address. The sums below need this test.
        if span.input > u64::MAX - 8 {
            return Err(NoMemory);
        }
        if let Some(bytes) = call_at(elf, span.input) {
            ends.insert(span.input + bytes, span.out.wrapping_add(bytes))?;
        }
    }
    Ok(ends)
}
