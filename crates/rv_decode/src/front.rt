// Decodes the instruction at the front of two halfwords.
ghost use Rattle.std.specs.Prelude.{◌≡◌, ℕ, IfSome, IfNone};
ghost use Rattle.rv_code.specs.isa.InstBytes.{Decodes};
ghost use Rattle.rv_code.specs.declared.inst.Inst.{Inst};

use crate::full::decode_full;
use crate::half::decode_half;
use rv_code::Inst;
use rv_code::field::bits;

/// The instruction that begins with the halfword `half`, and its length in bytes, 2 or 4. `next` is the halfword after
/// `half`, if there is one; two-byte instructions don't need it. None if the bytes match no row of RV64IMC. ISA manual,
/// section 1.5.
pub fn decode(half: u16, next: Option<u16>) -> Option<(Inst, u8)>
    ensures found { IfSome result (λ r. Decodes half next r.0 r.1) }
    ensures only { IfSome result (λ r. (i : Inst) (bytes : ℕ) → Decodes half next i bytes → (i ≡ r.0) × (bytes ≡ r.1)) }
    ensures none { IfNone result ((i : Inst) (bytes : ℕ) → Decodes half next i bytes → ⊥) }
{
    let low = half as u32;
    if bits(low, 0, 2) == 3 {
        let upper = next?;
        let inst = decode_full(upper as u32 * 65536 + low)?;
        Some((inst, 4))
    } else {
        let inst = decode_half(low)?;
        Some((inst, 2))
    }
}
