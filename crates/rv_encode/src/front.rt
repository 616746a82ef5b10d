// Encodes instructions of either width.
ghost use Rattle.std.specs.Prelude.{◌≡◌, ℕ, Option, IsSome, IfSome, IfNone};
ghost use Rattle.rv_encode.specs.FittingOperands.{Fits};
ghost use Rattle.rv_code.specs.isa.InstBytes.{Decodes};
ghost use Rattle.rv_encode.specs.InstWords.{Encodes, width_of, bytes};

use crate::full::encode_full;
use crate::half::encode_half;
use crate::word::Word;
use rv_code::{Inst, Width};

/// A word of width `want` that encodes the instruction. None if there is no such word: the immediate is out of range or
/// odd, the encoding can't hold the registers, or the instruction has no encoding of this width. If several halfwords
/// encode the instruction, the result is one of them.
pub fn encode(inst: &Inst, want: Width) -> Option<Word>
    ensures found { IfSome result (λ word. Encodes word inst.now) }
    ensures width { IfSome result (λ word. width_of word ≡ want) }
    ensures room { Fits want inst.now → IsSome result }
    ensures none { IfNone result ((half : ℕ) (next : Option ℕ) → Decodes half next inst.now (bytes want) → ⊥) }
{
    match want {
        Width::Half => Some(Word::Half(encode_half(inst)?)),
        Width::Full => Some(Word::Full(encode_full(inst)?)),
    }
}
