// The bytes of single instructions.
ghost use Rattle.std.specs.Prelude.{◌≡◌, ◌++◌, [], ◌∷◌, OnOk};
ghost use Rattle.code_emit.specs.Bytes.{half_bytes, full_bytes, Adds, IsEncodable};
ghost use Rattle.rv_encode.specs.FittingOperands.{Fits};
ghost use Rattle.rv_encode.specs.InstWords.{bytes};

use rb_bytes::fault::NoMemory;
use rv_code::{Inst, Width};
use rv_encode::{Word, encode};

fn push_half(code: &mut Vec<u8>, half: u16) -> Result<(), NoMemory>
    ensures ok { OnOk result (code.new.items ≡ code.old.items ++ half_bytes half) }
{
    code.extend_from_slice(&half.to_le_bytes())?;
    Ok(())
}

fn push_full(code: &mut Vec<u8>, word: u32) -> Result<(), NoMemory>
    ensures ok { OnOk result (code.new.items ≡ code.old.items ++ full_bytes word) }
{
    code.extend_from_slice(&word.to_le_bytes())?;
    Ok(())
}

/// Appends an instruction in a width for which it has an encoding.
#[tactic(auto, using(crate::proofs::Coded::adds_half, crate::proofs::Coded::adds_full))]
pub fn push(code: &mut Vec<u8>, inst: &Inst, want: Width) -> Result<(), NoMemory>
    requires { IsEncodable want inst.now }
    ensures ok { OnOk result (Adds code.old.items code.new.items (record { inst = inst.now; bytes = bytes want }
        ∷ [])) }
{
    match encode(inst, want) {
        Some(Word::Half(half)) => push_half(code, half),
        Some(Word::Full(word)) => push_full(code, word),
        None => unreachable!(),
    }
}
