// The fields that count if several share bytes.
ghost use Rattle.std.specs.Prelude.{◌≡◌, ℕ, List, IfOk, OnOk, map, AllPairs};
ghost use Rattle.std.specs.List.Sorted.{IsPermutation};
ghost use Rattle.elf_image.specs.declared.elf.Elf.{Elf};
ghost use Rattle.rv_reloc.specs.CountedFields.{as_field, IsKeyUpTo, AreCandidates, AreCounted};

use rb_bytes::fault::NoMemory;
use std::alloc::Global;
use std::cmp::Reverse;

/// The content of a field. The derived `Ord` is the order of fields with one place and width: addresses before
/// differences, and then by label.
#[derive(Clone, Copy, PartialEq, Eq, PartialOrd, Ord)]
pub enum Content {
    Address { to: u64 },
    Difference { to: i128, from: i128 },
}

/// A field that can be a cell.
#[derive(Clone, Copy)]
pub struct Candidate {
    /// The address of the first byte.
    pub place: u64,
    /// The width in bytes, 4 or 8.
    pub width: u8,
    pub content: Content,
}

/// Sorts fields by place, then wider before narrower, then addresses before differences.
pub fn sort_fields(fields: &mut Vec<Candidate>) -> Result<(), NoMemory>
    ensures permutation { IsPermutation fields.old.items fields.new.items }
    ensures rising { OnOk result (AllPairs IsKeyUpTo (map as_field fields.new.items)) }
{
    fields.sort_by_key(|f| (f.place, Reverse(f.width), f.content))?;
    Ok(())
}

/// The fields that count, from all fields that can be cells in the order of [`sort_fields`]: each field that shares no
/// byte with an earlier one that counts.
pub fn sweep(alloc: Global, candidates: &[Candidate]) -> Result<Vec<Candidate>, NoMemory>
    ensures { (elf : Elf) (tabled : List (ℕ × ℕ)) → AreCandidates elf tabled (map as_field candidates.now) →
        IfOk result (λ counted. AreCounted elf tabled (map as_field counted.items)) }
{
    let mut counted = Vec::new(alloc);
    let mut reach: u128 = 0;
    for candidate in candidates {
        if (candidate.place as u128) < reach {
            continue;
        }
        counted.push(*candidate)?;
        reach = candidate.place as u128 + candidate.width as u128;
    }
    Ok(counted)
}
