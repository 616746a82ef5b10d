// Programs that register their unwind table themselves. LSB, "The .eh_frame section".
ghost use Rattle.std.specs.Prelude.{◌≡◌, ◌==◌, ◌↔◌, ℕ, Any, IsTrue, MatchOption};
ghost use Rattle.std.specs.List.{list_any};
ghost use Rattle.elf_image.specs.declared.segment.TheConstants.{PT_GNU_EH_FRAME as index_kind};
ghost use Rattle.frame_rewrite.specs.Faults.{IsRegisteredFrames, IsRegistration};

use elf_image::named::EH_FRAME;
use elf_image::segment::PT_GNU_EH_FRAME;
use elf_image::symbol::SHN_UNDEF;
use elf_image::{Elf, Segment, Symbol};

// The functions of the compiler's library to which a table is handed.
const REGISTER_FRAME: &[u8] = b"__register_frame";

const REGISTER_FRAME_INFO: &[u8] = b"__register_frame_info";

// Whether a symbol is one of these functions, and is defined.
fn registers(symbol: &Symbol) -> bool
    ensures { IsTrue result ↔ IsRegistration symbol.now }
{
    symbol.section != SHN_UNDEF
        && (symbol.name == REGISTER_FRAME || symbol.name == REGISTER_FRAME_INFO)
}

fn some_registers(symbols: &[Symbol]) -> bool
    ensures { IsTrue result ↔ Any IsRegistration symbols.now }
{
    symbols.iter().any(|symbol| registers(symbol))
}

/// Whether a program header names the index of an unwind table (PT_GNU_EH_FRAME).
pub fn has_index_header(segments: &[Segment]) -> bool
    ensures is { result ≡ list_any (λ p. p.kind == index_kind) segments.now }
    ensures any { IsTrue result ↔ Any (λ p. p.kind ≡ index_kind) segments.now }
{
    segments
        .iter()
        .any(|segment| segment.kind == PT_GNU_EH_FRAME)
}

/// The address of the unwind table of a program that registers it itself, and so would go on to use the old one: a file
/// with such a table is refused.
pub fn registered_frames(elf: &Elf) -> Option<u64>
    ensures { MatchOption result ((place : ℕ) → IsRegisteredFrames elf.now place → ⊥) (IsRegisteredFrames elf.now) }
{
    let section = elf.section_called(EH_FRAME)?;
    if section.size == 0 || has_index_header(&elf.segments) || !some_registers(&elf.symbols) {
        return None;
    }
    Some(section.addr)
}
