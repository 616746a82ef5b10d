// The bytes of sections, and flags and types of their headers. gABI, "Section Header".
ghost use Rattle.std.specs.Prelude.{◌≡◌};
ghost use Rattle.elf_plan.specs.Contents.{section_bytes};
ghost use Rattle.elf_plan.specs.NewSections.{flags_left, without_code};

use elf_image::Section;
use elf_image::named::names_debug;
use elf_image::section::{SHF_ALLOC, SHF_EXECINSTR, SHT_NOBITS};

/// The type of a null header, which isn't for a section.
pub const SHT_NULL: u32 = 0;

/// `flags` without the flag for instructions. Tables that are rewritten don't have it.
pub fn without_code(flags: u64) -> u64
    ensures { result ≡ without_code flags }
{
    if flags / SHF_EXECINSTR % 2 == 1 {
        flags - SHF_EXECINSTR
    } else {
        flags
    }
}

/// The bytes of `section` in `file`, up to the end of the file. A section of type SHT_NOBITS has none.
pub fn bytes_of<'a>(file: &'a [u8], section: &Section) -> &'a [u8]
    ensures { result.now ≡ section_bytes file.now section.now }
{
    let start = (section.offset as usize).min(file.len());
    let rest = &file[start..];
    if section.kind == SHT_NOBITS {
        return &rest[..0];
    }
    &rest[..(section.size as usize).min(rest.len())]
}

/// The flags in the header of a section that is left out: SHF_ALLOC if a loaded section has the name of a debug table,
/// so that the name doesn't refer to this header.
pub fn flags_left(section: &Section) -> u64
    ensures { result ≡ flags_left section.now }
{
    if section.is_loaded() && names_debug(section.name) {
        SHF_ALLOC
    } else {
        0
    }
}
