// Sections whose names are used in the new area.
ghost use Rattle.std.specs.Prelude.{◌≡◌, ◌++◌, IfOk};
ghost use Rattle.elf_plan.specs.OldNames as spec;

use elf_image::Section;
use elf_image::named::names_frames;
use elf_image::section::OLD_PREFIX;

/// Whether a section keeps its position and contents but is renamed, since a section of the new area gets its name.
pub fn is_renamed(section: &Section) -> bool
    ensures { result ≡ spec.is_renamed section.now }
{
    section.holds_code() || names_frames(section.name)
}

/// The prefix for the name of a section that is renamed.
pub fn old_prefix(name: &[u8]) -> &'static [u8]
    ensures { result.now ++ name.now ≡ spec.old_name name.now }
{
    if name.starts_with(b".") {
        b".old"
    } else {
        OLD_PREFIX
    }
}
