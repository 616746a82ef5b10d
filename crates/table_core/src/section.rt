// The contents of sections with tables. gABI, "Section Header".
ghost use Rattle.std.specs.Prelude.{◌≡◌, ◌==◌, if◌then◌else◌, [], take, drop};
ghost use Rattle.elf_image.specs.declared.section.TheConstants.{SHT_NOBITS};
ghost use Rattle.table_core.specs.Sections.{held, bytes_of};

use elf_image::Elf;
use elf_image::section::SHT_NOBITS;

/// The contents of a section, and the address that its header gives.
#[derive(Clone, Copy)]
pub struct Held<'a> {
    pub bytes: &'a [u8],
    pub address: u64,
}

/// The contents of the section with a name; none, at address 0, if there is no such section.
pub fn held_by<'a>(elf: &Elf<'a>, name: &[u8]) -> Held<'a>
    ensures { record { bytes = result.bytes.now; address = result.address } ≡ held elf.now name.now }
{
    match elf.section_called(name) {
        Some(section) => Held {
            bytes: contents(elf.file, section.kind, section.offset, section.size),
            address: section.addr,
        },
        None => Held {
            bytes: piece(elf.file, 0, 0),
            address: 0,
        },
    }
}

// The contents of a section. A section of type SHT_NOBITS has none in the file.
fn contents(file: &[u8], kind: u32, offset: u64, size: u64) -> &[u8]
    ensures { result.now ≡ (if kind == SHT_NOBITS then [] else take size (drop offset file.now)) }
{
    if kind == SHT_NOBITS {
        return piece(file, 0, 0);
    }
    piece(file, offset, size)
}

// The `size` bytes from an offset on, as far as the file has them.
fn piece(file: &[u8], offset: u64, size: u64) -> &[u8]
    ensures { result.now ≡ take size (drop offset file.now) }
{
    let (_, rest) = file.split_at((file.len() as u64).min(offset) as usize);
    let (bytes, _) = rest.split_at((rest.len() as u64).min(size) as usize);
    bytes
}

/// The contents of the section with a name; no bytes if there is no such section.
pub fn contents_of<'a>(elf: &Elf<'a>, name: &[u8]) -> &'a [u8]
    ensures { result.now ≡ bytes_of elf.now name.now }
{
    held_by(elf, name).bytes
}
