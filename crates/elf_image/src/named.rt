// The names of sections with unwind tables and debug data. LSB, "The .eh_frame section" and "The .eh_frame_hdr
// section"; DWARF 5, appendix B.
ghost use Rattle.std.specs.Prelude.{◌≡◌};
ghost use Rattle.elf_image.specs.file.SectionNames.{names_frames, names_debug};

/// The name of the loaded unwind tables.
pub const EH_FRAME: &[u8] = b".eh_frame";

/// The name of the index of the loaded unwind tables.
pub const EH_FRAME_HDR: &[u8] = b".eh_frame_hdr";

/// Whether a name is the one of the loaded unwind tables, or of their index.
pub fn names_frames(name: &[u8]) -> bool
    ensures { result ≡ names_frames name.now }
{
    name == EH_FRAME || name == EH_FRAME_HDR
}

/// Whether a name is one of a debug section.
pub fn names_debug(name: &[u8]) -> bool
    ensures { result ≡ names_debug name.now }
{
    name.starts_with(b".debug_")
}
