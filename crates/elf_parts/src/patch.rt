// Bytes put over those of a file, and zeros added after them.
ghost use Rattle.std.specs.Prelude.{◌≡◌, ◌≤◌, ◌<◌, ◌+◌, ◌-◌, ◌++◌, length, OnOk, IfOk, replicate};
ghost use Rattle.elf_image.specs.memory.Break.{rounded_up};
ghost use Rattle.elf_parts.specs.Patches.{put};

use rb_bytes::fault::NoMemory;

/// Puts bytes over those at an offset.
pub fn put_bytes(file: &mut [u8], offset: usize, bytes: &[u8])
    requires { offset + length bytes.now ≤ length file.old }
    ensures { file.new ≡ put offset bytes.now file.old }
{
    file[offset..offset + bytes.len()].copy_from_slice(bytes);
}

/// Appends zeros until there are `size` bytes.
pub fn fill_to(out: &mut Vec<u8>, size: usize) -> Result<(), NoMemory>
    requires { length out.old.items ≤ size }
    ensures { OnOk result (out.new.items ≡ out.old.items ++ replicate (size - length out.old.items) 0) }
{
    out.resize(size, 0)?;
    Ok(())
}
