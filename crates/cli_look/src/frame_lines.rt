// The lines that `frames` prints.
ghost use Rattle.std.specs.Prelude.{◌≡◌, ◌++◌, IfOk, OnOk, codes, flat_map};
ghost use Rattle.table_core.specs.Texts.{or_none};
ghost use Rattle.inline_frames.specs.Frames.{frame_line};

use inline_frames::Frame;
use rb_bytes::fault::NoMemory;
use rb_bytes::text::put_decimal;
use std::alloc::Global;

// Appends the name of a function, and the path of the source file.
fn put_file(text: &mut Vec<u8>, name: &[u8], path: &[u8]) -> Result<(), NoMemory>
    ensures { OnOk result (text.new.items ≡ text.old.items ++ (name.now ++ codes " " ++ path.now ++ codes ":")) }
{
    text.extend_from_slice(name)?;
    text.push(b' ')?;
    text.extend_from_slice(path)?;
    text.push(b':')?;
    Ok(())
}

fn put_frame(text: &mut Vec<u8>, frame: &Frame) -> Result<(), NoMemory>
    ensures { OnOk result (text.new.items ≡ text.old.items ++ frame_line frame.now) }
{
    put_file(text, &frame.name, &frame.path)?;
    put_decimal(text, frame.line)?;
    text.push(b':')?;
    put_decimal(text, frame.column)?;
    text.push(b'\n')?;
    Ok(())
}

fn put_frames(text: &mut Vec<u8>, frames: &[Frame]) -> Result<(), NoMemory>
    ensures { OnOk result (text.new.items ≡ text.old.items ++ flat_map frame_line frames.now) }
{
    for frame in frames {
        put_frame(text, frame)?;
    }
    Ok(())
}

/// A line for each function, `NAME PATH:LINE:COLUMN`, or a line that says that there is none.
pub fn frames_text(alloc: Global, frames: &[Frame]) -> Result<Vec<u8>, NoMemory>
    ensures { IfOk result (λ text. text.items ≡ or_none (flat_map frame_line frames.now)) }
{
    let mut text = Vec::new(alloc);
    put_frames(&mut text, frames)?;
    if text.is_empty() {
        text.extend_from_slice(b"none\n")?;
    }
    Ok(text)
}
