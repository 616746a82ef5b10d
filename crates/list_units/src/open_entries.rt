// The entries that the next one may be nested in, with their nearest ranges. DWARF 5, section 2.3.
ghost use Rattle.std.specs.Prelude.{◌≡◌, ◌∷◌, IfOk, reverse};
ghost use Rattle.std.specs.Option.{option_or};
ghost use Rattle.list_units.specs.OpenEntries as spec;

use rb_bytes::fault::NoMemory;

/// An entry that later ones may be nested in.
#[derive(Clone, Copy)]
pub struct OpenEntry {
    /// The number of entries that it is nested in.
    pub depth: u32,
    /// The group of its nearest ranges: its own, or those of the innermost ancestor that has some.
    pub nearest: Option<usize>,
}

// Whether an entry at `depth` isn't nested in the last open one.
fn ends(entries: &[OpenEntry], depth: u32) -> bool
    ensures { result ≡ spec.ends depth (reverse entries.now) }
{
    match entries.last() {
        Some(last) => last.depth >= depth,
        None => false,
    }
}

fn nearest(entries: &[OpenEntry]) -> Option<usize>
    ensures { result ≡ spec.nearest (reverse entries.now) }
{
    let last = entries.last()?;
    last.nearest
}

// Closes the entries that one at `depth` isn't nested in.
fn close(entries: &mut Vec<OpenEntry>, depth: u32)
    ensures { reverse entries.new.items ≡ spec.closed depth (reverse entries.old.items) }
{
    for count in 0..entries.len() {
        if !ends(entries, depth) {
            return;
        }
        entries.pop();
    }
}

/// Opens the next entry, at `depth`, with its own ranges as group `own`. Returns the group of its nearest ranges: its
/// own, or the nearest ranges of its parent.
pub fn enter(
    entries: &mut Vec<OpenEntry>,
    depth: u32,
    own: Option<usize>,
) -> Result<Option<usize>, NoMemory>
    ensures nearest { IfOk result (λ n. n
        ≡ option_or own (spec.nearest (spec.closed depth (reverse entries.old.items)))) }
    ensures opened { IfOk result (λ n. reverse entries.new.items
        ≡ record { depth = depth; nearest = n } ∷ spec.closed depth (reverse entries.old.items)) }
{
    close(entries, depth);
    let outer = nearest(entries);
    let group = own.or(outer);
    entries.push(OpenEntry {
        depth,
        nearest: group,
    })?;
    Ok(group)
}
