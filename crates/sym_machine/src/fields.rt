// Fields of a file, and which bytes are in one of them.
ghost use Rattle.std.specs.Prelude.{◌≡◌, ◌<◌, ◌||◌, ℕ, IfOk, length, slice_index_or, Bool, false};
ghost use Rattle.std.specs.List.{list_any};
ghost use Rattle.elf_image.specs.memory.LoadedBytes.{is_in_range};
ghost use Rattle.sym_machine.specs.internal.Fields.{range_of_field, AreMarked};

use rb_bytes::fault::NoMemory;
use std::alloc::Global;

/// The `size` bytes of a file from the offset `start`.
#[derive(Clone, Copy)]
pub struct Field {
    pub start: u128,
    pub size: u64,
}

/// Fields of a file, with a mark for each byte of the file that is in one of them. The marks are needed because a file
/// can have many program headers, and each of their bytes is looked up.
#[derive(Drop)]
pub struct Fields {
    pub list: Vec<Field>,
    pub marks: Vec<bool>,
    pub ghost marked: { AreMarked marks.items list.items },
}

impl Fields {
    /// The marks of these fields, in a file of `size` bytes.
    pub fn new(alloc: Global, list: Vec<Field>, size: usize) -> Result<Fields, NoMemory>
        ensures { IfOk result (λ fields. fields.list.items ≡ list.items) }
    {
        let marks = marked(alloc, &list, size)?;
        Ok(Fields { list, marks })
    }

    /// Whether the byte at `offset` is in one of the fields.
    pub fn has(&self, offset: u128) -> bool
        ensures { result ≡ list_any (λ field. is_in_range offset (range_of_field field)) self.now.list.items }
    {
        if offset < self.marks.len() as u128 {
            self.marks[offset as usize]
        } else {
            has_any(&self.list, offset)
        }
    }
}

// Whether the byte at `offset` is in the field.
fn has(field: &Field, offset: u128) -> bool
    ensures { result ≡ is_in_range offset (range_of_field field.now) }
{
    field.start <= offset && offset - field.start < field.size as u128
}

// Whether the byte at `offset` is in one of these fields.
fn has_any(fields: &[Field], offset: u128) -> bool
    ensures { result ≡ list_any (λ field. is_in_range offset (range_of_field field)) fields.now }
{
    fields.iter().any(|field| has(field, offset))
}

// For each of the first `size` bytes of a file, whether it is in one of these fields.
fn marked(alloc: Global, fields: &[Field], size: usize) -> Result<Vec<bool>, NoMemory>
    ensures { IfOk result (λ marks. AreMarked marks.items fields.now) }
{
    let mut marks = Vec::from_elem(alloc, false, size)?;
    for field in fields {
        mark(&mut marks, field);
    }
    Ok(marks)
}

// Marks the bytes of a field.
fn mark(marks: &mut [bool], field: &Field)
    ensures size { length marks.new ≡ length marks.old }
    ensures marked { (o : ℕ) → o < length marks.old →
        slice_index_or marks.new o false ≡ (slice_index_or marks.old o false
        || is_in_range o (range_of_field field.now)) }
{
    if field.start >= marks.len() as u128 {
        return;
    }
    for at in field.start as usize..marks.len() {
        if !has(field, at as u128) {
            return;
        }
        marks[at] = true;
    }
}
