// The rows of entries at addresses. DWARF 5, section 6.4.3.
ghost use Rattle.std.specs.Prelude.{◌≡◌, ◌≤◌, ℕ, IfOk, Some, None, slice_get, option_and_then};
ghost use Rattle.cfi_rows.specs.Entries.{Fde as Entry};
ghost use Rattle.cfi_rows.specs.FrameRows as spec;
ghost use Rattle.cfi_rows.specs.ReadFrames.{read_as};

use crate::frame_table::Frames;
use crate::row::Row;
use rb_bytes::fault::NoMemory;
use std::alloc::Global;

impl Frames {
    /// The last row of entry `i` of the list that begins at or below `a`, if one does. The end of the entry's range
    /// isn't looked at.
    pub fn row_at(&self, alloc: Global, i: usize, a: u64) -> Result<Option<Row>, NoMemory>
        ensures { IfOk result (λ row.
            option_and_then (λ f. spec.row_at a f.rows None) (slice_get (read_as self.now).list i) ≡ row) }
    {
        match self.rows.get(i) {
            Some(rows) => rows.row_at(alloc, a),
            None => Ok(None),
        }
    }

    /// The last address up to which entry `i` of the list certainly has the same row as at `a`, or none.
    pub fn last_alike(&self, i: usize, a: u64) -> u64
        ensures { (x : ℕ) → a ≤ x → x ≤ result → (f : Entry) → slice_get (read_as self.now).list i ≡ Some f →
            spec.row_at x f.rows None ≡ spec.row_at a f.rows None }
    {
        match self.rows.get(i) {
            Some(rows) => rows.last_alike(a),
            None => a,
        }
    }
}
