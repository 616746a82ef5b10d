// The rows of an FDE, kept to be asked at any address.
ghost use Rattle.std.specs.Prelude.{◌≤◌, All, length};
ghost use Rattle.std.specs.List.Sorted.{IsNonDecreasingBy};
ghost use Rattle.cfi_rows.specs.RowHistories.{IsRight};

use crate::cie_program::CieProgram;
use crate::row_history::RowHistory;
use std::marker::Model;
use std::rc::Rc;

/// The rows of an FDE. They have its CIE's rules, overridden by the rules that its own instructions set.
#[derive(Drop)]
pub struct EntryRows {
    pub initial: Rc<CieProgram>,
    pub history: RowHistory,
    pub ghost within: { All (λ r. r.changes ≤ length history.changes.items) history.rows.items },
    pub ghost right: { All (IsRight history.changes.items) history.kept.items },
    pub ghost ascending: { IsNonDecreasingBy (λ r. r.start) history.rows.items },
}

impl Model for EntryRows {
    ghost use Rattle.std.specs.Prelude.{List, map};
    ghost use Rattle.std.specs.Rc.{rc_value};
    ghost use Rattle.cfi_rows.specs.FrameRows.{PlacedRow};
    ghost use Rattle.cfi_rows.specs.RowHistories.{told, row_over};

    ghost Value = { List PlacedRow };

    ghost view = { λ e. map (row_over (rc_value e.initial).known.rules) (told e.history) };
}
