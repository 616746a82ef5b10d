// The clauses of a faithful rewrite, and the results of a check.
ghost use Rattle.std.specs.Prelude.{◌≡◌};
ghost use Rattle.map_check.specs.declared.clause.Verdict.{Verdict};
ghost use Rattle.map_check.specs.FirstFalse.{Claim, IsVerdict};

/// The clauses of a faithful rewrite, in the order in which they are checked. Each docstring says what is wrong if the
/// clause is false.
#[derive(Clone, Copy, Debug)]
pub enum Clause {
    /// A line of the map's text isn't the line of a span.
    MapText,
    /// The spans aren't a map of the input's code.
    MapSpan,
    /// A span isn't in code of the output.
    SpanBytes,
    /// An instruction of the input isn't kept in its span.
    Instruction,
    /// Control doesn't go on from an instruction's new code to what followed it.
    Next,
    /// The output's entry point isn't the new address of the input's.
    Entry,
    /// A byte that the input loads isn't kept.
    Byte,
    /// A code cell, or the loaded field of the entry point, doesn't hold its new value.
    Cell,
    /// The break, or the table of program headers, isn't at the same address as in the input.
    Table,
}

/// The result of a check.
#[derive(Clone, Copy)]
pub enum Verdict {
    /// The rewrite is faithful.
    Faithful,
    /// The first clause that is false, and its lowest place. The README says what the place is for each clause.
    Unfaithful(Clause, u64),
}

/// A law: a claim has at most one right verdict. So `check` returns a verdict exactly if it is right, unless memory
/// runs out. The function does nothing.
pub fn verdict_law()
    ensures { (c : Claim) (v w : Verdict) → IsVerdict c v → IsVerdict c w → v ≡ w }
{}
