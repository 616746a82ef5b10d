// Results of the machine.

/// Why the machine is stuck: the result would depend on the addresses of the code, or the step is an error.
#[derive(Clone, Copy, Debug)]
pub enum Reason {
    /// A jump goes to a value that isn't a pointer, or adds an offset to a pointer.
    NotCode,
    /// A return goes to the end of a function: its call is the function's last instruction.
    EndOfFunction,
    /// No instruction of a function starts at the pc.
    FellOff,
    /// A symbol is used in a way that no rule covers, or the base of a lower part isn't its upper part.
    Operate,
    /// A branch compares symbols in a way that no rule covers.
    Compare,
    /// A load of bytes that are neither all numbers nor successive bytes of one symbol that is stored in one width.
    Mixed,
    /// A byte that may differ in a rewritten file is loaded or written to a file.
    Hidden,
    /// The address of a load or a store is a symbol, or it or a buffer may not be accessed.
    Access,
    /// The number of a system call, an argument that the call uses, or a byte that it writes is a symbol.
    CallArg,
    /// EBREAK.
    Break,
}

/// The result of a step.
#[derive(Clone, Copy)]
pub enum SymStepped {
    /// The program goes on. As the result of a run: the limit of steps was reached.
    Going,
    /// The program ended with this exit status.
    Ended(u8),
    /// The machine is stuck at this pc.
    Stuck(u64, Reason),
    /// The input could not be read.
    ReadFault,
    /// The output could not be written.
    WriteFault,
    /// Memory ran out.
    Memory,
}

/// The result of a run.
#[derive(Clone, Copy)]
pub struct SymRan {
    pub end: SymStepped,
    /// The number of steps done. A step that ends the program is counted, one that is stuck isn't.
    pub steps: u64,
}

impl SymRan {
    ghost use Rattle.std.specs.Prelude.{◌≡◌, ◌-◌, ◌<◌, ◌^◌};
    ghost use Rattle.run_core.specs.Runs.{steps_done};
    ghost use Rattle.sym_machine.specs.MachineState.{answered};

    /// A run that ended in the step after `steps` others.
    pub fn ended(end: SymStepped, steps: u64) -> SymRan
        requires { steps < 2 ^ 64 - 1 }
        ensures end { result.end ≡ end }
        ensures steps { result.steps ≡ steps_done (answered end) steps }
    {
        match end {
            SymStepped::Ended(_) => SymRan {
                end,
                steps: steps + 1,
            },
            _ => SymRan { end, steps },
        }
    }
}
