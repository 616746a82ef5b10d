// Whether the instructions of an entry are sound, and how many rows they have. DWARF 5, section 6.4.2.
ghost use Rattle.std.specs.Prelude.{◌≡◌, IfOk, IfErr, OnOk, Some, None, [], IsTrue, ◌+◌};
ghost use Rattle.cfi_rows.specs.FrameRows.{ends_row};
ghost use Rattle.cfi_rows.specs.Outlines as spec;
ghost use Rattle.cfi_rows.specs.Reads.{Fails};

use crate::failed::Failed;
use crate::instruction::Instruction;
use crate::row::Cfa;
use std::alloc::Global;

/// How the canonical frame address is found, if that is said.
#[derive(Clone, Copy)]
pub enum FrameKind {
    /// It isn't said.
    Nothing,
    /// By a register and an offset.
    Register,
    /// By an expression.
    Expression,
}

/// What of a state decides whether an instruction is malformed: all but the rules of registers.
#[derive(Drop)]
pub struct Outline {
    pub location: u64,
    pub frame: FrameKind,
    pub saved: Vec<FrameKind>,
}

impl Outline {
    // At the start of a program.
    fn new(alloc: Global, location: u64, frame: FrameKind) -> Outline
        ensures { spec.kept_outline result ≡ record { location = location; frame = frame; saved = [] } }
    {
        Outline {
            location,
            frame,
            saved: Vec::new(alloc),
        }
    }

    // Does one instruction.
    fn step(&mut self, instruction: &Instruction) -> Result<(), Failed>
        ensures ok { OnOk result (spec.outline_step instruction.now (spec.kept_outline self.old)
            ≡ Some (spec.kept_outline self.new)) }
        ensures err { IfErr result (λ e. Fails e (spec.outline_step instruction.now
            (spec.kept_outline self.old) ≡ None)) }
    {
        match instruction {
            Instruction::Advance(bytes) => self.advance(*bytes),
            Instruction::SetLoc(address) => self.go_to(*address),
            Instruction::DefCfa(Cfa::Reg { reg: _, offset: _ }) => {
                self.frame = FrameKind::Register;
                Ok(())
            }
            Instruction::DefCfa(Cfa::Expr(_)) => {
                self.frame = FrameKind::Expression;
                Ok(())
            }
            Instruction::DefCfaRegister(_) => self.needs_register(),
            Instruction::DefCfaOffset(_) => self.needs_register(),
            Instruction::SetRule(_, _) => Ok(()),
            Instruction::Restore(_) => Ok(()),
            Instruction::RememberState => self.remember(),
            Instruction::RestoreState => self.restore(),
            Instruction::Nop => Ok(()),
        }
    }

    fn advance(&mut self, bytes: u64) -> Result<(), Failed>
        ensures ok { OnOk result (spec.moved_outline (self.old.location + bytes) (spec.kept_outline self.old)
            ≡ Some (spec.kept_outline self.new)) }
        ensures err { IfErr result (λ e. Fails e (spec.moved_outline (self.old.location + bytes)
            (spec.kept_outline self.old)
            ≡ None)) }
    {
        self.location = self.location.checked_add(bytes).ok_or(Failed::Malformed)?;
        Ok(())
    }

    fn go_to(&mut self, address: u64) -> Result<(), Failed>
        ensures ok { OnOk result (spec.went_to address (spec.kept_outline self.old) ≡ Some
            (spec.kept_outline self.new)) }
        ensures err { IfErr result (λ e. Fails e (spec.went_to address (spec.kept_outline self.old) ≡ None)) }
    {
        if address < self.location {
            return Err(Failed::Malformed);
        }
        self.location = address;
        Ok(())
    }

    // Malformed, unless the frame address is found by a register. DWARF 5, section 6.4.2.2.
    fn needs_register(&self) -> Result<(), Failed>
        ensures ok { OnOk result (spec.if_register self.now.frame (spec.kept_outline self.now)
            ≡ Some (spec.kept_outline self.now)) }
        ensures err { IfErr result (λ e. Fails e (spec.if_register self.now.frame
            (spec.kept_outline self.now) ≡ None)) }
    {
        match self.frame {
            FrameKind::Register => Ok(()),
            FrameKind::Nothing | FrameKind::Expression => Err(Failed::Malformed),
        }
    }

    fn remember(&mut self) -> Result<(), Failed>
        ensures ok { OnOk result (spec.remembered (spec.kept_outline self.old) ≡ spec.kept_outline self.new) }
        ensures err { IfErr result (λ e. Fails e ⊥) }
    {
        self.saved.push(self.frame)?;
        Ok(())
    }

    fn restore(&mut self) -> Result<(), Failed>
        ensures ok { OnOk result (spec.taken_back (spec.kept_outline self.old) (spec.kept_outline self.old).saved
            ≡ Some (spec.kept_outline self.new)) }
        ensures err { IfErr result (λ e. Fails e (spec.taken_back (spec.kept_outline self.old)
            (spec.kept_outline self.old).saved
            ≡ None)) }
    {
        self.frame = self.saved.pop().ok_or(Failed::Malformed)?;
        Ok(())
    }
}

impl FrameKind {
    fn has_rule(self) -> bool
        ensures { result ≡ spec.has_rule self }
    {
        match self {
            FrameKind::Nothing => false,
            FrameKind::Register | FrameKind::Expression => true,
        }
    }
}

/// How the frame address is found after the instructions of a CIE.
pub(crate) fn frame_after(alloc: Global, instructions: &[Instruction]) -> Result<FrameKind, Failed>
    ensures ok { IfOk result (λ k. spec.frame_after instructions.now ≡ Some k) }
    ensures err { IfErr result (λ e. Fails e (spec.frame_after instructions.now ≡ None)) }
{
    let mut outline = Outline::new(alloc, 0, FrameKind::Nothing);
    for instruction in instructions {
        outline.step(instruction)?;
    }
    Ok(outline.frame)
}

/// How many rows the instructions of an FDE have, whose range begins at `start` and whose CIE leaves `frame`. Each row
/// needs a frame address.
pub(crate) fn row_count(
    alloc: Global,
    instructions: &[Instruction],
    start: u64,
    frame: FrameKind,
) -> Result<u64, Failed>
    ensures ok { IfOk result (λ n. spec.outline_rows instructions.now
        (record { location = start; frame = frame; saved = [] })
        ≡ Some n) }
    ensures err { IfErr result (λ e. Fails e (spec.outline_rows instructions.now
        (record { location = start; frame = frame; saved = [] })
        ≡ None)) }
{
    let mut outline = Outline::new(alloc, start, frame);
    let mut rows: u64 = 0;
    for instruction in instructions {
        if instruction.ends_row() {
            if !outline.frame.has_rule() {
                return Err(Failed::Malformed);
            }
            rows += 1;
        }
        outline.step(instruction)?;
    }
    if !outline.frame.has_rule() {
        return Err(Failed::Malformed);
    }
    Ok(rows + 1)
}

impl Instruction {
    // Whether it moves the location, which ends a row.
    pub(crate) fn ends_row(&self) -> bool
        ensures { result ≡ ends_row self.now }
    {
        match self {
            Instruction::Advance(_) => true,
            Instruction::SetLoc(_) => true,
            Instruction::DefCfa(_) => false,
            Instruction::DefCfaRegister(_) => false,
            Instruction::DefCfaOffset(_) => false,
            Instruction::SetRule(_, _) => false,
            Instruction::Restore(_) => false,
            Instruction::RememberState => false,
            Instruction::RestoreState => false,
            Instruction::Nop => false,
        }
    }
}
