// Lengths of forms, and how far they reach.
ghost use Rattle.std.specs.Prelude.{◌≡◌, ◌+◌, ◌<◌, ◌≤◌, ◌^◌, IfSome};
ghost use Rattle.branch_fixup.specs.Pieces.{bytes_of_size, piece_length};
ghost use Rattle.branch_fixup.specs.Distances.{reaches};
ghost use Rattle.branch_fixup.specs.Growth.{form_reach, longer};

use rv_code::{Form, Size};

/// The length of a conditional branch. A long one is a branch with the opposite condition over a jump.
pub fn bytes_of_size(size: Size) -> u8
    ensures { result ≡ bytes_of_size size }
{
    match size {
        Size::Half => 2,
        Size::Full => 4,
        Size::Long => 8,
    }
}

/// The length in the new code, in `form`, of an instruction of `len` bytes in the input, with the jump that is added
/// after it.
pub fn piece_length(len: u8, form: Form) -> u8
    requires { len < 252 }
    ensures { result ≡ piece_length len form }
{
    match form {
        Form::Plain => len,
        Form::Jump => len + 4,
        Form::Branch { size, jump, .. } => bytes_of_size(size) + if jump { 4 } else { 0 },
        Form::Goto { half } => { if half { 2 } else { 4 } }
        Form::Dropped => 0,
    }
}

/// Whether a branch or jump at `from` reaches `to`: the distance is from -`reach` to before `reach`, which is the value
/// of the offset's sign bit.
pub fn reaches(reach: u64, from: u64, to: u64) -> bool
    requires from_low { from + 2 ^ 32 ≤ 2 ^ 64 }
    requires to_low { to + 2 ^ 32 ≤ 2 ^ 64 }
    requires reach_low { reach < 2 ^ 32 }
    ensures { result ≡ reaches reach from to }
{
    to < from + reach && from <= to + reach
}

/// The reach of a form that can grow, for `reaches`: the reach of C.BEQZ, of BEQ or of C.J. `None` for a form that
/// can't grow. RISC-V ISA manual, volume I, sections 2.5 and 26.4.
pub fn form_reach(form: Form) -> Option<u64>
    ensures value { result ≡ form_reach form }
    ensures short { IfSome result (λ reach. reach < 2 ^ 32) }
{
    match form {
        Form::Branch { size, .. } => match size {
            Size::Half => Some(1 << 8),
            Size::Full => Some(1 << 12),
            Size::Long => None,
        },
        Form::Goto { half } => { if half { Some(1 << 11) } else { None } }
        Form::Plain | Form::Jump | Form::Dropped => None,
    }
}

/// The next longer form. A form that can't grow is returned unchanged.
pub fn longer(form: Form) -> Form
    ensures { result ≡ longer form }
{
    match form {
        Form::Branch {
            inverted,
            size: Size::Half,
            jump,
        } => Form::Branch {
            inverted,
            size: Size::Full,
            jump,
        },
        Form::Branch {
            inverted,
            size: Size::Full,
            jump,
        } => Form::Branch {
            inverted,
            size: Size::Long,
            jump,
        },
        Form::Goto { half: true } => Form::Goto { half: false },
        _ => form,
    }
}
