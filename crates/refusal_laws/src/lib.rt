//! At most one fault is the one for which a command refuses what it reads: a law.
#![tactic(auto)]

ghost use Rattle.refusal_laws.specs.RefusalLaw.{RefusalLaw};

use block_layout::parts_law;

/// Does nothing: its clause is a law, which rests on that of the parts of functions. What a command reads is refused
/// for at most one fault, and for none if the command is done. Only a layout whose tables weigh too much may be there
/// beside another one that was written.
pub fn refusal_law()
    ensures { RefusalLaw }
{
    parts_law();
}
