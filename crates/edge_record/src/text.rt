// The text of counts of moves.
ghost use Rattle.std.specs.Prelude.{◌≡◌, ℕ, List, IfOk};
ghost use Rattle.rv_code.specs.layout.FunctionLists.{AreLaidOut};
ghost use Rattle.edge_record.specs.EdgeCounts.{said_of};
ghost use Rattle.edge_record.specs.Texts.{IsTextOf};

use crate::edge_counts::EdgeCounts;
use edge_profile::pairs::merged;
use edge_text::edge_text;
use rb_bytes::fault::NoMemory;
use rv_code::Func;
use std::alloc::Global;

// `merged` takes fewer pairs than this, and no memory has room for as many.
const TOO_MANY: usize = 1 << 32;

/// The text with the counts of all pairs, in order.
pub fn text_of(alloc: Global, funcs: &[Func], counts: &EdgeCounts) -> Result<Vec<u8>, NoMemory>
    requires { AreLaidOut funcs.now }
    ensures { IfOk result (λ text. IsTextOf funcs.now (said_of counts.now) text.items) }
{
    let said = counts.said(alloc)?;
    if said.len() >= TOO_MANY {
        return Err(NoMemory);
    }
    let pairs = merged(alloc, said)?;
    edge_text(alloc, funcs, &pairs)
}
