// The text of a repaired profile.
ghost use Rattle.std.specs.Prelude.{IfOk};
ghost use Rattle.rv_code.specs.layout.FunctionLists.{AreLaidOut};
ghost use Rattle.elf_image.specs.declared.elf.Elf.{Elf};
ghost use Rattle.edge_text.specs.EdgeText.{IsEdgeText};
ghost use Rattle.flow_text.specs.LinkLists.{AreBlocksOf, AreCodePairs, AreLinksOf};
ghost use Rattle.flow_text.specs.RepairedCounts.{repaired_count};

use crate::flows::edge_flows;
use crate::merging::with_flows;
use edge_text::edge_text;
use flow_infer::Link;
use rb_bytes::fault::NoMemory;
use rv_code::{Block, Func};
use std::alloc::Global;

/// The text of a profile with the flow of each edge, and the old counts of all other pairs. `pairs` are the pairs of
/// the old profile.
pub fn repaired_profile(
    alloc: Global,
    funcs: &[Func],
    blocks: &[Block],
    links: &[Link],
    pairs: &[(u64, u64, u128)],
) -> Result<Vec<u8>, NoMemory>
    requires funcs { AreLaidOut funcs.now }
    requires blocks { AreBlocksOf funcs.now blocks.now }
    requires links { AreLinksOf blocks.now links.now }
    requires pairs { AreCodePairs funcs.now pairs.now }
    ensures { IfOk result (λ text. (elf : Elf) →
        IsEdgeText elf funcs.now (repaired_count funcs.now blocks.now links.now pairs.now) text.items) }
{
    let flows = edge_flows(alloc, funcs, blocks, links)?;
    let repaired = with_flows(alloc, &flows, pairs)?;
    edge_text(alloc, funcs, &repaired)
}
