// A profile of one run.
ghost use Rattle.std.specs.Prelude.{◌≡◌, ◌≤◌, map, string_bytes};
ghost use Rattle.elf_image.specs.faults.FileFaults.{IsSound};
ghost use Rattle.elf_image.specs.file.ParsedFile.{IsElfOf};
ghost use Rattle.rv_memory.specs.Start.{start};
ghost use Rattle.rv_code.specs.layout.FunctionLists.{AreLaidOut};
ghost use Rattle.rv_memory.specs.Limits.{IsWithinLimits};
ghost use Rattle.rv_machine.specs.StepResults.{answered};
ghost use Rattle.edge_record.specs.EdgeCounts.{said_of};
ghost use Rattle.edge_record.specs.RecordedRuns.{Records};
ghost use Rattle.edge_record.specs.Texts.{IsFinished};
ghost use Rattle.run_core.specs.Inputs.{outside_of};

use crate::edge_counts::EdgeCounts;
use crate::text::text_of;
use crate::watch::watch_run;
use crate::watched::Watched;
use elf_image::Elf;
use rb_io::{Sink, Source};
use rv_code::{Block, Func};
use rv_machine::{Machine, Ran, Stepped};
use std::alloc::Global;

/// A run, and the text of its profile.
#[derive(Drop)]
pub struct Recorded {
    /// The result of the run. `Memory` may come instead of any other end.
    pub ran: Ran,
    /// The profile. It is empty after a read or write error, and if memory ran out.
    pub text: Vec<u8>,
}

impl Recorded {
    ghost use Rattle.std.specs.Prelude.{◌≡◌, []};

    fn out_of_memory(alloc: Global) -> Recorded
        ensures end { result.ran.end ≡ Stepped.Memory }
        ensures text { result.text.items ≡ [] }
    {
        Recorded {
            ran: Ran {
                end: Stepped::Memory,
                steps: 0,
            },
            text: Vec::new(alloc),
        }
    }
}

/// Runs a file with the arguments `args` for at most `limit` steps, as `Machine::run` does, and counts the moves of
/// control to an instruction from an instruction that ends a block or saves a return address.
pub fn trace_edges<I: Source, O: Sink>(
    alloc: Global,
    elf: &Elf<'_>,
    funcs: &[Func],
    blocks: &[Block],
    args: &[String],
    limit: u64,
    input: &mut I,
    out: &mut O,
) -> Recorded
    requires read { IsElfOf elf.now.file.now elf.now }
    requires sound { IsSound elf.now.file.now }
    requires limits { IsWithinLimits (map string_bytes args.now) }
    requires funcs { AreLaidOut funcs.now }
    ensures answer { Records (start elf.now.file.now (map string_bytes args.now)) limit
        (outside_of (I.seen input.old) (O.seen out.old))
        (outside_of (I.seen input.new) (O.seen out.new))
        elf.now funcs.now blocks.now result.ran.steps result.text.items (answered result.ran.end) }
    ensures reads { (I.seen input.old).faults ≤ (I.seen input.new).faults }
    ensures writes { (O.seen out.old).faults ≤ (O.seen out.new).faults }
{
    let Ok(watched) = Watched::new(alloc, funcs, blocks) else {
        return Recorded::out_of_memory(alloc);
    };
    let Ok(mut machine) = Machine::load(alloc, elf, args) else {
        return Recorded::out_of_memory(alloc);
    };
    let mut counts = EdgeCounts::new(alloc);
    let ran = watch_run(
        alloc,
        &mut machine,
        &watched,
        &mut counts,
        limit,
        input,
        out,
    );
    finish(alloc, funcs, &counts, ran)
}

// The result of a run, with the text of its profile.
fn finish(alloc: Global, funcs: &[Func], counts: &EdgeCounts, ran: Ran) -> Recorded
    requires { AreLaidOut funcs.now }
    ensures { IsFinished funcs.now (said_of counts.now) (answered ran.end) ran.steps
        (answered result.ran.end) result.ran.steps result.text.items }
{
    match ran.end {
        Stepped::Going | Stepped::Ended(_) | Stepped::Trap(..) => {
            match text_of(alloc, funcs, counts) {
                Ok(text) => Recorded { ran, text },
                Err(_) => Recorded::out_of_memory(alloc),
            }
        }
        Stepped::ReadFault | Stepped::WriteFault | Stepped::Memory => Recorded {
            ran,
            text: Vec::new(alloc),
        },
    }
}
