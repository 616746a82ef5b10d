// The map of a rewritten file.
ghost use Rattle.std.specs.Prelude.{◌≡◌, ◌≢◌, ◌≤◌, ◌++◌, AllPairs, IfOk, OnErr, OnOk, length, slice_get};
ghost use Rattle.rb_io.specs.CallResults.{IfTook};
ghost use Rattle.rb_io.specs.FaultCounts.{Rose};
ghost use Rattle.rb_io.specs.TakenText.{TakesAll, TakesPrefix};
ghost use Rattle.addr_map.specs.MapText.{AreInLineOrder, map_text};
ghost use Rattle.addr_map.specs.Spans.{ShareNoByte, moved, new, owner};

use crate::new_order::NewOrder;
use crate::old_order::OldOrder;
use crate::order::sort_by_line;
use crate::span::Span;
use crate::text::{append_text, print_text};
use rb_bytes::fault::NoMemory;
use rb_io::{Put, Sink};
use std::alloc::Global;
use std::marker::Model;

/// The new addresses of the input's instructions. Contracts see the spans in the order of the map's lines.
#[derive(Drop)]
pub struct AddrMap {
    by_new: NewOrder,
    by_old: OldOrder,
}

impl Model for AddrMap {
    ghost use Rattle.std.specs.Prelude.{◌≡◌, ℕ, List};
    ghost use Rattle.addr_map.specs.declared.span.Span.{Span};
    ghost use Rattle.addr_map.specs.internal.Orders.{moved_in};
    ghost use Rattle.addr_map.specs.Spans.{moved};

    ghost Value = { List Span };

    ghost view = { λ m. m.by_new };

    ghost invariant = { λ m. (a : ℕ) → moved_in m.by_old.inputs.items m.by_old.outs.items a ≡ moved m.by_new a };
}

impl AddrMap {
    /// Makes a map from its spans, in any order: one for each instruction, and no byte in two of them. Spans in the
    /// order of lines take little more than the sort of their blocks by old address, and about 65 bytes of memory each,
    /// of which the map keeps about 40.
    pub fn new(alloc: Global, spans: Vec<Span>) -> Result<AddrMap, NoMemory>
        requires once { AllPairs (λ s t. s.input ≢ t.input) spans.items }
        requires disjoint { AllPairs ShareNoByte spans.items }
        ensures { IfOk result (λ m. AreInLineOrder spans.items m) }
    {
        let mut spans = spans;
        sort_by_line(&mut spans)?;
        let by_old = OldOrder::new(alloc, &spans)?;
        let by_new = NewOrder::new(alloc, &spans)?;
        Ok(AddrMap { by_new, by_old })
    }

    /// The new address of the instruction at `a`. For an instruction that was left out, it is the address at which
    /// control continues. None if no instruction of the map is at `a`.
    pub fn moved(&self, a: u64) -> Option<u64>
        ensures { result ≡ moved self.now a }
    {
        self.by_old.moved(a)
    }

    /// The new address of the instruction at `a`, or `a` itself if no instruction of the map is there.
    pub fn new_address(&self, a: u64) -> u64
        ensures { result ≡ new self.now a }
    {
        self.moved(a).unwrap_or(a)
    }

    /// The old address of the instruction to which the new byte at `p` belongs. None if no span has the byte.
    pub fn owner(&self, p: u64) -> Option<u64>
        ensures { result ≡ owner self.now p }
    {
        self.by_new.owner(p)
    }

    /// The number of spans.
    pub fn len(&self) -> usize
        ensures { result ≡ length self.now }
    {
        self.by_new.len()
    }

    /// The span of line `i`, counted from 0. None if there is no such line.
    pub fn span(&self, i: usize) -> Option<Span>
        ensures { result ≡ slice_get self.now i }
    {
        self.by_new.span(i)
    }

    /// Appends the text of the map, one line for each span. After an error `into` is unchanged.
    pub fn text(&self, into: &mut Vec<u8>) -> Result<(), NoMemory>
        ensures ok { OnOk result (into.new.items ≡ into.old.items ++ map_text self.now) }
        ensures err { OnErr result (into.new.items ≡ into.old.items) }
    {
        append_text(&self.by_new, into)
    }

    /// Prints the text of the map, without allocating. `Took` has the length of the text. After `Failed` the sink took
    /// a proper prefix of the text.
    pub fn print<O: Sink>(&self, out: &mut O) -> Put
        ensures whole { IfTook result (λ n. n ≡ length (map_text self.now)) }
        ensures all { IfTook result (λ n. TakesAll (O.seen out.old).taken (O.seen out.new).taken (map_text self.now)) }
        ensures front { result ≡ Put.Failed → TakesPrefix (O.seen out.old).taken (O.seen out.new).taken
            (map_text self.now) }
        ensures failed { result ≡ Put.Failed → Rose (O.seen out.old).faults (O.seen out.new).faults }
        ensures never_falls { (O.seen out.old).faults ≤ (O.seen out.new).faults }
    {
        print_text(&self.by_new, out)
    }
}
