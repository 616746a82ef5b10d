// Writes whole texts.
ghost use Rattle.std.specs.Prelude.{◌≡◌, ◌≤◌, length};
ghost use Rattle.rb_io.specs.CallResults.{IfTook};
ghost use Rattle.rb_io.specs.FaultCounts.{Rose};
ghost use Rattle.rb_io.specs.TakenText.{TakesAll, TakesPrefix};

use crate::sink::{Put, Sink};

/// Writes all of `text`, piece by piece.
///
/// `Took` has the length of the text. After `Failed` the sink took a proper prefix of the text, which may be empty.
pub fn print_all<O: Sink>(out: &mut O, text: &[u8]) -> Put
    ensures whole { IfTook result (λ n. n ≡ length text.now) }
    ensures all { IfTook result (λ n. TakesAll (O.seen out.old).taken (O.seen out.new).taken text.now) }
    ensures front { result ≡ Put.Failed → TakesPrefix (O.seen out.old).taken (O.seen out.new).taken text.now }
    ensures failed { result ≡ Put.Failed → Rose (O.seen out.old).faults (O.seen out.new).faults }
    ensures never_falls { (O.seen out.old).faults ≤ (O.seen out.new).faults }
{
    let mut done = 0;
    while done < text.len() {
        let (_, rest) = text.split_at(done);
        match out.write(rest) {
            Put::Took(count) => done += count,
            Put::Failed => return Put::Failed,
        }
    }
    Put::Took(done)
}
