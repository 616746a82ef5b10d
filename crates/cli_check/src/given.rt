// Reading the three files of `verify`, all before any is checked.
ghost use Rattle.std.specs.Prelude.{IfErr, IfOk, IsTrue};
ghost use Rattle.rb_io.specs.Names.{Unchanged};
ghost use Rattle.rb_io.specs.Views.{FilesGoOn};
ghost use Rattle.program.specs.Limits.{file_limit};
ghost use Rattle.cli_base.specs.WithinLimit.{FitsLimit};
ghost use Rattle.cli_check.specs.GivenFiles.{AreGiven, IsUngiven};
ghost use Rattle.cli_args.specs.Args.{verify_given};

use cli_args::VerifyArgs;
use cli_base::{Status, read_within};
use program::FILE_LIMIT;
use rb_io::Files;
use std::alloc::Global;

/// The size limit of a map in bytes. The map of 16 MiB of code, the size limit of code, is shorter: 2^23 instructions,
/// with a line of at most 21 bytes for each.
pub const MAP_LIMIT: usize = 200_000_000;

/// The bytes of an input, an output and a map. `None` for a file that is too long.
#[derive(Drop)]
pub struct Given {
    pub input: Option<Vec<u8>>,
    pub output: Option<Vec<u8>>,
    pub map: Option<Vec<u8>>,
}

/// Reads an input, an output and a map. The error is the command's result.
pub fn read_given<F: Files>(
    alloc: Global,
    args: &VerifyArgs<'_>,
    files: &mut F,
) -> Result<Given, Status>
    ensures given { IfOk result (λ given. IsTrue (F.seen files.old).told →
        AreGiven (F.seen files.old).content (verify_given args.now) given) }
    ensures input_fits { IfOk result (λ given. FitsLimit file_limit given.input) }
    ensures output_fits { IfOk result (λ given. FitsLimit file_limit given.output) }
    ensures unread { IfErr result (IsUngiven (verify_given args.now) (F.seen files.old) (F.seen files.new)) }
    ensures kept { Unchanged (F.seen files.old).content (F.seen files.new).content }
    ensures files_go_on { FilesGoOn (F.seen files.old) (F.seen files.new) }
{
    let input = read_within(alloc, args.input, FILE_LIMIT, files)?;
    let output = read_within(alloc, args.output, FILE_LIMIT, files)?;
    let map = read_within(alloc, args.map, MAP_LIMIT, files)?;
    Ok(Given { input, output, map })
}
