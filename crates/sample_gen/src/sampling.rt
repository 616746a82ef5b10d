// Samples: made, and then read back.
ghost use Rattle.std.specs.Prelude.{◌≡◌, ◌≤◌, IfOk, IsTrue};
ghost use Rattle.sample_file.specs.SampleText.{sample_profile};
ghost use Rattle.sample_gen.specs.Sample.{IsSample};

use crate::fault_check::is_faultless;
use program::{FILE_LIMIT, read_program};
use rb_bytes::fault::{NoMemory, Refusal};
use sample_file::code_check::has_sample_code;
use sample_file::file::file;
use sample_file::profile::profile;
use std::alloc::Global;

// Whether a file is sample `n` with its profile. The error is a fault for which it can't be rewritten, or that memory
// ran out.
fn is_sample(alloc: Global, file: &[u8], profile: &[u8], n: u64) -> Result<bool, Refusal>
    requires n { n ≤ 1000 }
    requires profile { profile.now ≡ sample_profile n }
    ensures { IfOk result (λ b. IsTrue b → IsSample n file.now profile.now) }
{
    if file.len() > FILE_LIMIT {
        return Ok(false);
    }
    let program = read_program(alloc, file)?;
    if !has_sample_code(alloc, &program.elf, &program.funcs, &program.refs.cells, n)? {
        return Ok(false);
    }
    is_faultless(alloc, &program, profile)
}

/// Sample `n`, from 1 to 1000: a file, and its profile.
///
/// The file is made, and then read back like any other, to check that its code, symbols and pointers are the sample's,
/// and that it has no fault for which a rewrite would refuse it. `NoMemory` also if this isn't so, which happens for no
/// sample.
pub fn sample(alloc: Global, n: u16) -> Result<(Vec<u8>, Vec<u8>), NoMemory>
    requires some { 1 ≤ n }
    requires few { n ≤ 1000 }
    ensures { IfOk result (λ s. IsSample n s.0.items s.1.items) }
{
    let n = n as u64;
    let file = file(alloc, n)?;
    let profile = profile(alloc, n)?;
    match is_sample(alloc, &file, &profile, n) {
        Ok(true) => Ok((file, profile)),
        _ => Err(NoMemory),
    }
}
