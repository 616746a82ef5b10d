// The profile of a sample.
ghost use Rattle.std.specs.Prelude.{◌≡◌, ◌≤◌, ◌<◌, ◌^◌, ◌++◌, OnOk, IfOk};
ghost use Rattle.sample_file.specs.SampleCode.{function_name};
ghost use Rattle.sample_file.specs.SampleText.{edge_line, own_lines, call_line, sample_profile};

use rb_bytes::fault::NoMemory;
use rb_bytes::text::put_decimal;
use std::alloc::Global;

/// The name of the code at the entry point.
pub const START_NAME: &[u8] = b"_start";

/// The name of function `k`.
pub fn function_name(alloc: Global, k: u64) -> Result<Vec<u8>, NoMemory>
    ensures { IfOk result (λ name. name.items ≡ function_name k) }
{
    let mut name = Vec::new(alloc);
    name.extend_from_slice(b"f")?;
    put_decimal(&mut name, k)?;
    Ok(name)
}

// Appends a line with count 1, from the offset `at` in the function `from` to the offset `there` in the function `to`;
// both offsets are hexadecimal.
fn put_edge(
    text: &mut Vec<u8>,
    from: &[u8],
    at: &[u8],
    to: &[u8],
    there: &[u8],
) -> Result<(), NoMemory>
    ensures { OnOk result (text.new.items ≡ text.old.items ++ edge_line from.now at.now to.now there.now) }
{
    text.extend_from_slice(b"1 ")?;
    text.extend_from_slice(from)?;
    text.extend_from_slice(b" ")?;
    text.extend_from_slice(at)?;
    text.extend_from_slice(b" 1 ")?;
    text.extend_from_slice(to)?;
    text.extend_from_slice(b" ")?;
    text.extend_from_slice(there)?;
    text.extend_from_slice(b" 0 1\n")?;
    Ok(())
}

// Appends the edges in function `k`. The first function gets 0, and each adds an odd number, so functions with an even
// `k` get even numbers.
fn put_own_lines(text: &mut Vec<u8>, name: &[u8], k: u64) -> Result<(), NoMemory>
    requires { name.now ≡ function_name k }
    ensures { OnOk result (text.new.items ≡ text.old.items ++ own_lines k) }
{
    if k % 2 == 0 {
        put_edge(text, name, b"c", name, b"18")?;
        put_edge(text, name, b"18", name, b"1c")?;
    } else {
        put_edge(text, name, b"c", name, b"10")?;
        put_edge(text, name, b"14", name, b"1c")?;
    }
    Ok(())
}

// Appends the edge from function `k` to the next function, unless `k` is the last of `n`.
fn put_call_line(
    text: &mut Vec<u8>,
    alloc: Global,
    name: &[u8],
    n: u64,
    k: u64,
) -> Result<(), NoMemory>
    requires name { name.now ≡ function_name k }
    requires below { k < 2 ^ 63 }
    ensures { OnOk result (text.new.items ≡ text.old.items ++ call_line n k) }
{
    if k + 1 == n {
        return Ok(());
    }
    let next = function_name(alloc, k + 1)?;
    put_edge(text, name, b"20", &next, b"0")?;
    Ok(())
}

/// The text of the profile of sample `n`.
pub fn profile(alloc: Global, n: u64) -> Result<Vec<u8>, NoMemory>
    requires { n ≤ 1000 }
    ensures { IfOk result (λ text. text.items ≡ sample_profile n) }
{
    let mut text = Vec::new(alloc);
    for k in 0..n {
        let name = function_name(alloc, k)?;
        put_own_lines(&mut text, &name, k)?;
        put_call_line(&mut text, alloc, &name, n, k)?;
    }
    let first = function_name(alloc, 0)?;
    put_edge(&mut text, START_NAME, b"8", &first, b"0")?;
    Ok(text)
}
