// The lines of prices, of links and of the total.
ghost use Rattle.std.specs.Prelude.{◌≡◌, ◌++◌, ◌<◌, ◌^◌, All, OnOk, length};
ghost use Rattle.rv_code.specs.layout.FunctionMembers.{IsOfFunction};
ghost use Rattle.flow_infer.specs.Flows.{change};
ghost use Rattle.flow_text.specs.LinkLists.{IsBetween, IsPlaceIn};
ghost use Rattle.flow_text.specs.Report as spec;

use crate::flows::start_at;
use flow_infer::Link;
use itoa::Buffer;
use rb_bytes::fault::NoMemory;
use rb_bytes::text::{put_count, put_hex};
use rv_code::{Block, Func};

/// Appends the line of the price of block `place`.
pub fn put_price(
    text: &mut Vec<u8>,
    funcs: &[Func],
    blocks: &[Block],
    prices: &[i64],
    place: usize,
) -> Result<(), NoMemory>
    requires blocks { All (IsOfFunction funcs.now) blocks.now }
    requires inside { place < length blocks.now }
    requires priced { length prices.now ≡ length blocks.now }
    ensures { OnOk result
        (text.new.items ≡ text.old.items ++ spec.price_line funcs.now blocks.now prices.now place) }
{
    text.extend_from_slice(b"price ")?;
    put_hex(text, start_at(funcs, blocks, place))?;
    text.push(b' ')?;
    text.extend_from_slice(Buffer::new().format(prices[place]).as_bytes())?;
    text.push(b'\n')?;
    Ok(())
}

/// Appends the line of a link.
pub fn put_link(
    text: &mut Vec<u8>,
    funcs: &[Func],
    blocks: &[Block],
    link: &Link,
) -> Result<(), NoMemory>
    requires blocks { All (IsOfFunction funcs.now) blocks.now }
    requires link { IsBetween blocks.now link.now }
    ensures { OnOk result (text.new.items ≡ text.old.items ++ spec.link_line funcs.now blocks.now link.now) }
{
    text.extend_from_slice(b"link ")?;
    put_end(text, funcs, blocks, link.from)?;
    text.push(b' ')?;
    put_end(text, funcs, blocks, link.to)?;
    text.push(b' ')?;
    put_count(text, link.count)?;
    text.push(b' ')?;
    put_count(text, link.flow)?;
    text.push(b'\n')?;
    Ok(())
}

/// Appends the line with the number of links and the total change.
pub fn put_total(text: &mut Vec<u8>, links: &[Link]) -> Result<(), NoMemory>
    requires { change links.now < 2 ^ 128 }
    ensures { OnOk result (text.new.items ≡ text.old.items ++ spec.total_line links.now) }
{
    put_count(text, links.len() as u128)?;
    text.extend_from_slice(b" links, total change ")?;
    put_count(text, total_change(links))?;
    text.push(b'\n')?;
    Ok(())
}

// Appends the start address of the block at an end of a link, or `-` for the outside.
fn put_end(
    text: &mut Vec<u8>,
    funcs: &[Func],
    blocks: &[Block],
    end: Option<usize>,
) -> Result<(), NoMemory>
    requires blocks { All (IsOfFunction funcs.now) blocks.now }
    requires inside { IsPlaceIn blocks.now end }
    ensures { OnOk result (text.new.items ≡ text.old.items ++ spec.end_name funcs.now blocks.now end) }
{
    match end {
        Some(place) => put_hex(text, start_at(funcs, blocks, place))?,
        None => text.push(b'-')?,
    }
    Ok(())
}

// The total change: the sum of the distances of flows from counts.
fn total_change(links: &[Link]) -> u128
    requires { change links.now < 2 ^ 128 }
    ensures { result ≡ change links.now }
{
    let mut total = 0;
    for link in links {
        total += link.flow.abs_diff(link.count);
    }
    total
}
