// The line of the report on how to unwind. DWARF 5, section 6.4.1.
ghost use Rattle.std.specs.Prelude.{◌≡◌, ◌++◌, OnOk, flat_map, codes, []};
ghost use Rattle.std.specs.Option.{option_map_or};
ghost use Rattle.lookup_core.specs.Report.{cfa_text, handler_text, register_rule, rule_text, unwind_line};
ghost use Rattle.lookup_core.specs.Texts.{bytes_text, offset_text, register_text};

use crate::texts::{put_address, put_bytes, put_if, put_offset, put_register};
use cfi_rows::row::{Cfa, Expression, Row, Rule};
use frame_rewrite::FrameAt;
use rb_bytes::fault::NoMemory;
use rb_bytes::text::put_hex;

// Appends the bytes of an expression, in two digits each.
fn put_expression_bytes(text: &mut Vec<u8>, x: &Expression) -> Result<(), NoMemory>
    ensures { OnOk result (text.new.items ≡ text.old.items ++ bytes_text x.now) }
{
    put_bytes(text, &x.bytes)
}

// Appends how the canonical frame address (CFA) is found.
fn put_cfa(text: &mut Vec<u8>, cfa: &Cfa) -> Result<(), NoMemory>
    ensures { OnOk result (text.new.items ≡ text.old.items ++ cfa_text cfa.now) }
{
    match cfa {
        Cfa::Reg { reg, offset } => {
            put_register(text, *reg)?;
            put_offset(text, *offset)?;
        }
        Cfa::Expr(x) => {
            text.extend_from_slice(b"expr ")?;
            put_expression_bytes(text, x)?;
        }
    }
    Ok(())
}

// Appends `before`, `n` with its sign, and `after`.
fn put_between(text: &mut Vec<u8>, before: &[u8], n: i64, after: &[u8]) -> Result<(), NoMemory>
    ensures { OnOk result (text.new.items ≡ text.old.items ++ (before.now ++ offset_text n ++ after.now)) }
{
    text.extend_from_slice(before)?;
    put_offset(text, n)?;
    text.extend_from_slice(after)?;
    Ok(())
}

// Appends `before`, the bytes of `x`, and `after`.
fn put_within(
    text: &mut Vec<u8>,
    before: &[u8],
    x: &Expression,
    after: &[u8],
) -> Result<(), NoMemory>
    ensures { OnOk result (text.new.items ≡ text.old.items ++ (before.now ++ bytes_text x.now ++ after.now)) }
{
    text.extend_from_slice(before)?;
    put_expression_bytes(text, x)?;
    text.extend_from_slice(after)?;
    Ok(())
}

// Appends `word`.
fn put_word(text: &mut Vec<u8>, word: &[u8]) -> Result<(), NoMemory>
    ensures { OnOk result (text.new.items ≡ text.old.items ++ word.now) }
{
    text.extend_from_slice(word)?;
    Ok(())
}

// Appends the rule of a register's value in the caller, in brackets if the value is in memory.
fn put_rule(text: &mut Vec<u8>, rule: &Rule) -> Result<(), NoMemory>
    ensures { OnOk result (text.new.items ≡ text.old.items ++ rule_text rule.now) }
{
    match rule {
        Rule::Undefined => put_word(text, b"undefined"),
        Rule::Same => put_word(text, b"same"),
        Rule::Offset(n) => put_between(text, b"[cfa", *n, b"]"),
        Rule::ValOffset(n) => put_between(text, b"cfa", *n, b""),
        Rule::Reg(r) => put_register(text, *r),
        Rule::Expr(x) => put_within(text, b"[expr ", x, b"]"),
        Rule::ValExpr(x) => put_within(text, b"expr ", x, b""),
    }
}

// Appends a register and its rule, with a space before them.
fn put_register_rule(text: &mut Vec<u8>, rule: &(u64, Rule)) -> Result<(), NoMemory>
    ensures { OnOk result (text.new.items ≡ text.old.items ++ register_rule rule.now) }
{
    text.push(b' ')?;
    put_register(text, rule.0)?;
    text.push(b'=')?;
    put_rule(text, &rule.1)?;
    Ok(())
}

// Appends registers with their rules, one after another.
fn put_rules(text: &mut Vec<u8>, rules: &[(u64, Rule)]) -> Result<(), NoMemory>
    ensures { OnOk result (text.new.items ≡ text.old.items ++ flat_map register_rule rules.now) }
{
    for rule in rules {
        put_register_rule(text, rule)?;
    }
    Ok(())
}

// Appends `row`, and the column `ra` of the return address.
fn put_cfi_row(text: &mut Vec<u8>, row: &Row, ra: u64) -> Result<(), NoMemory>
    ensures { OnOk result (text.new.items ≡ text.old.items
        ++ (cfa_text row.now.cfa ++ codes " ra " ++ register_text ra ++ flat_map register_rule row.now.rules)) }
{
    put_cfa(text, &row.cfa)?;
    text.extend_from_slice(b" ra ")?;
    put_register(text, ra)?;
    put_rules(text, &row.rules)?;
    Ok(())
}

// Appends `handler`, the address of the personality routine, or with a `*` the address of a pointer to it. 0 means
// none.
fn put_handler(text: &mut Vec<u8>, handler: u64, indirect: bool) -> Result<(), NoMemory>
    ensures { OnOk result (text.new.items ≡ text.old.items ++ handler_text handler indirect) }
{
    if handler == 0 {
        return Ok(());
    }
    text.extend_from_slice(b" handler ")?;
    put_if(text, indirect, b"*")?;
    put_hex(text, handler)?;
    Ok(())
}

// Appends the line of an unwind table's answer.
fn put_unwind(text: &mut Vec<u8>, x: &FrameAt) -> Result<(), NoMemory>
    ensures { OnOk result (text.new.items ≡ text.old.items ++ unwind_line x.now) }
{
    text.extend_from_slice(b"unwind cfa ")?;
    put_cfi_row(text, &x.row, x.ra)?;
    put_handler(text, x.handler, x.indirect)?;
    put_address(text, b" table ", x.table)?;
    put_if(text, x.signal, b" signal")?;
    text.push(b'\n')?;
    Ok(())
}

/// Appends the line of an unwind table's answer, if there is one.
pub fn put_frame(text: &mut Vec<u8>, said: &Option<FrameAt>) -> Result<(), NoMemory>
    ensures { OnOk result (text.new.items ≡ text.old.items ++ option_map_or unwind_line said.now []) }
{
    match said {
        Some(at) => put_unwind(text, at),
        None => Ok(()),
    }
}
