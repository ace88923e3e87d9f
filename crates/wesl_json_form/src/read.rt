//! From a text to a value, in one pass over its tokens.
ghost use Rattle.std.specs.Prelude.{◌≡◌, ◌<◌, length, Some, None, Err, IfOk, IfErr, OnOk};
ghost use Rattle.serde_json.specs.Read.{read as read_text};
ghost use Rattle.wesl_json_form.specs.View.{borrowed_view, items_view, members_view};
ghost use Rattle.wesl_json_form.specs.Text.{value_at, items_at, members_at};
ghost use Rattle.wesl_json_form.specs.declared.fault.ReadFault.TheVariants.{NotJson};

use crate::fault::ReadFault;
use crate::number_text::number_of;
use crate::stacks::Stacks;
use crate::value::{BorrowedValue, Members};
use bumpalo::Bump;
use json::{Reader, Scratch, Token};
use std::alloc::Global;

// How deep arrays and objects may nest.
const MAX_DEPTH: usize = 127;

/// The value that a text is, as JSON (RFC 8259) with arrays and objects nested at most 127 deep; of two members of an
/// object with one key the last counts. Texts without an escape are borrowed from it, the others from the scratch; lists stand
/// in the arena.
///
/// Refused with `NotJson` where the text is none, and for want of memory.
pub fn read_borrowed<'a>(
    alloc: Global,
    text: &'a str,
    scratch: &'a mut Scratch,
    arena: &'a Bump,
) -> Result<BorrowedValue<'a>, ReadFault>
    ensures ok { IfOk result (λ v. read_text text.now ≡ Some (borrowed_view v)) }
    ensures none { IfErr result (λ e. e ≡ NotJson → read_text text.now ≡ None) }
{
    let mut reader = Reader::new(text, scratch)?;
    let mut stacks = Stacks::new(alloc, arena);
    let value = read(&mut stacks, &mut reader, MAX_DEPTH)?;
    if reader.next().is_some() {
        return Err(ReadFault::NotJson);
    }
    Ok(value)
}

// The value that comes next.
#[cycle(read)]
#[tactic(auto, using(crate::proofs::Turns::at_tokens, crate::proofs::Views::shown))]
fn read<'a>(
    stacks: &mut Stacks<'a>,
    reader: &mut Reader<'a>,
    depth: usize,
) -> Result<BorrowedValue<'a>, ReadFault>
    ensures ok { IfOk result (λ v. value_at depth reader.old ≡ Some (borrowed_view v, reader.new)) }
    ensures none { result ≡ Err NotJson → value_at depth reader.old ≡ None }
    ensures shorter { OnOk result (length reader.new < length reader.old) }
    ensures items { OnOk result (stacks.new.items.items ≡ stacks.old.items.items) }
    ensures members { OnOk result (stacks.new.members.items ≡ stacks.old.members.items) }
{
    let token = reader.next().ok_or(ReadFault::NotJson)?;
    match token {
        Token::String(text) => Ok(BorrowedValue::String(text)),
        Token::Number(text) => match number_of(text) {
            Some(number) => Ok(BorrowedValue::Number(number)),
            None => Err(ReadFault::NotJson),
        },
        Token::Bool(truth) => Ok(BorrowedValue::Bool(truth)),
        Token::Null => Ok(BorrowedValue::Null),
        Token::BeginArray if depth > 0 => {
            Ok(BorrowedValue::Array(read_items(stacks, reader, depth - 1)?))
        }
        Token::BeginObject if depth > 0 => {
            Ok(BorrowedValue::Object(read_members(stacks, reader, depth - 1)?))
        }
        _ => Err(ReadFault::NotJson),
    }
}

// The items of an array whose bracket has passed.
#[cycle(read)]
#[inline(never)]
fn read_items<'a>(
    stacks: &mut Stacks<'a>,
    reader: &mut Reader<'a>,
    depth: usize,
) -> Result<&'a [BorrowedValue<'a>], ReadFault>
    ensures ok { IfOk result (λ vs. items_at depth reader.old ≡ Some (items_view vs.now, reader.new)) }
    ensures none { result ≡ Err NotJson → items_at depth reader.old ≡ None }
    ensures shorter { OnOk result (length reader.new < length reader.old) }
    ensures items { OnOk result (stacks.new.items.items ≡ stacks.old.items.items) }
    ensures members { OnOk result (stacks.new.members.items ≡ stacks.old.members.items) }
{
    let from = stacks.items.len();
    'items: while !reader.take_end_array() {
        let value = read(stacks, reader, depth)?;
        stacks.items.push(value)?;
    }
    Ok(stacks.end_items(from)?)
}

// The members of an object whose brace has passed.
#[cycle(read)]
#[inline(never)]
fn read_members<'a>(
    stacks: &mut Stacks<'a>,
    reader: &mut Reader<'a>,
    depth: usize,
) -> Result<Members<'a>, ReadFault>
    ensures ok { IfOk result
        (λ ms. members_at depth reader.old ≡ Some (members_view ms.now, reader.new)) }
    ensures none { result ≡ Err NotJson → members_at depth reader.old ≡ None }
    ensures shorter { OnOk result (length reader.new < length reader.old) }
    ensures items { OnOk result (stacks.new.items.items ≡ stacks.old.items.items) }
    ensures members { OnOk result (stacks.new.members.items ≡ stacks.old.members.items) }
{
    let from = stacks.members.len();
    'members: while let Some(text) = reader.next_key()? {
        let key = stacks.key(text)?;
        let value = read(stacks, reader, depth)?;
        stacks.members.push((key, value))?;
    }
    Ok(stacks.end_members(from)?)
}
