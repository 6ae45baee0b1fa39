// Places in a program, and what is wrong there.
ghost use Rattle.std.specs.Prelude.{◌≡◌, ◌<◌, ◌^◌, ◌++◌, [], ◌∷◌, OnOk, length};
ghost use Rattle.civl_tree.specs.SpellingProgram.{spell_program};
ghost use Rattle.civl_lines.specs.Tokens.{AreTokens};
ghost use Rattle.civl_lines.specs.Rendered.{lines_text, offset_of};
ghost use Rattle.civl_refusals.specs.Refusals.{at_item, fault_told, init_spot, item_at, item_line, spot_told};

use crate::faults::put_fault;
use civl_lines::{Form, Kind, Line, Shown, Text, offset_of, put_lines};
use civl_places::item_token;
use civl_tree::{List, Memory, Program};
use std::alloc::Global;

/// A place in a program: an item, by its number, and a token in it, where there is one.
#[derive(Clone, Copy, Debug, PartialEq, Eq)]
pub(crate) struct Spot {
    pub item: usize,
    pub inside: Option<usize>,
}

/// An item, and nothing in it.
pub(crate) fn at_item(item: usize) -> Spot
    ensures { result ≡ at_item item }
{
    Spot { item, inside: None }
}

/// The item of `init`.
pub(crate) fn init_spot(program: &Program) -> Spot
    ensures { result ≡ init_spot program.now }
{
    at_item(program.globals.len())
}

/// The token of an item.
pub(crate) fn item_at(program: &Program, item: usize) -> usize
    requires { length (spell_program program.now) < 2 ^ 64 }
    ensures { result ≡ item_at program.now item }
{
    match item_token(program, item) {
        Some(token) => token,
        None => 0,
    }
}

/// An item as a line of a story.
fn item_line(alloc: Global, program: &Program, item: usize) -> Line
    requires { length (spell_program program.now) < 2 ^ 64 }
    ensures { result ≡ item_line program.now item }
{
    Line {
        token: item_at(program, item),
        shown: Shown::Tokens(2),
        kind: Kind::Info,
        text: List::new(alloc),
    }
}

/// An item, written as a line of a story.
fn put_item(
    alloc: Global,
    out: &mut Vec<u8>,
    form: Form,
    text: &Text<'_>,
    program: &Program,
    item: usize,
) -> Result<(), Memory>
    requires short { length (spell_program program.now) < 2 ^ 64 }
    requires tokens { AreTokens text.now.bytes.now text.now.tokens.now }
    ensures { OnOk result (out.new.items ≡ out.old.items
        ++ lines_text form text.now.bytes.now text.now.tokens.now (item_line program.now item ∷ [])) }
{
    let mut lines = Vec::new(alloc);
    lines.push(item_line(alloc, program, item))?;
    put_lines(out, form, text, lines.as_slice())
}

/// Puts a token's place, and what is wrong there, behind what is there.
///
/// # Errors
///
/// For want of memory.
pub fn put_at(
    out: &mut Vec<u8>,
    form: Form,
    text: &Text<'_>,
    token: usize,
    said: &[u8],
) -> Result<(), Memory>
    requires { AreTokens text.now.bytes.now text.now.tokens.now }
    ensures { OnOk result (out.new.items ≡ out.old.items
        ++ fault_told form text.now.bytes.now (offset_of text.now.bytes.now text.now.tokens.now token) said.now) }
{
    put_fault(out, form, text.bytes, offset_of(text, token), said)
}

/// Puts the item, and the place in it with what is wrong there, behind what is there; or the item alone with this.
///
/// # Errors
///
/// For want of memory.
pub(crate) fn put_spot(
    alloc: Global,
    out: &mut Vec<u8>,
    form: Form,
    text: &Text<'_>,
    program: &Program,
    spot: Spot,
    said: &[u8],
) -> Result<(), Memory>
    requires short { length (spell_program program.now) < 2 ^ 64 }
    requires tokens { AreTokens text.now.bytes.now text.now.tokens.now }
    ensures { OnOk result (out.new.items ≡ out.old.items
        ++ spot_told form text.now.bytes.now text.now.tokens.now program.now spot said.now) }
{
    match spot.inside {
        Some(token) => {
            put_item(alloc, out, form, text, program, spot.item)?;
            put_at(out, form, text, token, said)
        }
        None => put_at(out, form, text, item_at(program, spot.item), said),
    }
}
