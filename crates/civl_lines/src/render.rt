// Lines, written.
ghost use Rattle.std.specs.Prelude.{◌≡◌, ◌++◌, OnOk};
ghost use Rattle.civl_lines.specs.Tokens.{AreTokens};
ghost use Rattle.civl_lines.specs.Rendered.{beside, kind_text, line_text, lines_text, shown_text};

use crate::line::{Kind, Line};
use crate::source::{Text, place_of, put_place, shown_text};
use civl_tree::{List, Memory};
use civl_verdicts::reports::put;

/// How lines are written: for people, each under the report with two blanks in front; or for editors, as
/// `line:column: kind: text`.
#[derive(Clone, Copy, Debug, PartialEq, Eq)]
pub enum Form {
    Story,
    Findings,
}

/// Puts two texts, with blanks between them where neither is empty.
fn put_beside(out: &mut Vec<u8>, first: &[u8], second: &[u8]) -> Result<(), Memory>
    ensures { OnOk result (out.new.items ≡ out.old.items ++ beside first.now second.now) }
{
    if first.is_empty() {
        return put(out, second);
    }
    if second.is_empty() {
        return put(out, first);
    }
    put(out, first)?;
    put(out, b"    ")?;
    put(out, second)
}

/// What the source shows of a line, and what it says.
fn put_said(out: &mut Vec<u8>, text: &Text<'_>, line: &Line) -> Result<(), Memory>
    requires { AreTokens text.now.bytes.now text.now.tokens.now }
    ensures { OnOk result (out.new.items ≡ out.old.items
        ++ beside (shown_text text.now.bytes.now text.now.tokens.now line.now.token line.now.shown) line.now.text) }
{
    put_beside(
        out,
        shown_text(text, line.token, line.shown),
        line.text.as_slice(),
    )
}

/// The word of a kind.
fn kind_text(kind: Kind) -> &'static [u8]
    ensures { result.now ≡ kind_text kind }
{
    match kind {
        Kind::Info => b"info",
        Kind::Error => b"error",
    }
}

/// A line for people.
fn put_story(out: &mut Vec<u8>, text: &Text<'_>, line: &Line) -> Result<(), Memory>
    requires { AreTokens text.now.bytes.now text.now.tokens.now }
    ensures { OnOk result (out.new.items ≡ out.old.items ++ line_text Form.Story text.now.bytes.now text.now.tokens.now line.now) }
{
    put(out, b"  ")?;
    put_place(out, place_of(text, line.token))?;
    put(out, b"  ")?;
    put_said(out, text, line)?;
    put(out, b"\n")
}

/// A line for editors.
fn put_finding(out: &mut Vec<u8>, text: &Text<'_>, line: &Line) -> Result<(), Memory>
    requires { AreTokens text.now.bytes.now text.now.tokens.now }
    ensures { OnOk result (out.new.items ≡ out.old.items ++ line_text Form.Findings text.now.bytes.now text.now.tokens.now line.now) }
{
    put_place(out, place_of(text, line.token))?;
    put(out, b": ")?;
    put(out, kind_text(line.kind))?;
    put(out, b": ")?;
    put_said(out, text, line)?;
    put(out, b"\n")
}

/// A line in a form.
fn put_line(out: &mut Vec<u8>, form: Form, text: &Text<'_>, line: &Line) -> Result<(), Memory>
    requires { AreTokens text.now.bytes.now text.now.tokens.now }
    ensures { OnOk result (out.new.items ≡ out.old.items ++ line_text form text.now.bytes.now text.now.tokens.now line.now) }
{
    match form {
        Form::Story => put_story(out, text, line),
        Form::Findings => put_finding(out, text, line),
    }
}

/// Puts the lines of a story behind what is there, each of them ended by a line feed.
///
/// # Errors
///
/// For want of memory.
pub fn put_lines(
    out: &mut Vec<u8>,
    form: Form,
    text: &Text<'_>,
    lines: &[Line],
) -> Result<(), Memory>
    requires { AreTokens text.now.bytes.now text.now.tokens.now }
    ensures { OnOk result (out.new.items ≡ out.old.items ++ lines_text form text.now.bytes.now text.now.tokens.now lines.now) }
{
    for line in lines {
        put_line(out, form, text, line)?;
    }
    Ok(())
}
