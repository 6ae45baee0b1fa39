// Places in a text, and what is wrong there.
ghost use Rattle.std.specs.Prelude.{◌≡◌, ◌≤◌, ◌++◌, OnOk, length, map, take, if◌then◌else◌, codes, []};
ghost use Rattle.civl_lines.specs.Rendered.{position_of};
ghost use Rattle.civl_refusals.specs.Refusals.{candidate_text, candidates_text, caret_text, expected_text, fault_told, margin_byte, margin_text};

use civl_expected::{Candidate, Expected};
use civl_lines::{Form, put_place, without_return};
use civl_places::{Position, line_at, position_at};
use civl_tree::Memory;
use civl_verdicts::reports::put;

/// What stands under a byte of a line, before a caret: a tab under a tab, and a blank under any other byte.
fn margin_byte(byte: u8) -> u8
    ensures { result ≡ margin_byte byte }
{
    if byte == b'\t' { b'\t' } else { b' ' }
}

/// The same under each of these.
fn put_under(out: &mut Vec<u8>, bytes: &[u8]) -> Result<(), Memory>
    ensures { OnOk result (out.new.items ≡ out.old.items ++ map margin_byte bytes.now) }
{
    for byte in bytes {
        out.push(margin_byte(*byte))?;
    }
    Ok(())
}

/// The first bytes of a line, so many or all.
fn first_bytes(line: &[u8], count: usize) -> &[u8]
    ensures { result.now ≡ take count line.now }
{
    if count >= line.len() {
        return line;
    }
    &line[..count]
}

/// A caret under a column of a line.
fn put_caret(out: &mut Vec<u8>, line: &[u8], column: usize) -> Result<(), Memory>
    ensures { OnOk result (out.new.items ≡ out.old.items ++ (codes "    " ++ (margin_text line.now column ++ codes "^\n"))) }
{
    put(out, b"    ")?;
    put_under(out, first_bytes(line, column.saturating_sub(1)))?;
    put(out, b"^\n")
}

/// The line of an offset, and a caret under its column.
fn put_marked(out: &mut Vec<u8>, bytes: &[u8], offset: usize) -> Result<(), Memory>
    requires { offset ≤ length bytes.now }
    ensures { OnOk result (out.new.items ≡ out.old.items ++ caret_text bytes.now offset) }
{
    let line = line_at(bytes, offset);
    put(out, b"    ")?;
    put(out, without_return(line))?;
    put(out, b"\n")?;
    put_caret(out, line, position_at(bytes, offset).column)
}

/// The line and the column of an offset.
fn position(bytes: &[u8], offset: usize) -> Position
    requires { offset ≤ length bytes.now }
    ensures { result ≡ position_of bytes.now offset }
{
    position_at(bytes, offset)
}

/// For people: the place and what is wrong there, and the line with a caret.
fn put_shown(out: &mut Vec<u8>, bytes: &[u8], offset: usize, text: &[u8]) -> Result<(), Memory>
    requires { offset ≤ length bytes.now }
    ensures { OnOk result (out.new.items ≡ out.old.items ++ fault_told Form.Story bytes.now offset text.now) }
{
    put(out, b"  ")?;
    put_place(out, position(bytes, offset))?;
    put(out, b"  ")?;
    put(out, text)?;
    put(out, b"\n")?;
    put_marked(out, bytes, offset)
}

/// For editors: the place and what is wrong there.
fn put_finding(out: &mut Vec<u8>, bytes: &[u8], offset: usize, text: &[u8]) -> Result<(), Memory>
    requires { offset ≤ length bytes.now }
    ensures { OnOk result (out.new.items ≡ out.old.items ++ fault_told Form.Findings bytes.now offset text.now) }
{
    put_place(out, position(bytes, offset))?;
    put(out, b": error: ")?;
    put(out, text)?;
    put(out, b"\n")
}

/// Puts a place and what is wrong there behind what is there.
///
/// # Errors
///
/// For want of memory.
pub fn put_fault(
    out: &mut Vec<u8>,
    form: Form,
    bytes: &[u8],
    offset: usize,
    text: &[u8],
) -> Result<(), Memory>
    requires { offset ≤ length bytes.now }
    ensures { OnOk result (out.new.items ≡ out.old.items ++ fault_told form bytes.now offset text.now) }
{
    match form {
        Form::Story => put_shown(out, bytes, offset, text),
        Form::Findings => put_finding(out, bytes, offset, text),
    }
}

/// A sign or a word in backquotes.
fn put_quoted(out: &mut Vec<u8>, text: &[u8]) -> Result<(), Memory>
    ensures { OnOk result (out.new.items ≡ out.old.items ++ (codes " `" ++ (text.now ++ codes "`"))) }
{
    put(out, b" `")?;
    put(out, text)?;
    put(out, b"`")
}

/// What may stand at a place.
fn put_candidate(out: &mut Vec<u8>, candidate: Candidate) -> Result<(), Memory>
    ensures { OnOk result (out.new.items ≡ out.old.items ++ candidate_text candidate) }
{
    match candidate {
        Candidate::Sign(text) => put_quoted(out, text),
        Candidate::Word(text) => put_quoted(out, text),
        Candidate::Name => put(out, b" NAME"),
        Candidate::Number => put(out, b" NUMBER"),
    }
}

/// The same of each of these.
fn put_candidates(out: &mut Vec<u8>, candidates: &[Candidate]) -> Result<(), Memory>
    ensures { OnOk result (out.new.items ≡ out.old.items ++ candidates_text candidates.now) }
{
    for candidate in candidates {
        put_candidate(out, *candidate)?;
    }
    Ok(())
}

/// The end of the text, where it may stand.
fn put_end(out: &mut Vec<u8>, end: bool) -> Result<(), Memory>
    ensures { OnOk result (out.new.items ≡ out.old.items ++ (if end then codes " the end" else [])) }
{
    if end {
        return put(out, b" the end");
    }
    Ok(())
}

/// Puts all that may stand at a place behind what is there.
///
/// # Errors
///
/// For want of memory.
pub fn put_expected(out: &mut Vec<u8>, expected: &Expected) -> Result<(), Memory>
    ensures { OnOk result (out.new.items ≡ out.old.items ++ expected_text expected.now) }
{
    put(out, b"expected")?;
    put_candidates(out, expected.candidates.as_slice())?;
    put_end(out, expected.end)
}
