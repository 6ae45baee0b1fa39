// Places in a source text, and pieces of it.
ghost use Rattle.std.specs.Prelude.{◌≡◌, ◌≤◌, ◌++◌, ◌-◌, OnOk, length, take, drop, option_map};
ghost use Rattle.std.specs.List.{before_first};
ghost use Rattle.civl_places.specs.Lines.{is_feed};
ghost use Rattle.civl_lines.specs.Tokens.{AreTokens};
ghost use Rattle.civl_lines.specs.Rendered.{cut, head_count, is_sign, last_of, offset_of, place_of, place_text, position_of, shown_text, tokens_text, without_return};

use crate::line::Shown;
use civl_lex::Token;
use civl_places::{Position, line_at, position_at};
use civl_tree::Memory;
use civl_verdicts::reports::{put, put_number};

/// A text with its tokens.
#[derive(Clone, Copy)]
pub struct Text<'a> {
    pub bytes: &'a [u8],
    pub tokens: &'a [Token<'a>],
}

/// The line and the column of an offset.
fn position(bytes: &[u8], offset: usize) -> Position
    requires { offset ≤ length bytes.now }
    ensures { result ≡ position_of bytes.now offset }
{
    position_at(bytes, offset)
}

/// Where the token with this number begins, or where the text ends if there is no such token.
pub fn offset_of(text: &Text<'_>, number: usize) -> usize
    requires { AreTokens text.now.bytes.now text.now.tokens.now }
    ensures offset { result ≡ offset_of text.now.bytes.now text.now.tokens.now number }
    ensures within { result ≤ length text.now.bytes.now }
{
    match text.tokens.get(number) {
        Some(token) => token.start,
        None => text.bytes.len(),
    }
}

/// The line and the column at which the token with this number begins, or those of the end where there is no such token.
pub fn place_of(text: &Text<'_>, number: usize) -> Position
    requires { AreTokens text.now.bytes.now text.now.tokens.now }
    ensures { result ≡ place_of text.now.bytes.now text.now.tokens.now number }
{
    position(text.bytes, offset_of(text, number))
}

/// Puts `line:column` behind what is there.
///
/// # Errors
///
/// For want of memory.
pub fn put_place(out: &mut Vec<u8>, position: Position) -> Result<(), Memory>
    ensures { OnOk result (out.new.items ≡ out.old.items ++ place_text position) }
{
    put_number(out, position.line)?;
    put(out, b":")?;
    put_number(out, position.column)
}

/// What stands before the first line feed.
fn first_line(bytes: &[u8]) -> &[u8]
    ensures { result.now ≡ before_first is_feed bytes.now }
{
    line_at(bytes, 0)
}

/// The bytes from an offset up to another.
fn between(bytes: &[u8], start: usize, end: usize) -> &[u8]
    ensures { result.now ≡ take (end - start) (drop start bytes.now) }
{
    if start >= bytes.len() {
        return &[];
    }
    if end <= start {
        return &[];
    }
    if end >= bytes.len() {
        return &bytes[start..];
    }
    &bytes[start..end]
}

/// A line without the carriage return that stands at its end, if one does.
///
/// Nothing is allocated.
pub fn without_return(line: &[u8]) -> &[u8]
    ensures { result.now ≡ without_return line.now }
{
    let before = line.len().saturating_sub(1);
    match line.get(before) {
        Some(byte) => {
            if *byte == b'\r' {
                &line[..before]
            } else {
                line
            }
        }
        None => line,
    }
}

/// The same, without what stands behind a line feed.
fn cut(bytes: &[u8], start: usize, end: usize) -> &[u8]
    ensures { result.now ≡ cut bytes.now start end }
{
    without_return(first_line(between(bytes, start, end)))
}

/// Whether a token is spelled so.
fn is_sign(token: &Token<'_>, sign: &[u8]) -> bool
    ensures { result ≡ is_sign sign.now token.now }
{
    token.text == sign
}

/// How many tokens the head of a statement has that begins with these tokens.
fn head_count(tokens: &[Token<'_>]) -> usize
    ensures { result ≡ head_count tokens.now }
{
    for at in 0..tokens.len() {
        if is_sign(&tokens[at], b";") {
            return at + 1;
        }
        if is_sign(&tokens[at], b"{") {
            return at;
        }
    }
    tokens.len()
}

/// The tokens from the one with this number on.
fn rest_of<'a, 'b>(tokens: &'a [Token<'b>], at: usize) -> &'a [Token<'b>]
    ensures { result.now ≡ drop at tokens.now }
{
    if at >= tokens.len() {
        return &[];
    }
    &tokens[at..]
}

/// The last of so many tokens, if there are so many.
fn last_of<'a, 'b>(rest: &'a [Token<'b>], count: usize) -> Option<&'a Token<'b>>
    ensures { option_map (λ t. t.now) result ≡ last_of rest.now count }
{
    if count == 0 {
        return None;
    }
    rest.get(count - 1)
}

/// So many tokens from the one with this number on.
fn tokens_text<'a>(text: &Text<'a>, at: usize, count: usize) -> &'a [u8]
    requires { AreTokens text.now.bytes.now text.now.tokens.now }
    ensures { result.now ≡ tokens_text text.now.bytes.now (drop at text.now.tokens.now) count }
{
    let rest = rest_of(text.tokens, at);
    match rest.get(0) {
        Some(first) => match last_of(rest, count) {
            Some(last) => cut(text.bytes, first.start, last.start + last.text.len()),
            None => &[],
        },
        None => &[],
    }
}

/// What of the source is shown from the token with this number on.
pub fn shown_text<'a>(text: &Text<'a>, at: usize, shown: Shown) -> &'a [u8]
    requires { AreTokens text.now.bytes.now text.now.tokens.now }
    ensures { result.now ≡ shown_text text.now.bytes.now text.now.tokens.now at shown }
{
    match shown {
        Shown::Nothing => &[],
        Shown::Head => tokens_text(text, at, head_count(rest_of(text.tokens, at))),
        Shown::Tokens(count) => tokens_text(text, at, count),
    }
}
