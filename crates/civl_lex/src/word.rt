// Names and reserved words.
ghost use Rattle.std.specs.Prelude.{◌≡◌};
ghost use Rattle.std.specs.List.{list_all, take_while};
ghost use Rattle.civl_tree.specs.Token.{is_name, is_name_byte, is_reserved, is_identifier};
ghost use Rattle.civl_lex.specs.inner.Front.{word_of, IsCut};
ghost use Rattle.civl_lex.specs.Spelled.{spelled_token};

use crate::run::{begins_name, is_name_byte, name_len};
use crate::table::is_among;
use crate::token::{Kind, Token};

const RESERVED: [&[u8]; 59] = [
    b"civl",
    b"layers",
    b"permissions",
    b"global",
    b"linear",
    b"init",
    b"invariant",
    b"action",
    b"choose",
    b"to",
    b"atomic",
    b"right",
    b"left",
    b"both",
    b"gate",
    b"guard",
    b"proc",
    b"refines",
    b"with",
    b"layer",
    b"root",
    b"var",
    b"call",
    b"yield",
    b"commit",
    b"intro",
    b"if",
    b"else",
    b"while",
    b"rank",
    b"by",
    b"inv",
    b"assert",
    b"true",
    b"false",
    b"done",
    b"old",
    b"get",
    b"set",
    b"fill",
    b"slice",
    b"widen",
    b"join",
    b"bool",
    b"word",
    b"row",
    b"val",
    b"lend",
    b"take",
    b"give",
    b"thread",
    b"schedule",
    b"move",
    b"spawn",
    b"udiv",
    b"urem",
    b"slt",
    b"sle",
    b"sar",
];

fn is_reserved(text: &[u8]) -> bool
    ensures { result ≡ is_reserved text.now }
{
    is_among(text, &RESERVED)
}

fn are_name_bytes(text: &[u8]) -> bool
    ensures { result ≡ list_all is_name_byte text.now }
{
    text.iter().all(|byte| is_name_byte(*byte))
}

fn is_identifier(text: &[u8]) -> bool
    ensures { result ≡ is_identifier text.now }
{
    match text {
        [first, rest @ ..] => begins_name(*first) && are_name_bytes(rest),
        [] => false,
    }
}

/// Whether the text is a letter or `_`, followed by letters, digits and `_`, and no reserved word.
pub fn is_name(text: &[u8]) -> bool
    ensures { result ≡ is_name text.now }
{
    is_identifier(text) && !is_reserved(text)
}

/// The name or reserved word at the front of `rest`, which stands at place `start` of the source.
pub fn word<'a>(rest: &'a [u8], start: usize) -> Token<'a>
    ensures token { spelled_token result ≡ word_of (take_while is_name_byte rest.now) }
    ensures cut { IsCut rest.now start result }
{
    let text = &rest[..name_len(rest)];
    let kind = if is_reserved(text) {
        Kind::Word
    } else {
        Kind::Name
    };
    Token { kind, text, start }
}
