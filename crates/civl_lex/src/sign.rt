// Signs.
ghost use Rattle.std.specs.Prelude.{◌≡◌, ◌<◌, length, IfSome};
ghost use Rattle.std.specs.Option.{option_map};
ghost use Rattle.civl_tree.specs.Token.{is_sign};
ghost use Rattle.civl_lex.specs.inner.Front.{sign_of, IsCut};
ghost use Rattle.civl_lex.specs.Spelled.{spelled_token};

use crate::table::is_among;
use crate::token::{Kind, Token};

const SIGNS: [&[u8]; 30] = [
    b"(", b")", b"{", b"}", b"[", b"]", b",", b";", b":", b"?", b"!", b"~", b":=", b"->", b"+",
    b"-", b"*", b"&", b"|", b"^", b"<<", b">>", b"<", b"<=", b"==", b"!=", b"&&", b"||", b"=>",
    b"=",
];

fn is_sign(text: &[u8]) -> bool
    ensures { result ≡ is_sign text.now }
{
    is_among(text, &SIGNS)
}

/// The longest sign at the front of `rest`, which stands at place `start` of the source.
pub fn sign<'a>(rest: &'a [u8], start: usize) -> Option<Token<'a>>
    requires { 0 < length rest.now }
    ensures token { option_map spelled_token result ≡ sign_of rest.now }
    ensures cut { IfSome result (IsCut rest.now start) }
{
    let two = &rest[..rest.len().min(2)];
    let one = &rest[..1];
    let text = if is_sign(two) {
        two
    } else if is_sign(one) {
        one
    } else {
        return None;
    };
    let kind = Kind::Sign;
    Some(Token { kind, text, start })
}
