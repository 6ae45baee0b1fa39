// Numbers.
ghost use Rattle.std.specs.Prelude.{◌≡◌, ◌<◌, IfSome, IsTrue};
ghost use Rattle.std.specs.Char.{is_ascii_digit};
ghost use Rattle.std.specs.List.{take_while, prefix_len, list_all};
ghost use Rattle.std.specs.Option.{option_map};
ghost use Rattle.civl_tree.specs.Token.{Number};
ghost use Rattle.civl_lex.specs.inner.Front.{number_of, IsCut};
ghost use Rattle.civl_lex.specs.Spelled.{spelled_token};

use crate::run::digit_len;
use crate::token::{Kind, Token};

/// The value of the digits, where they have no leading zero and the value fits.
fn value_of(digits: &[u8]) -> Option<u32>
    requires { IsTrue (list_all is_ascii_digit digits.now) }
    ensures { result ≡ number_of digits.now }
{
    if digits.len() > 1 && digits[0] == b'0' {
        return None;
    }
    let mut value: u32 = 0;
    for digit in digits {
        value = value
            .checked_mul(10)?
            .checked_add(u32::from(*digit - b'0'))?;
    }
    Some(value)
}

/// The number at the front of `rest`, which stands at place `start` of the source.
pub fn number<'a>(rest: &'a [u8], start: usize) -> Option<Token<'a>>
    requires { 0 < prefix_len is_ascii_digit rest.now }
    ensures token { option_map spelled_token result
        ≡ option_map Number (number_of (take_while is_ascii_digit rest.now)) }
    ensures cut { IfSome result (IsCut rest.now start) }
{
    let text = &rest[..digit_len(rest)];
    let value = value_of(text)?;
    Some(Token {
        kind: Kind::Number(value),
        text,
        start,
    })
}
