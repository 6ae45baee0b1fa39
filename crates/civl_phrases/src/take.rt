// Single words and signs.
ghost use Rattle.std.specs.Prelude.{◌≡◌, ◌-◌, ◌≤◌, [], length, drop, Ok};
ghost use Rattle.civl_tree.specs.Token.{Reserved, Sign};
ghost use Rattle.civl_lex.specs.Spelled.{spelled, spelled_token};
ghost use Rattle.civl_phrases.specs.Reader.{Gives, expect, enter, after, done, ended, flagged, begins, lookahead, is_same};
ghost use Rattle.civl_phrases.specs.Leaf.{is_named};
ghost use Rattle.civl_phrases.specs.declared.halt.Halt.TheVariants as halts;
ghost use Rattle.civl_phrases.specs.declared.halt.Stop.TheVariants as stops;

use crate::halt::{Halt, Stop};
use civl_lex::{Kind, Token};

/// The fault that nothing that may stand here does.
pub fn not_here(tokens: &[Token<'_>]) -> Halt
    ensures { result ≡ halts.Stop (stops.NotHere (length tokens.now)) }
{
    Halt::Stop(Stop::NotHere(tokens.len()))
}

/// Whether the token is this sign.
pub fn is_sign(token: &Token<'_>, text: &[u8]) -> bool
    ensures { result ≡ is_same (Sign text.now) (spelled_token token.now) }
{
    match token.kind {
        Kind::Sign => text == token.text,
        Kind::Name | Kind::Number(_) | Kind::Word => false,
    }
}

/// Whether the token is this reserved word.
pub fn is_word(token: &Token<'_>, text: &[u8]) -> bool
    ensures { result ≡ is_same (Reserved text.now) (spelled_token token.now) }
{
    match token.kind {
        Kind::Word => text == token.text,
        Kind::Name | Kind::Number(_) | Kind::Sign => false,
    }
}

/// Whether this sign is next.
pub fn sign_next(tokens: &[Token<'_>], text: &[u8]) -> bool
    ensures { result ≡ begins (Sign text.now) (lookahead (spelled tokens.now)) }
{
    match tokens {
        [next, ..] => is_sign(next, text),
        [] => false,
    }
}

/// Whether this reserved word is next.
pub fn word_next(tokens: &[Token<'_>], text: &[u8]) -> bool
    ensures { result ≡ begins (Reserved text.now) (lookahead (spelled tokens.now)) }
{
    match tokens {
        [next, ..] => is_word(next, text),
        [] => false,
    }
}

/// The tokens behind this sign.
///
/// # Errors
///
/// `NotHere` exactly where another token is next, or none.
#[tactic(auto, unfolding(crate::specs::Reader::expect))]
pub fn sign<'t, 'a>(tokens: &'t [Token<'a>], text: &[u8]) -> Result<&'t [Token<'a>], Halt>
    ensures { Gives (λ rest. spelled rest.now) result (expect (Sign text.now) (spelled tokens.now)) }
{
    match tokens {
        [next, rest @ ..] => {
            if is_sign(next, text) {
                Ok(rest)
            } else {
                Err(not_here(tokens))
            }
        }
        [] => Err(not_here(tokens)),
    }
}

/// The tokens behind this reserved word.
///
/// # Errors
///
/// `NotHere` exactly where another token is next, or none.
#[tactic(auto, unfolding(crate::specs::Reader::expect))]
pub fn word<'t, 'a>(tokens: &'t [Token<'a>], text: &[u8]) -> Result<&'t [Token<'a>], Halt>
    ensures { Gives (λ rest. spelled rest.now) result (expect (Reserved text.now) (spelled tokens.now)) }
{
    match tokens {
        [next, rest @ ..] => {
            if is_word(next, text) {
                Ok(rest)
            } else {
                Err(not_here(tokens))
            }
        }
        [] => Err(not_here(tokens)),
    }
}

/// The tokens behind this opening bracket, where so many more may be open.
///
/// # Errors
///
/// - `NotHere` exactly where the bracket isn't next.
/// - `Deep` exactly where it is next and no more may be open.
#[tactic(auto, unfolding(crate::specs::Reader::enter))]
pub fn open<'t, 'a>(
    tokens: &'t [Token<'a>],
    text: &[u8],
    most: usize,
) -> Result<&'t [Token<'a>], Halt>
    ensures { Gives (λ rest. spelled rest.now) result (enter (Sign text.now) most (spelled tokens.now)) }
{
    let rest = sign(tokens, text)?;
    if most == 0 {
        Err(Halt::Stop(Stop::Deep(tokens.len())))
    } else {
        Ok(rest)
    }
}

/// The tokens behind this sign, at the end of a phrase. As `sign`, in the form in which lists end.
///
/// # Errors
///
/// `NotHere` exactly where another token is next, or none.
#[tactic(auto, unfolding(crate::specs::Reader::after, crate::specs::Reader::done))]
pub fn closing<'t, 'a>(tokens: &'t [Token<'a>], text: &[u8]) -> Result<&'t [Token<'a>], Halt>
    ensures { Gives (λ rest. (Prim.tt, spelled rest.now)) result (after (Sign text.now) done (spelled tokens.now)) }
{
    sign(tokens, text)
}

/// Nothing, at the end of the tokens.
///
/// # Errors
///
/// `NotHere` exactly where there is a token.
#[tactic(auto, unfolding(crate::specs::Reader::ended))]
pub fn end(tokens: &[Token<'_>]) -> Result<(), Halt>
    ensures { Gives (λ _. (Prim.tt, [])) result (ended (spelled tokens.now)) }
{
    match tokens {
        [] => Ok(()),
        [_, ..] => Err(not_here(tokens)),
    }
}

/// The tokens from a place on.
pub fn from<'t, 'a>(tokens: &'t [Token<'a>], at: usize) -> &'t [Token<'a>]
    requires { at ≤ length tokens.now }
    ensures tokens { spelled result.now ≡ drop at (spelled tokens.now) }
    ensures len { length result.now ≡ length tokens.now - at }
{
    &tokens[at..]
}

/// Whether this reserved word is next, and the tokens behind it if it is.
#[tactic(auto, unfolding(crate::specs::Reader::flagged, crate::specs::Reader::chosen, crate::specs::Reader::mapped, crate::specs::Reader::after, crate::specs::Reader::expect, crate::specs::Reader::done))]
pub fn word_flag<'t, 'a>(tokens: &'t [Token<'a>], text: &[u8]) -> (bool, &'t [Token<'a>])
    ensures { flagged (Reserved text.now) (spelled tokens.now) ≡ Ok (result.0, spelled result.1.now) }
{
    match tokens {
        [next, rest @ ..] => {
            if is_word(next, text) {
                (true, rest)
            } else {
                (false, tokens)
            }
        }
        [] => (false, tokens),
    }
}

/// Whether a name is next.
pub fn name_next(tokens: &[Token<'_>]) -> bool
    ensures { result ≡ is_named (lookahead (spelled tokens.now)) }
{
    match tokens {
        [next, ..] => next.kind == Kind::Name,
        [] => false,
    }
}
