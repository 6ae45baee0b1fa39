// Brackets, and numbers before the closing one.
ghost use Rattle.std.specs.Prelude.{◌<◌, IfOk};
ghost use Rattle.civl_tree.specs.Token.{Sign};
ghost use Rattle.civl_tree.specs.Spelling.{close_paren, comma};
ghost use Rattle.civl_lex.specs.Spelled.{spelled};
ghost use Rattle.civl_phrases.specs.Reader.{Gives, enter, after, both, then_token};
ghost use Rattle.civl_phrases.specs.Leaf.{a_number};

use civl_lex::Token;
use civl_phrases::{Halt, number, open, sign};

/// The tokens behind this opening bracket, where `most` more may be open; then fewer may be open in it.
///
/// # Errors
///
/// - `NotHere` exactly where the bracket isn't next.
/// - `Deep` exactly where it is next and no more may be open.
#[tactic(auto, unfolding(civl_phrases::specs::Reader::enter))]
pub fn open_bracket<'t, 'a>(
    tokens: &'t [Token<'a>],
    text: &[u8],
    most: usize,
) -> Result<&'t [Token<'a>], Halt>
    ensures read { Gives (λ rest. spelled rest.now) result (enter (Sign text.now) most (spelled tokens.now)) }
    ensures room { IfOk result (λ _. 0 < most) }
{
    open(tokens, text, most)
}

/// A comma, a number and the closing bracket.
#[tactic(auto, unfolding(civl_phrases::specs::Reader::after, civl_phrases::specs::Reader::then_token, civl_phrases::specs::Reader::mapped, civl_phrases::specs::Reader::both, civl_phrases::specs::Reader::done))]
pub fn last_number<'t, 'a>(tokens: &'t [Token<'a>]) -> Result<(u32, &'t [Token<'a>]), Halt>
    ensures { Gives (λ x. (x.0, spelled x.1.now)) result (after comma (then_token close_paren a_number) (spelled tokens.now)) }
{
    let rest = sign(tokens, b",")?;
    let (value, rest) = number(rest)?;
    let rest = sign(rest, b")")?;
    Ok((value, rest))
}

/// Two numbers, with a comma before each, and the closing bracket.
#[tactic(auto, unfolding(civl_phrases::specs::Reader::after, civl_phrases::specs::Reader::both))]
pub fn last_numbers<'t, 'a>(tokens: &'t [Token<'a>]) -> Result<((u32, u32), &'t [Token<'a>]), Halt>
    ensures { Gives (λ x. (x.0, spelled x.1.now)) result (after comma (both a_number (λ _. after comma (then_token close_paren a_number))) (spelled tokens.now)) }
{
    let rest = sign(tokens, b",")?;
    let (first, rest) = number(rest)?;
    let (second, rest) = last_number(rest)?;
    Ok(((first, second), rest))
}
