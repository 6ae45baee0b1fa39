// Lists of phrases, and optional phrases.
ghost use Rattle.civl_tree.specs.Token.{Sign};
ghost use Rattle.civl_lex.specs.Spelled.{spelled};
ghost use Rattle.civl_phrases.specs.Reader.{Gives};
ghost use Rattle.civl_phrases.specs.List.{repeated, series, enclosed, option_of, front};

use crate::behind::BehindComma;
use crate::halt::Halt;
use crate::left::Left;
use crate::phrase::{Headed, Phrase};
use crate::take::{closing, not_here, sign_next};
use civl_lex::Token;
use civl_tree::List;
use std::alloc::Global;

/// The phrase at the front, and the tokens behind it, for a loop to go on with.
fn next_of<'t, 'a, P: Phrase>(
    alloc: Global,
    phrase: &P,
    tokens: &'t [Token<'a>],
) -> Result<(P::Item, Left<'t, 'a>), Halt>
    ensures { Gives (λ x. (x.0, spelled x.1.tokens.now)) result (P.reader phrase.now (spelled tokens.now)) }
{
    let (item, rest) = phrase.read(alloc, tokens)?;
    Ok((item, Left { tokens: rest }))
}

/// These items, and behind them the phrases at the front, as long as one is next; and the tokens behind those.
///
/// # Errors
///
/// Those of a phrase that begins and goes wrong.
fn more<'t, 'a, P: Headed>(
    alloc: Global,
    phrase: &P,
    items: List<P::Item>,
    tokens: &'t [Token<'a>],
) -> Result<(List<P::Item>, &'t [Token<'a>]), Halt>
    ensures { Gives (λ x. (x.0, spelled x.1.now)) result (front items (repeated (P.heads phrase.now) (P.reader phrase.now) (spelled tokens.now))) }
{
    let mut items = items;
    let mut left = Left { tokens };
    // There are no more phrases than tokens.
    'items: for _ in 0..tokens.len() + 1 {
        if !phrase.is_next(left.tokens) {
            return Ok((items, left.tokens));
        }
        let (item, next) = next_of(alloc, phrase, left.tokens)?;
        items.push(item)?;
        left = next;
    }
    Err(not_here(left.tokens))
}

/// The phrases at the front, as long as one is next, and the tokens behind them.
///
/// # Errors
///
/// - Those of a phrase that begins and goes wrong.
/// - `Memory` where memory is wanting.
pub fn many<'t, 'a, P: Headed>(
    alloc: Global,
    phrase: &P,
    tokens: &'t [Token<'a>],
) -> Result<(List<P::Item>, &'t [Token<'a>]), Halt>
    ensures { Gives (λ x. (x.0, spelled x.1.now)) result (repeated (P.heads phrase.now) (P.reader phrase.now) (spelled tokens.now)) }
{
    more(alloc, phrase, List::new(alloc), tokens)
}

/// A phrase, and one more behind each comma; and the tokens behind them.
///
/// # Errors
///
/// Those of a phrase that goes wrong, also behind a comma.
#[tactic(auto, unfolding(crate::specs::List::series, crate::specs::Reader::mapped, crate::specs::Reader::both))]
fn one_or_more<'t, 'a, P: Phrase>(
    alloc: Global,
    phrase: &P,
    tokens: &'t [Token<'a>],
) -> Result<(List<P::Item>, &'t [Token<'a>]), Halt>
    ensures { Gives (λ x. (x.0, spelled x.1.now)) result (series (P.reader phrase.now) (spelled tokens.now)) }
{
    let (first, rest) = phrase.read(alloc, tokens)?;
    let mut items = List::new(alloc);
    items.push(first)?;
    more(alloc, &BehindComma { phrase }, items, rest)
}

/// Nothing, or phrases with commas between them, and then the closing bracket; and the tokens behind it.
///
/// # Errors
///
/// - Those of a phrase that goes wrong, also behind a comma.
/// - `NotHere` where neither a comma nor the bracket stands behind a phrase.
/// - `Memory` where memory is wanting.
#[tactic(auto, unfolding(crate::specs::List::enclosed, crate::specs::Reader::chosen, crate::specs::Reader::then_token, crate::specs::Reader::mapped, crate::specs::Reader::both))]
pub fn commas<'t, 'a, P: Phrase>(
    alloc: Global,
    phrase: &P,
    close: &[u8],
    tokens: &'t [Token<'a>],
) -> Result<(List<P::Item>, &'t [Token<'a>]), Halt>
    ensures { Gives (λ x. (x.0, spelled x.1.now)) result (enclosed (Sign close.now) (P.reader phrase.now) (spelled tokens.now)) }
{
    if sign_next(tokens, close) {
        Ok((List::new(alloc), closing(tokens, close)?))
    } else {
        let (items, rest) = one_or_more(alloc, phrase, tokens)?;
        let rest = closing(rest, close)?;
        Ok((items, rest))
    }
}

/// The phrase at the front, if one is next, and the tokens behind it.
///
/// # Errors
///
/// - Those of a phrase that begins and goes wrong.
/// - `Memory` where memory is wanting.
#[tactic(auto, unfolding(crate::specs::List::option_of, crate::specs::Reader::chosen, crate::specs::Reader::mapped, crate::specs::Reader::done))]
pub fn optional<'t, 'a, P: Headed>(
    alloc: Global,
    phrase: &P,
    tokens: &'t [Token<'a>],
) -> Result<(Option<P::Item>, &'t [Token<'a>]), Halt>
    ensures { Gives (λ x. (x.0, spelled x.1.now)) result (option_of (P.heads phrase.now) (P.reader phrase.now) (spelled tokens.now)) }
{
    if phrase.is_next(tokens) {
        let (item, rest) = phrase.read(alloc, tokens)?;
        Ok((Some(item), rest))
    } else {
        Ok((None, tokens))
    }
}
