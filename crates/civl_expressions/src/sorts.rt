// Sorts.
ghost use Rattle.std.specs.Prelude.{◌≡◌};
ghost use Rattle.civl_lex.specs.Spelled.{spelled, spelled_token};
ghost use Rattle.civl_phrases.specs.Reader.{Gives, lookahead};
ghost use Rattle.civl_phrases.specs.Table.{lookup};
ghost use Rattle.civl_expressions.specs.readers.Exprs.{sort_table, sort_form, bool_at, word_at, row_at, sort_at};

use crate::brackets::last_number;
use crate::forms::SortForm;
use civl_lex::Token;
use civl_phrases::{Halt, is_word, not_here, number, open, sign, word};
use civl_tree::Sort;

fn sort_word(token: &Token<'_>) -> Option<SortForm>
    ensures { result ≡ lookup sort_table (spelled_token token.now) }
{
    if is_word(token, b"bool") {
        Some(SortForm::Bool)
    } else if is_word(token, b"word") {
        Some(SortForm::Word)
    } else if is_word(token, b"row") {
        Some(SortForm::Row)
    } else {
        None
    }
}

fn sort_form(tokens: &[Token<'_>]) -> Option<SortForm>
    ensures { result ≡ sort_form (lookahead (spelled tokens.now)) }
{
    match tokens {
        [next, ..] => sort_word(next),
        [] => None,
    }
}

#[tactic(auto, unfolding(crate::specs::readers::Exprs::bool_at, civl_phrases::specs::Reader::mapped, civl_phrases::specs::Reader::after, civl_phrases::specs::Reader::done))]
fn bool_sort<'t, 'a>(tokens: &'t [Token<'a>]) -> Result<(Sort, &'t [Token<'a>]), Halt>
    ensures { Gives (λ x. (x.0, spelled x.1.now)) result (bool_at (spelled tokens.now)) }
{
    let rest = word(tokens, b"bool")?;
    Ok((Sort::Bool, rest))
}

#[tactic(auto, unfolding(crate::specs::readers::Exprs::word_at, civl_phrases::specs::Reader::mapped, civl_phrases::specs::Reader::opened, civl_phrases::specs::Reader::after, civl_phrases::specs::Reader::then_token, civl_phrases::specs::Reader::both, civl_phrases::specs::Reader::done))]
fn word_sort<'t, 'a>(most: usize, tokens: &'t [Token<'a>]) -> Result<(Sort, &'t [Token<'a>]), Halt>
    ensures { Gives (λ x. (x.0, spelled x.1.now)) result (word_at most (spelled tokens.now)) }
{
    let rest = word(tokens, b"word")?;
    let rest = open(rest, b"(", most)?;
    let (width, rest) = number(rest)?;
    let rest = sign(rest, b")")?;
    Ok((Sort::Word(width), rest))
}

#[tactic(auto, unfolding(crate::specs::readers::Exprs::row_at, civl_phrases::specs::Reader::mapped, civl_phrases::specs::Reader::opened, civl_phrases::specs::Reader::after, civl_phrases::specs::Reader::both))]
fn row_sort<'t, 'a>(most: usize, tokens: &'t [Token<'a>]) -> Result<(Sort, &'t [Token<'a>]), Halt>
    ensures { Gives (λ x. (x.0, spelled x.1.now)) result (row_at most (spelled tokens.now)) }
{
    let rest = word(tokens, b"row")?;
    let rest = open(rest, b"(", most)?;
    let (index, rest) = number(rest)?;
    let (width, rest) = last_number(rest)?;
    Ok((Sort::Row(index, width), rest))
}

/// A sort, where `most` more brackets may be open, and the tokens behind it.
///
/// # Errors
///
/// - `NotHere` at the first token with which no sort goes on.
/// - `Deep` where it has a bracket and none may be opened.
#[tactic(auto, unfolding(crate::specs::readers::Exprs::sort_at, civl_phrases::specs::Reader::by_form))]
pub fn sort<'t, 'a>(most: usize, tokens: &'t [Token<'a>]) -> Result<(Sort, &'t [Token<'a>]), Halt>
    ensures { Gives (λ x. (x.0, spelled x.1.now)) result (sort_at most (spelled tokens.now)) }
{
    match sort_form(tokens) {
        Some(SortForm::Bool) => bool_sort(tokens),
        Some(SortForm::Word) => word_sort(most, tokens),
        Some(SortForm::Row) => row_sort(most, tokens),
        None => Err(not_here(tokens)),
    }
}
