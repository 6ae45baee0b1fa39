// Parameters and outputs.
ghost use Rattle.std.specs.Prelude.{◌≡◌};
ghost use Rattle.civl_tree.specs.Token.{Reserved};
ghost use Rattle.civl_lex.specs.Spelled.{spelled, spelled_token};
ghost use Rattle.civl_phrases.specs.Reader.{Gives};
ghost use Rattle.civl_phrases.specs.Table.{lookup};
ghost use Rattle.civl_expressions.specs.readers.Headings.{mode_table, has_mode, mode_at, param_at, params_at, heading_at};

use crate::brackets::open_bracket;
use crate::names::name;
use crate::sorts::sort;
use civl_lex::Token;
use civl_phrases::{Halt, Phrase, commas, is_word, not_here, sign, word};
use civl_tree::{List, Mode, Name, Param};
use std::alloc::Global;

fn mode_of(token: &Token<'_>) -> Option<Mode>
    ensures { result ≡ lookup mode_table (spelled_token token.now) }
{
    if is_word(token, b"val") {
        Some(Mode::Val)
    } else if is_word(token, b"lend") {
        Some(Mode::Lend)
    } else if is_word(token, b"take") {
        Some(Mode::Take)
    } else if is_word(token, b"give") {
        Some(Mode::Give)
    } else {
        None
    }
}

/// Whether an output has the mode, or a parameter where `out` is false.
fn has_mode(out: bool, mode: Mode) -> bool
    ensures { result ≡ has_mode out mode }
{
    match mode {
        Mode::Val => true,
        Mode::Lend | Mode::Take => !out,
        Mode::Give => out,
    }
}

#[tactic(auto, unfolding(crate::specs::readers::Headings::mode_at, civl_phrases::specs::Reader::leaf))]
fn mode<'t, 'a>(out: bool, tokens: &'t [Token<'a>]) -> Result<(Mode, &'t [Token<'a>]), Halt>
    ensures { Gives (λ x. (x.0, spelled x.1.now)) result (mode_at out (spelled tokens.now)) }
{
    match tokens {
        [next, rest @ ..] => match mode_of(next) {
            Some(mode) => {
                if has_mode(out, mode) {
                    Ok((mode, rest))
                } else {
                    Err(not_here(tokens))
                }
            }
            None => Err(not_here(tokens)),
        },
        [] => Err(not_here(tokens)),
    }
}

#[tactic(auto, unfolding(crate::specs::readers::Headings::param_at, civl_phrases::specs::Reader::mapped, civl_phrases::specs::Reader::both, civl_phrases::specs::Reader::after))]
fn param<'t, 'a>(
    alloc: Global,
    out: bool,
    most: usize,
    tokens: &'t [Token<'a>],
) -> Result<(Param, &'t [Token<'a>]), Halt>
    ensures { Gives (λ x. (x.0, spelled x.1.now)) result (param_at out most (spelled tokens.now)) }
{
    let (mode, rest) = mode(out, tokens)?;
    let (name, rest) = name(alloc, rest)?;
    let rest = sign(rest, b":")?;
    let (sort, rest) = sort(most, rest)?;
    Ok((Param { mode, name, sort }, rest))
}

/// Outputs, or parameters where `out` is false, where `most` more brackets may be open.
#[derive(Drop)]
pub struct ParamPhrase {
    pub out: bool,
    pub most: usize,
}

impl Phrase for ParamPhrase {
    type Item = Param;

    ghost reader = { λ phrase. param_at phrase.out phrase.most };

    fn read<'t, 'a>(
        &self,
        alloc: Global,
        tokens: &'t [Token<'a>],
    ) -> Result<(Param, &'t [Token<'a>]), Halt> {
        param(alloc, self.out, self.most, tokens)
    }
}

#[tactic(auto, unfolding(crate::specs::readers::Headings::params_at, civl_phrases::specs::Reader::opened))]
fn params<'t, 'a>(
    alloc: Global,
    out: bool,
    most: usize,
    tokens: &'t [Token<'a>],
) -> Result<(List<Param>, &'t [Token<'a>]), Halt>
    ensures { Gives (λ x. (x.0, spelled x.1.now)) result (params_at out most (spelled tokens.now)) }
{
    let rest = open_bracket(tokens, b"(", most)?;
    commas(
        alloc,
        &ParamPhrase {
            out,
            most: most - 1,
        },
        b")",
        rest,
    )
}

/// How an action or a procedure begins: its name, its parameters and its outputs.
#[derive(Drop)]
pub struct Heading {
    pub name: Name,
    pub params: List<Param>,
    pub outs: List<Param>,
}

/// The word, a name, parameters and outputs, and the tokens behind them.
///
/// # Errors
///
/// - `NotHere` at the first token with which none goes on.
/// - `Deep` at a bracket that may stand there and may not be opened.
#[tactic(auto, unfolding(crate::specs::readers::Headings::heading_at, civl_phrases::specs::Reader::mapped, civl_phrases::specs::Reader::both, civl_phrases::specs::Reader::after))]
pub fn read_heading<'t, 'a>(
    alloc: Global,
    text: &[u8],
    most: usize,
    tokens: &'t [Token<'a>],
) -> Result<(Heading, &'t [Token<'a>]), Halt>
    ensures { Gives (λ x. (x.0, spelled x.1.now)) result (heading_at (Reserved text.now) most (spelled tokens.now)) }
{
    let rest = word(tokens, text)?;
    let (name, rest) = name(alloc, rest)?;
    let (inputs, rest) = params(alloc, false, most, rest)?;
    let rest = sign(rest, b"->")?;
    let (outs, rest) = params(alloc, true, most, rest)?;
    let heading = Heading {
        name,
        params: inputs,
        outs,
    };
    Ok((heading, rest))
}
