// The entries and the steps of scripts.
ghost use Rattle.std.specs.Prelude.{◌≡◌, codes};
ghost use Rattle.civl_tree.specs.Token.{Reserved, Sign};
ghost use Rattle.civl_tree.specs.Spelling.{semicolon};
ghost use Rattle.civl_lex.specs.Spelled.{spelled, spelled_token};
ghost use Rattle.civl_phrases.specs.Reader.{Gives, begins, lookahead, after, then_token};
ghost use Rattle.civl_phrases.specs.Leaf.{is_named};
ghost use Rattle.civl_phrases.specs.Table.{lookup};
ghost use Rattle.civl_declarations.specs.readers.Steps.{literal_table, literal_form_of, literal_form, flag_at, number_literal_at, literal_at, value_at, make_entry, entry_at, make_chosen, chosen_at, chosens_at, move_word, step_at};

use crate::forms::LiteralForm;
use civl_expressions::{name, open_bracket};
use civl_lex::{Kind, Token};
use civl_phrases::{
    Halt, Headed, Phrase, commas, is_word, name_next, not_here, number, sign, sign_next, word,
    word_next,
};
use civl_tree::{Entry, List, Literal, Name, Told, beside};
use std::alloc::Global;

// ---- literals

fn flag_form(token: &Token<'_>) -> Option<LiteralForm>
    ensures { result ≡ lookup literal_table (spelled_token token.now) }
{
    if is_word(token, b"true") {
        Some(LiteralForm::True)
    } else if is_word(token, b"false") {
        Some(LiteralForm::False)
    } else {
        None
    }
}

fn form_of(token: &Token<'_>) -> Option<LiteralForm>
    ensures { result ≡ literal_form_of (spelled_token token.now) }
{
    match token.kind {
        Kind::Number(_) => Some(LiteralForm::Number),
        Kind::Word => flag_form(token),
        Kind::Name | Kind::Sign => None,
    }
}

fn next_form(tokens: &[Token<'_>]) -> Option<LiteralForm>
    ensures { result ≡ literal_form (lookahead (spelled tokens.now)) }
{
    match tokens {
        [next, ..] => form_of(next),
        [] => None,
    }
}

#[tactic(auto, unfolding(crate::specs::readers::Steps::flag_at, civl_phrases::specs::Reader::mapped, civl_phrases::specs::Reader::after, civl_phrases::specs::Reader::done))]
fn flag<'t, 'a>(
    text: &[u8],
    value: bool,
    tokens: &'t [Token<'a>],
) -> Result<(Literal, &'t [Token<'a>]), Halt>
    ensures { Gives (λ x. (x.0, spelled x.1.now)) result (flag_at (Reserved text.now) value (spelled tokens.now)) }
{
    let rest = word(tokens, text)?;
    Ok((Literal::Flag(value), rest))
}

#[tactic(auto, unfolding(crate::specs::readers::Steps::number_literal_at, civl_phrases::specs::Reader::mapped, civl_phrases::specs::Reader::both, civl_phrases::specs::Reader::after))]
fn number_literal<'t, 'a>(tokens: &'t [Token<'a>]) -> Result<(Literal, &'t [Token<'a>]), Halt>
    ensures { Gives (λ x. (x.0, spelled x.1.now)) result (number_literal_at (spelled tokens.now)) }
{
    let (value, rest) = number(tokens)?;
    let rest = sign(rest, b":")?;
    let (width, rest) = number(rest)?;
    Ok((Literal::Number(value, width), rest))
}

#[tactic(auto, unfolding(crate::specs::readers::Steps::literal_at, civl_phrases::specs::Reader::by_form))]
fn literal<'t, 'a>(tokens: &'t [Token<'a>]) -> Result<(Literal, &'t [Token<'a>]), Halt>
    ensures { Gives (λ x. (x.0, spelled x.1.now)) result (literal_at (spelled tokens.now)) }
{
    match next_form(tokens) {
        Some(LiteralForm::True) => flag(b"true", true, tokens),
        Some(LiteralForm::False) => flag(b"false", false, tokens),
        Some(LiteralForm::Number) => number_literal(tokens),
        None => Err(not_here(tokens)),
    }
}

/// Literals.
#[derive(Drop)]
struct LiteralPhrase;

impl Phrase for LiteralPhrase {
    type Item = Literal;

    ghost reader = { λ _. literal_at };

    fn read<'t, 'a>(
        &self,
        _alloc: Global,
        tokens: &'t [Token<'a>],
    ) -> Result<(Literal, &'t [Token<'a>]), Halt> {
        literal(tokens)
    }
}

// ---- values

/// One literal, or the cells of a row.
#[derive(Drop)]
pub struct Value {
    pub cells: List<Literal>,
    pub row: bool,
}

#[tactic(auto, unfolding(crate::specs::readers::Steps::value_at, civl_phrases::specs::Reader::chosen, civl_phrases::specs::Reader::mapped, civl_phrases::specs::Reader::opened))]
fn read_value<'t, 'a>(
    alloc: Global,
    most: usize,
    tokens: &'t [Token<'a>],
) -> Result<(Value, &'t [Token<'a>]), Halt>
    ensures { Gives (λ x. (x.0, spelled x.1.now)) result (value_at most (spelled tokens.now)) }
{
    if sign_next(tokens, b"[") {
        let rest = open_bracket(tokens, b"[", most)?;
        let (cells, rest) = commas(alloc, &LiteralPhrase, b"]", rest)?;
        Ok((Value { cells, row: true }, rest))
    } else {
        let (cell, rest) = literal(tokens)?;
        let mut cells = List::new(alloc);
        cells.push(cell)?;
        Ok((Value { cells, row: false }, rest))
    }
}

// ---- entries and steps

fn entry_of(name: Name, value: Value) -> Entry
    ensures { result ≡ make_entry (name, value) }
{
    let Value { cells, row } = value;
    Entry { name, cells, row }
}

/// The value of an entry, behind its name, up to the semicolon.
#[tactic(auto, unfolding(civl_phrases::specs::Reader::after, civl_phrases::specs::Reader::then_token, civl_phrases::specs::Reader::mapped, civl_phrases::specs::Reader::both, civl_phrases::specs::Reader::done))]
fn given_value<'t, 'a>(
    alloc: Global,
    most: usize,
    tokens: &'t [Token<'a>],
) -> Result<(Value, &'t [Token<'a>]), Halt>
    ensures { Gives (λ x. (x.0, spelled x.1.now)) result (after (Sign (codes "=")) (then_token semicolon (value_at most)) (spelled tokens.now)) }
{
    let rest = sign(tokens, b"=")?;
    let (value, rest) = read_value(alloc, most, rest)?;
    beside(value, sign(rest, b";"))
}

#[tactic(auto, unfolding(crate::specs::readers::Steps::entry_at, civl_phrases::specs::Reader::mapped, civl_phrases::specs::Reader::both))]
fn entry<'t, 'a>(
    alloc: Global,
    most: usize,
    tokens: &'t [Token<'a>],
) -> Result<(Entry, &'t [Token<'a>]), Halt>
    ensures { Gives (λ x. (x.0, spelled x.1.now)) result (entry_at most (spelled tokens.now)) }
{
    let (name, rest) = name(alloc, tokens)?;
    let (name, (value, rest)) = beside(name, given_value(alloc, most, rest))?;
    Ok((entry_of(name, value), rest))
}

/// Entries of a store, where `most` more brackets may be open.
#[derive(Drop)]
pub struct EntryPhrase {
    pub most: usize,
}

impl Phrase for EntryPhrase {
    type Item = Entry;

    ghost reader = { λ phrase. entry_at phrase.most };

    fn read<'t, 'a>(
        &self,
        alloc: Global,
        tokens: &'t [Token<'a>],
    ) -> Result<(Entry, &'t [Token<'a>]), Halt> {
        entry(alloc, self.most, tokens)
    }
}

impl Headed for EntryPhrase {
    ghost heads = { λ _. is_named };

    fn is_next(&self, tokens: &[Token<'_>]) -> bool {
        name_next(tokens)
    }
}

/// The value for a choice, which has the empty name.
fn chosen_of(alloc: Global, value: Value) -> Entry
    ensures { result ≡ make_chosen value }
{
    let name = Name {
        bytes: List::new(alloc),
    };
    entry_of(name, value)
}

#[tactic(auto, unfolding(crate::specs::readers::Steps::chosen_at, civl_phrases::specs::Reader::mapped))]
fn chosen<'t, 'a>(
    alloc: Global,
    most: usize,
    tokens: &'t [Token<'a>],
) -> Result<(Entry, &'t [Token<'a>]), Halt>
    ensures { Gives (λ x. (x.0, spelled x.1.now)) result (chosen_at most (spelled tokens.now)) }
{
    let (value, rest) = read_value(alloc, most, tokens)?;
    Ok((chosen_of(alloc, value), rest))
}

/// Values for choices, where `most` more brackets may be open.
#[derive(Drop)]
struct ChosenPhrase {
    most: usize,
}

impl Phrase for ChosenPhrase {
    type Item = Entry;

    ghost reader = { λ phrase. chosen_at phrase.most };

    fn read<'t, 'a>(
        &self,
        alloc: Global,
        tokens: &'t [Token<'a>],
    ) -> Result<(Entry, &'t [Token<'a>]), Halt> {
        chosen(alloc, self.most, tokens)
    }
}

#[tactic(auto, unfolding(crate::specs::readers::Steps::chosens_at, civl_phrases::specs::Reader::opened))]
fn chosens<'t, 'a>(
    alloc: Global,
    most: usize,
    tokens: &'t [Token<'a>],
) -> Result<(List<Entry>, &'t [Token<'a>]), Halt>
    ensures { Gives (λ x. (x.0, spelled x.1.now)) result (chosens_at most (spelled tokens.now)) }
{
    let rest = open_bracket(tokens, b"(", most)?;
    commas(alloc, &ChosenPhrase { most: most - 1 }, b")", rest)
}

#[tactic(auto, unfolding(crate::specs::readers::Steps::step_at, civl_phrases::specs::Reader::mapped, civl_phrases::specs::Reader::both, civl_phrases::specs::Reader::after, civl_phrases::specs::Reader::then_token, civl_phrases::specs::Reader::done))]
fn step<'t, 'a>(
    alloc: Global,
    most: usize,
    tokens: &'t [Token<'a>],
) -> Result<(Told, &'t [Token<'a>]), Halt>
    ensures { Gives (λ x. (x.0, spelled x.1.now)) result (step_at most (spelled tokens.now)) }
{
    let rest = word(tokens, b"move")?;
    let (thread, rest) = number(rest)?;
    let (choices, rest) = chosens(alloc, most, rest)?;
    beside(Told { thread, choices }, sign(rest, b";"))
}

/// Steps of a schedule, where `most` more brackets may be open.
#[derive(Drop)]
pub struct StepPhrase {
    pub most: usize,
}

impl Phrase for StepPhrase {
    type Item = Told;

    ghost reader = { λ phrase. step_at phrase.most };

    fn read<'t, 'a>(
        &self,
        alloc: Global,
        tokens: &'t [Token<'a>],
    ) -> Result<(Told, &'t [Token<'a>]), Halt> {
        step(alloc, self.most, tokens)
    }
}

impl Headed for StepPhrase {
    ghost heads = { λ _. begins move_word };

    fn is_next(&self, tokens: &[Token<'_>]) -> bool {
        word_next(tokens, b"move")
    }
}
