// Actions.
ghost use Rattle.std.specs.Prelude.{◌≡◌, codes};
ghost use Rattle.civl_tree.specs.Token.{Reserved, Sign};
ghost use Rattle.civl_tree.specs.Spelling.{colon};
ghost use Rattle.civl_lex.specs.Spelled.{spelled, spelled_token};
ghost use Rattle.civl_phrases.specs.Reader.{Gives, begins, after, both};
ghost use Rattle.civl_phrases.specs.Leaf.{is_named};
ghost use Rattle.civl_phrases.specs.Table.{lookup};
ghost use Rattle.civl_expressions.specs.readers.Exprs.{sort_at, expr_at};
ghost use Rattle.civl_declarations.specs.readers.Actions.{choice_at, choices_at, update_at, updates_at, mover_table, mover_at, range_at, offer_at, effect_at, make_action, action_at, action_word};

use civl_expressions::{Heading, ended_expr, expr, name, open_bracket, read_heading, sort};
use civl_lex::Token;
use civl_phrases::{
    Halt, Headed, Phrase, commas, is_word, many, name_next, not_here, number, sign, word, word_next,
};
use civl_tree::{Action, Choice, Expr, List, Mover, Sort, Update, beside};
use std::alloc::Global;

/// The sort of a choice and what it offers, behind its name.
#[tactic(auto, unfolding(civl_phrases::specs::Reader::after, civl_phrases::specs::Reader::both))]
fn sort_and_offer<'t, 'a>(
    alloc: Global,
    new: bool,
    most: usize,
    tokens: &'t [Token<'a>],
) -> Result<((Sort, Expr), &'t [Token<'a>]), Halt>
    ensures { Gives (λ x. (x.0, spelled x.1.now)) result (after colon (both (sort_at most) (λ _. after (Sign (codes "=")) (expr_at new most))) (spelled tokens.now)) }
{
    let rest = sign(tokens, b":")?;
    let (sort, rest) = sort(most, rest)?;
    let rest = sign(rest, b"=")?;
    let (offer, rest) = expr(alloc, new, most, rest)?;
    Ok(((sort, offer), rest))
}

#[tactic(auto, unfolding(crate::specs::readers::Actions::choice_at, civl_phrases::specs::Reader::mapped, civl_phrases::specs::Reader::both))]
fn choice<'t, 'a>(
    alloc: Global,
    new: bool,
    most: usize,
    tokens: &'t [Token<'a>],
) -> Result<(Choice, &'t [Token<'a>]), Halt>
    ensures { Gives (λ x. (x.0, spelled x.1.now)) result (choice_at new most (spelled tokens.now)) }
{
    let (name, rest) = name(alloc, tokens)?;
    let (name, ((sort, offer), rest)) = beside(name, sort_and_offer(alloc, new, most, rest))?;
    Ok((Choice { name, sort, offer }, rest))
}

/// Choices, where `most` more brackets may be open. `new` says that the version is 2.
#[derive(Drop)]
struct ChoicePhrase {
    new: bool,
    most: usize,
}

impl Phrase for ChoicePhrase {
    type Item = Choice;

    ghost reader = { λ phrase. choice_at phrase.new phrase.most };

    fn read<'t, 'a>(
        &self,
        alloc: Global,
        tokens: &'t [Token<'a>],
    ) -> Result<(Choice, &'t [Token<'a>]), Halt> {
        choice(alloc, self.new, self.most, tokens)
    }
}

#[tactic(auto, unfolding(crate::specs::readers::Actions::choices_at, civl_phrases::specs::Reader::opened))]
fn choices<'t, 'a>(
    alloc: Global,
    new: bool,
    most: usize,
    tokens: &'t [Token<'a>],
) -> Result<(List<Choice>, &'t [Token<'a>]), Halt>
    ensures { Gives (λ x. (x.0, spelled x.1.now)) result (choices_at new most (spelled tokens.now)) }
{
    let rest = open_bracket(tokens, b"(", most)?;
    commas(
        alloc,
        &ChoicePhrase {
            new,
            most: most - 1,
        },
        b")",
        rest,
    )
}

#[tactic(auto, unfolding(crate::specs::readers::Actions::update_at, civl_phrases::specs::Reader::mapped, civl_phrases::specs::Reader::both, civl_phrases::specs::Reader::after))]
fn update<'t, 'a>(
    alloc: Global,
    new: bool,
    most: usize,
    tokens: &'t [Token<'a>],
) -> Result<(Update, &'t [Token<'a>]), Halt>
    ensures { Gives (λ x. (x.0, spelled x.1.now)) result (update_at new most (spelled tokens.now)) }
{
    let (target, rest) = name(alloc, tokens)?;
    let (target, rest) = beside(target, sign(rest, b":="))?;
    let (target, (expr, rest)) = beside(target, ended_expr(alloc, new, most, rest))?;
    Ok((Update { target, expr }, rest))
}

/// Updates, where `most` more brackets may be open. `new` says that the version is 2.
#[derive(Drop)]
struct UpdatePhrase {
    new: bool,
    most: usize,
}

impl Phrase for UpdatePhrase {
    type Item = Update;

    ghost reader = { λ phrase. update_at phrase.new phrase.most };

    fn read<'t, 'a>(
        &self,
        alloc: Global,
        tokens: &'t [Token<'a>],
    ) -> Result<(Update, &'t [Token<'a>]), Halt> {
        update(alloc, self.new, self.most, tokens)
    }
}

impl Headed for UpdatePhrase {
    ghost heads = { λ _. is_named };

    fn is_next(&self, tokens: &[Token<'_>]) -> bool {
        name_next(tokens)
    }
}

#[tactic(auto, unfolding(crate::specs::readers::Actions::updates_at, civl_phrases::specs::Reader::opened, civl_phrases::specs::Reader::then_token, civl_phrases::specs::Reader::mapped, civl_phrases::specs::Reader::both, civl_phrases::specs::Reader::after, civl_phrases::specs::Reader::done))]
fn updates<'t, 'a>(
    alloc: Global,
    new: bool,
    most: usize,
    tokens: &'t [Token<'a>],
) -> Result<(List<Update>, &'t [Token<'a>]), Halt>
    ensures { Gives (λ x. (x.0, spelled x.1.now)) result (updates_at new most (spelled tokens.now)) }
{
    let rest = open_bracket(tokens, b"{", most)?;
    let (updates, rest) = many(
        alloc,
        &UpdatePhrase {
            new,
            most: most - 1,
        },
        rest,
    )?;
    beside(updates, sign(rest, b"}"))
}

fn mover_of(token: &Token<'_>) -> Option<Mover>
    ensures { result ≡ lookup mover_table (spelled_token token.now) }
{
    if is_word(token, b"atomic") {
        Some(Mover::Atomic)
    } else if is_word(token, b"right") {
        Some(Mover::Right)
    } else if is_word(token, b"left") {
        Some(Mover::Left)
    } else if is_word(token, b"both") {
        Some(Mover::Both)
    } else {
        None
    }
}

#[tactic(auto, unfolding(crate::specs::readers::Actions::mover_at, civl_phrases::specs::Reader::leaf))]
fn mover<'t, 'a>(tokens: &'t [Token<'a>]) -> Result<(Mover, &'t [Token<'a>]), Halt>
    ensures { Gives (λ x. (x.0, spelled x.1.now)) result (mover_at (spelled tokens.now)) }
{
    match tokens {
        [next, rest @ ..] => match mover_of(next) {
            Some(mover) => Ok((mover, rest)),
            None => Err(not_here(tokens)),
        },
        [] => Err(not_here(tokens)),
    }
}

/// The first and the last layer, and the tokens behind them.
///
/// # Errors
///
/// `NotHere` at the first token with which no range goes on.
#[tactic(auto, unfolding(crate::specs::readers::Actions::range_at, civl_phrases::specs::Reader::both, civl_phrases::specs::Reader::after))]
pub fn range<'t, 'a>(tokens: &'t [Token<'a>]) -> Result<((u32, u32), &'t [Token<'a>]), Halt>
    ensures { Gives (λ x. (x.0, spelled x.1.now)) result (range_at (spelled tokens.now)) }
{
    let rest = word(tokens, b"layers")?;
    let (first, rest) = number(rest)?;
    let rest = word(rest, b"to")?;
    let (last, rest) = number(rest)?;
    Ok(((first, last), rest))
}

/// What an action offers: its choices, its layers and its mover.
#[derive(Drop)]
pub struct Offer {
    pub choices: List<Choice>,
    pub first: u32,
    pub last: u32,
    pub mover: Mover,
}

/// What an action needs and does.
#[derive(Drop)]
pub struct Effect {
    pub gate: Expr,
    pub guard: Expr,
    pub updates: List<Update>,
}

#[tactic(auto, unfolding(crate::specs::readers::Actions::offer_at, civl_phrases::specs::Reader::mapped, civl_phrases::specs::Reader::both, civl_phrases::specs::Reader::after))]
fn read_offer<'t, 'a>(
    alloc: Global,
    new: bool,
    most: usize,
    tokens: &'t [Token<'a>],
) -> Result<(Offer, &'t [Token<'a>]), Halt>
    ensures { Gives (λ x. (x.0, spelled x.1.now)) result (offer_at new most (spelled tokens.now)) }
{
    let rest = word(tokens, b"choose")?;
    let (choices, rest) = choices(alloc, new, most, rest)?;
    let (choices, ((first, last), rest)) = beside(choices, range(rest))?;
    let (choices, (mover, rest)) = beside(choices, mover(rest))?;
    let offer = Offer {
        choices,
        first,
        last,
        mover,
    };
    Ok((offer, rest))
}

/// The guard of an action and its updates.
#[tactic(auto, unfolding(civl_phrases::specs::Reader::after, civl_phrases::specs::Reader::both))]
fn guard_and_updates<'t, 'a>(
    alloc: Global,
    new: bool,
    most: usize,
    tokens: &'t [Token<'a>],
) -> Result<((Expr, List<Update>), &'t [Token<'a>]), Halt>
    ensures { Gives (λ x. (x.0, spelled x.1.now)) result (after (Reserved (codes "guard")) (both (expr_at new most) (λ _. updates_at new most)) (spelled tokens.now)) }
{
    let rest = word(tokens, b"guard")?;
    let (guard, rest) = expr(alloc, new, most, rest)?;
    let (guard, (updates, rest)) = beside(guard, updates(alloc, new, most, rest))?;
    Ok(((guard, updates), rest))
}

#[tactic(auto, unfolding(crate::specs::readers::Actions::effect_at, civl_phrases::specs::Reader::mapped, civl_phrases::specs::Reader::both, civl_phrases::specs::Reader::after))]
fn read_effect<'t, 'a>(
    alloc: Global,
    new: bool,
    most: usize,
    tokens: &'t [Token<'a>],
) -> Result<(Effect, &'t [Token<'a>]), Halt>
    ensures { Gives (λ x. (x.0, spelled x.1.now)) result (effect_at new most (spelled tokens.now)) }
{
    let rest = word(tokens, b"gate")?;
    let (gate, rest) = expr(alloc, new, most, rest)?;
    let (gate, ((guard, updates), rest)) = beside(gate, guard_and_updates(alloc, new, most, rest))?;
    Ok((
        Effect {
            gate,
            guard,
            updates,
        },
        rest,
    ))
}

fn action_of(heading: Heading, offer: Offer, effect: Effect) -> Action
    ensures { result ≡ make_action (heading, (offer, effect)) }
{
    let Heading { name, params, outs } = heading;
    let Offer {
        choices,
        first,
        last,
        mover,
    } = offer;
    let Effect {
        gate,
        guard,
        updates,
    } = effect;
    Action {
        name,
        params,
        outs,
        choices,
        first,
        last,
        mover,
        gate,
        guard,
        updates,
    }
}

/// An action, where `most` more brackets may be open, and the tokens behind it. `new` says that the version is 2.
///
/// # Errors
///
/// - `NotHere` at the first token with which none goes on.
/// - `Deep` at a bracket that may stand there and may not be opened.
#[tactic(auto, unfolding(crate::specs::readers::Actions::action_at, civl_phrases::specs::Reader::mapped, civl_phrases::specs::Reader::both))]
fn action<'t, 'a>(
    alloc: Global,
    new: bool,
    most: usize,
    tokens: &'t [Token<'a>],
) -> Result<(Action, &'t [Token<'a>]), Halt>
    ensures { Gives (λ x. (x.0, spelled x.1.now)) result (action_at new most (spelled tokens.now)) }
{
    let (heading, rest) = read_heading(alloc, b"action", most, tokens)?;
    let (heading, (offer, rest)) = beside(heading, read_offer(alloc, new, most, rest))?;
    let ((heading, offer), (effect, rest)) = beside(
        (heading, offer),
        read_effect(alloc, new, most, rest),
    )?;
    Ok((action_of(heading, offer, effect), rest))
}

/// Actions, where `most` more brackets may be open. `new` says that the version is 2.
#[derive(Drop)]
pub struct ActionPhrase {
    pub new: bool,
    pub most: usize,
}

impl Phrase for ActionPhrase {
    type Item = Action;

    ghost reader = { λ phrase. action_at phrase.new phrase.most };

    fn read<'t, 'a>(
        &self,
        alloc: Global,
        tokens: &'t [Token<'a>],
    ) -> Result<(Action, &'t [Token<'a>]), Halt> {
        action(alloc, self.new, self.most, tokens)
    }
}

impl Headed for ActionPhrase {
    ghost heads = { λ _. begins action_word };

    fn is_next(&self, tokens: &[Token<'_>]) -> bool {
        word_next(tokens, b"action")
    }
}
