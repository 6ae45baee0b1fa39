// Declarations but actions and procedures.
ghost use Rattle.civl_tree.specs.Spelling.{semicolon, colon};
ghost use Rattle.civl_lex.specs.Spelled.{spelled};
ghost use Rattle.civl_phrases.specs.Reader.{Gives, begins, after, both, then_token};
ghost use Rattle.civl_expressions.specs.readers.Exprs.{sort_at};
ghost use Rattle.civl_declarations.specs.readers.Actions.{range_at};
ghost use Rattle.civl_declarations.specs.readers.Declarations.{global_at, init_at, invariant_at, thread_at, global_word, invariant_word, thread_word};

use crate::actions::range;
use civl_expressions::{args, ended_expr, name, sort};
use civl_lex::Token;
use civl_phrases::{Halt, Headed, Phrase, number, sign, word, word_flag, word_next};
use civl_tree::{Expr, Global as GlobalItem, Invariant, Sort, Thread, beside};
use std::alloc::Global;

/// The sort and the layers of a global, behind its name, up to the semicolon.
#[tactic(auto, unfolding(civl_phrases::specs::Reader::after, civl_phrases::specs::Reader::then_token, civl_phrases::specs::Reader::mapped, civl_phrases::specs::Reader::both, civl_phrases::specs::Reader::done))]
fn sort_and_layers<'t, 'a>(
    most: usize,
    tokens: &'t [Token<'a>],
) -> Result<((Sort, (u32, u32)), &'t [Token<'a>]), Halt>
    ensures { Gives (λ x. (x.0, spelled x.1.now)) result (after colon (both (sort_at most) (λ _. then_token semicolon range_at)) (spelled tokens.now)) }
{
    let rest = sign(tokens, b":")?;
    let (sort, rest) = sort(most, rest)?;
    let (layers, rest) = range(rest)?;
    let rest = sign(rest, b";")?;
    Ok(((sort, layers), rest))
}

/// A global.
///
/// # Errors
///
/// - `NotHere` at the first token with which none goes on.
/// - `Deep` at a bracket that may stand there and may not be opened.
#[tactic(auto, unfolding(crate::specs::readers::Declarations::global_at, civl_phrases::specs::Reader::mapped, civl_phrases::specs::Reader::both, civl_phrases::specs::Reader::after))]
fn global<'t, 'a>(
    alloc: Global,
    most: usize,
    tokens: &'t [Token<'a>],
) -> Result<(GlobalItem, &'t [Token<'a>]), Halt>
    ensures { Gives (λ x. (x.0, spelled x.1.now)) result (global_at most (spelled tokens.now)) }
{
    let rest = word(tokens, b"global")?;
    let (linear, rest) = word_flag(rest, b"linear");
    let (name, rest) = name(alloc, rest)?;
    let (name, ((sort, (first, last)), rest)) = beside(name, sort_and_layers(most, rest))?;
    let global = GlobalItem {
        linear,
        name,
        sort,
        first,
        last,
    };
    Ok((global, rest))
}

/// Globals, where `most` more brackets may be open.
#[derive(Drop)]
pub struct GlobalPhrase {
    pub most: usize,
}

impl Phrase for GlobalPhrase {
    type Item = GlobalItem;

    ghost reader = { λ phrase. global_at phrase.most };

    fn read<'t, 'a>(
        &self,
        alloc: Global,
        tokens: &'t [Token<'a>],
    ) -> Result<(GlobalItem, &'t [Token<'a>]), Halt> {
        global(alloc, self.most, tokens)
    }
}

impl Headed for GlobalPhrase {
    ghost heads = { λ _. begins global_word };

    fn is_next(&self, tokens: &[Token<'_>]) -> bool {
        word_next(tokens, b"global")
    }
}

/// The expression of `init`, and the tokens behind the semicolon. `new` says that the version is 2.
///
/// # Errors
///
/// - `NotHere` at the first token with which none goes on.
/// - `Deep` at a bracket that may stand there and may not be opened.
#[tactic(auto, unfolding(crate::specs::readers::Declarations::init_at, civl_phrases::specs::Reader::after))]
pub fn init<'t, 'a>(
    alloc: Global,
    new: bool,
    most: usize,
    tokens: &'t [Token<'a>],
) -> Result<(Expr, &'t [Token<'a>]), Halt>
    ensures { Gives (λ x. (x.0, spelled x.1.now)) result (init_at new most (spelled tokens.now)) }
{
    let rest = word(tokens, b"init")?;
    ended_expr(alloc, new, most, rest)
}

#[tactic(auto, unfolding(crate::specs::readers::Declarations::invariant_at, civl_phrases::specs::Reader::mapped, civl_phrases::specs::Reader::both, civl_phrases::specs::Reader::after))]
fn invariant<'t, 'a>(
    alloc: Global,
    new: bool,
    most: usize,
    tokens: &'t [Token<'a>],
) -> Result<(Invariant, &'t [Token<'a>]), Halt>
    ensures { Gives (λ x. (x.0, spelled x.1.now)) result (invariant_at new most (spelled tokens.now)) }
{
    let rest = word(tokens, b"invariant")?;
    let (step, rest) = number(rest)?;
    let (expr, rest) = ended_expr(alloc, new, most, rest)?;
    Ok((Invariant { step, expr }, rest))
}

/// Invariants, where `most` more brackets may be open. `new` says that the version is 2.
#[derive(Drop)]
pub struct InvariantPhrase {
    pub new: bool,
    pub most: usize,
}

impl Phrase for InvariantPhrase {
    type Item = Invariant;

    ghost reader = { λ phrase. invariant_at phrase.new phrase.most };

    fn read<'t, 'a>(
        &self,
        alloc: Global,
        tokens: &'t [Token<'a>],
    ) -> Result<(Invariant, &'t [Token<'a>]), Halt> {
        invariant(alloc, self.new, self.most, tokens)
    }
}

impl Headed for InvariantPhrase {
    ghost heads = { λ _. begins invariant_word };

    fn is_next(&self, tokens: &[Token<'_>]) -> bool {
        word_next(tokens, b"invariant")
    }
}

#[tactic(auto, unfolding(crate::specs::readers::Declarations::thread_at, civl_phrases::specs::Reader::mapped, civl_phrases::specs::Reader::both, civl_phrases::specs::Reader::after, civl_phrases::specs::Reader::then_token, civl_phrases::specs::Reader::done))]
fn thread<'t, 'a>(
    alloc: Global,
    new: bool,
    most: usize,
    tokens: &'t [Token<'a>],
) -> Result<(Thread, &'t [Token<'a>]), Halt>
    ensures { Gives (λ x. (x.0, spelled x.1.now)) result (thread_at new most (spelled tokens.now)) }
{
    let rest = word(tokens, b"thread")?;
    let (callee, rest) = name(alloc, rest)?;
    let (callee, (args, rest)) = beside(callee, args(alloc, new, most, rest))?;
    beside(Thread { callee, args }, sign(rest, b";"))
}

/// Threads, where `most` more brackets may be open. `new` says that the version is 2.
#[derive(Drop)]
pub struct ThreadPhrase {
    pub new: bool,
    pub most: usize,
}

impl Phrase for ThreadPhrase {
    type Item = Thread;

    ghost reader = { λ phrase. thread_at phrase.new phrase.most };

    fn read<'t, 'a>(
        &self,
        alloc: Global,
        tokens: &'t [Token<'a>],
    ) -> Result<(Thread, &'t [Token<'a>]), Halt> {
        thread(alloc, self.new, self.most, tokens)
    }
}

impl Headed for ThreadPhrase {
    ghost heads = { λ _. begins thread_word };

    fn is_next(&self, tokens: &[Token<'_>]) -> bool {
        word_next(tokens, b"thread")
    }
}
