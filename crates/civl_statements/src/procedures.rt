// Procedures.
ghost use Rattle.std.specs.Prelude.{◌≡◌, ◌-◌, codes};
ghost use Rattle.civl_tree.specs.Token.{Reserved};
ghost use Rattle.civl_tree.specs.Spelling.{open_brace, semicolon, colon};
ghost use Rattle.civl_lex.specs.Spelled.{spelled, spelled_token};
ghost use Rattle.civl_phrases.specs.Reader.{Gives, begins, lookahead, after, both, opened, then_token};
ghost use Rattle.civl_phrases.specs.Leaf.{a_number};
ghost use Rattle.civl_phrases.specs.Table.{lookup};
ghost use Rattle.civl_expressions.specs.readers.Exprs.{sort_at, args_at};
ghost use Rattle.civl_statements.specs.readers.Procs.{refines_at, rank_of_at, local_table, local_word_at, local_next, local_at, body_at, make_proc, proc_at, proc_word};

use crate::statements::StmtPhrase;
use civl_expressions::{Heading, args, name, open_bracket, read_heading, sort};
use civl_lex::Token;
use civl_phrases::{Halt, Headed, Phrase, is_word, many, not_here, number, sign, word, word_next};
use civl_tree::{Expr, List, Local, Proc, Refines, Sort, Stmt, beside};
use std::alloc::Global;

// ---- root, or what is refined

/// The arguments that the refined action has, and the layer, behind its name.
#[tactic(auto, unfolding(civl_phrases::specs::Reader::after, civl_phrases::specs::Reader::both))]
fn args_and_layer<'t, 'a>(
    alloc: Global,
    new: bool,
    most: usize,
    tokens: &'t [Token<'a>],
) -> Result<((List<Expr>, u32), &'t [Token<'a>]), Halt>
    ensures { Gives (λ x. (x.0, spelled x.1.now)) result (after (Reserved (codes "with")) (both (args_at new most) (λ _. after (Reserved (codes "layer")) a_number)) (spelled tokens.now)) }
{
    let rest = word(tokens, b"with")?;
    let (args, rest) = args(alloc, new, most, rest)?;
    let (args, rest) = beside(args, word(rest, b"layer"))?;
    let (args, (layer, rest)) = beside(args, number(rest))?;
    Ok(((args, layer), rest))
}

#[tactic(auto, unfolding(crate::specs::readers::Procs::refines_at, civl_phrases::specs::Reader::mapped, civl_phrases::specs::Reader::both, civl_phrases::specs::Reader::after))]
fn refines<'t, 'a>(
    alloc: Global,
    new: bool,
    most: usize,
    tokens: &'t [Token<'a>],
) -> Result<(Refines, &'t [Token<'a>]), Halt>
    ensures { Gives (λ x. (x.0, spelled x.1.now)) result (refines_at new most (spelled tokens.now)) }
{
    let rest = word(tokens, b"refines")?;
    let (action, rest) = name(alloc, rest)?;
    let (action, ((with, layer), rest)) = beside(action, args_and_layer(alloc, new, most, rest))?;
    Ok((
        Refines {
            action,
            with,
            layer,
        },
        rest,
    ))
}

#[tactic(auto, unfolding(crate::specs::readers::Procs::rank_of_at, civl_phrases::specs::Reader::chosen, civl_phrases::specs::Reader::mapped, civl_phrases::specs::Reader::after, civl_phrases::specs::Reader::done))]
fn rank_of<'t, 'a>(
    alloc: Global,
    new: bool,
    most: usize,
    tokens: &'t [Token<'a>],
) -> Result<(Option<Refines>, &'t [Token<'a>]), Halt>
    ensures { Gives (λ x. (x.0, spelled x.1.now)) result (rank_of_at new most (spelled tokens.now)) }
{
    if word_next(tokens, b"root") {
        let rest = word(tokens, b"root")?;
        Ok((None, rest))
    } else {
        let (refines, rest) = refines(alloc, new, most, tokens)?;
        Ok((Some(refines), rest))
    }
}

// ---- locals

/// Whether the word of a local is that of a linear one.
fn local_of(token: &Token<'_>) -> Option<bool>
    ensures { result ≡ lookup local_table (spelled_token token.now) }
{
    if is_word(token, b"linear") {
        Some(true)
    } else if is_word(token, b"var") {
        Some(false)
    } else {
        None
    }
}

#[tactic(auto, unfolding(crate::specs::readers::Procs::local_word_at, civl_phrases::specs::Reader::leaf))]
fn local_word<'t, 'a>(tokens: &'t [Token<'a>]) -> Result<(bool, &'t [Token<'a>]), Halt>
    ensures { Gives (λ x. (x.0, spelled x.1.now)) result (local_word_at (spelled tokens.now)) }
{
    match tokens {
        [next, rest @ ..] => match local_of(next) {
            Some(linear) => Ok((linear, rest)),
            None => Err(not_here(tokens)),
        },
        [] => Err(not_here(tokens)),
    }
}

fn is_local_next(tokens: &[Token<'_>]) -> bool
    ensures { result ≡ local_next (lookahead (spelled tokens.now)) }
{
    match tokens {
        [next, ..] => match local_of(next) {
            Some(_) => true,
            None => false,
        },
        [] => false,
    }
}

/// The colon, the sort and the semicolon of a local.
#[tactic(auto, unfolding(civl_phrases::specs::Reader::after, civl_phrases::specs::Reader::then_token, civl_phrases::specs::Reader::mapped, civl_phrases::specs::Reader::both, civl_phrases::specs::Reader::done))]
fn local_sort<'t, 'a>(most: usize, tokens: &'t [Token<'a>]) -> Result<(Sort, &'t [Token<'a>]), Halt>
    ensures { Gives (λ x. (x.0, spelled x.1.now)) result (after colon (then_token semicolon (sort_at most)) (spelled tokens.now)) }
{
    let rest = sign(tokens, b":")?;
    let (sort, rest) = sort(most, rest)?;
    let rest = sign(rest, b";")?;
    Ok((sort, rest))
}

#[tactic(auto, unfolding(crate::specs::readers::Procs::local_at, civl_phrases::specs::Reader::mapped, civl_phrases::specs::Reader::both))]
fn local<'t, 'a>(
    alloc: Global,
    most: usize,
    tokens: &'t [Token<'a>],
) -> Result<(Local, &'t [Token<'a>]), Halt>
    ensures { Gives (λ x. (x.0, spelled x.1.now)) result (local_at most (spelled tokens.now)) }
{
    let (linear, rest) = local_word(tokens)?;
    let (name, rest) = name(alloc, rest)?;
    let (name, (sort, rest)) = beside(name, local_sort(most, rest))?;
    Ok((Local { linear, name, sort }, rest))
}

/// Locals, where `most` more brackets may be open.
#[derive(Drop)]
struct LocalPhrase {
    most: usize,
}

impl Phrase for LocalPhrase {
    type Item = Local;

    ghost reader = { λ phrase. local_at phrase.most };

    fn read<'t, 'a>(
        &self,
        alloc: Global,
        tokens: &'t [Token<'a>],
    ) -> Result<(Local, &'t [Token<'a>]), Halt> {
        local(alloc, self.most, tokens)
    }
}

impl Headed for LocalPhrase {
    ghost heads = { λ _. local_next };

    fn is_next(&self, tokens: &[Token<'_>]) -> bool {
        is_local_next(tokens)
    }
}

// ---- procedures

/// The body of a procedure.
#[derive(Drop)]
pub struct Body {
    pub locals: List<Local>,
    pub stmts: List<Stmt>,
}

/// Locals, statements and the closing bracket.
#[tactic(auto, unfolding(crate::specs::readers::Procs::body_at, civl_phrases::specs::Reader::both, civl_phrases::specs::Reader::then_token, civl_phrases::specs::Reader::mapped, civl_phrases::specs::Reader::after, civl_phrases::specs::Reader::done))]
fn read_body<'t, 'a>(
    alloc: Global,
    new: bool,
    most: usize,
    tokens: &'t [Token<'a>],
) -> Result<(Body, &'t [Token<'a>]), Halt>
    ensures { Gives (λ x. (x.0, spelled x.1.now)) result (body_at new most (spelled tokens.now)) }
{
    let (locals, rest) = many(alloc, &LocalPhrase { most }, tokens)?;
    let (locals, (stmts, rest)) = beside(locals, many(alloc, &StmtPhrase { new, most }, rest))?;
    beside(Body { locals, stmts }, sign(rest, b"}"))
}

/// A body in its brackets.
#[tactic(auto, unfolding(civl_phrases::specs::Reader::opened))]
fn braced_body<'t, 'a>(
    alloc: Global,
    new: bool,
    most: usize,
    tokens: &'t [Token<'a>],
) -> Result<(Body, &'t [Token<'a>]), Halt>
    ensures { Gives (λ x. (x.0, spelled x.1.now)) result (opened open_brace most (body_at new (most - 1)) (spelled tokens.now)) }
{
    let rest = open_bracket(tokens, b"{", most)?;
    read_body(alloc, new, most - 1, rest)
}

fn proc_of(heading: Heading, refines: Option<Refines>, body: Body) -> Proc
    ensures { result ≡ make_proc (heading, (refines, body)) }
{
    let Heading { name, params, outs } = heading;
    let Body { locals, stmts } = body;
    Proc {
        name,
        params,
        outs,
        refines,
        locals,
        body: stmts,
    }
}

/// `root`, or what is refined, and the body in its brackets.
#[tactic(auto, unfolding(civl_phrases::specs::Reader::both))]
fn rank_and_body<'t, 'a>(
    alloc: Global,
    new: bool,
    most: usize,
    tokens: &'t [Token<'a>],
) -> Result<((Option<Refines>, Body), &'t [Token<'a>]), Halt>
    ensures { Gives (λ x. (x.0, spelled x.1.now)) result (both (rank_of_at new most) (λ _. opened open_brace most (body_at new (most - 1))) (spelled tokens.now)) }
{
    let (refines, rest) = rank_of(alloc, new, most, tokens)?;
    let (refines, (body, rest)) = beside(refines, braced_body(alloc, new, most, rest))?;
    Ok(((refines, body), rest))
}

/// A procedure, where `most` more brackets may be open, and the tokens behind it. `new` says that the version is 2.
///
/// # Errors
///
/// - `NotHere` at the first token with which none goes on.
/// - `Deep` at a bracket that may stand there and may not be opened.
#[tactic(auto, unfolding(crate::specs::readers::Procs::proc_at, civl_phrases::specs::Reader::mapped, civl_phrases::specs::Reader::both))]
fn proc<'t, 'a>(
    alloc: Global,
    new: bool,
    most: usize,
    tokens: &'t [Token<'a>],
) -> Result<(Proc, &'t [Token<'a>]), Halt>
    ensures { Gives (λ x. (x.0, spelled x.1.now)) result (proc_at new most (spelled tokens.now)) }
{
    let (heading, rest) = read_heading(alloc, b"proc", most, tokens)?;
    let (heading, ((refines, body), rest)) = beside(
        heading,
        rank_and_body(alloc, new, most, rest),
    )?;
    Ok((proc_of(heading, refines, body), rest))
}

/// Procedures, where `most` more brackets may be open. `new` says that the version is 2.
#[derive(Drop)]
pub struct ProcPhrase {
    pub new: bool,
    pub most: usize,
}

impl Phrase for ProcPhrase {
    type Item = Proc;

    ghost reader = { λ phrase. proc_at phrase.new phrase.most };

    fn read<'t, 'a>(
        &self,
        alloc: Global,
        tokens: &'t [Token<'a>],
    ) -> Result<(Proc, &'t [Token<'a>]), Halt> {
        proc(alloc, self.new, self.most, tokens)
    }
}

impl Headed for ProcPhrase {
    ghost heads = { λ _. begins proc_word };

    fn is_next(&self, tokens: &[Token<'_>]) -> bool {
        word_next(tokens, b"proc")
    }
}
