// Statements.
ghost use Rattle.std.specs.Prelude.{◌≡◌, ◌<◌, codes};
ghost use Rattle.civl_tree.specs.Token.{Reserved};
ghost use Rattle.civl_tree.specs.Spelling.{semicolon, arrow};
ghost use Rattle.civl_lex.specs.Spelled.{spelled, spelled_token};
ghost use Rattle.civl_phrases.specs.Reader.{Gives, lookahead, mapped, after, both, then_token};
ghost use Rattle.civl_phrases.specs.List.{repeated};
ghost use Rattle.civl_phrases.specs.Table.{lookup, guarded};
ghost use Rattle.civl_statements.specs.readers.Stmts.{stmt_table, more_table, has_form, stmt_form_of, stmt_form, stmt_next, results_at, assign_at, assert_at, call_at, yield_at, commit_at, intro_at, spawn_at, block_at, if_at, of_loop, plain_loop_at, inv_body_at, yield_loop_at, by_body_at, rank_loop_at, while_at, inner_stmt, stmt_at};

use crate::forms::StmtForm;
use civl_expressions::{NamePhrase, args, ended_expr, expr, name, open_bracket};
use civl_lex::{Kind, Token};
use civl_phrases::{Halt, Headed, Left, Phrase, commas, is_word, not_here, sign, word, word_next};
use civl_tree::{Expr, List, Name, Stmt, beside};
use std::alloc::Global;

// ---- how a statement begins

fn more_form(token: &Token<'_>) -> Option<StmtForm>
    ensures { result ≡ lookup more_table (spelled_token token.now) }
{
    if is_word(token, b"yield") {
        Some(StmtForm::Yield)
    } else if is_word(token, b"commit") {
        Some(StmtForm::Commit)
    } else if is_word(token, b"intro") {
        Some(StmtForm::Intro)
    } else if is_word(token, b"spawn") {
        Some(StmtForm::Spawn)
    } else {
        None
    }
}

fn word_form(token: &Token<'_>) -> Option<StmtForm>
    ensures { result ≡ lookup stmt_table (spelled_token token.now) }
{
    if is_word(token, b"assert") {
        Some(StmtForm::Assert)
    } else if is_word(token, b"if") {
        Some(StmtForm::If)
    } else if is_word(token, b"while") {
        Some(StmtForm::While)
    } else if is_word(token, b"call") {
        Some(StmtForm::Call)
    } else {
        more_form(token)
    }
}

/// Whether the version has the form, where `new` says that it is version 2.
fn has_form(new: bool, form: StmtForm) -> bool
    ensures { result ≡ has_form new form }
{
    match form {
        StmtForm::Spawn => new,
        StmtForm::Assign
        | StmtForm::Assert
        | StmtForm::If
        | StmtForm::While
        | StmtForm::Call
        | StmtForm::Yield
        | StmtForm::Commit
        | StmtForm::Intro => true,
    }
}

fn version_form(new: bool, token: &Token<'_>) -> Option<StmtForm>
    ensures { result ≡ guarded (has_form new) (lookup stmt_table (spelled_token token.now)) }
{
    match word_form(token) {
        Some(form) => {
            if has_form(new, form) {
                Some(form)
            } else {
                None
            }
        }
        None => None,
    }
}

fn form_of(new: bool, token: &Token<'_>) -> Option<StmtForm>
    ensures { result ≡ stmt_form_of new (spelled_token token.now) }
{
    match token.kind {
        Kind::Name => Some(StmtForm::Assign),
        Kind::Word => version_form(new, token),
        Kind::Number(_) | Kind::Sign => None,
    }
}

fn next_form(new: bool, tokens: &[Token<'_>]) -> Option<StmtForm>
    ensures { result ≡ stmt_form new (lookahead (spelled tokens.now)) }
{
    match tokens {
        [next, ..] => form_of(new, next),
        [] => None,
    }
}

fn is_stmt_next(new: bool, tokens: &[Token<'_>]) -> bool
    ensures { result ≡ stmt_next new (lookahead (spelled tokens.now)) }
{
    match next_form(new, tokens) {
        Some(_) => true,
        None => false,
    }
}

// ---- parts of statements

#[tactic(auto, unfolding(crate::specs::readers::Stmts::results_at, civl_phrases::specs::Reader::opened))]
fn results<'t, 'a>(
    alloc: Global,
    most: usize,
    tokens: &'t [Token<'a>],
) -> Result<(List<Name>, &'t [Token<'a>]), Halt>
    ensures { Gives (λ x. (x.0, spelled x.1.now)) result (results_at most (spelled tokens.now)) }
{
    let rest = open_bracket(tokens, b"(", most)?;
    commas(alloc, &NamePhrase, b")", rest)
}

// ---- statements without statements

#[tactic(auto, unfolding(crate::specs::readers::Stmts::assign_at, civl_phrases::specs::Reader::mapped, civl_phrases::specs::Reader::both, civl_phrases::specs::Reader::after))]
fn assign<'t, 'a>(
    alloc: Global,
    new: bool,
    most: usize,
    tokens: &'t [Token<'a>],
) -> Result<(Stmt, &'t [Token<'a>]), Halt>
    ensures { Gives (λ x. (x.0, spelled x.1.now)) result (assign_at new most (spelled tokens.now)) }
{
    let (target, rest) = name(alloc, tokens)?;
    let (target, rest) = beside(target, sign(rest, b":="))?;
    let (target, (value, rest)) = beside(target, ended_expr(alloc, new, most, rest))?;
    Ok((Stmt::Assign(target, value), rest))
}

#[tactic(auto, unfolding(crate::specs::readers::Stmts::assert_at, civl_phrases::specs::Reader::mapped, civl_phrases::specs::Reader::after))]
fn assert<'t, 'a>(
    alloc: Global,
    new: bool,
    most: usize,
    tokens: &'t [Token<'a>],
) -> Result<(Stmt, &'t [Token<'a>]), Halt>
    ensures { Gives (λ x. (x.0, spelled x.1.now)) result (assert_at new most (spelled tokens.now)) }
{
    let rest = word(tokens, b"assert")?;
    let (fact, rest) = ended_expr(alloc, new, most, rest)?;
    Ok((Stmt::Assert(fact), rest))
}

/// The arrow, the results and the semicolon of a call.
#[tactic(auto, unfolding(civl_phrases::specs::Reader::after, civl_phrases::specs::Reader::then_token, civl_phrases::specs::Reader::mapped, civl_phrases::specs::Reader::both, civl_phrases::specs::Reader::done))]
fn call_results<'t, 'a>(
    alloc: Global,
    most: usize,
    tokens: &'t [Token<'a>],
) -> Result<(List<Name>, &'t [Token<'a>]), Halt>
    ensures { Gives (λ x. (x.0, spelled x.1.now)) result (after arrow (then_token semicolon (results_at most)) (spelled tokens.now)) }
{
    let rest = sign(tokens, b"->")?;
    let (results, rest) = results(alloc, most, rest)?;
    beside(results, sign(rest, b";"))
}

#[tactic(auto, unfolding(crate::specs::readers::Stmts::call_at, civl_phrases::specs::Reader::mapped, civl_phrases::specs::Reader::both, civl_phrases::specs::Reader::after))]
fn call<'t, 'a>(
    alloc: Global,
    new: bool,
    most: usize,
    tokens: &'t [Token<'a>],
) -> Result<(Stmt, &'t [Token<'a>]), Halt>
    ensures { Gives (λ x. (x.0, spelled x.1.now)) result (call_at new most (spelled tokens.now)) }
{
    let rest = word(tokens, b"call")?;
    let (callee, rest) = name(alloc, rest)?;
    let (callee, (args, rest)) = beside(callee, args(alloc, new, most, rest))?;
    let ((callee, args), (results, rest)) = beside(
        (callee, args),
        call_results(alloc, most, rest),
    )?;
    Ok((Stmt::Call(callee, args, results), rest))
}

#[tactic(auto, unfolding(crate::specs::readers::Stmts::yield_at, civl_phrases::specs::Reader::mapped, civl_phrases::specs::Reader::after))]
fn yield_stmt<'t, 'a>(
    alloc: Global,
    new: bool,
    most: usize,
    tokens: &'t [Token<'a>],
) -> Result<(Stmt, &'t [Token<'a>]), Halt>
    ensures { Gives (λ x. (x.0, spelled x.1.now)) result (yield_at new most (spelled tokens.now)) }
{
    let rest = word(tokens, b"yield")?;
    let (inv, rest) = ended_expr(alloc, new, most, rest)?;
    Ok((Stmt::Yield(inv), rest))
}

#[tactic(auto, unfolding(crate::specs::readers::Stmts::commit_at, civl_phrases::specs::Reader::mapped, civl_phrases::specs::Reader::after, civl_phrases::specs::Reader::done))]
fn commit<'t, 'a>(tokens: &'t [Token<'a>]) -> Result<(Stmt, &'t [Token<'a>]), Halt>
    ensures { Gives (λ x. (x.0, spelled x.1.now)) result (commit_at (spelled tokens.now)) }
{
    let rest = word(tokens, b"commit")?;
    let rest = sign(rest, b";")?;
    Ok((Stmt::Commit, rest))
}

#[tactic(auto, unfolding(crate::specs::readers::Stmts::intro_at, civl_phrases::specs::Reader::mapped, civl_phrases::specs::Reader::both, civl_phrases::specs::Reader::after))]
fn intro<'t, 'a>(
    alloc: Global,
    new: bool,
    most: usize,
    tokens: &'t [Token<'a>],
) -> Result<(Stmt, &'t [Token<'a>]), Halt>
    ensures { Gives (λ x. (x.0, spelled x.1.now)) result (intro_at new most (spelled tokens.now)) }
{
    let rest = word(tokens, b"intro")?;
    let (target, rest) = name(alloc, rest)?;
    let (target, rest) = beside(target, sign(rest, b":="))?;
    let (target, (value, rest)) = beside(target, ended_expr(alloc, new, most, rest))?;
    Ok((Stmt::Intro(target, value), rest))
}

#[tactic(auto, unfolding(crate::specs::readers::Stmts::spawn_at, civl_phrases::specs::Reader::mapped, civl_phrases::specs::Reader::both, civl_phrases::specs::Reader::after, civl_phrases::specs::Reader::then_token, civl_phrases::specs::Reader::done))]
fn spawn<'t, 'a>(
    alloc: Global,
    new: bool,
    most: usize,
    tokens: &'t [Token<'a>],
) -> Result<(Stmt, &'t [Token<'a>]), Halt>
    ensures { Gives (λ x. (x.0, spelled x.1.now)) result (spawn_at new most (spelled tokens.now)) }
{
    let rest = word(tokens, b"spawn")?;
    let (callee, rest) = name(alloc, rest)?;
    let (callee, (args, rest)) = beside(callee, args(alloc, new, most, rest))?;
    beside(Stmt::Spawn(callee, args), sign(rest, b";"))
}

// ---- statements with statements

/// A statement, where `most` more brackets may be open, and the tokens behind it. `new` says that the version is 2.
///
/// # Errors
///
/// - `NotHere` at the first token with which no statement goes on.
/// - `Deep` at a bracket that may stand there and may not be opened.
#[cycle(stmt)]
#[tactic(auto, unfolding(crate::specs::readers::Stmts::stmt_at, crate::specs::readers::Stmts::stmt_by, civl_phrases::specs::Reader::by_form))]
pub fn stmt<'t, 'a>(
    alloc: Global,
    new: bool,
    most: usize,
    tokens: &'t [Token<'a>],
) -> Result<(Stmt, &'t [Token<'a>]), Halt>
    ensures { Gives (λ x. (x.0, spelled x.1.now)) result (stmt_at new most (spelled tokens.now)) }
{
    match next_form(new, tokens) {
        Some(StmtForm::Assign) => assign(alloc, new, most, tokens),
        Some(StmtForm::Assert) => assert(alloc, new, most, tokens),
        Some(StmtForm::If) => if_stmt(alloc, new, most, tokens),
        Some(StmtForm::While) => while_stmt(alloc, new, most, tokens),
        Some(StmtForm::Call) => call(alloc, new, most, tokens),
        Some(StmtForm::Yield) => yield_stmt(alloc, new, most, tokens),
        Some(StmtForm::Commit) => commit(tokens),
        Some(StmtForm::Intro) => intro(alloc, new, most, tokens),
        Some(StmtForm::Spawn) => spawn(alloc, new, most, tokens),
        None => Err(not_here(tokens)),
    }
}

/// Two blocks with `else` between.
#[cycle(stmt)]
#[tactic(auto, unfolding(civl_phrases::specs::Reader::both, civl_phrases::specs::Reader::after))]
fn branches<'t, 'a>(
    alloc: Global,
    new: bool,
    most: usize,
    tokens: &'t [Token<'a>],
) -> Result<((List<Stmt>, List<Stmt>), &'t [Token<'a>]), Halt>
    ensures { Gives (λ x. (x.0, spelled x.1.now)) result (both (block_at new most (inner_stmt new most)) (λ _. after (Reserved (codes "else")) (block_at new most (inner_stmt new most))) (spelled tokens.now)) }
{
    let (first, rest) = block(alloc, new, most, tokens)?;
    let (first, rest) = beside(first, word(rest, b"else"))?;
    let (first, (second, rest)) = beside(first, block(alloc, new, most, rest))?;
    Ok(((first, second), rest))
}

#[cycle(stmt)]
#[tactic(auto, unfolding(crate::specs::readers::Stmts::if_at, civl_phrases::specs::Reader::mapped, civl_phrases::specs::Reader::both, civl_phrases::specs::Reader::after))]
fn if_stmt<'t, 'a>(
    alloc: Global,
    new: bool,
    most: usize,
    tokens: &'t [Token<'a>],
) -> Result<(Stmt, &'t [Token<'a>]), Halt>
    ensures { Gives (λ x. (x.0, spelled x.1.now)) result (if_at new most (inner_stmt new most) (spelled tokens.now)) }
{
    let rest = word(tokens, b"if")?;
    let (test, rest) = expr(alloc, new, most, rest)?;
    let (test, ((first, second), rest)) = beside(test, branches(alloc, new, most, rest))?;
    Ok((Stmt::If(test, first, second), rest))
}

#[cycle(stmt)]
#[tactic(auto, unfolding(crate::specs::readers::Stmts::while_at, civl_phrases::specs::Reader::mapped, civl_phrases::specs::Reader::after, civl_phrases::specs::Reader::chosen))]
fn while_stmt<'t, 'a>(
    alloc: Global,
    new: bool,
    most: usize,
    tokens: &'t [Token<'a>],
) -> Result<(Stmt, &'t [Token<'a>]), Halt>
    ensures { Gives (λ x. (x.0, spelled x.1.now)) result (while_at new most (inner_stmt new most) (spelled tokens.now)) }
{
    let rest = word(tokens, b"while")?;
    if word_next(rest, b"yield") {
        yield_loop(alloc, new, most, rest)
    } else if word_next(rest, b"rank") {
        rank_loop(alloc, new, most, rest)
    } else {
        plain_loop(alloc, new, most, rest)
    }
}

#[cycle(stmt)]
#[tactic(auto, unfolding(crate::specs::readers::Stmts::plain_loop_at, civl_phrases::specs::Reader::mapped, civl_phrases::specs::Reader::both))]
fn plain_loop<'t, 'a>(
    alloc: Global,
    new: bool,
    most: usize,
    tokens: &'t [Token<'a>],
) -> Result<(Stmt, &'t [Token<'a>]), Halt>
    ensures { Gives (λ x. (x.0, spelled x.1.now)) result (mapped of_loop (plain_loop_at new most (inner_stmt new most)) (spelled tokens.now)) }
{
    let (test, rest) = expr(alloc, new, most, tokens)?;
    let (test, (body, rest)) = beside(test, block(alloc, new, most, rest))?;
    Ok((Stmt::While(test, body), rest))
}

#[cycle(stmt)]
#[tactic(auto, unfolding(crate::specs::readers::Stmts::yield_loop_at, civl_phrases::specs::Reader::mapped, civl_phrases::specs::Reader::both, civl_phrases::specs::Reader::after))]
fn yield_loop<'t, 'a>(
    alloc: Global,
    new: bool,
    most: usize,
    tokens: &'t [Token<'a>],
) -> Result<(Stmt, &'t [Token<'a>]), Halt>
    ensures { Gives (λ x. (x.0, spelled x.1.now)) result (mapped of_loop (yield_loop_at new most (inner_stmt new most)) (spelled tokens.now)) }
{
    let rest = word(tokens, b"yield")?;
    let (test, rest) = expr(alloc, new, most, rest)?;
    let (test, ((inv, body), rest)) = beside(test, inv_body(alloc, new, most, rest))?;
    Ok((Stmt::YieldLoop(test, inv, body), rest))
}

#[cycle(stmt)]
#[tactic(auto, unfolding(crate::specs::readers::Stmts::rank_loop_at, civl_phrases::specs::Reader::mapped, civl_phrases::specs::Reader::both, civl_phrases::specs::Reader::after))]
fn rank_loop<'t, 'a>(
    alloc: Global,
    new: bool,
    most: usize,
    tokens: &'t [Token<'a>],
) -> Result<(Stmt, &'t [Token<'a>]), Halt>
    ensures { Gives (λ x. (x.0, spelled x.1.now)) result (mapped of_loop (rank_loop_at new most (inner_stmt new most)) (spelled tokens.now)) }
{
    let rest = word(tokens, b"rank")?;
    let (test, rest) = expr(alloc, new, most, rest)?;
    let (test, ((rank, (inv, body)), rest)) = beside(test, by_body(alloc, new, most, rest))?;
    Ok((Stmt::RankLoop(test, rank, inv, body), rest))
}

/// A rank, an invariant and the body of a loop.
#[cycle(stmt)]
#[tactic(auto, unfolding(crate::specs::readers::Stmts::by_body_at, civl_phrases::specs::Reader::both, civl_phrases::specs::Reader::after))]
fn by_body<'t, 'a>(
    alloc: Global,
    new: bool,
    most: usize,
    tokens: &'t [Token<'a>],
) -> Result<((Expr, (Expr, List<Stmt>)), &'t [Token<'a>]), Halt>
    ensures { Gives (λ x. (x.0, spelled x.1.now)) result (by_body_at new most (inner_stmt new most) (spelled tokens.now)) }
{
    let rest = word(tokens, b"by")?;
    let (rank, rest) = expr(alloc, new, most, rest)?;
    let (rank, (inv_body, rest)) = beside(rank, inv_body(alloc, new, most, rest))?;
    Ok(((rank, inv_body), rest))
}

/// An invariant and the body of a loop.
#[cycle(stmt)]
#[tactic(auto, unfolding(crate::specs::readers::Stmts::inv_body_at, civl_phrases::specs::Reader::both, civl_phrases::specs::Reader::after))]
fn inv_body<'t, 'a>(
    alloc: Global,
    new: bool,
    most: usize,
    tokens: &'t [Token<'a>],
) -> Result<((Expr, List<Stmt>), &'t [Token<'a>]), Halt>
    ensures { Gives (λ x. (x.0, spelled x.1.now)) result (inv_body_at new most (inner_stmt new most) (spelled tokens.now)) }
{
    let rest = word(tokens, b"inv")?;
    let (inv, rest) = expr(alloc, new, most, rest)?;
    let (inv, (body, rest)) = beside(inv, block(alloc, new, most, rest))?;
    Ok(((inv, body), rest))
}

#[cycle(stmt)]
#[tactic(auto, unfolding(crate::specs::readers::Stmts::block_at, civl_phrases::specs::Reader::opened, civl_phrases::specs::Reader::then_token, civl_phrases::specs::Reader::mapped, civl_phrases::specs::Reader::both, civl_phrases::specs::Reader::after, civl_phrases::specs::Reader::done))]
fn block<'t, 'a>(
    alloc: Global,
    new: bool,
    most: usize,
    tokens: &'t [Token<'a>],
) -> Result<(List<Stmt>, &'t [Token<'a>]), Halt>
    ensures { Gives (λ x. (x.0, spelled x.1.now)) result (block_at new most (inner_stmt new most) (spelled tokens.now)) }
{
    let rest = open_bracket(tokens, b"{", most)?;
    let (body, rest) = stmts(alloc, new, most, rest)?;
    beside(body, sign(rest, b"}"))
}

/// Statements within the next bracket: a list in a recursion has a loop of its own.
#[cycle(stmt)]
fn stmts<'t, 'a>(
    alloc: Global,
    new: bool,
    most: usize,
    tokens: &'t [Token<'a>],
) -> Result<(List<Stmt>, &'t [Token<'a>]), Halt>
    requires { 0 < most }
    ensures { Gives (λ x. (x.0, spelled x.1.now)) result (repeated (stmt_next new) (inner_stmt new most) (spelled tokens.now)) }
{
    let mut items = List::new(alloc);
    let mut left = Left { tokens };
    // There are no more statements than tokens.
    'items: for _ in 0..tokens.len() + 1 {
        if !is_stmt_next(new, left.tokens) {
            return Ok((items, left.tokens));
        }
        let (item, next) = inner_of(alloc, new, most, left.tokens)?;
        items.push(item)?;
        left = next;
    }
    Err(not_here(left.tokens))
}

#[cycle(stmt)]
fn inner_of<'t, 'a>(
    alloc: Global,
    new: bool,
    most: usize,
    tokens: &'t [Token<'a>],
) -> Result<(Stmt, Left<'t, 'a>), Halt>
    requires { 0 < most }
    ensures { Gives (λ x. (x.0, spelled x.1.tokens.now)) result (inner_stmt new most (spelled tokens.now)) }
{
    let (stmt, rest) = stmt(alloc, new, most - 1, tokens)?;
    Ok((stmt, Left { tokens: rest }))
}

/// Statements, where `most` more brackets may be open. `new` says that the version is 2.
#[derive(Drop)]
pub struct StmtPhrase {
    pub new: bool,
    pub most: usize,
}

impl Phrase for StmtPhrase {
    type Item = Stmt;

    ghost reader = { λ phrase. stmt_at phrase.new phrase.most };

    fn read<'t, 'a>(
        &self,
        alloc: Global,
        tokens: &'t [Token<'a>],
    ) -> Result<(Stmt, &'t [Token<'a>]), Halt> {
        stmt(alloc, self.new, self.most, tokens)
    }
}

impl Headed for StmtPhrase {
    ghost heads = { λ phrase. stmt_next phrase.new };

    fn is_next(&self, tokens: &[Token<'_>]) -> bool {
        is_stmt_next(self.new, tokens)
    }
}
