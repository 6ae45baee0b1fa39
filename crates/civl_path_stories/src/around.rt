// The statements around a statement.
ghost use Rattle.std.specs.Prelude.{◌≡◌, ◌+◌, ◌++◌, ◌<◌, ◌^◌, length, IfOk};
ghost use Rattle.civl_tree.specs.declared.stmt.Stmt.{out-Stmt};
ghost use Rattle.civl_tree.specs.Numbering.{inner_of, size_of, sizes_of, statements_of};
ghost use Rattle.civl_path_stories.specs.Around.{around, around_among, around_at, branch_of, stands_in};

use civl_meaning::sizes::{size, sizes};
use civl_tree::{List, Memory, Stmt};
use std::alloc::Global;

/// The part of a statement in which another stands: the body of a loop, or the first or the second branch of an `if`.
#[derive(Clone, Copy)]
pub(crate) enum Branch {
    Body,
    First,
    Second,
}

/// A statement around another: its number, and the part of it in which the other stands.
#[derive(Drop)]
pub(crate) struct Around {
    pub statement: usize,
    pub branch: Branch,
}

/// Whether the statement with the number `inner` stands in this one.
fn stands_in(inner: usize, number: usize, stmt: &Stmt) -> bool
    requires { number + size_of stmt.now < 2 ^ 64 }
    ensures { result ≡ stands_in inner number stmt.now }
{
    number < inner && inner < number + size(stmt)
}

/// In which part of this one it stands.
fn branch_of(inner: usize, number: usize, stmt: &Stmt) -> Branch
    requires { number + size_of stmt.now < 2 ^ 64 }
    ensures { result ≡ branch_of inner number (out-Stmt stmt.now) }
{
    match stmt {
        Stmt::If(_, first, _) => {
            if inner < number + 1 + sizes(first) {
                Branch::First
            } else {
                Branch::Second
            }
        }
        Stmt::While(_, _) => Branch::Body,
        Stmt::YieldLoop(_, _, _) => Branch::Body,
        Stmt::RankLoop(_, _, _, _) => Branch::Body,
        Stmt::Assign(_, _) => Branch::Body,
        Stmt::Assert(_) => Branch::Body,
        Stmt::Call(_, _, _) => Branch::Body,
        Stmt::Yield(_) => Branch::Body,
        Stmt::Commit => Branch::Body,
        Stmt::Intro(_, _) => Branch::Body,
        Stmt::Spawn(_, _) => Branch::Body,
    }
}

/// Puts this statement behind the others if it is around that one.
fn push_at(found: &mut List<Around>, inner: usize, number: usize, stmt: &Stmt) -> Result<(), Memory>
    requires { number + size_of stmt.now < 2 ^ 64 }
    ensures { IfOk result (λ done. found.new ≡ found.old ++ around_at inner number stmt.now) }
{
    if !stands_in(inner, number, stmt) {
        return Ok(());
    }
    found.push(Around {
        statement: number,
        branch: branch_of(inner, number, stmt),
    })
}

/// Puts those of these statements, and of those in them, that are around it behind the others, where the first has this number. The
/// answer is the number behind them.
#[cycle(around)]
#[tactic(auto, using(crate::proofs::Surrounding::surrounding))]
fn push_among(
    found: &mut List<Around>,
    inner: usize,
    number: usize,
    stmts: &List<Stmt>,
) -> Result<usize, Memory>
    requires { number + length (statements_of stmts.now) < 2 ^ 64 }
    ensures { IfOk result (λ next. (found.new ≡ found.old ++ around_among inner number (statements_of stmts.now))
        × (next ≡ number + length (statements_of stmts.now))) }
{
    let mut here = number;
    for stmt in stmts.as_slice() {
        push_at(found, inner, here, stmt)?;
        here = push_inside(found, inner, here + 1, stmt)?;
    }
    Ok(here)
}

/// The same of the statements in a statement, of which the first has this number.
#[cycle(around)]
#[tactic(auto, using(crate::proofs::Surrounding::surrounding))]
fn push_inside(
    found: &mut List<Around>,
    inner: usize,
    number: usize,
    stmt: &Stmt,
) -> Result<usize, Memory>
    requires { number + length (inner_of stmt.now) < 2 ^ 64 }
    ensures { IfOk result (λ next. (found.new ≡ found.old ++ around_among inner number (inner_of stmt.now))
        × (next ≡ number + length (inner_of stmt.now))) }
{
    match stmt {
        Stmt::If(_, first, second) => {
            let next = push_among(found, inner, number, first)?;
            push_among(found, inner, next, second)
        }
        Stmt::While(_, body) => push_among(found, inner, number, body),
        Stmt::YieldLoop(_, _, body) => push_among(found, inner, number, body),
        Stmt::RankLoop(_, _, _, body) => push_among(found, inner, number, body),
        Stmt::Assign(_, _) => Ok(number),
        Stmt::Assert(_) => Ok(number),
        Stmt::Call(_, _, _) => Ok(number),
        Stmt::Yield(_) => Ok(number),
        Stmt::Commit => Ok(number),
        Stmt::Intro(_, _) => Ok(number),
        Stmt::Spawn(_, _) => Ok(number),
    }
}

/// The statements around the one with this number in a body, from the outermost to the innermost.
pub(crate) fn around_statement(
    alloc: Global,
    body: &List<Stmt>,
    inner: usize,
) -> Result<List<Around>, Memory>
    requires { sizes_of body.now < 2 ^ 64 }
    ensures { IfOk result (λ found. found ≡ around body.now inner) }
{
    let mut found = List::new(alloc);
    push_among(&mut found, inner, 0, body)?;
    Ok(found)
}
