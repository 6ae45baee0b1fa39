//! What is still to run from a place of a body.
ghost use Rattle.std.specs.Prelude.{◌≡◌, ◌+◌, ◌∷◌, [], ◌++◌, ◌<◌, ◌^◌, OnOk, IfOk};
ghost use Rattle.civl_meaning.specs.Rest.{rest_among, rest_inside, rest_at};
ghost use Rattle.civl_meaning.specs.Remaining.{rest_of};
ghost use Rattle.civl_tree.specs.Numbering.{numbered, size_of, sizes_of};

use crate::sizes::{counted_all, size, sizes};
use civl_tree::{List, Memory, Proc, Stmt};
use std::alloc::Global;

/// A statement and its number.
#[derive(Clone, Copy)]
pub struct Numbered<'a> {
    pub number: usize,
    pub stmt: &'a Stmt,
}

/// Puts these statements, the first of which has this number, behind others.
///
/// # Errors
///
/// For want of memory.
pub fn push_numbered<'a>(
    rest: &mut Vec<Numbered<'a>>,
    stmts: &'a [Stmt],
    number: usize,
) -> Result<(), Memory>
    requires { number + sizes_of stmts.now < 2 ^ 64 }
    ensures { OnOk result (rest_of rest.new.items ≡ rest_of rest.old.items ++ numbered number stmts.now) }
{
    let mut here = number;
    for stmt in stmts {
        rest.push(Numbered { number: here, stmt })?;
        here += size(stmt);
    }
    Ok(())
}

/// Puts a statement that has this number behind others.
///
/// # Errors
///
/// For want of memory.
pub fn push_one<'a>(
    rest: &mut Vec<Numbered<'a>>,
    stmt: &'a Stmt,
    number: usize,
) -> Result<(), Memory>
    ensures { OnOk result (rest_of rest.new.items ≡ rest_of rest.old.items ++ (number, stmt.now) ∷ []) }
{
    rest.push(Numbered { number, stmt })?;
    Ok(())
}

/// Puts what is still to run from a place among these statements, the first of which has the number `at`, behind others.
/// Behind the body of a loop the loop comes again.
///
/// # Errors
///
/// For want of memory.
#[cycle(rest)]
pub fn push_among<'a>(
    rest: &mut Vec<Numbered<'a>>,
    stmts: &'a List<Stmt>,
    at: usize,
    wanted: usize,
) -> Result<(), Memory>
    requires { at + sizes_of stmts.now < 2 ^ 64 }
    ensures { OnOk result (rest_of rest.new.items ≡ rest_of rest.old.items ++ rest_among stmts.now at [] wanted) }
{
    let items = stmts.as_slice();
    let mut here = at;
    for i in 0..items.len() {
        let stmt = &items[i];
        let behind = here + size(stmt);
        if wanted < behind {
            if wanted == here {
                push_numbered(rest, &items[i..], here)?;
                return Ok(());
            }
            push_inside(rest, stmt, here, wanted)?;
            push_numbered(rest, &items[i + 1..], behind)?;
            return Ok(());
        }
        here = behind;
    }
    Ok(())
}

/// The same from a place inside a statement.
#[cycle(rest)]
#[tactic(auto, using(crate::proofs::Left::resting))]
fn push_inside<'a>(
    rest: &mut Vec<Numbered<'a>>,
    stmt: &'a Stmt,
    at: usize,
    wanted: usize,
) -> Result<(), Memory>
    requires { at + size_of stmt.now < 2 ^ 64 }
    ensures { OnOk result (rest_of rest.new.items ≡ rest_of rest.old.items ++ rest_inside stmt.now stmt.now at [] wanted) }
{
    match stmt {
        Stmt::If(_, a, b) => {
            let second = at + 1 + sizes(a);
            if wanted < second {
                push_among(rest, a, at + 1, wanted)
            } else {
                push_among(rest, b, second, wanted)
            }
        }
        Stmt::While(_, a) => {
            push_among(rest, a, at + 1, wanted)?;
            push_one(rest, stmt, at)
        }
        Stmt::YieldLoop(_, _, a) => {
            push_among(rest, a, at + 1, wanted)?;
            push_one(rest, stmt, at)
        }
        Stmt::RankLoop(_, _, _, a) => {
            push_among(rest, a, at + 1, wanted)?;
            push_one(rest, stmt, at)
        }
        Stmt::Assign(_, _) => Ok(()),
        Stmt::Assert(_) => Ok(()),
        Stmt::Call(_, _, _) => Ok(()),
        Stmt::Yield(_) => Ok(()),
        Stmt::Commit => Ok(()),
        Stmt::Intro(_, _) => Ok(()),
        Stmt::Spawn(_, _) => Ok(()),
    }
}

/// What is still to run from a place of a procedure's body: statements of any kind, each with its number.
///
/// # Errors
///
/// For want of memory; and where no `usize` says how many statements the body has, since no memory holds so many.
pub fn rest_at(alloc: Global, proc: &Proc, place: usize) -> Result<Vec<Numbered<'_>>, Memory>
    ensures { IfOk result (λ rest. rest_of rest.items ≡ rest_at proc.now.body place) }
{
    match counted_all(&proc.body) {
        None => Err(Memory),
        Some(count) => {
            let mut rest = Vec::with_capacity(alloc, count)?;
            push_among(&mut rest, &proc.body, 0, place)?;
            Ok(rest)
        }
    }
}
