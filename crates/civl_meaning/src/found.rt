// What stands at a place of a procedure's body.
ghost use Rattle.std.specs.Prelude.{◌≡◌, ◌+◌, ◌^◌, ◌<◌};
ghost use Rattle.civl_tree.specs.declared.stmt.Stmt.{out-Stmt};
ghost use Rattle.civl_meaning.specs.Places.{is_skipped, start_of, loop_spot};
ghost use Rattle.civl_tree.specs.Numbering.{size_of};
ghost use Rattle.civl_meaning.specs.Found.{spot, Fits, IsSecond};

use crate::sizes::sizes;
use civl_tree::Stmt;

/// A statement, its number, and the place that comes after it. `second` is the place of the second branch of an `if`; at
/// others it says nothing.
#[derive(Clone, Copy)]
pub struct Found<'a> {
    pub number: usize,
    pub stmt: &'a Stmt,
    pub next: usize,
    pub second: usize,
}

/// Whether a plain program has no such statement.
pub fn skipped(stmt: &Stmt) -> bool
    ensures { result ≡ is_skipped stmt.now }
{
    match stmt {
        Stmt::Yield(_) | Stmt::Commit | Stmt::Intro(_, _) => true,
        _ => false,
    }
}

/// Where these statements begin, with the place `next` behind them.
pub fn begin(stmts: &[Stmt], at: usize, next: usize) -> usize
    ensures { result ≡ start_of stmts.now at next }
{
    match stmts.split_first() {
        None => next,
        Some(_) => at,
    }
}

/// The place of an `if`'s second branch.
fn second(stmt: &Stmt, at: usize) -> usize
    requires { at + size_of stmt.now < 2 ^ 64 }
    ensures { IsSecond result at (out-Stmt stmt.now) }
{
    match stmt {
        Stmt::If(_, a, _) => at + 1 + sizes(a),
        _ => at,
    }
}

/// A statement of a plain program, as it is found at its own number.
pub fn itself<'a>(stmt: &'a Stmt, at: usize, next: usize) -> Option<Found<'a>>
    requires { at + size_of stmt.now < 2 ^ 64 }
    ensures spot { spot result ≡ loop_spot stmt.now at next }
    ensures fits { Fits result }
{
    Some(Found {
        number: at,
        stmt,
        next,
        second: second(stmt, at),
    })
}
