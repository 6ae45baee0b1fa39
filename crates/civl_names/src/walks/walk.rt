// The first statement of a body that breaks a rule, found without a list of the statements.
ghost use Rattle.std.specs.Prelude.{◌≡◌, ◌+◌, ◌<◌, ◌^◌, length};
ghost use Rattle.civl_tree.specs.Numbering.{statements_of, inner_of};
ghost use Rattle.civl_tree.specs.rules.Rules.{numbers_where, first_of};
ghost use Rattle.civl_names.specs.inner.walks.Walked.{IsWalked};

use crate::walks::rule::Test;
use civl_tree::{List, Stmt};

/// Where a walk over statements ends: at the first that breaks the rule, or behind all, with the number that comes next.
#[derive(Clone, Copy)]
enum Walk {
    Broken(u32),
    Next(u32),
}

/// Goes over these statements, and those in them, where the first has this number.
#[cycle(walk)]
#[tactic(auto, using(crate::proofs::walks::Walking::walking))]
fn walk_all<T: Test>(stmts: &List<Stmt>, test: &T, number: u32) -> Walk
    requires { number + length (statements_of stmts.now) < 2 ^ 32 }
    ensures { IsWalked (T.breaks test.now) number (statements_of stmts.now) result }
{
    let mut here = number;
    for stmt in stmts.as_slice() {
        if test.breaks(stmt) {
            return Walk::Broken(here);
        }
        match walk_inside(stmt, test, here + 1) {
            Walk::Broken(found) => return Walk::Broken(found),
            Walk::Next(next) => here = next,
        }
    }
    Walk::Next(here)
}

/// Goes over the statements in a statement, where the first of them has this number.
#[cycle(walk)]
#[tactic(auto, using(crate::proofs::walks::Walking::walking))]
fn walk_inside<T: Test>(stmt: &Stmt, test: &T, number: u32) -> Walk
    requires { number + length (inner_of stmt.now) < 2 ^ 32 }
    ensures { IsWalked (T.breaks test.now) number (inner_of stmt.now) result }
{
    match stmt {
        Stmt::If(_, first, second) => match walk_all(first, test, number) {
            Walk::Broken(found) => Walk::Broken(found),
            Walk::Next(next) => walk_all(second, test, next),
        },
        Stmt::While(_, body) => walk_all(body, test, number),
        Stmt::YieldLoop(_, _, body) => walk_all(body, test, number),
        Stmt::RankLoop(_, _, _, body) => walk_all(body, test, number),
        Stmt::Assign(_, _) => Walk::Next(number),
        Stmt::Assert(_) => Walk::Next(number),
        Stmt::Call(_, _, _) => Walk::Next(number),
        Stmt::Yield(_) => Walk::Next(number),
        Stmt::Commit => Walk::Next(number),
        Stmt::Intro(_, _) => Walk::Next(number),
        Stmt::Spawn(_, _) => Walk::Next(number),
    }
}

/// The number of the first statement of a body that breaks the rule. The body has fewer than 2^32 statements. It takes no
/// memory.
pub fn first_in_body<T: Test>(test: &T, body: &List<Stmt>) -> Option<u32>
    requires { length (statements_of body.now) < 2 ^ 32 }
    ensures { result ≡ first_of (numbers_where (T.breaks test.now) 0 (statements_of body.now)) }
{
    match walk_all(body, test, 0) {
        Walk::Broken(number) => Some(number),
        Walk::Next(_) => None,
    }
}
