// The statement with a number, looked for in text order.
ghost use Rattle.std.specs.Prelude.{◌≡◌, ◌∷◌, ◌+◌, ◌<◌, ◌^◌, length, map};
ghost use Rattle.civl_tree.specs.Spelling.{joined};
ghost use Rattle.civl_tree.specs.SpellingStmt.{spell_stmt};
ghost use Rattle.civl_places.specs.Starts.{inner_starts, starts_of};
ghost use Rattle.civl_places.specs.inner.Walked.{walked};

use crate::statement::{stmt_count, stmts_count};
use civl_reasons::expr_count;
use civl_tree::{List, Stmt};

/// What a walk over numbered parts comes to.
#[derive(Clone, Copy)]
pub(crate) enum Walk {
    /// The part with the number begins at this token.
    Found(usize),
    /// All parts are passed, and so much of the number is left.
    Left(usize),
}

/// A statement that begins at this token, and those in it.
#[cycle(walk)]
#[tactic(auto, using(crate::proofs::Walking::walking))]
fn walk_stmt(stmt: &Stmt, number: usize, at: usize) -> Walk
    requires { at + length (spell_stmt stmt.now) < 2 ^ 64 }
    ensures { result ≡ walked (at ∷ inner_starts stmt.now at) number }
{
    if number == 0 {
        return Walk::Found(at);
    }
    let inside = number - 1;
    match stmt {
        Stmt::If(test, first, second) => {
            let first_at = at + expr_count(test) + 2;
            match walk_stmts(first, inside, first_at) {
                Walk::Found(token) => Walk::Found(token),
                Walk::Left(left) => walk_stmts(second, left, first_at + stmts_count(first) + 3),
            }
        }
        Stmt::While(test, body) => walk_stmts(body, inside, at + expr_count(test) + 2),
        Stmt::YieldLoop(test, inv, body) => {
            walk_stmts(body, inside, at + expr_count(test) + expr_count(inv) + 4)
        }
        Stmt::RankLoop(test, rank, inv, body) => walk_stmts(
            body,
            inside,
            at + expr_count(test) + expr_count(rank) + expr_count(inv) + 5,
        ),
        _ => Walk::Left(inside),
    }
}

/// Statements of which the first begins at this token, and those in them.
#[cycle(walk)]
#[tactic(auto, using(crate::proofs::Walking::walking))]
pub(crate) fn walk_stmts(stmts: &List<Stmt>, number: usize, start: usize) -> Walk
    requires { start + length (joined (map spell_stmt stmts.now)) < 2 ^ 64 }
    ensures { result ≡ walked (starts_of start stmts.now) number }
{
    let mut left = number;
    let mut at = start;
    for stmt in stmts.as_slice() {
        left = match walk_stmt(stmt, left, at) {
            Walk::Found(token) => return Walk::Found(token),
            Walk::Left(rest) => rest,
        };
        at += stmt_count(stmt);
    }
    Walk::Left(left)
}
