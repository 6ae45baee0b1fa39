// How many tokens statements have.
ghost use Rattle.std.specs.Prelude.{◌≡◌, ◌<◌, ◌^◌, length, map};
ghost use Rattle.civl_tree.specs.Spelling.{joined, spell_expr};
ghost use Rattle.civl_tree.specs.SpellingStmt.{spell_name, spell_stmt};

use crate::phrase::{Phrase, count_list};
use civl_reasons::expr_count;
use civl_tree::{Expr, List, Name, Stmt};

impl Phrase for Expr {
    ghost spell = { spell_expr };

    fn count(&self) -> usize {
        expr_count(self)
    }
}

impl Phrase for Name {
    ghost spell = { spell_name };

    fn count(&self) -> usize {
        1
    }
}

/// The tokens of a statement.
#[cycle(stmt)]
#[tactic(auto, using(crate::proofs::Counts::counts))]
pub(crate) fn stmt_count(stmt: &Stmt) -> usize
    requires { length (spell_stmt stmt.now) < 2 ^ 64 }
    ensures { result ≡ length (spell_stmt stmt.now) }
{
    match stmt {
        Stmt::Assign(_, value) => expr_count(value) + 3,
        Stmt::Assert(fact) => expr_count(fact) + 2,
        Stmt::If(test, first, second) => {
            expr_count(test) + stmts_count(first) + stmts_count(second) + 6
        }
        Stmt::While(test, body) => expr_count(test) + stmts_count(body) + 3,
        Stmt::YieldLoop(test, inv, body) => {
            expr_count(test) + expr_count(inv) + stmts_count(body) + 5
        }
        Stmt::RankLoop(test, rank, inv, body) => {
            expr_count(test) + expr_count(rank) + expr_count(inv) + stmts_count(body) + 6
        }
        Stmt::Call(_, args, results) => count_list(args) + count_list(results) + 4,
        Stmt::Yield(inv) => expr_count(inv) + 2,
        Stmt::Commit => 2,
        Stmt::Intro(_, value) => expr_count(value) + 4,
        Stmt::Spawn(_, args) => count_list(args) + 3,
    }
}

/// `stmt*`: a list in a recursion has a loop of its own.
#[cycle(stmt)]
#[tactic(auto, using(crate::proofs::Counts::counts))]
pub(crate) fn stmts_count(stmts: &List<Stmt>) -> usize
    requires { length (joined (map spell_stmt stmts.now)) < 2 ^ 64 }
    ensures { result ≡ length (joined (map spell_stmt stmts.now)) }
{
    let mut sum = 0;
    for stmt in stmts.as_slice() {
        sum += stmt_count(stmt);
    }
    sum
}
