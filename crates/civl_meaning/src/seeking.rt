// What stands at a place of a procedure's body, for bodies of any size.
ghost use Rattle.std.specs.Prelude.{◌≡◌, ◌<◌, ◌≤◌, MatchOption, option_copied};
ghost use Rattle.civl_meaning.specs.Places.{spot_at};
ghost use Rattle.civl_tree.specs.Numbering.{size_of, sizes_of};
ghost use Rattle.civl_meaning.specs.inner.Left.{stmt_of, first_left, among_left, inside_left};

use crate::found::skipped;
use civl_tree::{List, Stmt};

/// How many statements a statement is, with those inside it; `None` where they are more than the limit.
#[cycle(size)]
fn size_within(stmt: &Stmt, limit: usize) -> Option<usize>
    ensures { MatchOption result (limit < size_of stmt.now) (λ n. (n ≡ size_of stmt.now) × (n ≤ limit)) }
{
    if limit == 0 {
        return None;
    }
    match stmt {
        Stmt::If(_, a, b) => {
            let first = sizes_within(a, limit - 1)?;
            let second = sizes_within(b, limit - 1 - first)?;
            Some(1 + first + second)
        }
        Stmt::While(_, a) | Stmt::YieldLoop(_, _, a) | Stmt::RankLoop(_, _, _, a) => {
            let inside = sizes_within(a, limit - 1)?;
            Some(1 + inside)
        }
        _ => Some(1),
    }
}

/// How many statements these are, with those inside them; `None` where they are more than the limit.
#[cycle(size)]
fn sizes_within(stmts: &List<Stmt>, limit: usize) -> Option<usize>
    ensures { MatchOption result (limit < sizes_of stmts.now) (λ n. (n ≡ sizes_of stmts.now) × (n ≤ limit)) }
{
    let mut sum = 0;
    for stmt in stmts.as_slice() {
        let size = size_within(stmt, limit - sum)?;
        sum += size;
    }
    Some(sum)
}

/// The first statement of a plain program among these, or what comes after them.
fn first<'a>(stmts: &'a [Stmt], after: Option<&'a Stmt>) -> Option<&'a Stmt>
    ensures { option_copied result ≡ first_left stmts.now (option_copied after.entry) }
{
    for stmt in stmts {
        if !skipped(stmt) {
            return Some(stmt);
        }
    }
    after
}

/// What stands among these statements, so many places behind where they begin.
#[cycle(seek)]
fn seek<'a>(stmts: &'a List<Stmt>, after: Option<&'a Stmt>, wanted: usize) -> Option<&'a Stmt>
    ensures { option_copied result ≡ among_left stmts.now (option_copied after.entry) wanted }
{
    let items = stmts.as_slice();
    let mut left = wanted;
    for i in 0..items.len() {
        let stmt = &items[i];
        let Some(size) = size_within(stmt, left) else {
            if left == 0 {
                return first(&items[i..], after);
            }
            return seek_inside(stmt, first(&items[i + 1..], after), left);
        };
        left -= size;
    }
    after
}

/// What stands inside a statement, so many places behind it.
#[cycle(seek)]
#[tactic(auto, using(crate::proofs::Shifting::shifting))]
fn seek_inside<'a>(stmt: &'a Stmt, after: Option<&'a Stmt>, left: usize) -> Option<&'a Stmt>
    requires { 0 < left }
    ensures { option_copied result ≡ inside_left stmt.now (option_copied after.entry) left }
{
    match stmt {
        Stmt::If(_, a, b) => match sizes_within(a, left - 1) {
            None => seek(a, after, left - 1),
            Some(size) => seek(b, after, left - 1 - size),
        },
        Stmt::While(_, a) => seek(a, Some(stmt), left - 1),
        Stmt::YieldLoop(_, _, a) => seek(a, Some(stmt), left - 1),
        Stmt::RankLoop(_, _, _, a) => seek(a, Some(stmt), left - 1),
        Stmt::Assign(_, _) => after,
        Stmt::Assert(_) => after,
        Stmt::Call(_, _, _) => after,
        Stmt::Yield(_) => after,
        Stmt::Commit => after,
        Stmt::Intro(_, _) => after,
        Stmt::Spawn(_, _) => after,
    }
}

/// The first statement of a plain program from a place of a body on; `None` where no statement is left. It takes no
/// memory.
#[tactic(auto, using(crate::proofs::Shifting::body_left))]
pub fn seek_body(body: &List<Stmt>, wanted: usize) -> Option<&Stmt>
    ensures { option_copied result ≡ stmt_of (spot_at body.now wanted) }
{
    seek(body, None, wanted)
}
