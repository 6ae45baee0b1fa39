// How many statements there are, where a number says it.
ghost use Rattle.std.specs.Prelude.{◌≡◌, IfSome};
ghost use Rattle.civl_tree.specs.Numbering.{size_of, sizes_of};

use civl_tree::{List, Stmt};

/// How many statements a statement is, with those inside it, where a number says it.
#[cycle(counted)]
fn counted(stmt: &Stmt) -> Option<usize>
    ensures { IfSome result (λ n. n ≡ size_of stmt.now) }
{
    match stmt {
        Stmt::If(_, a, b) => {
            let first = counted_all(a)?;
            let second = counted_all(b)?;
            let both = first.checked_add(second)?;
            both.checked_add(1)
        }
        Stmt::While(_, a) | Stmt::YieldLoop(_, _, a) | Stmt::RankLoop(_, _, _, a) => {
            let inside = counted_all(a)?;
            inside.checked_add(1)
        }
        _ => Some(1),
    }
}

/// How many statements these are, with those inside them, where a number says it.
#[cycle(counted)]
pub(crate) fn counted_all(stmts: &List<Stmt>) -> Option<usize>
    ensures { IfSome result (λ n. n ≡ sizes_of stmts.now) }
{
    let mut sum: usize = 0;
    for stmt in stmts.as_slice() {
        let size = counted(stmt)?;
        sum = sum.checked_add(size)?;
    }
    Some(sum)
}
