// Which statements stand inside rank loops.
ghost use Rattle.std.specs.Prelude.{◌≡◌, ◌++◌, false, IfOk, OnOk};
ghost use Rattle.civl_yields.specs.Places.{insides, insides_all};

use civl_tree::{List, Memory, Stmt};
use std::alloc::Global;

#[cycle(inside)]
#[tactic(auto, using(crate::proofs::Insides::insides))]
fn add_insides(stmt: &Stmt, inside: bool, flags: &mut Vec<bool>) -> Result<(), Memory>
    ensures { OnOk result (flags.new.items ≡ flags.old.items ++ insides stmt.now inside) }
{
    flags.push(inside)?;
    match stmt {
        Stmt::If(_, first, second) => {
            add_insides_all(first, inside, flags)?;
            add_insides_all(second, inside, flags)
        }
        Stmt::While(_, body) => add_insides_all(body, inside, flags),
        Stmt::YieldLoop(_, _, body) => add_insides_all(body, inside, flags),
        Stmt::RankLoop(_, _, _, body) => add_insides_all(body, true, flags),
        Stmt::Assign(_, _) => Ok(()),
        Stmt::Assert(_) => Ok(()),
        Stmt::Call(_, _, _) => Ok(()),
        Stmt::Yield(_) => Ok(()),
        Stmt::Commit => Ok(()),
        Stmt::Intro(_, _) => Ok(()),
        Stmt::Spawn(_, _) => Ok(()),
    }
}

#[cycle(inside)]
#[tactic(auto, using(crate::proofs::Insides::insides))]
fn add_insides_all(stmts: &List<Stmt>, inside: bool, flags: &mut Vec<bool>) -> Result<(), Memory>
    ensures { OnOk result (flags.new.items ≡ flags.old.items ++ insides_all stmts.now inside) }
{
    for stmt in stmts.as_slice() {
        add_insides(stmt, inside, flags)?;
    }
    Ok(())
}

/// For each statement of a body, in text order, whether it stands inside a rank loop.
pub(crate) fn insides_of(alloc: Global, body: &List<Stmt>) -> Result<Vec<bool>, Memory>
    ensures { IfOk result (λ flags. flags.items ≡ insides_all body.now false) }
{
    let mut flags = Vec::new(alloc);
    add_insides_all(body, false, &mut flags)?;
    Ok(flags)
}
