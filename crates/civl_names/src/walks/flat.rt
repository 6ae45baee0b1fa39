// The statements of a body as a list.
ghost use Rattle.std.specs.Prelude.{◌≡◌, ◌++◌, map, length, IfOk, OnOk};
ghost use Rattle.civl_tree.specs.Numbering.{statements_of, inner_of, sizes_of};

use civl_tree::{List, Memory, Stmt};
use std::alloc::Global;

#[cycle(flat)]
#[tactic(auto, using(crate::proofs::walks::Collecting::collecting))]
fn add_all<'a>(flat: &mut Vec<&'a Stmt>, stmts: &'a List<Stmt>) -> Result<(), Memory>
    ensures { OnOk result (map (λ stmt. stmt.now) flat.new.items ≡ map (λ stmt. stmt.now) flat.old.items ++ statements_of stmts.now) }
{
    for stmt in stmts.as_slice() {
        flat.push(stmt)?;
        add_inner(flat, stmt)?;
    }
    Ok(())
}

#[cycle(flat)]
#[tactic(auto, using(crate::proofs::walks::Collecting::collecting))]
fn add_inner<'a>(flat: &mut Vec<&'a Stmt>, stmt: &'a Stmt) -> Result<(), Memory>
    ensures { OnOk result (map (λ stmt. stmt.now) flat.new.items ≡ map (λ stmt. stmt.now) flat.old.items ++ inner_of stmt.now) }
{
    match stmt {
        Stmt::If(_, first, second) => {
            add_all(flat, first)?;
            add_all(flat, second)
        }
        Stmt::While(_, body) => { add_all(flat, body) }
        Stmt::YieldLoop(_, _, body) => { add_all(flat, body) }
        Stmt::RankLoop(_, _, _, body) => { add_all(flat, body) }
        Stmt::Assign(_, _)
        | Stmt::Assert(_)
        | Stmt::Call(_, _, _)
        | Stmt::Yield(_)
        | Stmt::Commit
        | Stmt::Intro(_, _)
        | Stmt::Spawn(_, _) => Ok(()),
    }
}

/// All statements of a body in text order, each before those in it: the number of a statement is its place here.
pub fn statements<'a>(alloc: Global, body: &'a List<Stmt>) -> Result<Vec<&'a Stmt>, Memory>
    ensures statements { IfOk result (λ flat. map (λ stmt. stmt.now) flat.items ≡ statements_of body.now) }
    ensures count { IfOk result (λ flat. length flat.items ≡ sizes_of body.now) }
{
    let mut flat = Vec::new(alloc);
    add_all(&mut flat, body)?;
    Ok(flat)
}
