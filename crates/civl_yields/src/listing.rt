// The phases before the calls of each procedure.
ghost use Rattle.std.specs.Prelude.{◌≡◌, map, IfOk, List};
ghost use Rattle.civl_yields.specs.Phases.{before_calls, phases_of};

use crate::marking::phases_before;
use crate::rules::is_call;
use civl_names::walks::statements;
use civl_tree::{List, Memory, Proc, Program, Stmt};
use std::alloc::Global;

/// Of these phases, each before one of these statements, those before a call.
fn before_calls(alloc: Global, flat: &[&Stmt], phases: &[bool]) -> Result<List<bool>, Memory>
    ensures { IfOk result (λ left. left ≡ before_calls (map (λ stmt. stmt.now) flat.now) phases.now) }
{
    let mut left = List::new(alloc);
    for (number, stmt) in flat.iter().enumerate() {
        match phases.get(number) {
            Some(phase) => {
                if is_call(stmt) {
                    left.push(*phase)?;
                }
            }
            None => return Ok(left),
        }
    }
    Ok(left)
}

/// The phases before the calls of a procedure; a root has none.
fn phases_of(alloc: Global, program: &Program, proc: &Proc) -> Result<List<bool>, Memory>
    ensures { IfOk result (λ left. left ≡ phases_of program.now proc.now) }
{
    match &proc.refines {
        Some(_) => {
            let flat = statements(alloc, &proc.body)?;
            let phases = phases_before(alloc, program, &proc.body)?;
            before_calls(alloc, &flat, &phases)
        }
        None => Ok(List::new(alloc)),
    }
}

/// For each procedure and each of its call statements in text order, whether the block may have passed its turning point
/// before this statement. The list of a root is empty.
#[derive(Drop)]
pub struct Phases {
    pub left: List<List<bool>>,
}

/// The phases before the calls of each procedure. `Memory` comes where memory is wanting.
///
/// # Errors
///
/// For want of memory.
pub fn phases_in(alloc: Global, program: &Program) -> Result<Phases, Memory>
    ensures { IfOk result (λ phases. phases.left ≡ map (phases_of program.now) program.now.procs) }
{
    let mut left = List::new(alloc);
    for proc in program.procs.as_slice() {
        left.push(phases_of(alloc, program, proc)?)?;
    }
    Ok(Phases { left })
}
