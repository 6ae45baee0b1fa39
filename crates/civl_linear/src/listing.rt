// What is held at cuts.
ghost use Rattle.std.specs.Prelude.{◌≡◌, ◌++◌, ◌<◌, ◌^◌, map, length, is_some, IfOk, OnOk};
ghost use Rattle.civl_tree.specs.rules.Names.{names_in_proc};
ghost use Rattle.civl_layers.specs.Cuts.{cut_kind};
ghost use Rattle.civl_layers.specs.Layered.{IsLayered};
ghost use Rattle.civl_linear.specs.Cuts.{held_numbers, held_at_cuts, held_of};

use crate::flags::entry_held;
use crate::places::names_in_proc;
use crate::tracing::traced_proc;
use civl_layers::Held;
use civl_names::walks::statements;
use civl_tree::{List, Memory, Name, Proc, Program, Stmt};
use std::alloc::Global;

/// The numbers of those of these names that are held, rising. They count the names from 0.
///
/// # Errors
///
/// For want of memory.
pub fn held_numbers(alloc: Global, names: &[&Name], held: &List<bool>) -> Result<List<u32>, Memory>
    requires { length names.now < 2 ^ 32 }
    ensures { IfOk result (λ numbers. numbers ≡ held_numbers 0 (map (λ name. name.now) names.now) held.now) }
{
    let flags = held.as_slice();
    let mut numbers = List::new(alloc);
    for (at, _name) in names.iter().enumerate() {
        match flags.get(at) {
            Some(is_held) => {
                if *is_held {
                    numbers.push(at as u32)?;
                }
            }
            None => return Ok(numbers),
        }
    }
    Ok(numbers)
}

/// Whether the statement is a cut.
fn is_cut(stmt: &Stmt) -> bool
    ensures { result ≡ is_some (cut_kind stmt.now) }
{
    match stmt {
        Stmt::YieldLoop(_, _, _) => true,
        Stmt::RankLoop(_, _, _, _) => true,
        Stmt::Yield(_) => true,
        Stmt::Assign(_, _) => false,
        Stmt::Assert(_) => false,
        Stmt::If(_, _, _) => false,
        Stmt::While(_, _) => false,
        Stmt::Call(_, _, _) => false,
        Stmt::Commit => false,
        Stmt::Intro(_, _) => false,
        Stmt::Spawn(_, _) => false,
    }
}

/// Adds the numbers that are held at the cuts among these statements.
fn add_cuts(
    alloc: Global,
    names: &[&Name],
    flat: &[&Stmt],
    befores: &[List<bool>],
    cuts: &mut List<List<u32>>,
) -> Result<(), Memory>
    requires { length names.now < 2 ^ 32 }
    ensures { OnOk result (cuts.new ≡ cuts.old ++ held_at_cuts (map (λ name. name.now) names.now) (map (λ stmt. stmt.now) flat.now) befores.now) }
{
    for (number, stmt) in flat.iter().enumerate() {
        match befores.get(number) {
            Some(held) => {
                if is_cut(stmt) {
                    cuts.push(held_numbers(alloc, names, held)?)?;
                }
            }
            None => return Ok(()),
        }
    }
    Ok(())
}

/// The numbers that are held at each cut of a procedure; a root has none.
fn held_of(alloc: Global, program: &Program, proc: &Proc) -> Result<List<List<u32>>, Memory>
    requires { length (names_in_proc proc.now) < 2 ^ 32 }
    ensures { IfOk result (λ cuts. cuts ≡ held_of program.now proc.now) }
{
    match &proc.refines {
        Some(_) => {
            let names = names_in_proc(alloc, proc)?;
            let entry = entry_held(alloc, proc)?;
            let mut cuts = List::new(alloc);
            cuts.push(held_numbers(alloc, &names, &entry)?)?;
            let flat = statements(alloc, &proc.body)?;
            let traced = traced_proc(alloc, program, proc)?;
            add_cuts(alloc, &names, &flat, &traced.befores, &mut cuts)?;
            Ok(cuts)
        }
        None => Ok(List::new(alloc)),
    }
}

/// What is held at the cuts of each procedure of a layered program: for each procedure and each of its cuts the numbers
/// of the held locals, rising; nothing for a root. A number counts the procedure's parameters, outputs and locals, in
/// this order, from 0. `Memory` comes where memory is wanting.
///
/// # Errors
///
/// For want of memory.
pub fn held_in(alloc: Global, program: &Program) -> Result<Held, Memory>
    requires { IsLayered program.now }
    ensures { IfOk result (λ held. held.cuts ≡ map (held_of program.now) program.now.procs) }
{
    let mut cuts = List::new(alloc);
    for proc in program.procs.as_slice() {
        cuts.push(held_of(alloc, program, proc)?)?;
    }
    Ok(Held { cuts })
}
