// What a procedure holds before its statements.
ghost use Rattle.std.specs.Prelude.{ℕ, ◌≡◌, ◌<◌, ◌^◌, [], map, length, get_or, IfOk};
ghost use Rattle.civl_tree.specs.Numbering.{sizes_of};
ghost use Rattle.civl_tree.specs.rules.Names.{names_in_proc};
ghost use Rattle.civl_layers.specs.Layered.{IsLayered};
ghost use Rattle.civl_conditions.specs.Steps.{of_proc};
ghost use Rattle.civl_linear.specs.Cuts.{held_numbers};
ghost use Rattle.civl_goals.specs.Failed.{held_before};

use civl_layers::{Layered, program};
use civl_linear::{flags_before, held_numbers, names_in_proc};
use civl_tree::{List, Memory, Name, Proc, Program};
use std::alloc::Global;

/// The numbers that are held before the statement with this number, where there is one.
fn numbers_at(
    alloc: Global,
    names: &[&Name],
    befores: &[List<bool>],
    statement: u32,
) -> Result<List<u32>, Memory>
    requires { length names.now < 2 ^ 32 }
    ensures { IfOk result (λ numbers. numbers ≡ held_numbers 0 (map (λ name. name.now) names.now) (get_or befores.now statement [])) }
{
    match befores.get(statement as usize) {
        Some(held) => {
            let numbers = held_numbers(alloc, names, held)?;
            Ok(numbers)
        }
        None => Ok(List::new(alloc)),
    }
}

/// The same in a procedure.
fn held_in(
    alloc: Global,
    program: &Program,
    proc: &Proc,
    statement: u32,
) -> Result<List<u32>, Memory>
    requires { length (names_in_proc proc.now) < 2 ^ 32 }
    ensures { IfOk result (λ numbers. numbers ≡ held_before program.now proc.now statement) }
{
    let names = names_in_proc(alloc, proc)?;
    let befores = flags_before(alloc, program, proc)?;
    numbers_at(alloc, names.as_slice(), befores.as_slice(), statement)
}

/// The same in the procedure with this number, where there is one.
fn held_at(
    alloc: Global,
    program: &Program,
    number: u32,
    statement: u32,
) -> Result<List<u32>, Memory>
    requires { IsLayered program.now }
    ensures { IfOk result (λ numbers. numbers ≡ of_proc program.now number [] (λ proc. held_before program.now proc statement)) }
{
    match program.procs.as_slice().get(number as usize) {
        Some(proc) => {
            let numbers = held_in(alloc, program, proc, statement)?;
            Ok(numbers)
        }
        None => Ok(List::new(alloc)),
    }
}

/// The numbers of the locals that a procedure holds before one of its statements, rising. A number counts the procedure's
/// parameters, outputs and locals, in this order, from 0. Where there is no procedure or no statement with this number,
/// nothing is held. It goes once over the body.
///
/// A local is held where the linear value that it stands for is this thread's: the linear permissions of layered programs
/// (Kragl and Qadeer, CAV 2018).
///
/// # Errors
///
/// For want of memory.
pub fn held_before(
    alloc: Global,
    src: &Layered,
    proc_number: u32,
    statement: u32,
) -> Result<List<u32>, Memory>
    ensures { IfOk result (λ numbers. numbers ≡ of_proc src.now proc_number [] (λ proc. held_before src.now proc statement)) }
{
    let numbers = held_at(alloc, program(src), proc_number, statement)?;
    Ok(numbers)
}

// ---- how many

/// How many of these names are held, for each of these lists of flags.
fn counts_of(alloc: Global, names: &[&Name], befores: &[List<bool>]) -> Result<Vec<usize>, Memory>
    requires { length names.now < 2 ^ 32 }
    ensures { IfOk result (λ counts. counts.items ≡ map (λ held. length (held_numbers 0 (map (λ name. name.now) names.now) held)) befores.now) }
{
    let mut counts = Vec::new(alloc);
    for held in befores {
        let numbers = held_numbers(alloc, names, held)?;
        counts.push(numbers.len())?;
    }
    Ok(counts)
}

/// How many a procedure holds before each of its statements.
fn counts_in(alloc: Global, program: &Program, proc: &Proc) -> Result<Vec<usize>, Memory>
    requires { length (names_in_proc proc.now) < 2 ^ 32 }
    ensures counts { IfOk result (λ counts. (statement : ℕ) → get_or counts.items statement 0 ≡ length (held_before program.now proc.now statement)) }
    ensures statements { IfOk result (λ counts. length counts.items ≡ sizes_of proc.now.body) }
{
    let names = names_in_proc(alloc, proc)?;
    let befores = flags_before(alloc, program, proc)?;
    let counts = counts_of(alloc, names.as_slice(), befores.as_slice())?;
    Ok(counts)
}

/// The same of the procedure with this number, where there is one.
fn counts_at(alloc: Global, program: &Program, number: u32) -> Result<Vec<usize>, Memory>
    requires { IsLayered program.now }
    ensures counts { IfOk result (λ counts. (statement : ℕ) → get_or counts.items statement 0 ≡ of_proc program.now number 0 (λ proc. length (held_before program.now proc statement))) }
    ensures statements { IfOk result (λ counts. length counts.items ≡ of_proc program.now number 0 (λ proc. sizes_of proc.body)) }
{
    match program.procs.as_slice().get(number as usize) {
        Some(proc) => {
            let counts = counts_in(alloc, program, proc)?;
            Ok(counts)
        }
        None => Ok(Vec::new(alloc)),
    }
}

/// How many locals a procedure holds before each of its statements, in text order, as [`held_before`] has them: one number a
/// statement. Where there is no procedure with this number the answer is empty. It goes once over the body.
///
/// # Errors
///
/// For want of memory.
pub fn held_counts(alloc: Global, src: &Layered, proc_number: u32) -> Result<Vec<usize>, Memory>
    ensures counts { IfOk result (λ counts. (statement : ℕ) → get_or counts.items statement 0 ≡ of_proc src.now proc_number 0 (λ proc. length (held_before src.now proc statement))) }
    ensures statements { IfOk result (λ counts. length counts.items ≡ of_proc src.now proc_number 0 (λ proc. sizes_of proc.body)) }
{
    let counts = counts_at(alloc, program(src), proc_number)?;
    Ok(counts)
}
