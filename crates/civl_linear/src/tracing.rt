// What is held before each statement.
ghost use Rattle.std.specs.Prelude.{◌≡◌, ◌++◌, map, IfOk, OnOk};
ghost use Rattle.civl_linear.specs.Held.{traced, traced_all, traced_proc};

use crate::calls::{call_held, spawn_held};
use crate::flags::{both_held, copied, covers, entry_held};
use crate::places::names_in_proc;
use civl_tree::{List, Memory, Name, Proc, Program, Stmt};
use civl_types::names::{callee_signature, proc_signature};
use std::alloc::Global;

/// Behind each other.
fn append(flags: &mut Vec<bool>, others: &[bool]) -> Result<(), Memory>
    ensures { OnOk result (flags.new.items ≡ flags.old.items ++ others.now) }
{
    for flag in others {
        flags.push(*flag)?;
    }
    Ok(())
}

/// Adds what is held before a statement and before each of those in it, and which of them lose something; answers what is
/// held behind it.
#[cycle(trace)]
#[tactic(auto, using(crate::proofs::Traces::traces))]
fn trace(
    alloc: Global,
    program: &Program,
    names: &[&Name],
    stmt: &Stmt,
    held: &List<bool>,
    befores: &mut Vec<List<bool>>,
    losses: &mut Vec<bool>,
) -> Result<List<bool>, Memory>
    ensures after { IfOk result (λ after. after ≡ (traced program.now (map (λ name. name.now) names.now) stmt.now held.now).after) }
    ensures befores { OnOk result (befores.new.items ≡ befores.old.items ++ (traced program.now (map (λ name. name.now) names.now) stmt.now held.now).befores) }
    ensures losses { OnOk result (losses.new.items ≡ losses.old.items ++ (traced program.now (map (λ name. name.now) names.now) stmt.now held.now).losses) }
{
    befores.push(copied(alloc, held)?)?;
    match stmt {
        Stmt::If(_, first, second) => {
            losses.push(false)?;
            let one = trace_all(alloc, program, names, first, held, befores, losses)?;
            let other = trace_all(alloc, program, names, second, held, befores, losses)?;
            both_held(alloc, &one, &other)
        }
        Stmt::While(_, body) | Stmt::YieldLoop(_, _, body) | Stmt::RankLoop(_, _, _, body) => {
            let mut inner = Vec::new(alloc);
            let end = trace_all(alloc, program, names, body, held, befores, &mut inner)?;
            losses.push(!covers(held, &end))?;
            append(losses, &inner)?;
            copied(alloc, held)
        }
        Stmt::Call(callee, args, results) => {
            losses.push(false)?;
            let signature = callee_signature(program, callee);
            call_held(
                alloc,
                names,
                signature,
                args.as_slice(),
                results.as_slice(),
                held,
            )
        }
        Stmt::Spawn(callee, args) => {
            losses.push(false)?;
            let signature = proc_signature(program, callee);
            spawn_held(alloc, names, signature, args.as_slice(), held)
        }
        Stmt::Assign(_, _) | Stmt::Assert(_) | Stmt::Yield(_) | Stmt::Commit | Stmt::Intro(_, _) =>
            {
                losses.push(false)?;
                copied(alloc, held)
            }
    }
}

/// The same for these statements.
#[cycle(trace)]
#[tactic(auto, using(crate::proofs::Traces::traces))]
fn trace_all(
    alloc: Global,
    program: &Program,
    names: &[&Name],
    stmts: &List<Stmt>,
    held: &List<bool>,
    befores: &mut Vec<List<bool>>,
    losses: &mut Vec<bool>,
) -> Result<List<bool>, Memory>
    ensures after { IfOk result (λ after. after ≡ (traced_all program.now (map (λ name. name.now) names.now) stmts.now held.now).after) }
    ensures befores { OnOk result (befores.new.items ≡ befores.old.items ++ (traced_all program.now (map (λ name. name.now) names.now) stmts.now held.now).befores) }
    ensures losses { OnOk result (losses.new.items ≡ losses.old.items ++ (traced_all program.now (map (λ name. name.now) names.now) stmts.now held.now).losses) }
{
    let mut here = copied(alloc, held)?;
    for stmt in stmts.as_slice() {
        here = trace(alloc, program, names, stmt, &here, befores, losses)?;
    }
    Ok(here)
}

/// What is held before each statement of a procedure, in text order, which statements are loops that lose something, and
/// what is held at the exit.
#[derive(Drop)]
pub(crate) struct Traced {
    pub after: List<bool>,
    pub befores: Vec<List<bool>>,
    pub losses: Vec<bool>,
}

/// Goes over the body of a procedure.
pub(crate) fn traced_proc(alloc: Global, program: &Program, proc: &Proc) -> Result<Traced, Memory>
    ensures after { IfOk result (λ traced. traced.after ≡ (traced_proc program.now proc.now).after) }
    ensures befores { IfOk result (λ traced. traced.befores.items ≡ (traced_proc program.now proc.now).befores) }
    ensures losses { IfOk result (λ traced. traced.losses.items ≡ (traced_proc program.now proc.now).losses) }
{
    let names = names_in_proc(alloc, proc)?;
    let held = entry_held(alloc, proc)?;
    let mut befores = Vec::new(alloc);
    let mut losses = Vec::new(alloc);
    let after = trace_all(
        alloc,
        program,
        &names,
        &proc.body,
        &held,
        &mut befores,
        &mut losses,
    )?;
    Ok(Traced {
        after,
        befores,
        losses,
    })
}

/// What a procedure holds before each of its statements, in text order: for each a flag for each name of the procedure, its
/// parameters, outputs and locals.
///
/// A local is held where the linear value that it stands for is this thread's: the linear permissions of layered programs
/// (Kragl and Qadeer, CAV 2018).
///
/// # Errors
///
/// For want of memory.
pub fn flags_before(
    alloc: Global,
    program: &Program,
    proc: &Proc,
) -> Result<Vec<List<bool>>, Memory>
    ensures { IfOk result (λ befores. befores.items ≡ (traced_proc program.now proc.now).befores) }
{
    let traced = traced_proc(alloc, program, proc)?;
    Ok(traced.befores)
}
