// The printed names of goals.
ghost use Rattle.std.specs.Prelude.{◌≡◌, ◌++◌, OnOk, IfOk, codes, decimal};
ghost use Rattle.civl_conditions.specs.Names.{action_text};
ghost use Rattle.civl_goals.specs.Names.{statement_text, goal_text};

use crate::Goal;
use civl_conditions::naming::{put, put_action, put_number, put_proc};
use civl_layers::{Layered, program};
use civl_tree::{Memory, Program};
use std::alloc::Global;

/// A statement of a procedure.
fn put_statement(
    out: &mut Vec<u8>,
    program: &Program,
    proc: u32,
    statement: u32,
) -> Result<(), Memory>
    ensures { OnOk result (out.new.items ≡ out.old.items ++ statement_text program.now proc statement) }
{
    put_proc(out, program, proc)?;
    put(out, b" at ")?;
    put_number(out, statement)
}

/// The kind, which is the text, and a statement of a procedure.
fn put_of(
    out: &mut Vec<u8>,
    kind: &[u8],
    program: &Program,
    proc: u32,
    statement: u32,
) -> Result<(), Memory>
    ensures { OnOk result (out.new.items ≡ out.old.items ++ kind.now ++ statement_text program.now proc statement) }
{
    put(out, kind)?;
    put_statement(out, program, proc, statement)
}

fn put_thread(out: &mut Vec<u8>, number: u32) -> Result<(), Memory>
    ensures { OnOk result (out.new.items ≡ out.old.items ++ codes "O1 thread " ++ decimal number) }
{
    put(out, b"O1 thread ")?;
    put_number(out, number)
}

fn put_linear(out: &mut Vec<u8>, program: &Program, action: u32) -> Result<(), Memory>
    ensures { OnOk result (out.new.items ≡ out.old.items ++ codes "O1 linear " ++ action_text program.now action) }
{
    put(out, b"O1 linear ")?;
    put_action(out, program, action)
}

/// Two statements: the second is before the note that the first keeps.
fn put_other(
    out: &mut Vec<u8>,
    program: &Program,
    first: (u32, u32),
    second: (u32, u32),
) -> Result<(), Memory>
    ensures { OnOk result (out.new.items ≡ out.old.items ++ codes "O3 " ++ statement_text program.now first.0 first.1 ++ codes " keeps " ++ statement_text program.now second.0 second.1) }
{
    put(out, b"O3 ")?;
    put_statement(out, program, first.0, first.1)?;
    put(out, b" keeps ")?;
    put_statement(out, program, second.0, second.1)
}

/// The printed name of a goal: `O1 invariant`, `O1 thread` with the thread's number, `O1 linear` with the action's name; `O2`
/// with `safe`, `invariant`, `spawn` or `next`, the root's name, `at` and the statement's number; `O3` with a root, `at` and a
/// number, `keeps` and another root, `at` and a number. Where a number is of no action or procedure, its name is empty.
///
/// # Errors
///
/// For want of memory.
#[tactic(auto, unfolding(crate::specs::Names::goal_text))]
pub fn goal_name(alloc: Global, src: &Layered, goal: &Goal) -> Result<Vec<u8>, Memory>
    ensures { IfOk result (λ text. text.items ≡ goal_text src.now goal.now) }
{
    let program = program(src);
    let mut out = Vec::new(alloc);
    match *goal {
        Goal::Invariant => put(&mut out, b"O1 invariant")?,
        Goal::Thread(number) => put_thread(&mut out, number)?,
        Goal::Linear(action) => put_linear(&mut out, program, action)?,
        Goal::Safe(proc, statement) => put_of(&mut out, b"O2 safe ", program, proc, statement)?,
        Goal::Keep(proc, statement) => {
            put_of(&mut out, b"O2 invariant ", program, proc, statement)?
        }
        Goal::Spawn(proc, statement) => put_of(&mut out, b"O2 spawn ", program, proc, statement)?,
        Goal::Next(proc, statement) => put_of(&mut out, b"O2 next ", program, proc, statement)?,
        Goal::Other(proc, statement, other, at) => {
            put_other(&mut out, program, (proc, statement), (other, at))?
        }
    }
    Ok(out)
}
