// Statements that fail, and what is false where they lead.
ghost use Rattle.std.specs.Prelude.{◌≡◌, ◌++◌, ◌∷◌, [], ◌<◌, ◌^◌, length, OnOk};
ghost use Rattle.civl_tree.specs.SpellingProgram.{spell_program};
ghost use Rattle.civl_outlines.specs.SpellingOutline.{spell_outline};
ghost use Rattle.civl_conditions.specs.Steps.{of_proc};
ghost use Rattle.civl_path_stories.specs.Paths.{error, gate_text};
ghost use Rattle.civl_goal_stories.specs.Frames.{frame_token};
ghost use Rattle.civl_goal_stories.specs.GoalStories.{assert_parts, break_story, fail_story, fault_lines};
ghost use Rattle.civl_goal_stories.specs.GoalStories.{interfere_story, lead_story, step_lines};

use crate::frames::{push_assumed, push_frame, push_note, push_passage};
use crate::holds::push_invariant;
use crate::lines::{push_error, token};
use civl_bits::Value;
use civl_firing::setting::in_frame;
use civl_goal_losses::{Fault, Moment};
use civl_lines::{Line, Shown};
use civl_meaning::Activation;
use civl_outlines::Outline;
use civl_path_stories::formulas::{push_formula, push_gate};
use civl_path_stories::gates::gate_text;
use civl_places::{Formula, InStatement};
use civl_tree::{List, Memory, Proc, Program};
use std::alloc::Global;

// ---- faults

/// Puts that the gate of a call is false behind the others.
fn push_call(
    alloc: Global,
    lines: &mut Vec<Line>,
    program: &Program,
    frame: &Activation,
    number: usize,
    inputs: &List<Value>,
) -> Result<(), Memory>
    requires { length (spell_program program.now) < 2 ^ 64 }
    ensures { OnOk result (lines.new.items ≡ lines.old.items
        ++ error (frame_token program.now frame.now) Shown.Head (gate_text program.now number inputs.now) ∷ []) }
{
    let text = gate_text(alloc, program, number, inputs)?;
    let at = token(program, frame.procedure, frame.place);
    push_error(alloc, lines, at, Shown::Head, text.as_slice())
}

/// The same, and why.
fn push_false_gate(
    alloc: Global,
    lines: &mut Vec<Line>,
    program: &Program,
    here: &Moment,
    number: usize,
    inputs: &List<Value>,
) -> Result<(), Memory>
    requires { length (spell_program program.now) < 2 ^ 64 }
    ensures { OnOk result (lines.new.items ≡ lines.old.items ++ fault_lines program.now here.now (Fault.FalseGate number inputs.now)) }
{
    push_call(alloc, lines, program, &here.frame, number, inputs)?;
    push_gate(
        alloc,
        lines,
        program,
        number,
        &here.store,
        inputs.as_slice(),
    )?;
    Ok(())
}

/// Puts the false parts of what an assert says behind the others, before which a frame of this procedure stands.
fn push_assert_parts(
    alloc: Global,
    lines: &mut Vec<Line>,
    program: &Program,
    frame: &Activation,
    proc: &Proc,
) -> Result<(), Memory>
    requires { length (spell_program program.now) < 2 ^ 64 }
    ensures { OnOk result (lines.new.items ≡ lines.old.items ++ assert_parts program.now frame.now proc.now) }
{
    let names = in_frame(program.globals.as_slice(), proc, frame.locals.as_slice());
    let fact = Formula::Statement(frame.procedure, frame.place, InStatement::Condition);
    push_formula(alloc, lines, program, &names, &fact)
}

/// The same, if the procedure is there.
fn push_why(
    alloc: Global,
    lines: &mut Vec<Line>,
    program: &Program,
    frame: &Activation,
) -> Result<(), Memory>
    requires { length (spell_program program.now) < 2 ^ 64 }
    ensures { OnOk result (lines.new.items ≡ lines.old.items
        ++ of_proc program.now frame.now.procedure [] (assert_parts program.now frame.now)) }
{
    match program.procs.as_slice().get(frame.procedure) {
        Some(proc) => push_assert_parts(alloc, lines, program, frame, proc),
        None => Ok(()),
    }
}

/// Puts that an assert is false behind the others, and why.
fn push_false_assert(
    alloc: Global,
    lines: &mut Vec<Line>,
    program: &Program,
    here: &Moment,
) -> Result<(), Memory>
    requires { length (spell_program program.now) < 2 ^ 64 }
    ensures { OnOk result (lines.new.items ≡ lines.old.items ++ fault_lines program.now here.now Fault.FalseAssert) }
{
    let frame = &here.frame;
    let at = token(program, frame.procedure, frame.place);
    push_error(alloc, lines, at, Shown::Head, b"this is false")?;
    push_why(alloc, lines, program, frame)?;
    Ok(())
}

/// Puts a fault behind the others.
fn push_fault(
    alloc: Global,
    lines: &mut Vec<Line>,
    program: &Program,
    here: &Moment,
    fault: &Fault,
) -> Result<(), Memory>
    requires { length (spell_program program.now) < 2 ^ 64 }
    ensures { OnOk result (lines.new.items ≡ lines.old.items ++ fault_lines program.now here.now fault.now) }
{
    match fault {
        Fault::FalseGate(number, inputs) => {
            push_false_gate(alloc, lines, program, here, *number, inputs)
        }
        Fault::FalseAssert => push_false_assert(alloc, lines, program, here),
    }
}

/// The story of a statement that fails, behind the others.
pub(crate) fn push_fail(
    alloc: Global,
    lines: &mut Vec<Line>,
    outline: &Outline,
    here: &Moment,
    fault: &Fault,
) -> Result<(), Memory>
    requires { length (spell_outline outline.now) < 2 ^ 64 }
    ensures { OnOk result (lines.new.items ≡ lines.old.items ++ fail_story outline.now here.now fault.now) }
{
    let frame = &here.frame;
    push_assumed(alloc, lines, outline, frame.procedure, frame.place)?;
    push_fault(alloc, lines, &outline.program, here, fault)?;
    Ok(())
}

// ---- where a statement leads

/// Puts what is assumed before a statement behind the others, and what it does.
fn push_step(
    alloc: Global,
    lines: &mut Vec<Line>,
    outline: &Outline,
    here: &Moment,
    there: &Moment,
) -> Result<(), Memory>
    requires { length (spell_outline outline.now) < 2 ^ 64 }
    ensures { OnOk result (lines.new.items ≡ lines.old.items ++ step_lines outline.now here.now there.now) }
{
    let frame = &here.frame;
    push_assumed(alloc, lines, outline, frame.procedure, frame.place)?;
    push_passage(alloc, lines, &outline.program, here, there)?;
    Ok(())
}

/// The story of a statement behind which the invariant is false, behind the others.
pub(crate) fn push_break(
    alloc: Global,
    lines: &mut Vec<Line>,
    outline: &Outline,
    here: &Moment,
    there: &Moment,
) -> Result<(), Memory>
    requires { length (spell_outline outline.now) < 2 ^ 64 }
    ensures { OnOk result (lines.new.items ≡ lines.old.items ++ break_story outline.now here.now there.now) }
{
    push_step(alloc, lines, outline, here, there)?;
    push_error(
        alloc,
        lines,
        token(&outline.program, here.frame.procedure, here.frame.place),
        Shown::Nothing,
        b"the invariant is false behind it",
    )?;
    push_invariant(alloc, lines, outline, &there.store)?;
    Ok(())
}

/// The story of a statement that leads to a false note, behind the others.
pub(crate) fn push_lead(
    alloc: Global,
    lines: &mut Vec<Line>,
    outline: &Outline,
    here: &Moment,
    there: &Moment,
) -> Result<(), Memory>
    requires { length (spell_outline outline.now) < 2 ^ 64 }
    ensures { OnOk result (lines.new.items ≡ lines.old.items ++ lead_story outline.now here.now there.now) }
{
    push_step(alloc, lines, outline, here, there)?;
    push_note(
        alloc,
        lines,
        outline,
        b"the note here is false",
        &there.store,
        &there.frame,
    )?;
    Ok(())
}

/// The story of a statement behind which another thread's note is false, behind the others.
pub(crate) fn push_interference(
    alloc: Global,
    lines: &mut Vec<Line>,
    outline: &Outline,
    here: &Moment,
    there: &Moment,
    other: &Activation,
) -> Result<(), Memory>
    requires { length (spell_outline outline.now) < 2 ^ 64 }
    ensures { OnOk result (lines.new.items ≡ lines.old.items ++ interfere_story outline.now here.now there.now other.now) }
{
    push_step(alloc, lines, outline, here, there)?;
    push_frame(alloc, lines, &outline.program, b"another thread", other)?;
    push_note(
        alloc,
        lines,
        outline,
        b"the note here is false for it",
        &there.store,
        other,
    )?;
    Ok(())
}
