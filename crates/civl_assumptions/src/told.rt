// What each condition assumes.
ghost use Rattle.std.specs.Prelude.{◌≡◌, ◌++◌, ◌<◌, ◌^◌, [], Some, codes, length, slice_get, IfOk, OnOk};
ghost use Rattle.std.specs.Option.{option_map_or};
ghost use Rattle.civl_tree.specs.Numbering.{action_item};
ghost use Rattle.civl_tree.specs.SpellingProgram.{spell_program};
ghost use Rattle.civl_layers.specs.Cuts.{proc_cuts};
ghost use Rattle.civl_linear.specs.Cuts.{all_held};
ghost use Rattle.civl_conditions.specs.Steps.{of_cut};
ghost use Rattle.civl_assumptions.specs.Assumptions.{refined_number};
ghost use Rattle.civl_assumptions.specs.Lines.{gate_lines};
ghost use Rattle.civl_assumptions.specs.Names.{of_target};
ghost use Rattle.civl_assumptions.specs.inner.Told.{act_lines, act_names, apart_lines, cut_lines, cut_names, facts_lines};
ghost use Rattle.civl_assumptions.specs.inner.Told.{invariant_lines, keep_lines, keep_names, pair_lines, pair_names, refined_lines};
ghost use Rattle.civl_assumptions.specs.inner.Told.{said_lines, second_text, step_lines, target_lines};

use crate::beginnings::old_done;
use crate::lines::{
    action_item, invariant_item, proc_item, push_apart, push_gate, push_item, push_said,
};
use crate::names::{held_at, push_globals, push_lower, push_numbers, push_params, push_target};
use civl_assumed::stores::Among;
use civl_bits::Value;
use civl_conditions::Target;
use civl_firing::names::action;
use civl_layers::{Cut, Held, Layered, cuts, program};
use civl_lines::Line;
use civl_tree::{Action, Invariant, List, Memory, Proc, Program};
use std::alloc::Global;

// ---- invariants

/// Puts the line of an invariant behind the others, if it is one of the step.
fn push_invariant(
    alloc: Global,
    lines: &mut Vec<Line>,
    program: &Program,
    step: u32,
    place: usize,
    invariant: &Invariant,
) -> Result<(), Memory>
    requires short { length (spell_program program.now) < 2 ^ 64 }
    requires there { place < length program.now.invariants }
    ensures { OnOk result (lines.new.items ≡ lines.old.items ++ invariant_lines program.now step place invariant.now) }
{
    if invariant.step == step {
        push_item(alloc, lines, program, invariant_item(program, place))
    } else {
        Ok(())
    }
}

/// Puts the lines of the invariants of the step behind the others.
fn push_invariants(
    alloc: Global,
    lines: &mut Vec<Line>,
    program: &Program,
    step: u32,
) -> Result<(), Memory>
    requires { length (spell_program program.now) < 2 ^ 64 }
    ensures { OnOk result (lines.new.items ≡ lines.old.items ++ step_lines program.now step) }
{
    let invariants = program.invariants.as_slice();
    for (place, invariant) in invariants.iter().enumerate() {
        push_invariant(alloc, lines, program, step, place, invariant)?;
    }
    Ok(())
}

// ---- another thread

/// The cut of a procedure that has this number.
fn cut_at(
    alloc: Global,
    src: &Layered,
    number: u32,
    proc: &Proc,
    cut: u32,
) -> Result<Option<Cut>, Memory>
    requires { slice_get src.now.procs number ≡ Some proc.now }
    ensures { IfOk result (λ found. found ≡ slice_get (proc_cuts proc.now) cut) }
{
    let cuts = cuts(alloc, src, number)?;
    match cuts.as_slice().get(cut as usize) {
        Some(found) => Ok(Some(*found)),
        None => Ok(None),
    }
}

/// Puts the line of a yield of another thread behind the others, of the procedure with this number.
fn push_yield_in(
    alloc: Global,
    lines: &mut Vec<Line>,
    src: &Layered,
    number: u32,
    proc: &Proc,
    cut: u32,
) -> Result<(), Memory>
    requires tokens { length (spell_program src.now) < 2 ^ 64 }
    requires found { slice_get src.now.procs number ≡ Some proc.now }
    ensures { OnOk result (lines.new.items ≡ lines.old.items
        ++ option_map_or (said_lines src.now number (codes "is assumed of another thread")) (slice_get (proc_cuts proc.now) cut) []) }
{
    let found = cut_at(alloc, src, number, proc, cut)?;
    match found {
        Some(there) => push_said(
            alloc,
            lines,
            program(src),
            number,
            b"is assumed of another thread",
            there,
        ),
        None => Ok(()),
    }
}

/// Puts the line of what another thread's yield says behind the others, if the target is one.
fn push_target_said(
    alloc: Global,
    lines: &mut Vec<Line>,
    src: &Layered,
    target: Target,
) -> Result<(), Memory>
    requires tokens { length (spell_program src.now) < 2 ^ 64 }
    ensures { OnOk result (lines.new.items ≡ lines.old.items ++ target_lines src.now target) }
{
    match target {
        Target::Invariant(_) => Ok(()),
        Target::Yield(number, cut) => match program(src).procs.as_slice().get(number as usize) {
            Some(proc) => push_yield_in(alloc, lines, src, number, proc, cut),
            None => Ok(()),
        },
    }
}

// ---- actions

/// The names of what goes into an action, in the lower program of a step.
fn keep_names(
    alloc: Global,
    program: &Program,
    step: u32,
    action: &Action,
) -> Result<Vec<List<u8>>, Memory>
    ensures { IfOk result (λ names. names.items ≡ keep_names program.now step action.now) }
{
    let mut names = Vec::new(alloc);
    push_lower(alloc, &mut names, program, step)?;
    push_params(alloc, &mut names, b"X.", action.params.as_slice())?;
    Ok(names)
}

/// K2, of the action with this number.
pub(crate) fn push_keep(
    alloc: Global,
    lines: &mut Vec<Line>,
    program: &Program,
    step: u32,
    number: u32,
    action: &Action,
) -> Result<(), Memory>
    requires short { length (spell_program program.now) < 2 ^ 64 }
    requires there { number < length program.now.actions }
    ensures { OnOk result (lines.new.items ≡ lines.old.items ++ keep_lines program.now step number action.now) }
{
    let names = keep_names(alloc, program, step, action)?;
    let item = action_item(program, number as usize);
    push_apart(alloc, lines, program, item, 2, names.as_slice())?;
    push_gate(alloc, lines, program, number as usize, b"is assumed")
}

/// The names of what goes into two actions, in the lower program of a step.
fn pair_names(
    alloc: Global,
    program: &Program,
    step: u32,
    first: &Action,
    second: &Action,
) -> Result<Vec<List<u8>>, Memory>
    ensures { IfOk result (λ names. names.items ≡ pair_names program.now step first.now second.now) }
{
    let mut names = Vec::new(alloc);
    push_lower(alloc, &mut names, program, step)?;
    push_params(alloc, &mut names, b"X.", first.params.as_slice())?;
    push_params(alloc, &mut names, b"Y.", second.params.as_slice())?;
    Ok(names)
}

/// What is said of the second gate of a pair.
fn second_text(number: u32) -> &'static [u8]
    ensures { result.now ≡ second_text number }
{
    if number == 7 {
        b"is assumed to be false"
    } else {
        b"is assumed"
    }
}

/// Two actions of a pair, with their numbers.
#[derive(Clone, Copy)]
pub(crate) struct Both<'a> {
    pub first: u32,
    pub x: &'a Action,
    pub second: u32,
    pub y: &'a Action,
}

/// K3 to K7.
pub(crate) fn push_pair(
    alloc: Global,
    lines: &mut Vec<Line>,
    program: &Program,
    number: u32,
    step: u32,
    both: &Both<'_>,
) -> Result<(), Memory>
    requires short { length (spell_program program.now) < 2 ^ 64 }
    requires there { both.now.first < length program.now.actions }
    ensures { OnOk result (lines.new.items ≡ lines.old.items
        ++ pair_lines program.now number step both.now.first both.now.second both.now.x.now both.now.y.now) }
{
    let names = pair_names(alloc, program, step, both.x, both.y)?;
    let item = action_item(program, both.first as usize);
    push_gate(alloc, lines, program, both.first as usize, b"is assumed")?;
    push_gate(
        alloc,
        lines,
        program,
        both.second as usize,
        second_text(number),
    )?;
    push_apart(alloc, lines, program, item, 2, names.as_slice())
}

/// The names of what goes into an action of a step, and of what another thread holds at the target.
fn act_names(
    alloc: Global,
    src: &Layered,
    held: &Held,
    step: u32,
    target: Target,
    action: &Action,
) -> Result<Vec<List<u8>>, Memory>
    requires held { held.now.cuts ≡ all_held src.now }
    ensures { IfOk result (λ names. names.items ≡ act_names src.now step target action.now) }
{
    let mut names = Vec::new(alloc);
    push_globals(
        alloc,
        &mut names,
        Among::Step(step),
        program(src).globals.as_slice(),
    )?;
    push_params(alloc, &mut names, b"X.", action.params.as_slice())?;
    push_target(alloc, &mut names, src, held, target)?;
    Ok(names)
}

/// Puts the lines of the invariants of the step and of an action's gate behind the others.
fn push_given(
    alloc: Global,
    lines: &mut Vec<Line>,
    src: &Layered,
    step: u32,
    number: u32,
) -> Result<(), Memory>
    requires { length (spell_program src.now) < 2 ^ 64 }
    ensures { OnOk result (lines.new.items ≡ lines.old.items ++ (step_lines src.now step ++ gate_lines src.now number (codes "is assumed"))) }
{
    push_invariants(alloc, lines, program(src), step)?;
    push_gate(alloc, lines, program(src), number as usize, b"is assumed")
}

/// The line of the permissions that are apart in K11, of the action with this number.
fn push_act_apart(
    alloc: Global,
    lines: &mut Vec<Line>,
    src: &Layered,
    held: &Held,
    step: u32,
    number: u32,
    target: Target,
    action: &Action,
) -> Result<(), Memory>
    requires tokens { length (spell_program src.now) < 2 ^ 64 }
    requires held { held.now.cuts ≡ all_held src.now }
    requires there { number < length src.now.actions }
    ensures { OnOk result (lines.new.items ≡ lines.old.items
        ++ apart_lines src.now (action_item src.now number) 2 (act_names src.now step target action.now)) }
{
    let names = act_names(alloc, src, held, step, target, action)?;
    let program = program(src);
    let item = action_item(program, number as usize);
    push_apart(alloc, lines, program, item, 2, names.as_slice())
}

/// K11, of the action with this number.
pub(crate) fn push_act(
    alloc: Global,
    lines: &mut Vec<Line>,
    src: &Layered,
    held: &Held,
    step: u32,
    number: u32,
    target: Target,
    action: &Action,
) -> Result<(), Memory>
    requires tokens { length (spell_program src.now) < 2 ^ 64 }
    requires held { held.now.cuts ≡ all_held src.now }
    requires there { number < length src.now.actions }
    ensures { OnOk result (lines.new.items ≡ lines.old.items ++ act_lines src.now step number target action.now) }
{
    push_given(alloc, lines, src, step, number)?;
    push_act_apart(alloc, lines, src, held, step, number, target, action)?;
    push_target_said(alloc, lines, src, target)
}

// ---- cuts

/// The number of the action that a procedure refines, or that of no action.
fn refined_number(program: &Program, proc: &Proc) -> usize
    ensures { result ≡ refined_number program.now proc.now }
{
    match &proc.refines {
        Some(refines) => action(program.actions.as_slice(), &refines.action),
        None => program.actions.len(),
    }
}

/// Puts the line of the refined action's gate behind the others, where old `done` is false.
fn push_refined(
    alloc: Global,
    lines: &mut Vec<Line>,
    program: &Program,
    proc: &Proc,
    old_done: bool,
) -> Result<(), Memory>
    requires { length (spell_program program.now) < 2 ^ 64 }
    ensures { OnOk result (lines.new.items ≡ lines.old.items ++ refined_lines program.now proc.now old_done) }
{
    if old_done {
        return Ok(());
    }
    let number = refined_number(program, proc);
    push_gate(alloc, lines, program, number, b"is assumed")
}

/// Puts the lines of the invariants, of what a cut says and of the refined action's gate behind the others.
fn push_facts(
    alloc: Global,
    lines: &mut Vec<Line>,
    program: &Program,
    step: u32,
    number: u32,
    proc: &Proc,
    cut: Cut,
    old_done: bool,
) -> Result<(), Memory>
    requires { length (spell_program program.now) < 2 ^ 64 }
    ensures { OnOk result (lines.new.items ≡ lines.old.items ++ facts_lines program.now step number proc.now cut old_done) }
{
    push_invariants(alloc, lines, program, step)?;
    push_said(alloc, lines, program, number, b"is assumed", cut)?;
    push_refined(alloc, lines, program, proc, old_done)
}

/// A condition on paths: its step, the numbers of its procedure and its cut, and its target, if it has one.
#[derive(Clone, Copy)]
pub(crate) struct Asked {
    pub step: u32,
    pub number: u32,
    pub cut: u32,
    pub target: Option<Target>,
}

/// The names of what another thread holds at the target, if there is one.
fn push_other_names(
    alloc: Global,
    names: &mut Vec<List<u8>>,
    src: &Layered,
    held: &Held,
    target: Option<Target>,
) -> Result<(), Memory>
    requires held { held.now.cuts ≡ all_held src.now }
    ensures { OnOk result (names.new.items ≡ names.old.items ++ option_map_or (of_target src.now) target []) }
{
    match target {
        Some(target) => push_target(alloc, names, src, held, target),
        None => Ok(()),
    }
}

/// The names of what is owned at a cut, and of what another thread holds at the target.
fn cut_names(
    alloc: Global,
    src: &Layered,
    held: &Held,
    asked: &Asked,
    proc: &Proc,
) -> Result<Vec<List<u8>>, Memory>
    requires held { held.now.cuts ≡ all_held src.now }
    requires found { slice_get src.now.procs asked.now.number ≡ Some proc.now }
    ensures { IfOk result (λ names. names.items ≡ cut_names src.now asked.now.step asked.now.cut asked.now.target proc.now) }
{
    let mut names = Vec::new(alloc);
    push_globals(
        alloc,
        &mut names,
        Among::Step(asked.step),
        program(src).globals.as_slice(),
    )?;
    let numbers = held_at(held, asked.number, asked.cut);
    push_numbers(alloc, &mut names, b"", proc, numbers)?;
    push_other_names(alloc, &mut names, src, held, asked.target)?;
    Ok(names)
}

/// Puts the line of what another thread says behind the others, if there is a target.
fn push_other_said(
    alloc: Global,
    lines: &mut Vec<Line>,
    src: &Layered,
    target: Option<Target>,
) -> Result<(), Memory>
    requires tokens { length (spell_program src.now) < 2 ^ 64 }
    ensures { OnOk result (lines.new.items ≡ lines.old.items ++ option_map_or (target_lines src.now) target []) }
{
    match target {
        Some(target) => push_target_said(alloc, lines, src, target),
        None => Ok(()),
    }
}

/// Puts the lines of a condition that begins at this cut behind the others.
fn push_cut(
    alloc: Global,
    lines: &mut Vec<Line>,
    src: &Layered,
    held: &Held,
    asked: &Asked,
    proc: &Proc,
    cut: Cut,
    values: &[Value],
) -> Result<(), Memory>
    requires tokens { length (spell_program src.now) < 2 ^ 64 }
    requires held { held.now.cuts ≡ all_held src.now }
    requires found { slice_get src.now.procs asked.now.number ≡ Some proc.now }
    ensures { OnOk result (lines.new.items ≡ lines.old.items
        ++ cut_lines src.now asked.now.step asked.now.number asked.now.cut asked.now.target values.now proc.now cut) }
{
    let names = cut_names(alloc, src, held, asked, proc)?;
    let program = program(src);
    let old_done = old_done(program, asked.step, proc, cut, values);
    let item = proc_item(program, asked.number as usize);
    push_facts(
        alloc,
        lines,
        program,
        asked.step,
        asked.number,
        proc,
        cut,
        old_done,
    )?;
    push_apart(alloc, lines, program, item, 2, names.as_slice())?;
    push_other_said(alloc, lines, src, asked.target)
}

/// The same of the cut with the condition's number, in this procedure.
fn push_in(
    alloc: Global,
    lines: &mut Vec<Line>,
    src: &Layered,
    held: &Held,
    asked: &Asked,
    proc: &Proc,
    values: &[Value],
) -> Result<(), Memory>
    requires tokens { length (spell_program src.now) < 2 ^ 64 }
    requires held { held.now.cuts ≡ all_held src.now }
    requires found { slice_get src.now.procs asked.now.number ≡ Some proc.now }
    ensures { OnOk result (lines.new.items ≡ lines.old.items
        ++ option_map_or (cut_lines src.now asked.now.step asked.now.number asked.now.cut asked.now.target values.now proc.now)
        (slice_get (proc_cuts proc.now) asked.now.cut) []) }
{
    let found = cut_at(alloc, src, asked.number, proc, asked.cut)?;
    match found {
        Some(cut) => push_cut(alloc, lines, src, held, asked, proc, cut, values),
        None => Ok(()),
    }
}

/// The same of the condition's procedure, if it is there.
pub(crate) fn push_asked(
    alloc: Global,
    lines: &mut Vec<Line>,
    src: &Layered,
    held: &Held,
    asked: &Asked,
    values: &[Value],
) -> Result<(), Memory>
    requires tokens { length (spell_program src.now) < 2 ^ 64 }
    requires held { held.now.cuts ≡ all_held src.now }
    ensures { OnOk result (lines.new.items ≡ lines.old.items
        ++ of_cut src.now asked.now.number asked.now.cut []
        (cut_lines src.now asked.now.step asked.now.number asked.now.cut asked.now.target values.now)) }
{
    match program(src).procs.as_slice().get(asked.number as usize) {
        Some(proc) => push_in(alloc, lines, src, held, asked, proc, values),
        None => Ok(()),
    }
}
