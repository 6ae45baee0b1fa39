// What conditions assume.
ghost use Rattle.std.specs.Prelude.{◌≡◌, ◌++◌, ◌<◌, ◌^◌, ◌∷◌, [], codes, length, IfOk, OnOk};
ghost use Rattle.civl_tree.specs.SpellingProgram.{spell_program};
ghost use Rattle.civl_tree.specs.Numbering.{init_item};
ghost use Rattle.civl_linear.specs.Cuts.{all_held};
ghost use Rattle.civl_conditions.specs.Steps.{of_action};
ghost use Rattle.civl_assumptions.specs.Lines.{assumed_lines, gate_lines, item_line};
ghost use Rattle.civl_assumptions.specs.Names.{at_start};
ghost use Rattle.civl_assumptions.specs.inner.Told.{act_lines, apart_lines, keep_lines, pair_lines, told_lines};

use crate::lines::{init_item, push_apart, push_gate, push_item};
use crate::names::push_start;
use crate::told::{Asked, Both, push_act, push_asked, push_keep, push_pair};
use civl_bits::Value;
use civl_conditions::{Condition, Target};
use civl_layers::{Held, Layered, program};
use civl_lines::Line;
use civl_tree::{Action, List, Memory, Program};
use std::alloc::Global;

/// The names of what is apart in an initial store.
fn start_names(alloc: Global, program: &Program) -> Result<Vec<List<u8>>, Memory>
    ensures { IfOk result (λ names. names.items ≡ at_start program.now) }
{
    let mut names = Vec::new(alloc);
    push_start(alloc, &mut names, program)?;
    Ok(names)
}

/// K1.
fn of_start(alloc: Global, lines: &mut Vec<Line>, program: &Program) -> Result<(), Memory>
    requires { length (spell_program program.now) < 2 ^ 64 }
    ensures { OnOk result (lines.new.items ≡ lines.old.items
        ++ item_line program.now (init_item program.now) ∷ apart_lines program.now (init_item program.now) 1 (at_start program.now)) }
{
    let names = start_names(alloc, program)?;
    let item = init_item(program);
    push_item(alloc, lines, program, item)?;
    push_apart(alloc, lines, program, item, 1, names.as_slice())
}

/// K2.
fn of_keep(
    alloc: Global,
    lines: &mut Vec<Line>,
    program: &Program,
    step: u32,
    number: u32,
) -> Result<(), Memory>
    requires { length (spell_program program.now) < 2 ^ 64 }
    ensures { OnOk result (lines.new.items ≡ lines.old.items ++ of_action program.now number [] (keep_lines program.now step number)) }
{
    match program.actions.as_slice().get(number as usize) {
        Some(action) => push_keep(alloc, lines, program, step, number, action),
        None => Ok(()),
    }
}

/// K3 to K7, of this action, which has a number, and the one with another.
fn of_second(
    alloc: Global,
    lines: &mut Vec<Line>,
    program: &Program,
    number: u32,
    step: u32,
    first: u32,
    x: &Action,
    second: u32,
) -> Result<(), Memory>
    requires short { length (spell_program program.now) < 2 ^ 64 }
    requires there { first < length program.now.actions }
    ensures { OnOk result (lines.new.items ≡ lines.old.items
        ++ of_action program.now second [] (pair_lines program.now number step first second x.now)) }
{
    match program.actions.as_slice().get(second as usize) {
        Some(y) => {
            let both = Both {
                first,
                x,
                second,
                y,
            };
            push_pair(alloc, lines, program, number, step, &both)
        }
        None => Ok(()),
    }
}

/// K3 to K7.
fn of_pair(
    alloc: Global,
    lines: &mut Vec<Line>,
    program: &Program,
    number: u32,
    step: u32,
    first: u32,
    second: u32,
) -> Result<(), Memory>
    requires { length (spell_program program.now) < 2 ^ 64 }
    ensures { OnOk result (lines.new.items ≡ lines.old.items
        ++ of_action program.now first [] (λ a. of_action program.now second [] (pair_lines program.now number step first second a))) }
{
    match program.actions.as_slice().get(first as usize) {
        Some(x) => of_second(alloc, lines, program, number, step, first, x, second),
        None => Ok(()),
    }
}

/// K8.
fn of_fire(
    alloc: Global,
    lines: &mut Vec<Line>,
    program: &Program,
    number: u32,
) -> Result<(), Memory>
    requires { length (spell_program program.now) < 2 ^ 64 }
    ensures { OnOk result (lines.new.items ≡ lines.old.items
        ++ of_action program.now number [] (λ a. gate_lines program.now number (codes "is assumed"))) }
{
    match program.actions.as_slice().get(number as usize) {
        Some(_) => push_gate(alloc, lines, program, number as usize, b"is assumed"),
        None => Ok(()),
    }
}

/// K11.
fn of_act(
    alloc: Global,
    lines: &mut Vec<Line>,
    src: &Layered,
    held: &Held,
    step: u32,
    number: u32,
    target: Target,
) -> Result<(), Memory>
    requires tokens { length (spell_program src.now) < 2 ^ 64 }
    requires held { held.now.cuts ≡ all_held src.now }
    ensures { OnOk result (lines.new.items ≡ lines.old.items ++ of_action src.now number [] (act_lines src.now step number target)) }
{
    match program(src).actions.as_slice().get(number as usize) {
        Some(action) => push_act(alloc, lines, src, held, step, number, target, action),
        None => Ok(()),
    }
}

/// Puts the lines of all that a condition assumes behind the others, said of the program alone and of whether old `done` is true.
#[tactic(auto, unfolding(crate::specs::inner::Told::told_lines))]
fn push_told(
    alloc: Global,
    lines: &mut Vec<Line>,
    src: &Layered,
    held: &Held,
    condition: &Condition,
    values: &[Value],
) -> Result<(), Memory>
    requires tokens { length (spell_program src.now) < 2 ^ 64 }
    requires held { held.now.cuts ≡ all_held src.now }
    ensures { OnOk result (lines.new.items ≡ lines.old.items ++ told_lines src.now condition.now values.now) }
{
    let program = program(src);
    match condition {
        Condition::Start(_, _) => of_start(alloc, lines, program),
        Condition::Keep(step, number) => of_keep(alloc, lines, program, *step, *number),
        Condition::Pair(number, step, first, second) => of_pair(
            alloc, lines, program, *number, *step, *first, *second,
        ),
        Condition::Fire(_, number) => of_fire(alloc, lines, program, *number),
        Condition::Path(_, step, number, cut) => {
            let asked = Asked {
                step: *step,
                number: *number,
                cut: *cut,
                target: None,
            };
            push_asked(alloc, lines, src, held, &asked, values)
        }
        Condition::Block(step, number, cut, target) => {
            let asked = Asked {
                step: *step,
                number: *number,
                cut: *cut,
                target: Some(*target),
            };
            push_asked(alloc, lines, src, held, &asked, values)
        }
        Condition::Act(step, number, target) => {
            of_act(alloc, lines, src, held, *step, *number, *target)
        }
    }
}

/// Tells what a condition assumes with these values, behind the lines that are there, one line each: the invariants of the step, what a
/// cut says, the gates of actions, what another thread's yield says before, and whose permissions are apart. The values are one for
/// each variable of the condition, in their order, and the table says which locals the program holds at its cuts. The program's
/// spelling has fewer than 2^64 tokens.
///
/// # Errors
///
/// For want of memory; then a front of the lines may be there.
#[tactic(auto, using(crate::proofs::Telling::lines_told))]
pub fn push_assumed(
    alloc: Global,
    lines: &mut Vec<Line>,
    src: &Layered,
    held: &Held,
    condition: &Condition,
    values: &[Value],
) -> Result<(), Memory>
    requires tokens { length (spell_program src.now) < 2 ^ 64 }
    requires held { held.now.cuts ≡ all_held src.now }
    ensures { OnOk result (lines.new.items ≡ lines.old.items ++ assumed_lines src.now condition.now values.now) }
{
    push_told(alloc, lines, src, held, condition, values)
}
