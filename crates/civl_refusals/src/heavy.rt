// Formulas that weigh too much.
ghost use Rattle.std.specs.Prelude.{◌≡◌, ◌<◌, ◌^◌, ◌++◌, Some, slice_get, OnOk, IfOk, length};
ghost use Rattle.std.specs.Option.{option_map_or};
ghost use Rattle.civl_tree.specs.Numbering.{action_item, invariant_item, proc_item, thread_item};
ghost use Rattle.civl_tree.specs.SpellingProgram.{spell_program};
ghost use Rattle.civl_layers.specs.Cuts.{proc_cuts};
ghost use Rattle.civl_lines.specs.Tokens.{AreTokens};
ghost use Rattle.civl_action_stories.specs.Starts.{invariant_place};
ghost use Rattle.civl_refusals.specs.Refusals.{init_spot};
ghost use Rattle.civl_refusals.specs.Heavy.{action_spot, condition_spot, cut_spot, formula_spot, goal_spot, heavy_goal_told, heavy_text, heavy_told, invariant_spot, proc_spot, spot_of_cut, statement_spot, thread_spot};

use crate::spot::{Spot, at_item, init_spot, put_spot};
use civl_conditions::Condition;
use civl_conditions::paths::is_entry;
use civl_goals::Goal;
use civl_layers::{Cut, Layered, cuts, program};
use civl_lines::{Form, Text};
use civl_places::statement_token;
use civl_tree::{Invariant, Memory, Proc, Program};
use std::alloc::Global;

// ---- items and statements

/// How many items stand before the invariants.
fn before_invariants(program: &Program) -> usize
    requires { length (spell_program program.now) < 2 ^ 64 }
    ensures { result ≡ invariant_item program.now 0 }
{
    program.globals.len() + 1
}

/// How many items stand before the actions.
fn before_actions(program: &Program) -> usize
    requires { length (spell_program program.now) < 2 ^ 64 }
    ensures { result ≡ action_item program.now 0 }
{
    before_invariants(program) + program.invariants.len()
}

/// How many items stand before the procedures.
fn before_procs(program: &Program) -> usize
    requires { length (spell_program program.now) < 2 ^ 64 }
    ensures { result ≡ proc_item program.now 0 }
{
    before_actions(program) + program.actions.len()
}

/// How many items stand before the declared threads.
fn before_threads(program: &Program) -> usize
    requires { length (spell_program program.now) < 2 ^ 64 }
    ensures { result ≡ thread_item program.now 0 }
{
    before_procs(program) + program.procs.len()
}

/// The invariant at this place among all.
fn invariant_spot(program: &Program, place: usize) -> Spot
    requires { length (spell_program program.now) < 2 ^ 64 }
    ensures { result ≡ invariant_spot program.now place }
{
    if place < program.invariants.len() {
        at_item(before_invariants(program) + place)
    } else {
        init_spot(program)
    }
}

/// The action with this number.
fn action_spot(program: &Program, number: usize) -> Spot
    requires { length (spell_program program.now) < 2 ^ 64 }
    ensures { result ≡ action_spot program.now number }
{
    if number < program.actions.len() {
        at_item(before_actions(program) + number)
    } else {
        init_spot(program)
    }
}

/// The declared thread with this number.
fn thread_spot(program: &Program, number: usize) -> Spot
    requires { length (spell_program program.now) < 2 ^ 64 }
    ensures { result ≡ thread_spot program.now number }
{
    if number < program.threads.len() {
        at_item(before_threads(program) + number)
    } else {
        init_spot(program)
    }
}

/// The procedure with this number.
fn proc_spot(program: &Program, number: usize) -> Spot
    requires { length (spell_program program.now) < 2 ^ 64 }
    ensures { result ≡ proc_spot program.now number }
{
    if number < program.procs.len() {
        at_item(before_procs(program) + number)
    } else {
        init_spot(program)
    }
}

/// A statement of the procedure with this number, or its exit.
pub(crate) fn statement_spot(program: &Program, number: usize, statement: usize) -> Spot
    requires { length (spell_program program.now) < 2 ^ 64 }
    ensures { result ≡ statement_spot program.now number statement }
{
    if number < program.procs.len() {
        Spot {
            item: before_procs(program) + number,
            inside: statement_token(program, number, statement),
        }
    } else {
        init_spot(program)
    }
}

/// A cut of the procedure with this number.
fn spot_of_cut(program: &Program, number: usize, cut: Cut) -> Spot
    requires { length (spell_program program.now) < 2 ^ 64 }
    ensures { result ≡ spot_of_cut program.now number cut }
{
    if is_entry(cut.kind) {
        proc_spot(program, number)
    } else {
        statement_spot(program, number, cut.statement as usize)
    }
}

/// The cut with this number of a procedure.
fn cut_in(alloc: Global, src: &Layered, number: u32, cut: u32, proc: &Proc) -> Result<Spot, Memory>
    requires short { length (spell_program src.now) < 2 ^ 64 }
    requires found { slice_get src.now.procs number ≡ Some proc.now }
    ensures { IfOk result (λ spot. spot
        ≡ option_map_or (spot_of_cut src.now number) (slice_get (proc_cuts proc.now) cut) (init_spot src.now)) }
{
    let cuts = cuts(alloc, src, number)?;
    match cuts.as_slice().get(cut as usize) {
        Some(cut) => Ok(spot_of_cut(program(src), number as usize, *cut)),
        None => Ok(init_spot(program(src))),
    }
}

/// The cut with this number of the procedure with this number.
fn cut_spot(alloc: Global, src: &Layered, number: u32, cut: u32) -> Result<Spot, Memory>
    requires { length (spell_program src.now) < 2 ^ 64 }
    ensures { IfOk result (λ spot. spot ≡ cut_spot src.now number cut) }
{
    match program(src).procs.as_slice().get(number as usize) {
        Some(proc) => cut_in(alloc, src, number, cut, proc),
        None => Ok(init_spot(program(src))),
    }
}

// ---- conditions and goals

/// The place among all these invariants of the one with this number among those of a step; behind them, where there is none.
#[tactic(auto, using(civl_action_stories::proofs::Placing::placing))]
fn invariant_place(invariants: &[Invariant], step: u32, number: u32) -> usize
    ensures { result ≡ invariant_place step invariants.now number }
{
    let mut left = number;
    for at in 0..invariants.len() {
        if invariants[at].step == step {
            if left == 0 {
                return at;
            }
            left -= 1;
        }
    }
    invariants.len()
}

/// What a condition is about.
fn condition_spot(alloc: Global, src: &Layered, condition: Condition) -> Result<Spot, Memory>
    requires { length (spell_program src.now) < 2 ^ 64 }
    ensures { IfOk result (λ spot. spot ≡ condition_spot src.now condition) }
{
    let program = program(src);
    match condition {
        Condition::Start(step, number) => {
            let place = invariant_place(program.invariants.as_slice(), step, number);
            Ok(invariant_spot(program, place))
        }
        Condition::Keep(_, action) => Ok(action_spot(program, action as usize)),
        Condition::Pair(_, _, action, _) => Ok(action_spot(program, action as usize)),
        Condition::Fire(_, action) => Ok(action_spot(program, action as usize)),
        Condition::Path(_, _, proc, cut) => cut_spot(alloc, src, proc, cut),
        Condition::Block(_, proc, cut, _) => cut_spot(alloc, src, proc, cut),
        Condition::Act(_, action, _) => Ok(action_spot(program, action as usize)),
    }
}

/// What a formula is about, where it is that of a condition or of the search for an initial store.
fn formula_spot(alloc: Global, src: &Layered, formula: Option<Condition>) -> Result<Spot, Memory>
    requires { length (spell_program src.now) < 2 ^ 64 }
    ensures { IfOk result (λ spot. spot ≡ formula_spot src.now formula) }
{
    match formula {
        Some(condition) => condition_spot(alloc, src, condition),
        None => Ok(init_spot(program(src))),
    }
}

/// What a goal is about.
fn goal_spot(program: &Program, goal: Goal) -> Spot
    requires { length (spell_program program.now) < 2 ^ 64 }
    ensures { result ≡ goal_spot program.now goal }
{
    match goal {
        Goal::Invariant => init_spot(program),
        Goal::Thread(number) => thread_spot(program, number as usize),
        Goal::Linear(action) => action_spot(program, action as usize),
        Goal::Safe(proc, statement) => statement_spot(program, proc as usize, statement as usize),
        Goal::Keep(proc, statement) => statement_spot(program, proc as usize, statement as usize),
        Goal::Spawn(proc, statement) => statement_spot(program, proc as usize, statement as usize),
        Goal::Next(proc, statement) => statement_spot(program, proc as usize, statement as usize),
        Goal::Other(proc, statement, _, _) => {
            statement_spot(program, proc as usize, statement as usize)
        }
    }
}

// ---- what is told

/// What is wrong there.
fn heavy_text() -> &'static [u8]
    ensures { result.now ≡ heavy_text }
{
    b"its formula weighs too much"
}

/// Puts that a formula weighs too much behind what is there, at what it is about: that of a condition, or of the search for an initial
/// store.
///
/// # Errors
///
/// For want of memory.
pub fn put_heavy(
    alloc: Global,
    out: &mut Vec<u8>,
    form: Form,
    text: &Text<'_>,
    src: &Layered,
    formula: Option<Condition>,
) -> Result<(), Memory>
    requires short { length (spell_program src.now) < 2 ^ 64 }
    requires tokens { AreTokens text.now.bytes.now text.now.tokens.now }
    ensures { OnOk result (out.new.items ≡ out.old.items
        ++ heavy_told form text.now.bytes.now text.now.tokens.now src.now formula) }
{
    let spot = formula_spot(alloc, src, formula)?;
    put_spot(alloc, out, form, text, program(src), spot, heavy_text())
}

/// Puts that the formula of a goal weighs too much behind what is there, at what it is about.
///
/// # Errors
///
/// For want of memory.
pub fn put_heavy_goal(
    alloc: Global,
    out: &mut Vec<u8>,
    form: Form,
    text: &Text<'_>,
    program: &Program,
    goal: Goal,
) -> Result<(), Memory>
    requires short { length (spell_program program.now) < 2 ^ 64 }
    requires tokens { AreTokens text.now.bytes.now text.now.tokens.now }
    ensures { OnOk result (out.new.items ≡ out.old.items
        ++ heavy_goal_told form text.now.bytes.now text.now.tokens.now program.now goal) }
{
    let spot = goal_spot(program, goal);
    put_spot(alloc, out, form, text, program, spot, heavy_text())
}
