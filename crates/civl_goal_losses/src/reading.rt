// What a list of values, one for each variable of a goal, gives to the store, to frames and to choices.
ghost use Rattle.std.specs.Prelude.{◌≡◌, ◌+◌, drop, take, length, map, IfOk};
ghost use Rattle.civl_tree.specs.declared.stmt.Stmt.{out-Stmt};
ghost use Rattle.civl_meaning.specs.Layers.{topmost};
ghost use Rattle.civl_conditions.specs.Variables.{layer_choices};
ghost use Rattle.civl_goals.specs.Variables.{choices_at, frame_count};
ghost use Rattle.civl_goals.specs.Failed.{behind_frame, chosen_of, frame_of, store_in};
ghost use Rattle.civl_goal_losses.specs.inner.Choices.{choices_among, choices_in};

use civl_assumed::frames::{behind_frame, frame_values};
use civl_assumed::stores::{Among, behind_globals, store_of};
use civl_bits::Value;
use civl_conditions::action_called;
use civl_firing::Store;
use civl_meaning::slices::{behind, first};
use civl_names::walks::statements;
use civl_tree::{Memory, Proc, Program, Stmt};
use std::alloc::Global;

/// The values that a goal's values give to the frame of a root, and to the choices of its call, and those behind them.
#[derive(Clone, Copy)]
pub(crate) struct Given<'a> {
    pub locals: &'a [Value],
    pub chosen: &'a [Value],
    pub rest: &'a [Value],
}

/// The store.
pub(crate) fn store_in(alloc: Global, program: &Program, values: &[Value]) -> Result<Store, Memory>
    ensures { IfOk result (λ store. store ≡ store_in program.now values.now) }
{
    store_of(alloc, Among::Layer(program.layers), program, values)
}

/// The values of a frame of the procedure with this number, which these begin with.
pub(crate) fn locals_of<'a>(program: &Program, number: u32, values: &'a [Value]) -> &'a [Value]
    ensures { result.now ≡ take (frame_count program.now number) values.now }
{
    match program.procs.as_slice().get(number as usize) {
        Some(proc) => frame_values(proc, values),
        None => first(values, 0),
    }
}

/// The values behind them.
fn behind_locals<'a>(program: &Program, number: u32, values: &'a [Value]) -> &'a [Value]
    ensures { result.now ≡ drop (frame_count program.now number) values.now }
{
    match program.procs.as_slice().get(number as usize) {
        Some(proc) => behind_frame(proc, values),
        None => behind(values, 0),
    }
}

// ---- choices

/// How many choices a statement has in the topmost program.
fn stmt_choices(program: &Program, stmt: &Stmt) -> usize
    ensures { result ≡ length (layer_choices (topmost program.now) (out-Stmt stmt.now)) }
{
    match stmt {
        Stmt::Call(callee, _, _) => match action_called(program, program.layers, callee) {
            Some(action) => action.choices.len(),
            None => 0,
        },
        Stmt::Assign(_, _) => 0,
        Stmt::Assert(_) => 0,
        Stmt::If(_, _, _) => 0,
        Stmt::While(_, _) => 0,
        Stmt::YieldLoop(_, _, _) => 0,
        Stmt::RankLoop(_, _, _, _) => 0,
        Stmt::Yield(_) => 0,
        Stmt::Commit => 0,
        Stmt::Intro(_, _) => 0,
        Stmt::Spawn(_, _) => 0,
    }
}

/// How many choices the statement with this number has.
fn choices_among(program: &Program, flat: &[&Stmt], number: u32) -> usize
    ensures { result ≡ length (choices_among program.now (map (λ s. s.now) flat.now) number) }
{
    match flat.get(number as usize) {
        Some(stmt) => stmt_choices(program, stmt),
        None => 0,
    }
}

/// The same in a procedure.
fn choices_in(alloc: Global, program: &Program, proc: &Proc, number: u32) -> Result<usize, Memory>
    ensures { IfOk result (λ count. count ≡ length (choices_in program.now number proc.now)) }
{
    let flat = statements(alloc, &proc.body)?;
    Ok(choices_among(program, flat.as_slice(), number))
}

/// The same in the procedure with this number.
fn choice_count(
    alloc: Global,
    program: &Program,
    root: u32,
    statement: u32,
) -> Result<usize, Memory>
    ensures { IfOk result (λ count. count ≡ length (choices_at program.now root statement)) }
{
    match program.procs.as_slice().get(root as usize) {
        Some(proc) => choices_in(alloc, program, proc, statement),
        None => Ok(0),
    }
}

// ---- all

/// The values of the frame and of the choices at a statement of a root.
pub(crate) fn values_at<'a>(
    alloc: Global,
    program: &Program,
    root: u32,
    statement: u32,
    values: &'a [Value],
) -> Result<Given<'a>, Memory>
    ensures locals { IfOk result (λ g. g.locals.now ≡ (frame_of program.now values.now root statement).locals) }
    ensures chosen { IfOk result (λ g. g.chosen.now ≡ chosen_of program.now values.now root statement) }
    ensures rest { IfOk result (λ g. g.rest.now ≡ drop
        (behind_frame program.now root + length (choices_at program.now root statement)) values.now) }
{
    let from = behind_globals(Among::Layer(program.layers), program, values);
    let later = behind_locals(program, root, from);
    let count = choice_count(alloc, program, root, statement)?;
    Ok(Given {
        locals: locals_of(program, root, from),
        chosen: first(later, count),
        rest: behind(later, count),
    })
}
