// Where a run is challenged.
ghost use Rattle.std.specs.Prelude.{ℕ, ◌≡◌, ◌+◌, ◌<◌, ◌^◌, List, length, slice_get, IfOk, option_copied};
ghost use Rattle.civl_bits.specs.declared.value.Value.{Value as Given};
ghost use Rattle.civl_tree.specs.declared.name.Name.{Name as Called};
ghost use Rattle.civl_meaning.specs.declared.config.Activation.{Activation as Waiting};
ghost use Rattle.civl_meaning.specs.Change.{new_frame, caller_of, doing, call_doing, statement_doing, proc_doing};
ghost use Rattle.civl_firing.specs.Eval.{values_of};
ghost use Rattle.civl_firing.specs.Scope.{frame_values};
ghost use Rattle.civl_tree.specs.rules.Names.{names_in_proc};
ghost use Rattle.civl_meaning.specs.Meaning.{meaning_of, called};
ghost use Rattle.civl_meaning.specs.Rest.{head_of};
ghost use Rattle.civl_conditions.specs.Assumed.{refined_action};
ghost use Rattle.civl_tree.specs.declared.stmt.Stmt.{out-Stmt};
ghost use Rattle.civl_reduction.specs.blocks.Challenged.{allows, call_challenged, frame_challenged, thread_challenged, some_challenged, is_challenged};
ghost use Rattle.civl_reduction.specs.blocks.Shadow.{Shadowed as Beside};
ghost use Rattle.civl_meaning.specs.inner.Left.{stmt_of};
ghost use Rattle.civl_shadows.specs.Frames.{framed_of};
ghost use Rattle.civl_meaning.specs.Remaining.{rest_of};
ghost use Rattle.civl_shadows.specs.Shadows.{IsLayerOf, Shows, done_in};

use crate::frames::{Framed, frame_of_layer, has_layer, inputs};
use crate::merging::merged;
use crate::notes::at_yield;
use crate::shadow::Shadowed;
use civl_bits::Value;
use civl_firing::Store;
use civl_firing::expressions::values;
use civl_firing::firing::gate;
use civl_firing::names::{action, proc};
use civl_firing::setting::in_frame;
use civl_firing::sorts::{push_locals, push_params};
use civl_meaning::remaining::{Numbered, rest_at};
use civl_meaning::{Activation, Plain, Running, State, skipped};
use civl_tree::{Action, Expr, List, Memory, Name, Proc, Program, Stmt};
use civl_types::names::action_named;
use std::alloc::Global;

/// The action that a procedure refines.
pub fn refined_action<'a>(program: &'a Program, proc: &Proc) -> Option<&'a Action>
    ensures { option_copied result ≡ refined_action program.now proc.now }
{
    match &proc.refines {
        None => None,
        Some(refines) => {
            let actions = program.actions.as_slice();
            let at = action(actions, &refines.action);
            if at < actions.len() {
                Some(&actions[at])
            } else {
                None
            }
        }
    }
}

/// Whether the gate of the action that a procedure refines is true in this store, with the procedure's parameters as inputs.
pub fn allows(program: &Program, store: &Store, proc: &Proc, locals: &[Value]) -> bool
    ensures { result ≡ allows program.now store.now proc.now locals.now }
{
    match refined_action(program, proc) {
        None => false,
        Some(action) => gate(
            program.globals.as_slice(),
            store,
            action,
            inputs(proc, locals),
        ),
    }
}

/// The first statement of a plain program in what is still to run.
fn head<'a>(rest: &[Numbered<'a>]) -> Option<&'a Stmt>
    ensures { (end : ℕ) → option_copied result ≡ stmt_of (head_of end (rest_of rest.now)) }
{
    for at in 0..rest.len() {
        if !skipped(rest[at].stmt) {
            return Some(rest[at].stmt);
        }
    }
    None
}

/// The locals of the frame of a call with these arguments.
fn locals_of_call(alloc: Global, proc: &Proc, args: &[Value]) -> Result<Vec<Value>, Memory>
    ensures { IfOk result (λ locals. (number : ℕ) → locals.items ≡ (new_frame number proc.now args.now).locals) }
{
    let mut locals = Vec::from_slice(alloc, args)?;
    push_params(&mut locals, proc.outs.as_slice())?;
    push_locals(&mut locals, proc.locals.as_slice())?;
    Ok(locals)
}

/// Whether a call of the procedure with this number is challenged.
fn number_challenged(
    alloc: Global,
    plain: &Plain,
    layer: u32,
    store: &Store,
    number: usize,
    args: &[Value],
) -> Result<bool, Memory>
    ensures { IfOk result (λ b. (names : List Called) (locals : List Given) (results : List Called) (at next : ℕ) → b ≡ call_challenged plain.now.program layer store.now (call_doing names locals results at next (meaning_of plain.now number) args.now)) }
{
    let procs = plain.program.procs.as_slice();
    if number >= procs.len() || number >= plain.bodies.len() {
        return Ok(false);
    }
    let proc = &procs[number];
    if !*plain.bodies.get(number) || !has_layer(layer, proc) {
        return Ok(false);
    }
    let locals = locals_of_call(alloc, proc, args)?;
    Ok(!allows(&plain.program, store, proc, &locals))
}

/// Whether a call of this name is challenged.
fn name_challenged(
    alloc: Global,
    plain: &Plain,
    layer: u32,
    store: &Store,
    name: &Name,
    args: &[Value],
) -> Result<bool, Memory>
    ensures { IfOk result (λ b. (names : List Called) (locals : List Given) (results : List Called) (at next : ℕ) → b ≡ call_challenged plain.now.program layer store.now (call_doing names locals results at next (called plain.now name.now) args.now)) }
{
    match action_named(&plain.program, name) {
        Some(_) => Ok(false),
        None => {
            let number = proc(plain.program.procs.as_slice(), name);
            let challenged = number_challenged(alloc, plain, layer, store, number, args)?;
            Ok(challenged)
        }
    }
}

/// Whether a call in a procedure is challenged.
fn call_challenged(
    alloc: Global,
    plain: &Plain,
    layer: u32,
    store: &Store,
    proc: &Proc,
    locals: &[Value],
    name: &Name,
    args: &List<Expr>,
    results: &List<Name>,
) -> Result<bool, Memory>
    ensures { IfOk result (λ b. (at next : ℕ) → b ≡ call_challenged plain.now.program layer store.now (call_doing (names_in_proc proc.now) locals.now results.now at next (called plain.now name.now) (values_of (frame_values plain.now.program.globals proc.now locals.now) args.now))) }
{
    let frame = in_frame(plain.program.globals.as_slice(), proc, locals);
    let args = values(alloc, &frame, args.as_slice())?;
    let challenged = name_challenged(alloc, plain, layer, store, name, args.as_slice())?;
    Ok(challenged)
}

/// Whether a statement of a procedure is a call that is challenged.
fn statement_challenged(
    alloc: Global,
    plain: &Plain,
    layer: u32,
    store: &Store,
    proc: &Proc,
    locals: &[Value],
    stmt: &Stmt,
) -> Result<bool, Memory>
    ensures { IfOk result (λ b. (at next : ℕ) → b ≡ call_challenged plain.now.program layer store.now (statement_doing plain.now proc.now locals.now at next (out-Stmt stmt.now))) }
{
    match stmt {
        Stmt::Call(name, args, results) => {
            call_challenged(
                alloc, plain, layer, store, proc, locals, name, args, results,
            )
        }
        Stmt::Assign(_, _) => Ok(false),
        Stmt::Assert(_) => Ok(false),
        Stmt::If(_, _, _) => Ok(false),
        Stmt::While(_, _) => Ok(false),
        Stmt::YieldLoop(_, _, _) => Ok(false),
        Stmt::RankLoop(_, _, _, _) => Ok(false),
        Stmt::Yield(_) => Ok(false),
        Stmt::Commit => Ok(false),
        Stmt::Intro(_, _) => Ok(false),
        Stmt::Spawn(_, _) => Ok(false),
    }
}

/// Whether the topmost frame of a thread stands before a call that is challenged.
fn frame_calls(
    alloc: Global,
    plain: &Plain,
    layer: u32,
    store: &Store,
    frame: &Activation,
) -> Result<bool, Memory>
    ensures { IfOk result (λ b. (below : List Waiting) → b ≡ call_challenged plain.now.program layer store.now (proc_doing plain.now (caller_of below) frame.now (slice_get plain.now.program.procs frame.now.procedure))) }
{
    let procs = plain.program.procs.as_slice();
    if frame.procedure >= procs.len() {
        return Ok(false);
    }
    let proc = &procs[frame.procedure];
    let rest = rest_at(alloc, proc, frame.place)?;
    match head(&rest) {
        None => Ok(false),
        Some(stmt) => {
            let locals = frame.locals.as_slice();
            let challenged = statement_challenged(alloc, plain, layer, store, proc, locals, stmt)?;
            Ok(challenged)
        }
    }
}

/// Whether a thread stands before a call that is challenged.
fn thread_calls(
    alloc: Global,
    plain: &Plain,
    layer: u32,
    store: &Store,
    thread: &Running,
) -> Result<bool, Memory>
    ensures { IfOk result (λ b. b ≡ call_challenged plain.now.program layer store.now (doing plain.now thread.now)) }
{
    match &thread.state {
        State::After => Ok(false),
        State::Before => {
            number_challenged(
                alloc,
                plain,
                layer,
                store,
                thread.callee,
                thread.args.as_slice(),
            )
        }
        State::Inside(_, frame) => frame_calls(alloc, plain, layer, store, frame),
    }
}

/// Whether a frame stands at a yield, has passed no commit, and the refined action's gate is false.
fn frame_challenged(
    alloc: Global,
    program: &Program,
    store: &Store,
    done: bool,
    framed: Option<Framed<'_>>,
) -> Result<bool, Memory>
    ensures { IfOk result (λ b. b ≡ frame_challenged program.now store.now done (framed_of framed.entry)) }
{
    match framed {
        None => Ok(false),
        Some(framed) => {
            if done {
                return Ok(false);
            }
            let locals = framed.frame.locals.as_slice();
            if allows(program, store, framed.proc, locals) {
                return Ok(false);
            }
            let rest = rest_at(alloc, framed.proc, framed.frame.place)?;
            Ok(at_yield(&rest))
        }
    }
}

/// Whether a thread is challenged, of which this is said of a commit.
fn thread_challenged(
    alloc: Global,
    plain: &Plain,
    layer: u32,
    store: &Store,
    done: bool,
    thread: &Running,
) -> Result<bool, Memory>
    requires few { layer + 1 < 2 ^ 32 }
    requires layer { IsLayerOf plain.now layer }
    ensures { IfOk result (λ b. b ≡ thread_challenged plain.now.program layer store.now done thread.now) }
{
    if thread_calls(alloc, plain, layer + 1, store, thread)? {
        return Ok(true);
    }
    let framed = frame_of_layer(&plain.program, layer + 1, thread);
    frame_challenged(alloc, &plain.program, store, done, framed)
}

/// Whether one of these threads is challenged.
fn some_challenged(
    alloc: Global,
    plain: &Plain,
    layer: u32,
    store: &Store,
    done: &[bool],
    threads: &[Running],
) -> Result<bool, Memory>
    requires few { layer + 1 < 2 ^ 32 }
    requires layer { IsLayerOf plain.now layer }
    requires one_each { length done.now ≡ length threads.now }
    ensures { IfOk result (λ b. b ≡ some_challenged plain.now.program layer store.now (done_in done.now) 0 threads.now) }
{
    for at in 0..threads.len() {
        if thread_challenged(alloc, plain, layer, store, done[at], &threads[at])? {
            return Ok(true);
        }
    }
    Ok(false)
}

/// Whether the run is challenged: the gate of a refined action is false where its procedure is called, or is about to begin
/// a block before its commit.
///
/// # Errors
///
/// For want of memory.
pub fn is_challenged(
    alloc: Global,
    plain: &Plain,
    layer: u32,
    shadowed: &Shadowed,
) -> Result<bool, Memory>
    requires few { layer + 1 < 2 ^ 32 }
    requires layer { IsLayerOf plain.now layer }
    requires one_each { length shadowed.now.shadow.done.items ≡ length shadowed.now.config.threads }
    ensures { IfOk result (λ b. (s : Beside) → Shows shadowed.now s → b ≡ is_challenged plain.now.program layer s) }
{
    let globals = plain.program.globals.as_slice();
    let store = &shadowed.config.store;
    let values = merged(alloc, globals, layer, store, &shadowed.shadow.store)?;
    let seen = Store {
        values: List::from_vec(values),
    };
    some_challenged(
        alloc,
        plain,
        layer,
        &seen,
        &shadowed.shadow.done,
        shadowed.config.threads.as_slice(),
    )
}
