// Moves with the choices that actions offer.
ghost use Rattle.std.specs.Prelude.{ℕ, ◌≡◌, [], List, slice_get, IfOk, option_copied, Some};
ghost use Rattle.civl_tree.specs.declared.name.Name.{Name as Called};
ghost use Rattle.civl_tree.specs.declared.stmt.Stmt.{out-Stmt};
ghost use Rattle.civl_tree.specs.declared.stmt.Stmt.TheOpen.{Call};
ghost use Rattle.civl_meaning.specs.declared.config.Activation.{Activation as Waiting};
ghost use Rattle.civl_meaning.specs.Meaning.{called, meaning_of, refined};
ghost use Rattle.civl_meaning.specs.Change.{caller_of, doing, statement_doing, proc_doing};
ghost use Rattle.civl_meaning.specs.Rest.{head_of};
ghost use Rattle.civl_firing.specs.Scope.{gate_values};
ghost use Rattle.civl_firing.specs.Settings.{scope_in};
ghost use Rattle.civl_meaning.specs.Remaining.{rest_of};
ghost use Rattle.civl_reduction.specs.gathered.Offered.{offers_of, offered};
ghost use Rattle.civl_meaning.specs.inner.Left.{stmt_of};
ghost use Rattle.civl_conditions.specs.paths.Choices.{action_meant};
ghost use Rattle.civl_blocked.specs.inner.Offering.{offers_in};

use civl_bits::Value;
use civl_firing::Store;
use civl_firing::expressions::{value, values};
use civl_firing::names::{Names, proc};
use civl_firing::setting::{Setting, in_frame};
use civl_meaning::remaining::{Numbered, rest_at};
use civl_meaning::{Activation, Config, Move, Plain, Running, State};
use civl_tree::{Action, Expr, List, Memory, Name, Proc, Program, Stmt};
use civl_types::names::action_named;
use std::alloc::Global;

/// The action that a procedure refines.
#[tactic(auto, using(crate::proofs::Meanings::action_is))]
fn refined<'a>(program: &'a Program, proc: &Proc) -> Option<&'a Action>
    ensures { option_copied result ≡ action_meant (refined program.now proc.now.refines) }
{
    match &proc.refines {
        None => None,
        Some(refines) => action_named(program, &refines.action),
    }
}

/// The action that a call of the procedure with this number means, if it means one.
fn action_of(plain: &Plain, number: usize) -> Option<&Action>
    ensures { option_copied result ≡ action_meant (meaning_of plain.now number) }
{
    let procs = plain.program.procs.as_slice();
    let bodies = plain.bodies.as_slice();
    if number >= procs.len() {
        return None;
    }
    if number >= bodies.len() {
        return None;
    }
    if bodies[number] {
        return None;
    }
    refined(&plain.program, &procs[number])
}

/// The action that a call of this name means, if it means one.
fn action_called<'a>(plain: &'a Plain, name: &Name) -> Option<&'a Action>
    ensures { option_copied result ≡ action_meant (called plain.now name.now) }
{
    match action_named(&plain.program, name) {
        Some(action) => Some(action),
        None => action_of(plain, proc(plain.program.procs.as_slice(), name)),
    }
}

/// What an action's gate and offers are about.
#[tactic(auto, using(civl_firing::proofs::Joining::appending))]
fn at_gate<'a>(
    plain: &'a Plain,
    store: &'a Store,
    action: &'a Action,
    inputs: &'a [Value],
) -> Setting<'a>
    ensures { scope_in result ≡ gate_values plain.now.program.globals store.now action.now inputs.now }
{
    Setting {
        names: Names {
            globals: plain.program.globals.as_slice(),
            params: action.params.as_slice(),
            choices: &[],
            outs: action.outs.as_slice(),
            locals: &[],
            behind: &[],
        },
        store: store.values.as_slice(),
        inputs,
        chosen: &[],
        zeros: action.outs.as_slice(),
    }
}

/// What an action offers for its choices, if there is one.
fn offers(
    alloc: Global,
    plain: &Plain,
    store: &Store,
    action: Option<&Action>,
    inputs: &[Value],
) -> Result<Vec<Value>, Memory>
    ensures { IfOk result (λ vs. vs.items ≡ offers_in plain.now.program.globals store.now (option_copied action.entry) inputs.now) }
{
    match action {
        None => Ok(Vec::new(alloc)),
        Some(action) => {
            let mut offered = Vec::new(alloc);
            let setting = at_gate(plain, store, action, inputs);
            for choice in action.choices.as_slice() {
                offered.push(value(&setting, &choice.offer))?;
            }
            Ok(offered)
        }
    }
}

/// What a call of this name offers, with these arguments.
fn call_offers(
    alloc: Global,
    plain: &Plain,
    store: &Store,
    proc: &Proc,
    locals: &[Value],
    name: &Name,
    args: &List<Expr>,
) -> Result<Vec<Value>, Memory>
    ensures { IfOk result (λ vs. (results : List Called) (at next : ℕ) → vs.items ≡ offers_of plain.now.program.globals store.now (statement_doing plain.now proc.now locals.now at next (Call name.now args.now results))) }
{
    let frame = in_frame(plain.program.globals.as_slice(), proc, locals);
    let inputs = values(alloc, &frame, args.as_slice())?;
    let action = action_called(plain, name);
    let offered = offers(alloc, plain, store, action, inputs.as_slice())?;
    Ok(offered)
}

/// What a statement of a procedure offers.
fn statement_offers(
    alloc: Global,
    plain: &Plain,
    store: &Store,
    proc: &Proc,
    locals: &[Value],
    stmt: &Stmt,
) -> Result<Vec<Value>, Memory>
    ensures { IfOk result (λ vs. (at next : ℕ) → vs.items ≡ offers_of plain.now.program.globals store.now (statement_doing plain.now proc.now locals.now at next (out-Stmt stmt.now))) }
{
    match stmt {
        Stmt::Call(name, args, _) => call_offers(alloc, plain, store, proc, locals, name, args),
        Stmt::Assign(_, _) => Ok(Vec::new(alloc)),
        Stmt::Assert(_) => Ok(Vec::new(alloc)),
        Stmt::If(_, _, _) => Ok(Vec::new(alloc)),
        Stmt::While(_, _) => Ok(Vec::new(alloc)),
        Stmt::YieldLoop(_, _, _) => Ok(Vec::new(alloc)),
        Stmt::RankLoop(_, _, _, _) => Ok(Vec::new(alloc)),
        Stmt::Yield(_) => Ok(Vec::new(alloc)),
        Stmt::Commit => Ok(Vec::new(alloc)),
        Stmt::Intro(_, _) => Ok(Vec::new(alloc)),
        Stmt::Spawn(_, _) => Ok(Vec::new(alloc)),
    }
}

/// The first statement of a plain program in what is still to run.
fn head<'a>(rest: &[Numbered<'a>]) -> Option<&'a Stmt>
    ensures { (end : ℕ) → option_copied result ≡ stmt_of (head_of end (rest_of rest.now)) }
{
    for item in rest {
        match item.stmt {
            Stmt::Yield(_) | Stmt::Commit | Stmt::Intro(_, _) => {}
            stmt => return Some(stmt),
        }
    }
    None
}

/// What the statement before which a frame stands offers.
fn frame_offers(
    alloc: Global,
    plain: &Plain,
    store: &Store,
    frame: &Activation,
) -> Result<Vec<Value>, Memory>
    ensures { IfOk result (λ vs. (below : List Waiting) → vs.items ≡ offers_of plain.now.program.globals store.now (proc_doing plain.now (caller_of below) frame.now (slice_get plain.now.program.procs frame.now.procedure))) }
{
    let procs = plain.program.procs.as_slice();
    if frame.procedure >= procs.len() {
        return Ok(Vec::new(alloc));
    }
    let proc = &procs[frame.procedure];
    let rest = rest_at(alloc, proc, frame.place)?;
    match head(&rest) {
        None => Ok(Vec::new(alloc)),
        Some(stmt) => {
            let locals = frame.locals.as_slice();
            let offered = statement_offers(alloc, plain, store, proc, locals, stmt)?;
            Ok(offered)
        }
    }
}

/// What a thread's next step offers.
fn thread_offers(
    alloc: Global,
    plain: &Plain,
    store: &Store,
    thread: &Running,
) -> Result<Vec<Value>, Memory>
    ensures { IfOk result (λ vs. vs.items ≡ offers_of plain.now.program.globals store.now (doing plain.now thread.now)) }
{
    match &thread.state {
        State::After => Ok(Vec::new(alloc)),
        State::Before => {
            let action = action_of(plain, thread.callee);
            offers(alloc, plain, store, action, thread.args.as_slice())
        }
        State::Inside(_, frame) => frame_offers(alloc, plain, store, frame),
    }
}

/// The move of this thread by which the action that it calls has the choices that it offers.
pub fn offered(alloc: Global, plain: &Plain, config: &Config, thread: u32) -> Result<Move, Memory>
    ensures { IfOk result (λ m. m ≡ offered plain.now config.now thread) }
{
    let at = thread as usize;
    if at >= config.threads.len() {
        return Ok(Move {
            thread,
            choices: List::new(alloc),
        });
    }
    let choices = thread_offers(alloc, plain, &config.store, config.threads.get(at))?;
    Ok(Move {
        thread,
        choices: List::from_vec(choices),
    })
}
