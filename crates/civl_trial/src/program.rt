// The trial program.
ghost use Rattle.std.specs.Prelude.{◌≡◌, ◌-◌, ◌≤◌, List as ListOf, [], ◌∷◌, ◌++◌, IfOk, OnOk};
ghost use Rattle.civl_tree.specs.declared.name.Name.{Name as OfName};
ghost use Rattle.civl_tree.specs.declared.expr.Expr.{Expr as OfExpr};
ghost use Rattle.civl_trial.specs.Phrases.{Makes};
ghost use Rattle.civl_trial.specs.Copies.{cas, reset, load, store, atom_acquire, atom_release, atom_read, atom_write, atom_incr, globals_of, invariants_of, actions_of, procs_of};
ghost use Rattle.civl_trial.specs.Trial.{IsTrialNumber, copies, starts_to, increment, main, main_thread, trial};

use crate::actions::{
    atom_acquire, atom_incr, atom_read, atom_release, atom_write, cas, lent_thread, load, reset,
    store,
};
use crate::globals::{counter, flag, flag_is_lock, lock, starts};
use crate::phrases::{headed, named, one, pair, pushed, together, two};
use crate::procs::{acquire, call_for_thread, incr, proc, read, release, write};
use civl_tree::{
    Action, Expr, Global, Invariant, List, Memory, Name, Proc, Program, Stmt, Thread, Two,
};
use std::alloc::Global as Alloc;

/// Puts the globals of a copy behind all others.
fn push_globals(alloc: Alloc, globals: &mut List<Global>, copy: u32) -> Result<(), Memory>
    ensures { OnOk result (globals.new ≡ globals.old ++ globals_of copy) }
{
    pushed(globals, flag(alloc, copy))?;
    pushed(globals, lock(alloc, copy))?;
    pushed(globals, counter(alloc, copy))?;
    Ok(())
}

/// The globals of so many copies.
#[tactic(auto, using(crate::proofs::Copying::copies_more))]
fn globals(alloc: Alloc, number: u32) -> Result<List<Global>, Memory>
    ensures { IfOk result (λ it. it ≡ copies globals_of number) }
{
    let mut globals = List::new(alloc);
    for copy in 0..number {
        push_globals(alloc, &mut globals, copy)?;
    }
    Ok(globals)
}

/// What `init` asks of so many copies, of one at least.
#[tactic(auto, using(crate::proofs::Copying::starts_more))]
fn init(alloc: Alloc, number: u32) -> Result<Expr, Memory>
    requires { 1 ≤ number }
    ensures { IfOk result (λ it. it ≡ starts_to (number - 1)) }
{
    let mut init = starts(alloc, 0)?;
    for copy in 1..number {
        init = two(alloc, Two::And, Ok(init), starts(alloc, copy))?;
    }
    Ok(init)
}

/// The invariants of so many copies.
#[tactic(auto, using(crate::proofs::Copying::copies_more))]
fn invariants(alloc: Alloc, number: u32) -> Result<List<Invariant>, Memory>
    ensures { IfOk result (λ it. it ≡ copies invariants_of number) }
{
    let mut invariants = List::new(alloc);
    for copy in 0..number {
        invariants.push(flag_is_lock(alloc, copy)?)?;
    }
    Ok(invariants)
}

/// Puts the actions of a copy at layer 0 behind all others.
fn push_plain(alloc: Alloc, actions: &mut List<Action>, copy: u32) -> Result<(), Memory>
    ensures { OnOk result (actions.new ≡ actions.old ++ cas copy ∷ reset copy ∷ load copy ∷ store copy ∷ []) }
{
    pushed(actions, cas(alloc, copy))?;
    pushed(actions, reset(alloc, copy))?;
    pushed(actions, load(alloc, copy))?;
    pushed(actions, store(alloc, copy))?;
    Ok(())
}

/// Puts the actions of a copy at the layers above behind all others.
fn push_atoms(alloc: Alloc, actions: &mut List<Action>, copy: u32) -> Result<(), Memory>
    ensures { OnOk result (actions.new ≡ actions.old ++ atom_acquire copy ∷ atom_release copy ∷ atom_read copy ∷ atom_write copy ∷ atom_incr copy ∷ []) }
{
    pushed(actions, atom_acquire(alloc, copy))?;
    pushed(actions, atom_release(alloc, copy))?;
    pushed(actions, atom_read(alloc, copy))?;
    pushed(actions, atom_write(alloc, copy))?;
    pushed(actions, atom_incr(alloc, copy))?;
    Ok(())
}

/// Puts the actions of a copy behind all others.
fn push_actions(alloc: Alloc, actions: &mut List<Action>, copy: u32) -> Result<(), Memory>
    ensures { OnOk result (actions.new ≡ actions.old ++ actions_of copy) }
{
    push_plain(alloc, actions, copy)?;
    push_atoms(alloc, actions, copy)?;
    Ok(())
}

/// The actions of so many copies.
#[tactic(auto, using(crate::proofs::Copying::copies_more))]
fn actions(alloc: Alloc, number: u32) -> Result<List<Action>, Memory>
    ensures { IfOk result (λ it. it ≡ copies actions_of number) }
{
    let mut actions = List::new(alloc);
    for copy in 0..number {
        push_actions(alloc, &mut actions, copy)?;
    }
    Ok(actions)
}

/// Puts the procedures of a copy behind all others.
fn push_procs(alloc: Alloc, procs: &mut List<Proc>, copy: u32) -> Result<(), Memory>
    ensures { OnOk result (procs.new ≡ procs.old ++ procs_of copy) }
{
    pushed(procs, acquire(alloc, copy))?;
    pushed(procs, release(alloc, copy))?;
    pushed(procs, read(alloc, copy))?;
    pushed(procs, write(alloc, copy))?;
    pushed(procs, incr(alloc, copy))?;
    Ok(())
}

/// `call Incr(t) -> ();` of each copy.
#[tactic(auto, using(crate::proofs::Copying::copies_more))]
fn increments(alloc: Alloc, number: u32) -> Result<List<Stmt>, Memory>
    ensures { IfOk result (λ it. it ≡ copies increment number) }
{
    let mut body = List::new(alloc);
    for copy in 0..number {
        body.push(call_for_thread(alloc, b"Incr", copy)?)?;
    }
    Ok(body)
}

/// `proc Main(lend t : word(2)) -> () root { .. }`, which increments the counter of each copy.
fn main_of(alloc: Alloc, number: u32) -> Result<Proc, Memory>
    ensures { IfOk result (λ it. it ≡ main number) }
{
    let name = named(alloc, b"Main");
    let heading = headed(name, lent_thread(alloc), Ok(List::new(alloc)));
    let body = increments(alloc, number);
    proc(heading, Ok(None), Ok(List::new(alloc)), body)
}

/// The procedures of so many copies, and behind them `Main`.
#[tactic(auto, using(crate::proofs::Copying::copies_more))]
fn procs(alloc: Alloc, number: u32) -> Result<List<Proc>, Memory>
    ensures { IfOk result (λ it. it ≡ copies procs_of number ++ main number ∷ []) }
{
    let mut procs = List::new(alloc);
    for copy in 0..number {
        push_procs(alloc, &mut procs, copy)?;
    }
    procs.push(main_of(alloc, number)?)?;
    Ok(procs)
}

/// `thread callee( args ) ;`
fn thread(callee: Result<Name, Memory>, args: Result<List<Expr>, Memory>) -> Result<Thread, Memory>
    ensures { (c : OfName) (a : ListOf OfExpr) → Makes callee c → Makes args a → Makes result (record { callee = c; args = a }) }
{
    let parts = together(callee, args)?;
    Ok(Thread {
        callee: parts.0,
        args: parts.1,
    })
}

/// `thread Main( permission:2 ) ;`
fn main_thread(alloc: Alloc, permission: u32) -> Result<Thread, Memory>
    ensures { IfOk result (λ it. it ≡ main_thread permission) }
{
    let args = one(alloc, Ok(Expr::Literal(permission, 2)));
    thread(named(alloc, b"Main"), args)
}

/// The two threads.
fn threads(alloc: Alloc) -> Result<List<Thread>, Memory>
    ensures { IfOk result (λ it. it ≡ main_thread 1 ∷ main_thread 2 ∷ []) }
{
    pair(alloc, main_thread(alloc, 1), main_thread(alloc, 2))
}

/// The trial program of so many copies, from 1 to 8: a spinlock and a counter so many times, and two threads that
/// increment each of the counters. In copy `i` the names of globals, actions and procedures end with `_` and `i`.
///
/// # Errors
///
/// `Memory` only where memory is wanting.
pub fn trial(alloc: Alloc, number: u32) -> Result<Program, Memory>
    requires { IsTrialNumber number }
    ensures { IfOk result (λ program. program ≡ trial number) }
{
    let state = together(globals(alloc, number), init(alloc, number));
    let rules = together(invariants(alloc, number), actions(alloc, number));
    let code = together(procs(alloc, number), threads(alloc));
    let parts = together(together(state, rules), code)?;
    let (((globals, init), (invariants, actions)), (procs, threads)) = parts;
    Ok(Program {
        version: 1,
        layers: 2,
        permissions: 2,
        globals,
        init,
        invariants,
        actions,
        procs,
        threads,
    })
}
