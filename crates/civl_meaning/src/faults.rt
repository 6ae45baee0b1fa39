// Failing threads.
ghost use Rattle.std.specs.Prelude.{ℕ, ◌≡◌, ◌<◌, ◌^◌, List, [], length, Option, slice_get};
ghost use Rattle.civl_tree.specs.declared.name.Name.{Name};
ghost use Rattle.civl_tree.specs.declared.stmt.Stmt.{out-Stmt};
ghost use Rattle.civl_firing.specs.Eval.{values_of};
ghost use Rattle.civl_firing.specs.Scope.{frame_values};
ghost use Rattle.civl_meaning.specs.inner.Callees.{meaning};
ghost use Rattle.civl_meaning.specs.Change.{call_doing, statement_doing, proc_doing};
ghost use Rattle.civl_meaning.specs.Failing.{fails_at, thread_fails, failing_thread};

use crate::change::{Standing, holds_in};
use crate::config::{Activation, Config, Plain, Running, State};
use crate::meant::{Callee, of_name, of_proc};
use crate::seeking::seek_body;
use civl_bits::Value;
use civl_firing::firing::gate;
use civl_firing::{Store, gate_of_call};
use civl_tree::{Expr, Stmt};

/// Whether the call with which a thread begins fails.
fn first_call_fails(plain: &Plain, store: &Store, callee: Callee<'_>, args: &[Value]) -> bool
    ensures { result ≡ fails_at plain.now store.now (call_doing [] [] [] 0 0 (meaning callee.entry) args.now) }
{
    match callee {
        Callee::Does(action) => !gate(plain.program.globals.as_slice(), store, action, args),
        Callee::Runs(_, _) => false,
        Callee::Missing => false,
    }
}

/// Whether a call in a procedure fails, wherever it stands.
fn call_fails(standing: &Standing<'_>, store: &Store, callee: Callee<'_>, args: &[Expr]) -> bool
    ensures { (names : List Name) (results : List Name) (at next : ℕ) → result ≡ fails_at standing.now.plain.now store.now (call_doing names standing.now.locals.now results at next (meaning callee.entry) (values_of (frame_values standing.now.plain.now.program.globals standing.now.proc.now standing.now.locals.now) args.now)) }
{
    let globals = standing.plain.program.globals.as_slice();
    match callee {
        Callee::Does(action) => {
            !gate_of_call(globals, store, action, standing.proc, standing.locals, args)
        }
        Callee::Runs(_, _) => false,
        Callee::Missing => false,
    }
}

/// Whether a statement fails, wherever it stands.
#[tactic(auto, using(crate::proofs::Firsts::fails_assert))]
fn statement_fails(standing: &Standing<'_>, store: &Store, stmt: &Stmt) -> bool
    ensures { (at next : ℕ) → result ≡ fails_at standing.now.plain.now store.now (statement_doing standing.now.plain.now standing.now.proc.now standing.now.locals.now at next (out-Stmt stmt.now)) }
{
    match stmt {
        Stmt::Assert(expr) => !holds_in(standing, expr),
        Stmt::Call(name, args, _) => {
            let callee = of_name(standing.plain, name);
            call_fails(standing, store, callee, args.as_slice())
        }
        _ => false,
    }
}

/// Whether a frame stands before a statement that fails, whatever frame is below it.
fn frame_fails(plain: &Plain, store: &Store, frame: &Activation) -> bool
    ensures { (caller : Option Activation) → result ≡ fails_at plain.now store.now (proc_doing plain.now caller frame.now (slice_get plain.now.program.procs frame.now.procedure)) }
{
    let procs = plain.program.procs.as_slice();
    if frame.procedure >= procs.len() {
        return false;
    }
    let proc = &procs[frame.procedure];
    match seek_body(&proc.body, frame.place) {
        None => false,
        Some(stmt) => {
            let standing = Standing {
                plain,
                proc,
                locals: frame.locals.as_slice(),
            };
            statement_fails(&standing, store, stmt)
        }
    }
}

/// Whether a thread stands before an action call whose gate is false, or before an assert that is false.
fn thread_fails(plain: &Plain, store: &Store, thread: &Running) -> bool
    ensures { result ≡ thread_fails plain.now store.now thread.now }
{
    match &thread.state {
        State::After => false,
        State::Before => {
            let callee = of_proc(plain, thread.callee);
            first_call_fails(plain, store, callee, thread.args.as_slice())
        }
        State::Inside(_, frame) => frame_fails(plain, store, frame),
    }
}

/// The first thread of a configuration that stands before an action call whose gate is false, or before an assert that
/// is false; `None` where no thread does. It takes no memory. There are fewer than 2 to the 32 threads.
pub fn failing(config: &Config, plain: &Plain) -> Option<u32>
    requires { length config.now.threads < 2 ^ 32 }
    ensures { result ≡ failing_thread plain.now config.now }
{
    let threads = config.threads.as_slice();
    for at in 0..threads.len() {
        if thread_fails(plain, &config.store, &threads[at]) {
            return Some(at as u32);
        }
    }
    None
}
