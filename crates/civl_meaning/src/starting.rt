// The configuration in which a program starts.
ghost use Rattle.std.specs.Prelude.{◌≡◌, IfOk};
ghost use Rattle.civl_meaning.specs.Step.{begun, start};

use crate::config::{Config, Plain, Running, State};
use crate::leaving::copied;
use civl_firing::Store;
use civl_firing::expressions::values;
use civl_firing::names::proc;
use civl_firing::setting::at_start;
use civl_tree::{List, Memory, Program, Thread};
use std::alloc::Global;

/// A declared thread before its call, whose arguments are evaluated in the store.
fn begun(
    alloc: Global,
    program: &Program,
    store: &Store,
    thread: &Thread,
) -> Result<Running, Memory>
    ensures { IfOk result (λ r. r ≡ begun program.now store.now thread.now) }
{
    let setting = at_start(program.globals.as_slice(), store);
    let args = values(alloc, &setting, thread.args.as_slice())?;
    Ok(Running {
        callee: proc(program.procs.as_slice(), &thread.callee),
        args,
        state: State::Before,
    })
}

/// The configuration in which a plain program starts from a store: the store, and the declared threads before their
/// calls.
///
/// # Errors
///
/// For want of memory.
pub fn start(alloc: Global, plain: &Plain, store: &Store) -> Result<Config, Memory>
    ensures { IfOk result (λ config. config ≡ start plain.now store.now) }
{
    let mut threads = Vec::new(alloc);
    for thread in plain.program.threads.as_slice() {
        let begun = begun(alloc, &plain.program, store, thread)?;
        threads.push(begun)?;
    }
    let values = copied(alloc, store.values.as_slice())?;
    Ok(Config {
        store: Store { values },
        threads: List::from_vec(threads),
    })
}
