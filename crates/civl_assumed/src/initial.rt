// Whether a store is initial.
ghost use Rattle.std.specs.Prelude.{◌≡◌, ◌++◌, List as ListOf, OnOk, IfOk, slice_get};
ghost use Rattle.civl_bits.specs.declared.value.Value.{Value};
ghost use Rattle.civl_meaning.specs.Meaning.{proc_number};
ghost use Rattle.civl_meaning.specs.Permissions.{of_params};
ghost use Rattle.civl_meaning.specs.Initial.{of_args, of_thread, initial_permissions};
ghost use Rattle.civl_conditions.specs.Invariants.{meets_init};

use crate::permissions::{are_apart, push_globals, push_params};
use civl_firing::Store;
use civl_firing::expressions::{holds, values};
use civl_firing::names::proc;
use civl_firing::setting::at_start;
use civl_tree::{List, Memory, Name, Param, Program, Thread};
use std::alloc::Global;

/// The parameters of the procedure with this name, or none.
fn params_of<'a>(program: &'a Program, callee: &Name) -> &'a [Param]
    ensures { (args : ListOf Value) → of_params result.now args ≡ of_args (slice_get program.now.procs (proc_number program.now callee.now)) args }
{
    let procs = program.procs.as_slice();
    let number = proc(procs, callee);
    if number < procs.len() {
        procs[number].params.as_slice()
    } else {
        &[]
    }
}

/// The permissions of each linear argument of a declared thread.
fn push_thread(
    alloc: Global,
    lists: &mut Vec<List<u32>>,
    program: &Program,
    store: &Store,
    thread: &Thread,
) -> Result<(), Memory>
    ensures { OnOk result (lists.new.items ≡ lists.old.items ++ of_thread program.now store.now thread.now) }
{
    let setting = at_start(program.globals.as_slice(), store);
    let args = values(alloc, &setting, thread.args.as_slice())?;
    push_params(
        alloc,
        lists,
        params_of(program, &thread.callee),
        args.as_slice(),
    )?;
    Ok(())
}

/// The permissions of each linear global and of each linear thread argument.
fn permissions(alloc: Global, program: &Program, store: &Store) -> Result<Vec<List<u32>>, Memory>
    ensures { IfOk result (λ lists. lists.items ≡ initial_permissions program.now store.now) }
{
    let mut lists = Vec::new(alloc);
    push_globals(
        alloc,
        &mut lists,
        program.globals.as_slice(),
        store.values.as_slice(),
    )?;
    for thread in program.threads.as_slice() {
        push_thread(alloc, &mut lists, program, store, thread)?;
    }
    Ok(lists)
}

/// Whether `init` holds in a store, and no permission is in two of its linear globals and of the linear thread arguments there.
///
/// # Errors
///
/// For want of memory.
pub fn is_initial(alloc: Global, program: &Program, store: &Store) -> Result<bool, Memory>
    ensures { IfOk result (λ is. is ≡ meets_init program.now store.now) }
{
    if !holds(&at_start(program.globals.as_slice(), store), &program.init) {
        return Ok(false);
    }
    let lists = permissions(alloc, program, store)?;
    Ok(are_apart(lists.as_slice()))
}
