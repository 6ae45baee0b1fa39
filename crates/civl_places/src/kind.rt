// The tokens at which the items of each kind begin.
ghost use Rattle.std.specs.Prelude.{◌≡◌, ◌<◌, ◌^◌, length};
ghost use Rattle.std.specs.Option.{SomeIff};
ghost use Rattle.civl_tree.specs.SpellingProgram.{spell_program};
ghost use Rattle.civl_tree.specs.Numbering.{init_item, invariant_item, action_item, proc_item, thread_item};
ghost use Rattle.civl_places.specs.Starts.{item_start};

use crate::item::{actions_start, invariants_start, procs_start, threads_start, walk_each};
use crate::phrase::count_each;
use crate::walk::Walk;
use civl_tree::Program;

/// The token at which `init` begins.
pub(crate) fn init_token(program: &Program) -> usize
    requires { length (spell_program program.now) < 2 ^ 64 }
    ensures { result ≡ item_start program.now (init_item program.now) }
{
    count_each(program.globals.as_slice()) + 9
}

/// That of the invariant at this place among the invariants.
pub(crate) fn invariant_token(program: &Program, place: usize) -> Option<usize>
    requires { length (spell_program program.now) < 2 ^ 64 }
    ensures { SomeIff result (place < length program.now.invariants) (item_start program.now (invariant_item program.now place)) }
{
    match walk_each(
        program.invariants.as_slice(),
        place,
        invariants_start(program),
    ) {
        Walk::Found(token) => Some(token),
        Walk::Left(_) => None,
    }
}

/// That of the action at this place among the actions.
pub(crate) fn action_token(program: &Program, place: usize) -> Option<usize>
    requires { length (spell_program program.now) < 2 ^ 64 }
    ensures { SomeIff result (place < length program.now.actions) (item_start program.now (action_item program.now place)) }
{
    match walk_each(program.actions.as_slice(), place, actions_start(program)) {
        Walk::Found(token) => Some(token),
        Walk::Left(_) => None,
    }
}

/// That of the procedure at this place among the procedures.
pub(crate) fn proc_token(program: &Program, place: usize) -> Option<usize>
    requires { length (spell_program program.now) < 2 ^ 64 }
    ensures { SomeIff result (place < length program.now.procs) (item_start program.now (proc_item program.now place)) }
{
    match walk_each(program.procs.as_slice(), place, procs_start(program)) {
        Walk::Found(token) => Some(token),
        Walk::Left(_) => None,
    }
}

/// That of the thread at this place among the threads.
pub(crate) fn thread_token(program: &Program, place: usize) -> Option<usize>
    requires { length (spell_program program.now) < 2 ^ 64 }
    ensures { SomeIff result (place < length program.now.threads) (item_start program.now (thread_item program.now place)) }
{
    match walk_each(program.threads.as_slice(), place, threads_start(program)) {
        Walk::Found(token) => Some(token),
        Walk::Left(_) => None,
    }
}
