// The token at which an item begins.
ghost use Rattle.std.specs.Prelude.{◌≡◌, [], ◌∷◌, ◌+◌, ◌<◌, ◌^◌, IfSome, length, map};
ghost use Rattle.std.specs.Option.{SomeIff};
ghost use Rattle.civl_tree.specs.Spelling.{joined};
ghost use Rattle.civl_tree.specs.SpellingProgram.{spell_program};
ghost use Rattle.civl_tree.specs.Numbering.{item_count};
ghost use Rattle.civl_places.specs.Starts.{item_start};
ghost use Rattle.civl_places.specs.inner.Walked.{walked, go_on, starts_each};
ghost use Rattle.civl_places.specs.inner.Kinds.{invariants_at, actions_at, procs_at, threads_at, program_end, walked_first, walked_items};

use crate::declaration::init_count;
use crate::phrase::{Phrase, count_each};
use crate::walk::Walk;
use civl_tree::{List, Program};

/// Phrases of which the first begins at this token.
pub(crate) fn walk_each<P: Phrase>(phrases: &[P], number: usize, start: usize) -> Walk
    requires { start + length (joined (map P.spell phrases.now)) < 2 ^ 64 }
    ensures { result ≡ walked (starts_each start (map P.spell phrases.now)) number }
{
    let mut left = number;
    let mut at = start;
    for phrase in phrases {
        if left == 0 {
            return Walk::Found(at);
        }
        left -= 1;
        at += phrase.count();
    }
    Walk::Left(left)
}

/// What a walk comes to that goes on with these phrases.
fn then_each<P: Phrase>(before: Walk, phrases: &List<P>, start: usize) -> Walk
    requires { start + length (joined (map P.spell phrases.now)) < 2 ^ 64 }
    ensures { result ≡ go_on before (starts_each start (map P.spell phrases.now)) }
{
    match before {
        Walk::Found(token) => Walk::Found(token),
        Walk::Left(left) => walk_each(phrases.as_slice(), left, start),
    }
}

/// What a walk comes to that goes on with one phrase.
fn then_one(before: Walk, start: usize) -> Walk
    ensures { result ≡ go_on before (start ∷ []) }
{
    match before {
        Walk::Found(token) => Walk::Found(token),
        Walk::Left(0) => Walk::Found(start),
        Walk::Left(left) => Walk::Left(left - 1),
    }
}

/// The token at which the invariants begin, or what stands in their place.
#[tactic(auto, using(crate::proofs::Counts::counts))]
pub(crate) fn invariants_start(program: &Program) -> usize
    requires { invariants_at program.now < 2 ^ 64 }
    ensures { result ≡ invariants_at program.now }
{
    count_each(program.globals.as_slice()) + init_count(&program.init) + 9
}

/// The token at which the actions begin, or what stands in their place.
#[tactic(auto, using(crate::proofs::Counts::counts))]
pub(crate) fn actions_start(program: &Program) -> usize
    requires { actions_at program.now < 2 ^ 64 }
    ensures { result ≡ actions_at program.now }
{
    invariants_start(program) + count_each(program.invariants.as_slice())
}

/// The token at which the procedures begin, or what stands in their place.
#[tactic(auto, using(crate::proofs::Counts::counts))]
pub(crate) fn procs_start(program: &Program) -> usize
    requires { procs_at program.now < 2 ^ 64 }
    ensures { result ≡ procs_at program.now }
{
    actions_start(program) + count_each(program.actions.as_slice())
}

/// The token at which the threads begin, or what stands in their place.
#[tactic(auto, using(crate::proofs::Counts::counts))]
pub(crate) fn threads_start(program: &Program) -> usize
    requires { threads_at program.now < 2 ^ 64 }
    ensures { result ≡ threads_at program.now }
{
    procs_start(program) + count_each(program.procs.as_slice())
}

/// A walk over the globals, `init` and the invariants.
#[tactic(auto, using(crate::proofs::Counts::counts))]
fn walk_first(program: &Program, item: usize) -> Walk
    requires { actions_at program.now < 2 ^ 64 }
    ensures { result ≡ walked_first program.now item }
{
    let globals = walk_each(program.globals.as_slice(), item, 9);
    let init = then_one(globals, count_each(program.globals.as_slice()) + 9);
    then_each(init, &program.invariants, invariants_start(program))
}

/// A walk over all items.
#[tactic(auto, using(crate::proofs::Counts::counts))]
fn walk_items(program: &Program, item: usize) -> Walk
    requires { program_end program.now < 2 ^ 64 }
    ensures { result ≡ walked_items program.now item }
{
    let first = walk_first(program, item);
    let actions = then_each(first, &program.actions, actions_start(program));
    let procs = then_each(actions, &program.procs, procs_start(program));
    then_each(procs, &program.threads, threads_start(program))
}

/// How many tokens the spelling of a program has. No spelling is made, and nothing is allocated.
#[tactic(auto, using(crate::proofs::Counts::counts))]
pub fn program_count(program: &Program) -> usize
    requires { length (spell_program program.now) < 2 ^ 64 }
    ensures { result ≡ length (spell_program program.now) }
{
    threads_start(program) + count_each(program.threads.as_slice())
}

/// The token, counted from 0, at which the item with this number begins, in the spelling of the program; `None` exactly
/// where there is no such item.
pub fn item_token(program: &Program, item: usize) -> Option<usize>
    requires { length (spell_program program.now) < 2 ^ 64 }
    ensures start { SomeIff result (item < item_count program.now) (item_start program.now item) }
    ensures within { IfSome result (λ token. token < length (spell_program program.now)) }
{
    match walk_items(program, item) {
        Walk::Found(token) => Some(token),
        Walk::Left(_) => None,
    }
}
