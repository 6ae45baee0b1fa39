// What a name that is called means.
ghost use Rattle.std.specs.Prelude.{◌≡◌};
ghost use Rattle.civl_meaning.specs.Meaning.{meaning_of, called, refined};
ghost use Rattle.civl_meaning.specs.inner.Callees.{meaning};

use crate::config::Plain;
use civl_firing::names::{action, proc};
use civl_tree::{Action, Name, Proc, Program};

/// What a call means: an action, or the body of the procedure with this number; or nothing.
#[derive(Clone, Copy)]
pub enum Callee<'a> {
    Does(&'a Action),
    Runs(usize, &'a Proc),
    Missing,
}

/// The action that a procedure refines.
fn refinement<'a>(program: &'a Program, proc: &'a Proc) -> Callee<'a>
    ensures { meaning result ≡ refined program.now proc.now.refines }
{
    match &proc.refines {
        None => Callee::Missing,
        Some(refines) => {
            let actions = program.actions.as_slice();
            let at = action(actions, &refines.action);
            if at < actions.len() {
                Callee::Does(&actions[at])
            } else {
                Callee::Missing
            }
        }
    }
}

/// What a call of the procedure with this number means.
pub fn of_proc(plain: &Plain, number: usize) -> Callee<'_>
    ensures { meaning result ≡ meaning_of plain.now number }
{
    let procs = plain.program.procs.as_slice();
    let bodies = plain.bodies.as_slice();
    if number >= procs.len() {
        return Callee::Missing;
    }
    if number >= bodies.len() {
        return Callee::Missing;
    }
    let proc = &procs[number];
    if bodies[number] {
        return Callee::Runs(number, proc);
    }
    refinement(&plain.program, proc)
}

/// What a call of this name means.
pub fn of_name<'a>(plain: &'a Plain, name: &Name) -> Callee<'a>
    ensures { meaning result ≡ called plain.now name.now }
{
    let actions = plain.program.actions.as_slice();
    let at = action(actions, name);
    if at < actions.len() {
        return Callee::Does(&actions[at]);
    }
    of_proc(plain, proc(plain.program.procs.as_slice(), name))
}
