// The action that a call means.
ghost use Rattle.std.specs.Prelude.{◌≡◌, option_copied};
ghost use Rattle.civl_meaning.specs.Meaning.{called, meaning_of, refined};
ghost use Rattle.civl_conditions.specs.paths.Choices.{action_meant};

use civl_firing::names::{action, proc};
use civl_meaning::Plain;
use civl_tree::{Action, Name, Proc, Program};

/// The action that a procedure refines.
fn refinement<'a>(program: &'a Program, proc: &'a Proc) -> Option<&'a Action>
    ensures { option_copied result ≡ action_meant (refined program.now proc.now.refines) }
{
    match &proc.refines {
        None => None,
        Some(refines) => {
            let actions = program.actions.as_slice();
            let at = action(actions, &refines.action);
            if at < actions.len() {
                Some(&actions[at])
            } else {
                None
            }
        }
    }
}

/// The action that a call of the procedure with this number means.
fn of_proc(plain: &Plain, number: usize) -> Option<&Action>
    ensures { option_copied result ≡ action_meant (meaning_of plain.now number) }
{
    let procs = plain.program.procs.as_slice();
    let bodies = plain.bodies.as_slice();
    if number >= procs.len() {
        return None;
    }
    if number >= bodies.len() {
        return None;
    }
    if bodies[number] {
        return None;
    }
    refinement(&plain.program, &procs[number])
}

/// The action that a call of this name means in a plain program, where it means one.
pub fn action_called<'a>(plain: &'a Plain, name: &Name) -> Option<&'a Action>
    ensures { option_copied result ≡ action_meant (called plain.now name.now) }
{
    let actions = plain.program.actions.as_slice();
    let at = action(actions, name);
    if at < actions.len() {
        return Some(&actions[at]);
    }
    of_proc(plain, proc(plain.program.procs.as_slice(), name))
}
