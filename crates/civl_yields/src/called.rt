// The actions that calls mean.
ghost use Rattle.std.specs.Prelude.{◌≡◌, option_copied};
ghost use Rattle.civl_yields.specs.Movers.{called_action, proc_action};

use civl_tree::{Action, Name, Proc, Program};
use civl_types::names::{action_named, proc_named};

/// The action that a procedure stands for in the programs above its layer.
fn proc_action<'a>(program: &'a Program, proc: Option<&'a Proc>) -> Option<&'a Action>
    ensures { option_copied result ≡ proc_action program.now (option_copied proc.entry) }
{
    match proc {
        Some(proc) => match &proc.refines {
            Some(refines) => action_named(program, &refines.action),
            None => None,
        },
        None => None,
    }
}

/// The action that a call of this name in a layered procedure means, just below the procedure's layer.
pub fn called_action<'a>(program: &'a Program, name: &Name) -> Option<&'a Action>
    ensures { option_copied result ≡ called_action program.now name.now }
{
    match action_named(program, name) {
        Some(action) => Some(action),
        None => proc_action(program, proc_named(program, name)),
    }
}
