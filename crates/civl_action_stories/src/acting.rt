// Actions with their values, and the tokens at which their items begin.
ghost use Rattle.std.specs.Prelude.{◌≡◌, ◌<◌, ◌^◌, length, option_map};
ghost use Rattle.civl_tree.specs.SpellingProgram.{spell_program};
ghost use Rattle.civl_tree.specs.Numbering.{action_item};
ghost use Rattle.civl_places.specs.Starts.{item_start};
ghost use Rattle.civl_action_stories.specs.Actors.{actor_of};
ghost use Rattle.civl_action_stories.specs.inner.Acting.{meant};

use civl_bits::Value;
use civl_clashes::Instance;
use civl_places::item_token;
use civl_tree::{Action, Program};

/// An action with its values, its number among the actions, and the token at which its item begins.
#[derive(Clone, Copy)]
pub(crate) struct Acting<'a> {
    pub number: u32,
    pub token: usize,
    pub action: &'a Action,
    pub inputs: &'a [Value],
    pub chosen: &'a [Value],
}

/// The token at which an action's item begins.
fn action_token(program: &Program, number: u32) -> usize
    requires short { length (spell_program program.now) < 2 ^ 64 }
    requires there { number < length program.now.actions }
    ensures { result ≡ item_start program.now (action_item program.now number) }
{
    let before = program.globals.len() + 1 + program.invariants.len();
    match item_token(program, before + number as usize) {
        Some(token) => token,
        None => unreachable!(),
    }
}

/// The action of an instance, if the program has it.
pub(crate) fn actor_of<'a>(program: &'a Program, instance: &'a Instance) -> Option<Acting<'a>>
    requires { length (spell_program program.now) < 2 ^ 64 }
    ensures { option_map meant result ≡ actor_of program.now instance.now }
{
    match program.actions.as_slice().get(instance.action as usize) {
        Some(action) => Some(Acting {
            number: instance.action,
            token: action_token(program, instance.action),
            action,
            inputs: instance.inputs.as_slice(),
            chosen: instance.chosen.as_slice(),
        }),
        None => None,
    }
}
