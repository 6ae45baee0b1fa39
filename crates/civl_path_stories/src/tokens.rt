// The tokens to which lines point.
ghost use Rattle.std.specs.Prelude.{◌≡◌};
ghost use Rattle.civl_tree.specs.Numbering.{proc_item};
ghost use Rattle.civl_places.specs.Starts.{item_start};
ghost use Rattle.civl_path_stories.specs.Paths.{token};
ghost use Rattle.civl_path_stories.specs.inner.Routes.{told, Fits};

use crate::route::Route;
use civl_places::{item_token, statement_token};

/// The token of a statement of the procedure, or of its exit.
pub(crate) fn token(route: &Route<'_>, statement: usize) -> usize
    requires { Fits route.now }
    ensures { result ≡ token (told route.now) statement }
{
    match statement_token(route.program, route.number as usize, statement) {
        Some(at) => at,
        None => 0,
    }
}

/// The token of the procedure.
pub(crate) fn proc_token(route: &Route<'_>) -> usize
    requires { Fits route.now }
    ensures { result ≡ item_start route.now.program.now (proc_item route.now.program.now route.now.number) }
{
    let program = route.program;
    let before = program.globals.len() + 1 + program.invariants.len() + program.actions.len();
    match item_token(program, before + route.number as usize) {
        Some(at) => at,
        None => 0,
    }
}
