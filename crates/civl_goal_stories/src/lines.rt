// Lines, and the tokens at which they point.
ghost use Rattle.std.specs.Prelude.{◌≡◌, ◌++◌, ◌∷◌, [], ◌<◌, ◌^◌, length, IfOk, OnOk};
ghost use Rattle.civl_tree.specs.SpellingProgram.{spell_program};
ghost use Rattle.civl_path_stories.specs.Paths.{error, info};
ghost use Rattle.civl_goal_stories.specs.Frames.{token};

use civl_lines::{Kind, Line, Shown};
use civl_places::statement_token;
use civl_tree::{List, Memory, Program};
use std::alloc::Global;

/// A line that tells what happens.
pub(crate) fn info(at: usize, shown: Shown, text: Vec<u8>) -> Line
    ensures { result ≡ info at shown text.items }
{
    Line {
        token: at,
        shown,
        kind: Kind::Info,
        text: List::from_vec(text),
    }
}

/// Puts a line that tells what happens behind the others.
pub(crate) fn push_info(
    alloc: Global,
    lines: &mut Vec<Line>,
    at: usize,
    shown: Shown,
    text: &[u8],
) -> Result<(), Memory>
    ensures { OnOk result (lines.new.items ≡ lines.old.items ++ info at shown text.now ∷ []) }
{
    let text = Vec::from_slice(alloc, text)?;
    lines.push(info(at, shown, text))?;
    Ok(())
}

/// Puts the line that tells what is lost behind the others.
pub(crate) fn push_error(
    alloc: Global,
    lines: &mut Vec<Line>,
    at: usize,
    shown: Shown,
    text: &[u8],
) -> Result<(), Memory>
    ensures { OnOk result (lines.new.items ≡ lines.old.items ++ error at shown text.now ∷ []) }
{
    let text = Vec::from_slice(alloc, text)?;
    lines.push(Line {
        token: at,
        shown,
        kind: Kind::Error,
        text: List::from_vec(text),
    })?;
    Ok(())
}

/// The token of a statement of the procedure with this number, or of its exit.
pub(crate) fn token(program: &Program, number: usize, statement: usize) -> usize
    requires { length (spell_program program.now) < 2 ^ 64 }
    ensures { result ≡ token program.now number statement }
{
    match statement_token(program, number, statement) {
        Some(at) => at,
        None => 0,
    }
}
