// Where something is lost.
ghost use Rattle.std.specs.Prelude.{◌≡◌, ◌++◌, ◌∷◌, [], IfOk, OnOk, codes};
ghost use Rattle.civl_path_stories.specs.Paths.{lost_at, lost_at_exit, lost_at_end};
ghost use Rattle.civl_path_stories.specs.inner.Routes.{told, Fits};

use crate::route::Route;
use crate::tokens::token;
use civl_lines::{Kind, Line, Shown};
use civl_meaning::sizes::sizes;
use civl_traces::Ending;
use civl_tree::{List, Memory};
use civl_verdicts::reports::put;
use std::alloc::Global;

/// A text of its own.
pub(crate) fn text_of(alloc: Global, bytes: &[u8]) -> Result<List<u8>, Memory>
    ensures { IfOk result (λ text. text ≡ bytes.now) }
{
    let text = Vec::from_slice(alloc, bytes)?;
    Ok(List::from_vec(text))
}

/// Puts the line of a loss at this statement behind the others.
pub(crate) fn push_lost(
    alloc: Global,
    lines: &mut Vec<Line>,
    route: &Route<'_>,
    statement: usize,
    text: &[u8],
) -> Result<(), Memory>
    requires { Fits route.now }
    ensures { OnOk result (lines.new.items ≡ lines.old.items ++ lost_at (told route.now) statement text.now ∷ []) }
{
    let text = text_of(alloc, text)?;
    lines.push(Line {
        token: token(route, statement),
        shown: Shown::Head,
        kind: Kind::Error,
        text,
    })?;
    Ok(())
}

/// Puts the line of a loss at the exit behind the others.
pub(crate) fn push_lost_at_exit(
    alloc: Global,
    lines: &mut Vec<Line>,
    route: &Route<'_>,
    text: &[u8],
) -> Result<(), Memory>
    requires { Fits route.now }
    ensures { OnOk result (lines.new.items ≡ lines.old.items ++ lost_at_exit (told route.now) text.now ∷ []) }
{
    let text = text_of(alloc, text)?;
    lines.push(Line {
        token: token(route, sizes(&route.proc.body)),
        shown: Shown::Nothing,
        kind: Kind::Error,
        text,
    })?;
    Ok(())
}

/// The text of a loss at the exit where a path ends.
fn exit_text(alloc: Global, text: &[u8]) -> Result<Vec<u8>, Memory>
    ensures { IfOk result (λ all. all.items ≡ codes "the exit: " ++ text.now) }
{
    let mut all = Vec::from_slice(alloc, b"the exit: ")?;
    put(&mut all, text)?;
    Ok(all)
}

/// Puts the line of a loss where the path ends past all statements behind the others.
fn push_past(
    alloc: Global,
    lines: &mut Vec<Line>,
    route: &Route<'_>,
    text: &[u8],
) -> Result<(), Memory>
    requires { Fits route.now }
    ensures { OnOk result (lines.new.items ≡ lines.old.items ++ lost_at_exit (told route.now) (codes "the exit: " ++ text.now) ∷ []) }
{
    let text = exit_text(alloc, text)?;
    push_lost_at_exit(alloc, lines, route, text.as_slice())
}

/// Puts the line of a loss where the path ends behind the others.
pub(crate) fn push_lost_at_end(
    alloc: Global,
    lines: &mut Vec<Line>,
    route: &Route<'_>,
    text: &[u8],
) -> Result<(), Memory>
    requires { Fits route.now }
    ensures { OnOk result (lines.new.items ≡ lines.old.items ++ lost_at_end (told route.now) text.now ∷ []) }
{
    let at = route.path.walked.at;
    match route.path.walked.ending {
        Ending::Past => push_past(alloc, lines, route, text),
        Ending::Comes => push_lost(alloc, lines, route, at, text),
        Ending::Fails => push_lost(alloc, lines, route, at, text),
        Ending::Stops => push_lost(alloc, lines, route, at, text),
    }
}
