// Where a path begins, and what is around it.
ghost use Rattle.std.specs.Prelude.{◌≡◌, ◌++◌, ◌∷◌, [], map, IfOk, OnOk};
ghost use Rattle.civl_path_stories.specs.Paths.{around_line, around_lines, begin_line, branch_text};
ghost use Rattle.civl_path_stories.specs.inner.Routes.{told, Fits};

use crate::around::{Around, Branch, around_statement};
use crate::ends::text_of;
use crate::route::Route;
use crate::tokens::{proc_token, token};
use civl_conditions::paths::is_entry;
use civl_lines::{Kind, Line, Shown};
use civl_tree::Memory;
use std::alloc::Global;

/// The line of the beginning.
fn begin_line(alloc: Global, route: &Route<'_>) -> Result<Line, Memory>
    requires { Fits route.now }
    ensures { IfOk result (λ line. line ≡ begin_line (told route.now)) }
{
    let text = text_of(alloc, b"begins here")?;
    if is_entry(route.cut.kind) {
        return Ok(Line {
            token: proc_token(route),
            shown: Shown::Tokens(2),
            kind: Kind::Info,
            text,
        });
    }
    Ok(Line {
        token: token(route, route.cut.statement as usize),
        shown: Shown::Head,
        kind: Kind::Info,
        text,
    })
}

/// Puts it behind the others.
pub(crate) fn push_begin(
    alloc: Global,
    lines: &mut Vec<Line>,
    route: &Route<'_>,
) -> Result<(), Memory>
    requires { Fits route.now }
    ensures { OnOk result (lines.new.items ≡ lines.old.items ++ begin_line (told route.now) ∷ []) }
{
    let line = begin_line(alloc, route)?;
    lines.push(line)?;
    Ok(())
}

/// How a cut stands in a statement around it.
fn branch_text(branch: Branch) -> &'static [u8]
    ensures { result.now ≡ branch_text branch }
{
    match branch {
        Branch::Body => b"around it, in its body",
        Branch::First => b"around it, where it is true",
        Branch::Second => b"around it, where it is false",
    }
}

/// The line of a statement around the cut.
fn around_line(alloc: Global, route: &Route<'_>, around: &Around) -> Result<Line, Memory>
    requires { Fits route.now }
    ensures { IfOk result (λ line. line ≡ around_line (told route.now) around.now) }
{
    let text = text_of(alloc, branch_text(around.branch))?;
    Ok(Line {
        token: token(route, around.statement),
        shown: Shown::Head,
        kind: Kind::Info,
        text,
    })
}

/// Puts it behind the others.
fn push_around_one(
    alloc: Global,
    lines: &mut Vec<Line>,
    route: &Route<'_>,
    around: &Around,
) -> Result<(), Memory>
    requires { Fits route.now }
    ensures { OnOk result (lines.new.items ≡ lines.old.items ++ around_line (told route.now) around.now ∷ []) }
{
    let line = around_line(alloc, route, around)?;
    lines.push(line)?;
    Ok(())
}

/// Puts the lines of these statements behind the others.
fn push_around_each(
    alloc: Global,
    lines: &mut Vec<Line>,
    route: &Route<'_>,
    found: &[Around],
) -> Result<(), Memory>
    requires { Fits route.now }
    ensures { OnOk result (lines.new.items ≡ lines.old.items ++ map (around_line (told route.now)) found.now) }
{
    for around in found {
        push_around_one(alloc, lines, route, around)?;
    }
    Ok(())
}

/// Puts the lines of the statements around the cut behind the others.
pub(crate) fn push_around(
    alloc: Global,
    lines: &mut Vec<Line>,
    route: &Route<'_>,
) -> Result<(), Memory>
    requires { Fits route.now }
    ensures { OnOk result (lines.new.items ≡ lines.old.items ++ around_lines (told route.now)) }
{
    let found = around_statement(alloc, &route.proc.body, route.cut.statement as usize)?;
    push_around_each(alloc, lines, route, found.as_slice())
}
