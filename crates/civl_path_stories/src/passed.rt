// What a path passes.
ghost use Rattle.std.specs.Prelude.{◌≡◌, ◌++◌, ◌∷◌, [], IfOk, OnOk};
ghost use Rattle.civl_firing.specs.Names.{names_of};
ghost use Rattle.civl_verdicts.specs.models.Text.{bool_text};
ghost use Rattle.civl_path_stories.specs.Paths.{before_statement, passage_line, passage_lines, passage_text, told_passages};
ghost use Rattle.civl_path_stories.specs.inner.Routes.{told, Fits};

use crate::changes::put_changes;
use crate::naming::noted;
use crate::route::Route;
use crate::tokens::token;
use civl_firing::names::Names;
use civl_lines::{Kind, Line, Shown};
use civl_losses::Loss;
use civl_traces::Passage;
use civl_tree::{List, Memory};
use civl_verdicts::reports::put;
use std::alloc::Global;

/// The word of a truth.
fn bool_text(truth: bool) -> &'static [u8]
    ensures { result.now ≡ bool_text truth }
{
    if truth { b"true" } else { b"false" }
}

/// Puts behind what is there whether a statement's condition was true, where it has one, or what it changes.
fn put_passage(out: &mut Vec<u8>, names: &Names<'_>, passage: &Passage) -> Result<(), Memory>
    ensures { OnOk result (out.new.items ≡ out.old.items ++ passage_text (names_of names.now) passage.now) }
{
    match passage.took {
        Some(truth) => put(out, bool_text(truth)),
        None => put_changes(out, names, passage.changed.as_slice()),
    }
}

/// What is said of a statement.
fn passage_text(alloc: Global, names: &Names<'_>, passage: &Passage) -> Result<List<u8>, Memory>
    ensures { IfOk result (λ text. text ≡ passage_text (names_of names.now) passage.now) }
{
    let mut text = Vec::new(alloc);
    put_passage(&mut text, names, passage)?;
    Ok(List::from_vec(text))
}

/// The line of a statement.
fn passage_line(alloc: Global, route: &Route<'_>, passage: &Passage) -> Result<Line, Memory>
    requires { Fits route.now }
    ensures { IfOk result (λ line. line ≡ passage_line (told route.now) passage.now) }
{
    let names = noted(route.program.globals.as_slice(), route.proc);
    let text = passage_text(alloc, &names, passage)?;
    Ok(Line {
        token: token(route, passage.statement),
        shown: Shown::Head,
        kind: Kind::Info,
        text,
    })
}

/// Puts it behind the others.
fn push_passage(
    alloc: Global,
    lines: &mut Vec<Line>,
    route: &Route<'_>,
    passage: &Passage,
) -> Result<(), Memory>
    requires { Fits route.now }
    ensures { OnOk result (lines.new.items ≡ lines.old.items ++ passage_line (told route.now) passage.now ∷ []) }
{
    let line = passage_line(alloc, route, passage)?;
    lines.push(line)?;
    Ok(())
}

/// Puts the lines of these statements behind the others.
fn push_passages(
    alloc: Global,
    lines: &mut Vec<Line>,
    route: &Route<'_>,
    passed: &[Passage],
) -> Result<(), Memory>
    requires { Fits route.now }
    ensures { OnOk result (lines.new.items ≡ lines.old.items ++ passage_lines (told route.now) passed.now) }
{
    for passage in passed {
        push_passage(alloc, lines, route, passage)?;
    }
    Ok(())
}

/// Puts the lines of those of these statements that are passed before the first passage of this one behind the others.
#[tactic(auto, using(crate::proofs::Passing::passing))]
fn push_before(
    alloc: Global,
    lines: &mut Vec<Line>,
    route: &Route<'_>,
    passed: &[Passage],
    statement: usize,
) -> Result<(), Memory>
    requires { Fits route.now }
    ensures { OnOk result (lines.new.items ≡ lines.old.items
        ++ passage_lines (told route.now) (before_statement statement passed.now)) }
{
    for passage in passed {
        if passage.statement == statement {
            return Ok(());
        }
        push_passage(alloc, lines, route, passage)?;
    }
    Ok(())
}

/// Puts the lines of what the path passes behind the others: all of it, but of a second commit only what stands before it.
pub(crate) fn push_passed(
    alloc: Global,
    lines: &mut Vec<Line>,
    route: &Route<'_>,
    passed: &[Passage],
    loss: &Loss,
) -> Result<(), Memory>
    requires { Fits route.now }
    ensures { OnOk result (lines.new.items ≡ lines.old.items
        ++ passage_lines (told route.now) (told_passages loss.now passed.now)) }
{
    match loss {
        Loss::CommitAgain(statement) => push_before(alloc, lines, route, passed, *statement),
        Loss::FalseGate(_, _) => push_passages(alloc, lines, route, passed),
        Loss::FalseAssert => push_passages(alloc, lines, route, passed),
        Loss::FalseNote(_) => push_passages(alloc, lines, route, passed),
        Loss::NoCommit => push_passages(alloc, lines, route, passed),
        Loss::Changes(_, _) => push_passages(alloc, lines, route, passed),
        Loss::ActionWaits(_) => push_passages(alloc, lines, route, passed),
        Loss::ActionGives(_, _) => push_passages(alloc, lines, route, passed),
        Loss::RankStays(_, _) => push_passages(alloc, lines, route, passed),
        Loss::TargetLost => push_passages(alloc, lines, route, passed),
    }
}
