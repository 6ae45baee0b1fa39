// Schedules that are lifted: the moves of the report, behind the program and its store, are a script for a second command, which has to
// make all of them and to end with the same thread failing.

use crate::asking::{Given, NOTHING, asked, report_of};
use crate::case::{Case, text_at};
use crate::wanted::is_wanted;
use std::alloc::{AllocError, Global};

/// A script: a program, the case's store and moves.
fn script(alloc: Global, case: Case<'_>, program: &str, moves: &str) -> Result<String, AllocError> {
    let store = text_at(case, "store");
    format!(in alloc; "{program}schedule {store}{moves}")
}

/// The moves of these threads, without choices.
fn moves_of(alloc: Global, threads: &str) -> Result<String, AllocError> {
    let mut text = String::new(alloc);
    for thread in threads.split_ascii_whitespace() {
        text.push_str("move ")?;
        text.push_str(thread)?;
        text.push_str("();")?;
    }
    Ok(text)
}

/// What is given to the moves of the case's threads.
fn given_to_moves(alloc: Global, case: Case<'_>, program: &str) -> Result<Given, AllocError> {
    let moves = moves_of(alloc, text_at(case, "threads"))?;
    let text = script(alloc, case, program, moves.as_str())?;
    asked(alloc, case, text_at(case, "words"), text.as_bytes())
}

/// The number, the moves and the thread of a report of lifted moves.
fn parts(report: &str) -> Option<(&str, &str, &str)> {
    let (first, rest) = report.split_once("\n")?;
    let number = first.strip_prefix("lifted ")?;
    let (moves, thread) = rest.split_once("failing ")?;
    Some((number, moves, thread))
}

/// Whether the lifted moves are no more than those of the case.
fn is_short(case: Case<'_>, moves: &str) -> bool {
    moves.split(";").count().saturating_sub(1)
        <= text_at(case, "threads").split_ascii_whitespace().count()
}

/// What is given to these moves by the second command, where it doesn't begin with so many moves and the thread.
fn unlike(
    alloc: Global,
    case: Case<'_>,
    program: &str,
    lifted: (&str, &str, &str),
) -> Result<Option<Given>, AllocError> {
    let (number, moves, thread) = lifted;
    let text = script(alloc, case, program, moves)?;
    let given = asked(alloc, NOTHING, text_at(case, "then"), text.as_bytes())?;
    let front = format!(in alloc; "moved {number}\nfailing {thread}")?;
    let is_same = given.code == 0 && report_of(&given).starts_with(front.as_str());
    Ok(if is_same { None } else { Some(given) })
}

/// What is given where the moves of the case's threads aren't lifted, to at most as many, or these aren't replayed.
pub(crate) fn unlifted(
    alloc: Global,
    case: Case<'_>,
    program: &str,
) -> Result<Option<Given>, AllocError> {
    let given = given_to_moves(alloc, case, program)?;
    match parts(report_of(&given)) {
        Some(lifted) => {
            if is_wanted(case, &given) && is_short(case, lifted.1) {
                unlike(alloc, case, program, lifted)
            } else {
                Ok(Some(given))
            }
        }
        None => Ok(Some(given)),
    }
}
