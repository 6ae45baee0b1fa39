// Files of cases: a head, and behind each blank line a row (`Case`). A line is written on each file: how many rows it has, which all
// hold, or the first that doesn't and what was given there, or the first that can't be read, which ends the run.
//
// What a case says, by names in the head or parts of the row: `program`, where it is `civl_lift` or `civl_explain`, and `words`; the
// text, of which `base` is a file that comes first, `edits` are made in it, and `text` stands behind it, or `lines` with their ends
// (`texts`); the number of a `read` or `write` that fails, and the sink's `room`, where `sink` says `plain` of a sink that has nothing
// else; the `provers`. What is wanted is a `report`, byte for byte, or one that `begins` so, `has` this in it, or has this `line`; a
// `status` other than the report's own; how many first `bytes` of the report were written, and how many provers are `left` (`wanted`).
// Where the head says `signs: yes`, signs in the text stand for line feeds, tabs, carriage returns and blanks (`texts`); where it says
// `indented: yes`, two blanks stand before the report, as before each line of a story. Where there is `next`, each of the 256 bytes is
// put behind the text, and the first fault is that byte but where it is one of these, or they are `any`. Where there are `from` and
// `to`, the words are asked on each front of the text of so many bytes. Where there is `then`, these words are asked on the report of
// the first ones, or, beside a `store` and `threads`, on the moves that this report lifted (`lifted`).

use crate::asking::{Given, NOTHING, asked, report_of};
use crate::case::{Case, number_at, text_at, value};
use crate::faults::fault;
use crate::lifted::unlifted;
use crate::texts::{plain, text_of};
use crate::wanted::{is_begun, is_wanted};
use std::alloc::{AllocError, Global};
use std::{fs, io};

/// What is given to the case's words on a text, where it isn't wanted.
fn unwanted(alloc: Global, case: Case<'_>, text: &[u8]) -> Result<Option<Given>, AllocError> {
    let given = asked(alloc, case, text_at(case, "words"), text)?;
    Ok(if is_wanted(case, &given) {
        None
    } else {
        Some(given)
    })
}

/// What is given to some front of a text, from `from` to `to` bytes long, where it isn't wanted.
fn unwanted_front(
    alloc: Global,
    case: Case<'_>,
    text: &[u8],
    from: usize,
) -> Result<Option<Given>, AllocError> {
    let to = number_at(case, "to").unwrap_or(from);
    for end in from..to.saturating_add(1) {
        let given = unwanted(alloc, case, &text[..end.min(text.len())])?;
        if given.is_some() {
            return Ok(given);
        }
    }
    Ok(None)
}

/// Whether a report says that a certificate has its first fault at this byte.
fn is_fault_at(alloc: Global, report: &str, place: usize) -> Result<bool, AllocError> {
    let fault = format!(in alloc; "refused E82 at byte {place}\n")?;
    Ok(report == fault.as_str())
}

/// Whether the report is right on a text that ends behind `place` with a byte that may stand there, or may not: there it has its first
/// fault, or else no fault before its end.
fn is_right_at(
    alloc: Global,
    report: &str,
    place: usize,
    may_stand: bool,
) -> Result<bool, AllocError> {
    if may_stand {
        return Ok(
            !report.starts_with("refused") || is_fault_at(alloc, report, place.saturating_add(1))?,
        );
    }
    is_fault_at(alloc, report, place)
}

/// What is given where some byte behind a text isn't read as is wanted.
fn unwanted_next(
    alloc: Global,
    case: Case<'_>,
    front: &str,
    next: &str,
) -> Result<Option<Given>, AllocError> {
    for byte in 0..=255_u8 {
        let mut text = front.as_bytes().to_vec(alloc)?;
        text.push(byte)?;
        let given = asked(alloc, case, text_at(case, "words"), text.as_slice())?;
        let may_stand = next == "any" || next.as_bytes().contains(&byte);
        if !is_right_at(alloc, report_of(&given), front.len(), may_stand)? {
            return Ok(Some(given));
        }
    }
    Ok(None)
}

/// What is given where the report on a text doesn't begin as is said, or where the second command gives what isn't wanted to this report.
fn unwanted_then(alloc: Global, case: Case<'_>, text: &[u8]) -> Result<Option<Given>, AllocError> {
    let first = asked(alloc, case, text_at(case, "words"), text)?;
    if first.code != 0 || !is_begun(case, report_of(&first)) {
        return Ok(Some(first));
    }
    let second = asked(
        alloc,
        NOTHING,
        text_at(case, "then"),
        first.report.as_slice(),
    )?;
    Ok(if is_wanted(case, &second) {
        None
    } else {
        Some(second)
    })
}

/// What is given where the case doesn't hold.
fn failure(alloc: Global, case: Case<'_>, text: &str) -> Result<Option<Given>, AllocError> {
    if let Some(from) = number_at(case, "from") {
        return unwanted_front(alloc, case, text.as_bytes(), from);
    }
    if value(case, "next").is_some() {
        let next = plain(alloc, case, "next")?;
        return unwanted_next(alloc, case, text, next.as_str());
    }
    if value(case, "threads").is_some() {
        return unlifted(alloc, case, text);
    }
    if value(case, "then").is_some() {
        return unwanted_then(alloc, case, text.as_bytes());
    }
    unwanted(alloc, case, text.as_bytes())
}

/// What came of a case: it holds; or this was given, which isn't wanted; or this of it can't be read.
#[derive(Drop)]
enum Outcome {
    Holds,
    Unwanted(Given),
    Unread(&'static str),
}

/// What comes of a case whose text is to be read.
fn came_of(rt: &HostRuntime, case: Case<'_>) -> io::Result<Outcome> {
    if let Some(what) = fault(case) {
        return Ok(Outcome::Unread(what));
    }
    let Some(text) = text_of(rt, case)? else {
        return Ok(Outcome::Unread("an edit"));
    };
    Ok(match failure(rt.alloc(), case, text.as_str())? {
        Some(given) => Outcome::Unwanted(given),
        None => Outcome::Holds,
    })
}

/// The first lines of a report behind a name, in one line.
pub(crate) fn line(
    alloc: Global,
    name: &str,
    report: &str,
    lines: usize,
) -> Result<String, AllocError> {
    let mut line = String::from_str(alloc, name)?;
    let mut count: usize = 0;
    for one in report.trim().split("\n") {
        if count < lines {
            line.push_str(if count == 0 { ": " } else { ", " })?;
            line.push_str(one)?;
            count += 1;
        }
    }
    line.push_str("\n")?;
    Ok(line)
}

/// How many lines a text takes.
fn lines_of(text: &str) -> usize {
    text.split("\n").count()
}

/// The line of a file in which the row with this number begins, counted from 1.
fn line_of_row(head: &str, rows: &str, number: usize) -> usize {
    let mut line = lines_of(head).saturating_add(2);
    let mut count: usize = 1;
    for row in rows.split("\n\n") {
        if count < number {
            line = line.saturating_add(lines_of(row)).saturating_add(1);
        }
        count = count.saturating_add(1);
    }
    line
}

/// A line that is written on a file of cases, and whether each row before it could be read.
#[derive(Drop)]
pub(crate) struct Told {
    pub(crate) line: String,
    pub(crate) is_read: bool,
}

/// What is told of a file whose rows hold, or of the first that doesn't.
fn told_by(line: io::Result<String>) -> io::Result<Told> {
    Ok(Told {
        line: line?,
        is_read: true,
    })
}

/// What is told of the rows of a file.
fn told_of_rows(rt: &HostRuntime, name: &str, head: &str, rows: &str) -> io::Result<Told> {
    let mut count: usize = 0;
    for row in rows.split("\n\n") {
        count = count.saturating_add(1);
        match came_of(rt, Case { head, row })? {
            Outcome::Holds => {}
            Outcome::Unwanted(given) => return told_by(wrong_line(rt.alloc(), name, count, &given)),
            Outcome::Unread(what) => {
                let at = line_of_row(head, rows, count);
                return told_of_unread(rt.alloc(), name, at, what);
            }
        }
    }
    let line = format!(in rt.alloc(); "{name}: {count} rows hold\n")?;
    told_by(Ok(line))
}

/// The line on a row that doesn't hold.
fn wrong_line(alloc: Global, name: &str, count: usize, given: &Given) -> io::Result<String> {
    let code = given.code;
    let name = format!(in alloc; "{name}: row {count} is given {code}")?;
    Ok(line(alloc, name.as_str(), report_of(given), usize::MAX)?)
}

/// What is told of a row that can't be read, by the line of the file in which it begins.
fn told_of_unread(alloc: Global, name: &str, at: usize, what: &str) -> io::Result<Told> {
    let line = format!(in alloc; "{name}.cases: the row in line {at} can't be read: {what}\n")?;
    Ok(Told {
        line,
        is_read: false,
    })
}

/// What is told of a file of cases.
pub(crate) fn told_of(rt: &HostRuntime, name: &str) -> io::Result<Told> {
    let path = format!(in rt.alloc(); "cases/{name}.cases")?;
    let file = fs::read_to_string(rt, path.as_str())?;
    let (head, rows) = file.as_str().split_once("\n\n").unwrap_or(("", ""));
    told_of_rows(rt, name, head, rows)
}
