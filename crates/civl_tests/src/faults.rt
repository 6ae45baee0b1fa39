// What can't be read in a case: a row with such a fault shows nothing, whatever is answered to it.

use crate::case::{Case, names_of_parts, text_at, value};

/// The names to which a case gives values.
const NAMES: &str =
    "program words base edits text lines signs indented read write room sink provers report begins has line status bytes left \
                     next from to then store threads row";

/// Those of them whose values are numbers.
const NUMBERS: &str = "read write room status bytes left from to";

/// Those of them that say what is wanted.
const WANTED: &str = "report begins has line next";

/// Whether a name is one of these.
fn is_among(names: &str, name: &str) -> bool {
    for one in names.split_ascii_whitespace() {
        if one == name {
            return true;
        }
    }
    false
}

/// Whether a line of a head is a comment, or gives a value to a name.
fn is_head_line(line: &str) -> bool {
    match line.split_once(":") {
        Some((name, _)) => line.starts_with("#") || is_among(NAMES, name),
        None => line.starts_with("#"),
    }
}

/// Whether each line of a head is one.
fn is_head(head: &str) -> bool {
    for line in head.split("\n") {
        if !is_head_line(line) {
            return false;
        }
    }
    true
}

/// Whether each part of a row is named, by a name of cases.
fn are_parts_named(names: &str) -> bool {
    for name in names.split("@@") {
        if !is_among(NAMES, name.trim()) {
            return false;
        }
    }
    true
}

/// Whether the row has as many parts as the head names.
fn is_whole(case: Case<'_>) -> bool {
    names_of_parts(case).split("@@").count() == case.row.split("@@").count()
}

/// Whether each value that is to be a number is one, or isn't said.
fn are_numbers(case: Case<'_>) -> bool {
    for name in NUMBERS.split_ascii_whitespace() {
        let said = text_at(case, name);
        if !said.is_empty() && said.parse::<usize>().is_err() {
            return false;
        }
    }
    true
}

/// Whether these are a number and what is put so many times.
fn is_repeat(said: &str) -> bool {
    match said.split_once(" ") {
        Some((number, _)) => number.parse::<u32>().is_ok(),
        None => false,
    }
}

/// Whether each second part of a text, between two backquotes, says what is repeated, and each such part is closed.
fn are_repeats(text: &str) -> bool {
    let mut is_closed = false;
    for part in text.split("`") {
        if is_closed && !is_repeat(part) {
            return false;
        }
        is_closed = !is_closed;
    }
    is_closed
}

/// Whether the case says what is wanted.
fn is_anything_wanted(case: Case<'_>) -> bool {
    for name in WANTED.split_ascii_whitespace() {
        if value(case, name).is_some() {
            return true;
        }
    }
    false
}

/// What can't be read in a case, if anything: a line of the head, a name of a part, how many parts there are, a number, a repeat, or what is
/// wanted.
pub(crate) fn fault(case: Case<'_>) -> Option<&'static str> {
    if !is_head(case.head) {
        return Some("a line of the head");
    }
    if !are_parts_named(names_of_parts(case)) {
        return Some("the name of a part");
    }
    if !is_whole(case) {
        return Some("the number of parts");
    }
    if !are_numbers(case) {
        return Some("a number");
    }
    if !are_repeats(text_at(case, "text")) {
        return Some("a repeat");
    }
    if !is_anything_wanted(case) {
        return Some("what is wanted");
    }
    None
}
