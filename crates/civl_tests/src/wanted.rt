// What cases want.

use crate::asking::{Given, report_of};
use crate::case::{Case, number_at, text_at, value};
use civl_command::Status;

/// The code of the status that a report belongs to.
fn code_of(report: &str) -> u8 {
    if report.starts_with("refused") {
        Status::Refused.code()
    } else if report.starts_with("rejected") || report.starts_with("unproved") {
        Status::Rejected.code()
    } else if report.starts_with("undecided") || report.starts_with("spent") {
        Status::Undecided.code()
    } else if report.starts_with("usage") {
        Status::Usage.code()
    } else {
        Status::Done.code()
    }
}

/// Whether this is the code that is wanted: that of `status`, or the one that belongs to the report.
fn is_code(case: Case<'_>, code: u8) -> bool {
    match number_at(case, "status") {
        Some(status) => code as usize == status,
        None => match value(case, "report") {
            Some(report) => code == code_of(report),
            None => code == code_of(text_at(case, "begins")),
        },
    }
}

/// How many lines of a report are this one.
fn lines_at(report: &str, line: &str) -> usize {
    let mut count: usize = 0;
    for one in report.split("\n") {
        if one == line {
            count = count.saturating_add(1);
        }
    }
    count
}

/// Whether what was given is these lines, byte for byte, each with the line feed at its end; where there are none, nothing.
fn is_whole(given: &str, lines: &str) -> bool {
    if lines.is_empty() {
        return given.is_empty();
    }
    given.strip_suffix("\n") == Some(lines)
}

/// Whether what was given is these lines, or, where it is said how many bytes were written, so many first bytes of them.
fn is_written(case: Case<'_>, given: &str, lines: &str) -> bool {
    match number_at(case, "bytes") {
        Some(count) => {
            given.len() == count && (is_whole(given, lines) || lines.starts_with(given))
        }
        None => is_whole(given, lines),
    }
}

/// What was given behind the two blanks with which a line of a story begins, where the head says that the report has them.
fn outdented<'a>(case: Case<'_>, given: &'a str) -> Option<&'a str> {
    if value(case, "indented").is_none() {
        return Some(given);
    }
    given.strip_prefix("  ")
}

/// Whether a report is `report`, byte for byte; or has the line `line` once, and begins with `begins` where that is said too; or has the text
/// `has` in it; or begins with `begins`.
fn is_told(case: Case<'_>, report: &str) -> bool {
    if let Some(lines) = value(case, "report") {
        return match outdented(case, report) {
            Some(given) => is_written(case, given, lines),
            None => false,
        };
    }
    if let Some(line) = value(case, "line") {
        return lines_at(report, line) == 1 && report.starts_with(text_at(case, "begins"));
    }
    if let Some(part) = value(case, "has") {
        return report.contains(part);
    }
    is_begun(case, report)
}

/// Whether a report begins with `begins`.
pub(crate) fn is_begun(case: Case<'_>, report: &str) -> bool {
    match value(case, "begins") {
        Some(front) => report.starts_with(front),
        None => false,
    }
}

/// Whether a number is the one that is wanted under this name, if one is.
fn is_number(case: Case<'_>, name: &str, number: usize) -> bool {
    number_at(case, name).unwrap_or(number) == number
}

/// Whether what was given is what the case wants.
pub(crate) fn is_wanted(case: Case<'_>, given: &Given) -> bool {
    let report = report_of(given);
    is_code(case, given.code)
        && is_told(case, report)
        && is_number(case, "bytes", report.len())
        && is_number(case, "left", given.left)
}
