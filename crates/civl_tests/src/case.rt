// A row of a file of cases, and what it says.

/// A row and the head of its file, which has lines `NAME: VALUE`, and comments. Its line `row: NAME @@ NAME` names the parts of each
/// row, between which stands `@@` too; what the other lines say is said of each row.
#[derive(Clone, Copy)]
pub(crate) struct Case<'a> {
    pub(crate) head: &'a str,
    pub(crate) row: &'a str,
}

/// What stands behind the name in a line of the head.
fn in_head<'a>(head: &'a str, name: &str) -> Option<&'a str> {
    for line in head.split("\n") {
        if let Some((key, value)) = line.split_once(":") {
            if key == name {
                return Some(value.trim());
            }
        }
    }
    None
}

/// The part of the row that stands where the name does among these names.
fn in_row<'a>(names: &str, row: &'a str, name: &str) -> Option<&'a str> {
    let mut parts = row.split("@@");
    for key in names.split("@@") {
        let part = parts.next()?;
        if key.trim() == name {
            return Some(part.trim());
        }
    }
    None
}

/// The value of a name, without the blanks around it.
pub(crate) fn value<'a>(case: Case<'a>, name: &str) -> Option<&'a str> {
    match in_head(case.head, name) {
        Some(value) => Some(value),
        None => in_row(in_head(case.head, "row").unwrap_or(""), case.row, name),
    }
}

/// The value of a name, which is empty where there is none.
pub(crate) fn text_at<'a>(case: Case<'a>, name: &str) -> &'a str {
    value(case, name).unwrap_or("")
}

/// The number that is the value of a name.
pub(crate) fn number_at(case: Case<'_>, name: &str) -> Option<usize> {
    value(case, name)?.parse::<usize>().ok()
}

/// The names of the parts of each row.
pub(crate) fn names_of_parts<'a>(case: Case<'a>) -> &'a str {
    in_head(case.head, "row").unwrap_or("")
}
