// The texts of cases.

use crate::case::{Case, text_at, value};
use std::alloc::{AllocError, Global};
use std::{fs, io};

/// The old and the new text of an edit, `OLD @ NEW`, where the old one stands in a text.
fn edit_in<'a>(text: &str, edit: &'a str) -> Option<(&'a str, &'a str)> {
    let (old, new) = edit.split_once("@")?;
    if text.contains(old.trim()) {
        Some((old.trim(), new.trim()))
    } else {
        None
    }
}

/// The text with each edit made in turn, at the first place where its old text stands, if it stands there; `@and` stands between two.
fn edited(alloc: Global, text: &str, edits: &str) -> Result<Option<String>, AllocError> {
    let mut text = String::from_str(alloc, text)?;
    if edits.is_empty() {
        return Ok(Some(text));
    }
    for edit in edits.split("@and") {
        match edit_in(text.as_str(), edit) {
            Some((old, new)) => text = text.replacen(alloc, old, new, 1)?,
            None => return Ok(None),
        }
    }
    Ok(Some(text))
}

/// Puts a text behind another as often as is said: `NUMBER TEXT`.
fn put_often(text: &mut String, said: &str) -> Result<(), AllocError> {
    let Some((number, part)) = said.split_once(" ") else {
        return Ok(());
    };
    for _ in 0..number.parse::<u32>().unwrap_or(0) {
        text.push_str(part)?;
    }
    Ok(())
}

/// Puts a text behind another. Between two backquotes in it stand a number and what is put so many times.
fn put(text: &mut String, behind: &str) -> Result<(), AllocError> {
    let mut is_often = false;
    for part in behind.split("`") {
        if is_often {
            put_often(text, part)?;
        } else {
            text.push_str(part)?;
        }
        is_often = !is_often;
    }
    Ok(())
}

/// What a sign stands for, where signs do.
fn meant(sign: char) -> char {
    match sign {
        '/' => '\n',
        '~' => '\t',
        '^' => '\r',
        '_' => ' ',
        other => other,
    }
}

/// The value of a name; where the head says `signs: yes`, each `/` in it stands for a line feed, `~` for a tab, `^` for a carriage return
/// and `_` for a blank.
pub(crate) fn plain(alloc: Global, case: Case<'_>, name: &str) -> Result<String, AllocError> {
    let said = text_at(case, name);
    if value(case, "signs").is_none() {
        return String::from_str(alloc, said);
    }
    let mut text = String::new(alloc);
    for sign in said.chars() {
        text.push(meant(sign))?;
    }
    Ok(text)
}

/// The text of a file, if one is named.
pub(crate) fn base(rt: &HostRuntime, name: &str) -> io::Result<String> {
    if name.is_empty() {
        return Ok(String::new(rt.alloc()));
    }
    let path = format!(in rt.alloc(); "cases/{name}")?;
    fs::read_to_string(rt, path.as_str())
}

/// Puts behind a text what the case says: a text, or lines, which have their ends.
fn put_rest(alloc: Global, case: Case<'_>, text: &mut String) -> Result<(), AllocError> {
    put(text, plain(alloc, case, "text")?.as_str())?;
    let lines = text_at(case, "lines");
    if !lines.is_empty() {
        text.push_str(lines)?;
        text.push_str("\n")?;
    }
    Ok(())
}

/// The text of a case: the base with the edits, and what stands behind it. There is none where an edit's old text isn't there.
pub(crate) fn text_of(rt: &HostRuntime, case: Case<'_>) -> io::Result<Option<String>> {
    let base = base(rt, text_at(case, "base"))?;
    let Some(mut text) = edited(rt.alloc(), base.as_str(), text_at(case, "edits"))? else {
        return Ok(None);
    };
    put_rest(rt.alloc(), case, &mut text)?;
    Ok(Some(text))
}
