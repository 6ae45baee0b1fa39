// What the programs answer.

use crate::case::{Case, number_at, text_at};
use crate::provers::stranger_named;
use civl_command::command;
use civl_explain_command::explain_command;
use civl_lift_command::lift_command;
use civl_outside::{MemorySink, MemorySource, PlainSink, Sink};
use civl_portfolio::Prover;
use civl_tree::both;
use std::alloc::{AllocError, Global};
use std::rc::Rc;

/// How many bytes a read takes at most.
const PIECE: usize = 16;

/// How many bytes of a report are kept, where nothing else is said.
const ROOM: usize = 1_000_000;

/// What was given: the code of the status, and the report; and how many provers there still are, each of which owns a token.
#[derive(Drop)]
pub(crate) struct Given {
    pub(crate) code: u8,
    pub(crate) report: Vec<u8>,
    pub(crate) left: usize,
}

/// A case that says nothing.
pub(crate) const NOTHING: Case<'static> = Case { head: "", row: "" };

/// The report that was given.
pub(crate) fn report_of(given: &Given) -> &str {
    str::from_utf8(given.report.as_slice()).unwrap_or("no text")
}

/// The words of a line.
fn words(alloc: Global, line: &str) -> Result<Vec<String>, AllocError> {
    let mut words = Vec::new(alloc);
    for word in line.split_ascii_whitespace() {
        words.push(String::from_str(alloc, word)?)?;
    }
    Ok(words)
}

/// The calls that fail: this one, if it is said.
fn failing(alloc: Global, call: Option<usize>) -> Result<Vec<u64>, AllocError> {
    let mut calls = Vec::new(alloc);
    if let Some(call) = call {
        calls.push(call as u64)?;
    }
    Ok(calls)
}

/// A source of this text, where the read with the number `read` fails.
fn source(alloc: Global, case: Case<'_>, text: &[u8]) -> Result<MemorySource, AllocError> {
    let failing = failing(alloc, number_at(case, "read"))?;
    Ok(MemorySource::new(text.to_vec(alloc)?, PIECE, failing))
}

/// How many bytes a sink takes: `room`, or else as many as are kept.
fn room(case: Case<'_>) -> usize {
    number_at(case, "room").unwrap_or(ROOM)
}

/// A sink with this room, where the write with the number `write` fails.
fn sink(alloc: Global, case: Case<'_>) -> Result<MemorySink, AllocError> {
    let failing = failing(alloc, number_at(case, "write"))?;
    match MemorySink::new(alloc, room(case), failing) {
        Ok(sink) => Ok(sink),
        Err(_) => Err(AllocError),
    }
}

/// A sink with this room, none of whose writes fails.
fn plain_sink(alloc: Global, case: Case<'_>) -> Result<PlainSink, AllocError> {
    match PlainSink::new(alloc, room(case)) {
        Ok(sink) => Ok(sink),
        Err(_) => Err(AllocError),
    }
}

/// How many provers are left, where each other one was dropped.
fn left(token: &Rc<u8>, count: usize) -> usize {
    if Rc::strong_count(token).checked_sub(1) == Some(count) {
        count
    } else {
        usize::MAX
    }
}

/// The code that `civl`, or the program that the case names, ends with, and how many of the case's provers are left.
fn ended<K: Sink>(
    alloc: Global,
    case: Case<'_>,
    words: &Vec<String>,
    source: &mut MemorySource,
    sink: &mut K,
) -> Result<(u8, usize), AllocError> {
    let token = Rc::new(alloc, 0u8)?;
    let mut provers: Vec<Box<dyn Prover>> = Vec::new(alloc);
    for name in text_at(case, "provers").split_ascii_whitespace() {
        provers.push(stranger_named(alloc, name, &token)?)?;
    }
    let program = text_at(case, "program");
    let status = if program == "civl_lift" {
        lift_command(alloc, words, source, sink)
    } else if program == "civl_explain" {
        explain_command(alloc, words, source, sink, &mut provers)
    } else {
        command(alloc, words, source, sink, &mut provers)
    };
    Ok((status.code(), left(&token, provers.len())))
}

/// The same on a text, where the words are those of a line.
fn answered<K: Sink>(
    alloc: Global,
    case: Case<'_>,
    line: &str,
    text: &[u8],
    sink: &mut K,
) -> Result<(u8, usize), AllocError> {
    let (words, mut source) = both(words(alloc, line), source(alloc, case, text))?;
    ended(alloc, case, &words, &mut source, sink)
}

/// What was given by this answer and these bytes.
fn given_by(alloc: Global, answer: (u8, usize), bytes: &[u8]) -> Result<Given, AllocError> {
    let (code, left) = answer;
    let report = bytes.to_vec(alloc)?;
    Ok(Given { code, report, left })
}

/// What is given to these words on a text, by a sink that only has a room.
fn asked_plainly(
    alloc: Global,
    case: Case<'_>,
    line: &str,
    text: &[u8],
) -> Result<Given, AllocError> {
    let mut sink = plain_sink(alloc, case)?;
    let answer = answered(alloc, case, line, text, &mut sink)?;
    given_by(alloc, answer, sink.bytes())
}

/// What is given to these words on a text, with the devices and the provers that the case names.
pub(crate) fn asked(
    alloc: Global,
    case: Case<'_>,
    line: &str,
    text: &[u8],
) -> Result<Given, AllocError> {
    if text_at(case, "sink") == "plain" {
        return asked_plainly(alloc, case, line, text);
    }
    let mut sink = sink(alloc, case)?;
    let answer = answered(alloc, case, line, text, &mut sink)?;
    given_by(alloc, answer, sink.bytes())
}
