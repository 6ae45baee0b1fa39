// Small clause sets, written as in DIMACS: 1 is the first variable, -1 its negation, and 0 ends a clause.
use crate::dimacs::{PIGEONS, SQUARE, cnf_of};
use civl_cdcl::Outcome;
use civl_cnf::{Bits, Cnf, truth};
use civl_portfolio::{Attempt, Prover, ask};
use civl_provers::{Probe, Splitter};
use civl_rup::{Replay, replay};
use std::alloc::{AllocError, Global};
use std::process::Abort;
use std::test::Fail;

/// The kind of an answer.
#[derive(Clone, Copy, Debug, PartialEq, Eq)]
enum Found {
    Sat,
    Unsat,
    GaveUp,
}

/// The kind of an answer, whose certificate is tried.
fn found_of(
    rt: &impl Abort,
    alloc: Global,
    cnf: &Cnf,
    attempt: &Attempt,
) -> Result<Found, AllocError> {
    match attempt {
        Attempt::Sat(bits) => {
            assert!(rt; cnf.variables() <= bits.len());
            assert!(rt; truth(cnf, bits));
            Ok(Found::Sat)
        }
        Attempt::Unsat(log) => {
            let Ok(found) = replay(alloc, cnf, log) else {
                return Err(AllocError);
            };
            assert_eq!(rt; found, Replay::Refutes);
            Ok(Found::Unsat)
        }
        Attempt::GaveUp => Ok(Found::GaveUp),
        Attempt::Memory => Err(AllocError),
    }
}

/// A clause set, and what splitting to the depths 0, 1, 3 and 4 answers.
#[derive(Clone, Copy)]
struct Row<'a> {
    variables: u32,
    text: &'a str,
    found: [Found; 4],
}

/// What splitting to a depth answers.
fn split_to(rt: &impl Abort, alloc: Global, cnf: &Cnf, depth: u32) -> Result<Found, AllocError> {
    let mut splitter = Splitter::new(depth);
    let attempt = splitter.attempt(alloc, cnf, 0);
    found_of(rt, alloc, cnf, &attempt)
}

/// Whether splitting answers what the row says.
fn holds(rt: &impl Abort, alloc: Global, row: &Row<'_>) -> Result<bool, AllocError> {
    let cnf = cnf_of(rt, alloc, row.variables, row.text)?;
    let zero = split_to(rt, alloc, &cnf, 0)?;
    let one = split_to(rt, alloc, &cnf, 1)?;
    let three = split_to(rt, alloc, &cnf, 3)?;
    let four = split_to(rt, alloc, &cnf, 4)?;
    Ok([zero, one, three, four] == row.found)
}

/// The place of the first row that doesn't hold.
fn first_wrong(
    rt: &impl Abort,
    alloc: Global,
    rows: &[Row<'_>],
) -> Result<Option<usize>, AllocError> {
    for at in 0..rows.len() {
        if !holds(rt, alloc, &rows[at])? {
            return Ok(Some(at));
        }
    }
    Ok(None)
}

fn make_row<'a>(variables: u32, text: &'a str, found: [Found; 4]) -> Row<'a> {
    Row {
        variables,
        text,
        found,
    }
}

#[test]
fn splitting(rt: HostRuntime) -> Result<(), Fail> {
    use Found::{GaveUp, Sat, Unsat};
    let rows = [
        // no clauses, and the empty clause
        make_row(0, "", [Sat, Sat, Sat, Sat]),
        make_row(5, "", [Sat, Sat, Sat, Sat]),
        make_row(1, "0", [Unsat, Unsat, Unsat, Unsat]),
        // units alone, with no choice
        make_row(1, "1 0 -1 0", [Unsat, Unsat, Unsat, Unsat]),
        make_row(4, "1 0 -1 2 0 -2 3 0", [Sat, Sat, Sat, Sat]),
        // one choice
        make_row(2, "1 2 0", [GaveUp, Sat, Sat, Sat]),
        make_row(2, SQUARE, [GaveUp, Unsat, Unsat, Unsat]),
        // with pigeon 0 in hole 1 alone by three choices, three pigeons are left for two holes: one choice more
        make_row(12, PIGEONS, [GaveUp, GaveUp, GaveUp, Unsat]),
    ];
    let wrong = first_wrong(&rt, rt.alloc(), &rows)?;
    assert_eq!(rt; wrong, None);
    Ok(())
}

/// Bits of a text of 0 and 1, the bit of variable 0 first.
fn bits_of(alloc: Global, text: &str) -> Result<Bits, AllocError> {
    let row = text.as_bytes();
    let mut count = 0u32;
    for _byte in row {
        count = count.saturating_add(1);
    }
    let Ok(mut bits) = Bits::new(alloc, count) else {
        return Err(AllocError);
    };
    for at in 0..count {
        if at < bits.len() && (at as usize) < row.len() {
            bits.set(at, row[at as usize] == b'1');
        }
    }
    Ok(bits)
}

/// A probe of the bits of a text, with a blank between two tries.
fn probe_of(alloc: Global, text: &str) -> Result<Probe, AllocError> {
    let mut tries: Vec<Bits> = Vec::new(alloc);
    for word in text.split_whitespace() {
        let bits = bits_of(alloc, word)?;
        tries.push(bits)?;
    }
    Ok(Probe::new(tries))
}

/// Whether two lists have the same bits.
fn are_same(a: &Bits, b: &Bits) -> bool {
    if a.len() != b.len() {
        return false;
    }
    for at in 0..a.len() {
        if a.get(at) != b.get(at) {
            return false;
        }
    }
    true
}

/// Whether a probe of these tries answers these bits, or gives up where the text of the bits is empty, both times that it is asked.
fn probe_answers(alloc: Global, cnf: &Cnf, tries: &str, answer: &str) -> Result<bool, AllocError> {
    let wanted = bits_of(alloc, answer)?;
    let mut probe = probe_of(alloc, tries)?;
    for _round in 0..2 {
        let good = match probe.attempt(alloc, cnf, 0) {
            Attempt::Sat(bits) => are_same(&bits, &wanted),
            Attempt::GaveUp => wanted.len() == 0,
            Attempt::Unsat(_) => false,
            Attempt::Memory => return Err(AllocError),
        };
        if !good {
            return Ok(false);
        }
    }
    Ok(true)
}

/// The place of the first pair of tries and answer that doesn't hold.
fn first_wrong_probe(
    alloc: Global,
    cnf: &Cnf,
    pairs: &[(&str, &str)],
) -> Result<Option<usize>, AllocError> {
    for at in 0..pairs.len() {
        let (tries, answer) = pairs[at];
        if !probe_answers(alloc, cnf, tries, answer)? {
            return Ok(Some(at));
        }
    }
    Ok(None)
}

#[test]
fn probing(rt: HostRuntime) -> Result<(), Fail> {
    let alloc = rt.alloc();
    let cnf = cnf_of(&rt, alloc, 2, "1 2 0 1 -2 0")?;
    let pairs = [
        ("", ""),
        ("00 01", ""),
        // too short
        ("1", ""),
        ("1 10", "10"),
        // the first of two, and more bits than variables
        ("01 11 10", "11"),
        ("00 100 11", "100"),
    ];
    let wrong = first_wrong_probe(alloc, &cnf, &pairs)?;
    assert_eq!(rt; wrong, None);
    Ok(())
}

/// The kind of what these provers find, with no budget for the house; nothing where it is spent, or where one of them was dropped.
fn asked(
    alloc: Global,
    provers: &mut Vec<Box<dyn Prover>>,
    cnf: &Cnf,
) -> Result<Option<Found>, AllocError> {
    let Ok(asked) = ask(alloc, provers, cnf, 0) else {
        return Err(AllocError);
    };
    if asked.retired != 0 {
        return Ok(None);
    }
    match &asked.outcome {
        Outcome::Sat(_) => Ok(Some(Found::Sat)),
        Outcome::Unsat(_) => Ok(Some(Found::Unsat)),
        Outcome::Spent(_) => Ok(None),
    }
}

/// What a portfolio of a probe of these tries and a splitter to a depth finds.
fn asked_of(
    alloc: Global,
    cnf: &Cnf,
    tries: &str,
    depth: u32,
) -> Result<Option<Found>, AllocError> {
    let probe = probe_of(alloc, tries)?;
    let mut provers: Vec<Box<dyn Prover>> = Vec::new(alloc);
    provers.push(Box::new(alloc, probe)?)?;
    provers.push(Box::new(alloc, Splitter::new(depth))?)?;
    asked(alloc, &mut provers, cnf)
}

#[test]
fn in_a_portfolio(rt: HostRuntime) -> Result<(), Fail> {
    let alloc = rt.alloc();
    let cnf = cnf_of(&rt, alloc, 12, PIGEONS)?;
    let deep = asked_of(alloc, &cnf, "000000000000", 8)?;
    assert_eq!(rt; deep, Some(Found::Unsat));
    let flat = asked_of(alloc, &cnf, "000000000000", 3)?;
    assert_eq!(rt; flat, None);
    Ok(())
}

#[test]
fn a_try_in_a_portfolio(rt: HostRuntime) -> Result<(), Fail> {
    let half = cnf_of(&rt, rt.alloc(), 2, "1 2 0 1 -2 0")?;
    let tried = asked_of(rt.alloc(), &half, "01 10", 0)?;
    assert_eq!(rt; tried, Some(Found::Sat));
    Ok(())
}
