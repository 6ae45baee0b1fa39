// Strangers that lie, and a list that is asked three times. Clause sets are written as in DIMACS: 1 is the first variable, -1 its negation, and 0 ends a clause.
ghost use Rattle.std.specs.Prelude.{◌≡◌, IfOk, false, None};

use crate::dimacs::{PIGEONS, cnf_of};
use civl_cdcl::Outcome;
use civl_cnf::{Bits, Clause, Cnf, Lit, Log};
use civl_portfolio::{Attempt, Prover, ask};
use std::alloc::{AllocError, Global};
use std::process::Abort;
use std::rc::Rc;
use std::test::Fail;

/// How a stranger behaves.
#[derive(Clone, Copy, Debug, PartialEq, Eq)]
enum Trick {
    /// A log with no clause.
    EmptyLog,
    /// The set's first clause twice, and then the empty clause.
    OneClauseTwice,
    /// A clause of one variable that the set doesn't have, and then the empty clause.
    ForeignVariable,
    /// Bits, but none.
    NoBits,
    /// As many bits as there are variables, all true.
    AllTrue,
    /// Gives up, but at the third time answers a log with no clause.
    LiesThirdTime,
    /// Lacks memory each time.
    Lacks,
    /// Gives up each time.
    GivesUp,
}

/// A stranger. The token is shared with all others and with the test, so its owners are counted.
#[derive(Drop)]
struct Stranger {
    trick: Trick,
    asked: u64,
    lacks: u64,
    token: Rc<u8>,
}

/// The set's first clause twice, and then the empty clause.
fn log_of_two(alloc: Global, cnf: &Cnf) -> Result<Log, civl_cnf::Memory> {
    let mut log = Log::new(alloc);
    if cnf.len() > 0 {
        let first = cnf.clause(0).lits();
        log.push(Clause::from_slice(alloc, first)?)?;
        log.push(Clause::from_slice(alloc, first)?)?;
    }
    log.push(Clause::from_slice(alloc, &[])?)?;
    Ok(log)
}

/// A clause of one variable that the set doesn't have, and then the empty clause.
fn foreign_log(alloc: Global, cnf: &Cnf) -> Result<Log, civl_cnf::Memory> {
    let mut log = Log::new(alloc);
    let variable = cnf.variables();
    if variable < 1000 {
        log.push(Clause::from_slice(alloc, &[Lit::new(variable, true)])?)?;
    }
    log.push(Clause::from_slice(alloc, &[])?)?;
    Ok(log)
}

/// So many bits, all true.
fn all_true(alloc: Global, count: u32) -> Result<Bits, civl_cnf::Memory> {
    let mut bits = Bits::new(alloc, count)?;
    for at in 0..count {
        if at < bits.len() {
            bits.set(at, true);
        }
    }
    Ok(bits)
}

/// What a stranger with this trick answers, the next being its call of this number, from 1.
fn tricked(alloc: Global, trick: Trick, call: u64, cnf: &Cnf) -> Result<Attempt, civl_cnf::Memory>
    ensures { IfOk result (λ attempt. attempt ≡ Attempt.Memory → ⊥) }
{
    match trick {
        Trick::EmptyLog => Ok(Attempt::Unsat(Log::new(alloc))),
        Trick::OneClauseTwice => Ok(Attempt::Unsat(log_of_two(alloc, cnf)?)),
        Trick::ForeignVariable => Ok(Attempt::Unsat(foreign_log(alloc, cnf)?)),
        Trick::NoBits => Ok(Attempt::Sat(Bits::new(alloc, 0)?)),
        Trick::AllTrue => Ok(Attempt::Sat(all_true(alloc, cnf.variables())?)),
        Trick::LiesThirdTime => {
            if call == 3 {
                Ok(Attempt::Unsat(Log::new(alloc)))
            } else {
                Ok(Attempt::GaveUp)
            }
        }
        Trick::Lacks => Err(civl_cnf::Memory),
        Trick::GivesUp => Ok(Attempt::GaveUp),
    }
}

impl Prover for Stranger {
    ghost asked = { λ s. s.asked };

    ghost lacks = { λ s. s.lacks };

    ghost honest = { λ _. false };

    ghost plan = { λ _. None };

    fn attempt(&mut self, alloc: Global, cnf: &Cnf, _budget: u32) -> Attempt {
        self.asked = self.asked.saturating_add(1);
        match tricked(alloc, self.trick, self.asked, cnf) {
            Ok(attempt) => attempt,
            Err(_) => {
                self.lacks = self.lacks.saturating_add(1);
                Attempt::Memory
            }
        }
    }
}

/// A stranger with a trick, which owns the token too.
fn stranger_of(trick: Trick, token: &Rc<u8>) -> Result<Stranger, AllocError> {
    let token = token.clone()?;
    Ok(Stranger {
        trick,
        asked: 0,
        lacks: 0,
        token,
    })
}

/// The kind of an outcome.
#[derive(Clone, Copy, Debug, PartialEq, Eq)]
enum Found {
    Sat,
    Unsat,
    Spent,
}

fn found_of(outcome: &Outcome) -> Found {
    match outcome {
        Outcome::Sat(_) => Found::Sat,
        Outcome::Unsat(_) => Found::Unsat,
        Outcome::Spent(_) => Found::Spent,
    }
}

/// Asks once: the kind of the outcome and how many provers were dropped, by the answer and by the owners of the token.
fn ask_once(
    rt: &impl Abort,
    alloc: Global,
    provers: &mut Vec<Box<dyn Prover>>,
    cnf: &Cnf,
    budget: u32,
    token: &Rc<u8>,
) -> Result<(Found, usize), AllocError> {
    let before = Rc::strong_count(token);
    let Ok(asked) = ask(alloc, provers, cnf, budget) else {
        return Err(AllocError);
    };
    let after = Rc::strong_count(token);
    assert!(rt; after <= before);
    assert_eq!(rt; before - after, asked.retired);
    assert!(rt; provers.len() < 100);
    assert_eq!(rt; after, provers.len() + 1);
    Ok((found_of(&asked.outcome), asked.retired))
}

/// Asks three times: the kinds of the outcomes, and how many provers were dropped each time.
fn ask_thrice(
    rt: &impl Abort,
    alloc: Global,
    provers: &mut Vec<Box<dyn Prover>>,
    cnf: &Cnf,
    budget: u32,
    token: &Rc<u8>,
) -> Result<([Found; 3], [usize; 3]), AllocError> {
    let first = ask_once(rt, alloc, provers, cnf, budget, token)?;
    let second = ask_once(rt, alloc, provers, cnf, budget, token)?;
    let third = ask_once(rt, alloc, provers, cnf, budget, token)?;
    Ok(([first.0, second.0, third.0], [first.1, second.1, third.1]))
}

/// A list of strangers, the clause set and the budget that it is asked with, and what comes of three rounds.
#[derive(Clone, Copy)]
struct Row<'a> {
    tricks: &'a [Trick],
    variables: u32,
    text: &'a str,
    budget: u32,
    found: Found,
    retired: [usize; 3],
}

/// Whether three rounds give what the row says.
fn holds(rt: &impl Abort, alloc: Global, row: &Row<'_>) -> Result<bool, AllocError> {
    let cnf = cnf_of(rt, alloc, row.variables, row.text)?;
    let token = Rc::new(alloc, 0u8)?;
    let mut provers: Vec<Box<dyn Prover>> = Vec::new(alloc);
    for trick in row.tricks {
        let stranger = stranger_of(*trick, &token)?;
        provers.push(Box::new(alloc, stranger)?)?;
    }
    let (found, retired) = ask_thrice(rt, alloc, &mut provers, &cnf, row.budget, &token)?;
    Ok(found == [row.found, row.found, row.found] && retired == row.retired)
}

/// The place of the first row that doesn't hold.
fn first_wrong(
    rt: &impl Abort,
    alloc: Global,
    rows: &[Row<'_>],
) -> Result<Option<usize>, AllocError> {
    for at in 0..rows.len() {
        if !holds(rt, alloc, &rows[at])? {
            return Ok(Some(at));
        }
    }
    Ok(None)
}

/// True where all variables are.
const POSITIVE: &str = "1 2 0 -1 2 0 -2 3 0 4 -3 0";

/// Each row: the tricks, the clause set of the text and the budget, the outcome of each of three rounds, and how many provers each round drops.
fn make_row<'a>(
    tricks: &'a [Trick],
    variables: u32,
    text: &'a str,
    budget: u32,
    found: Found,
    retired: [usize; 3],
) -> Row<'a> {
    Row {
        tricks,
        variables,
        text,
        budget,
        found,
        retired,
    }
}

#[test]
fn strangers(rt: HostRuntime) -> Result<(), Fail> {
    use Found::{Sat, Spent, Unsat};
    let alloc = rt.alloc();
    let empty = [Trick::EmptyLog];
    let twice = [Trick::OneClauseTwice];
    let foreign = [Trick::ForeignVariable];
    let none = [Trick::NoBits];
    let all = [Trick::AllTrue];
    let third = [Trick::LiesThirdTime];
    let lacks = [Trick::Lacks];
    let many = [
        Trick::GivesUp,
        Trick::EmptyLog,
        Trick::LiesThirdTime,
        Trick::AllTrue,
        Trick::Lacks,
        Trick::OneClauseTwice,
        Trick::NoBits,
    ];
    let rows = [
        make_row(&many[..0], 12, PIGEONS, 20, Unsat, [0, 0, 0]),
        make_row(&many[..0], 12, PIGEONS, 0, Spent, [0, 0, 0]),
        make_row(&empty, 12, PIGEONS, 20, Unsat, [1, 0, 0]),
        make_row(&twice, 12, PIGEONS, 20, Unsat, [1, 0, 0]),
        // without the clause of a foreign variable the log would refute
        make_row(&foreign, 1, "1 0 -1 0", 20, Unsat, [1, 0, 0]),
        make_row(&none, 12, PIGEONS, 20, Unsat, [1, 0, 0]),
        make_row(&all, 12, PIGEONS, 20, Unsat, [1, 0, 0]),
        make_row(&third, 12, PIGEONS, 20, Unsat, [0, 0, 1]),
        make_row(&lacks, 12, PIGEONS, 20, Unsat, [0, 0, 0]),
        make_row(&many, 12, PIGEONS, 20, Unsat, [4, 0, 1]),
        // behind the one whose bits are right, nobody is asked
        make_row(&all, 4, POSITIVE, 0, Sat, [0, 0, 0]),
        make_row(&many, 4, POSITIVE, 20, Sat, [1, 0, 1]),
    ];
    let wrong = first_wrong(&rt, alloc, &rows)?;
    assert_eq!(rt; wrong, None);
    Ok(())
}
