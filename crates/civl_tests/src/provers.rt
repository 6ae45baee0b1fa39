// The provers that are asked: those of the program `civl`, and some that lie.
ghost use Rattle.std.specs.Prelude.{false, None};

use civl_cnf::{Bits, Clause, Cnf, Lit, Log};
use civl_portfolio::{Attempt, Prover};
use civl_provers::{Probe, Splitter};
use civl_tree::both;
use std::alloc::{AllocError, Global};
use std::rc::Rc;

/// As many bits as a clause set within the limits can have variables.
const BITS: u32 = 6_400_002;

/// On how many variables the splitter splits.
const DEPTH: u32 = 8;

/// How a prover answers.
#[derive(Drop)]
enum Trick {
    /// There are no values, with a log that shows nothing.
    NoLog,
    /// There are none, with a log that follows from nothing.
    WrongLog,
    /// There are none, with a log that has one clause twice before the empty clause.
    TwiceLog,
    /// There are none, with a log of a variable that the clauses don't have.
    StrangeLog,
    /// There are none, with a log that shows nothing, when it is asked for the third time; else it has no answer.
    LiesThird,
    /// There are some, and no bits.
    NoBits,
    /// There are some, each of whose bits is true.
    AllTrue,
    /// There are some, each of whose bits is false.
    AllFalse,
    /// It has no answer.
    GivesUp,
    /// It lacks memory.
    Lacks,
    /// It answers as this one does.
    Tries(Probe),
    /// It answers as this one does.
    Splits(Splitter),
}

/// A prover with a trick. Who owns the token is counted.
#[derive(Drop)]
pub(crate) struct Stranger {
    trick: Trick,
    asked: u64,
    lacks: u64,
    token: Rc<u8>,
}

/// The first clause as often as is said, and then the empty clause.
fn false_log(alloc: Global, cnf: &Cnf, count: usize) -> Result<Log, civl_cnf::Memory> {
    let mut log = Log::new(alloc);
    for _ in 0..count {
        if cnf.len() > 0 {
            log.push(Clause::from_slice(alloc, cnf.clause(0).lits())?)?;
        }
    }
    log.push(Clause::from_slice(alloc, &[])?)?;
    Ok(log)
}

/// A clause of the first variable that isn't there, and then the empty clause.
fn strange_log(alloc: Global, cnf: &Cnf) -> Result<Log, civl_cnf::Memory> {
    let variable = cnf.variables();
    let mut log = Log::new(alloc);
    if variable < 2_147_483_648 {
        log.push(Clause::from_slice(alloc, &[Lit::new(variable, true)])?)?;
    }
    log.push(Clause::from_slice(alloc, &[])?)?;
    Ok(log)
}

/// A bit for each variable.
fn bits(alloc: Global, count: u32, bit: bool) -> Result<Bits, civl_cnf::Memory> {
    let mut bits = Bits::new(alloc, count)?;
    for at in 0..count {
        if at < bits.len() {
            bits.set(at, bit);
        }
    }
    Ok(bits)
}

/// The answer of a prover with this trick that is asked for the `asked`th time.
fn tricked(
    alloc: Global,
    trick: &mut Trick,
    asked: u64,
    cnf: &Cnf,
    budget: u32,
) -> Result<Attempt, civl_cnf::Memory> {
    match trick {
        Trick::NoLog => Ok(Attempt::Unsat(Log::new(alloc))),
        Trick::WrongLog => Ok(Attempt::Unsat(false_log(alloc, cnf, 1)?)),
        Trick::TwiceLog => Ok(Attempt::Unsat(false_log(alloc, cnf, 2)?)),
        Trick::StrangeLog => Ok(Attempt::Unsat(strange_log(alloc, cnf)?)),
        Trick::LiesThird => {
            if asked == 3 {
                Ok(Attempt::Unsat(Log::new(alloc)))
            } else {
                Ok(Attempt::GaveUp)
            }
        }
        Trick::NoBits => Ok(Attempt::Sat(bits(alloc, 0, true)?)),
        Trick::AllTrue => Ok(Attempt::Sat(bits(alloc, cnf.variables(), true)?)),
        Trick::AllFalse => Ok(Attempt::Sat(bits(alloc, cnf.variables(), false)?)),
        Trick::GivesUp => Ok(Attempt::GaveUp),
        Trick::Lacks => Err(civl_cnf::Memory),
        Trick::Tries(probe) => Ok(probe.attempt(alloc, cnf, budget)),
        Trick::Splits(splitter) => Ok(splitter.attempt(alloc, cnf, budget)),
    }
}

impl Prover for Stranger {
    ghost asked = { λ s. s.asked };

    ghost lacks = { λ s. s.lacks };

    ghost honest = { λ _. false };

    ghost plan = { λ _. None };

    fn attempt(&mut self, alloc: Global, cnf: &Cnf, budget: u32) -> Attempt {
        self.asked = self.asked.saturating_add(1);
        match tricked(alloc, &mut self.trick, self.asked, cnf, budget) {
            Ok(Attempt::Unsat(log)) => Attempt::Unsat(log),
            Ok(Attempt::Sat(bits)) => Attempt::Sat(bits),
            Ok(Attempt::GaveUp) => Attempt::GaveUp,
            _ => {
                self.lacks = self.lacks.saturating_add(1);
                Attempt::Memory
            }
        }
    }
}

/// The prover whose one try is that all bits are false.
fn probe(alloc: Global) -> Result<Probe, AllocError> {
    let Ok(bits) = Bits::new(alloc, BITS) else {
        return Err(AllocError);
    };
    let mut tries = Vec::new(alloc);
    tries.push(bits)?;
    Ok(Probe::new(tries))
}

/// The trick with this name. Another name is that of a prover without an answer.
fn trick_named(alloc: Global, name: &str) -> Result<Trick, AllocError> {
    Ok(match name {
        "no-log" => Trick::NoLog,
        "wrong-log" => Trick::WrongLog,
        "twice-log" => Trick::TwiceLog,
        "strange-log" => Trick::StrangeLog,
        "lies-third" => Trick::LiesThird,
        "no-bits" => Trick::NoBits,
        "all-true" => Trick::AllTrue,
        "all-false" => Trick::AllFalse,
        "lacks" => Trick::Lacks,
        "probe" => Trick::Tries(probe(alloc)?),
        "splitter" => Trick::Splits(Splitter::new(DEPTH)),
        _ => Trick::GivesUp,
    })
}

/// A prover with the trick of this name, which owns the token too.
pub(crate) fn stranger_named(
    alloc: Global,
    name: &str,
    token: &Rc<u8>,
) -> Result<Box<Stranger>, AllocError> {
    let (trick, token) = both(trick_named(alloc, name), token.clone())?;
    let stranger = Stranger {
        trick,
        asked: 0,
        lacks: 0,
        token,
    };
    Ok(Box::new(alloc, stranger)?)
}
