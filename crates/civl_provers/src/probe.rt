// A prover that tries bits.
ghost use Rattle.std.specs.Prelude.{◌≡◌, ◌≤◌, ◌⊎◌, List, Bool, true, All, IfOk, Some};
ghost use Rattle.civl_cnf.specs.Literal.{Literal};
ghost use Rattle.civl_outside.specs.Count.{count_up, Rose};
ghost use Rattle.civl_portfolio.specs.Attempt.{Stands, MakesTrue};
ghost use Rattle.civl_provers.specs.Probe.{makes_true, first_true, IsFirstTrue};

use crate::memory::Memory;
use civl_cnf::{Bits, Cnf, truth};
use civl_portfolio::{Attempt, Prover};
use std::alloc::Global;
use std::marker::Model;

/// An honest prover that tries bits, in order. It tells its plan. Contracts see it as the record of its tries and counts.
#[derive(Drop)]
pub struct Probe {
    tries: Vec<Bits>,
    asked: u64,
    lacks: u64,
}

impl Model for Probe {
    ghost use Rattle.civl_provers.specs.Probe.{ProbeState};

    ghost Value = { ProbeState };

    ghost view = { λ p. record { tries = p.tries.items; asked = p.asked; lacks = p.lacks } };
}

impl Probe {
    /// A prover that tries these bits.
    pub fn new(tries: Vec<Bits>) -> Probe
        ensures { result ≡ record { tries = tries.items; asked = 0; lacks = 0 } }
    {
        Probe {
            tries,
            asked: 0,
            lacks: 0,
        }
    }
}

/// Whether there is a bit for each variable, and the bits make the clause set true.
fn is_made_true(cnf: &Cnf, bits: &Bits) -> bool
    ensures { result ≡ makes_true cnf.now bits.now }
{
    cnf.variables() <= bits.len() && truth(cnf, bits)
}

/// The same bits.
fn copy_of(alloc: Global, bits: &Bits) -> Result<Bits, Memory>
    ensures { IfOk result (λ copy. copy ≡ bits.now) }
{
    let mut copy = Bits::new(alloc, bits.len())?;
    for at in 0..bits.len() {
        copy.set(at, bits.get(at));
    }
    Ok(copy)
}

/// The first try that makes the clause set true.
fn try_all(alloc: Global, tries: &[Bits], cnf: &Cnf) -> Result<Attempt, Memory>
    ensures { IfOk result (λ attempt. attempt ≡ first_true cnf.now tries.now) }
{
    for bits in tries {
        if is_made_true(cnf, bits) {
            let copy = copy_of(alloc, bits)?;
            return Ok(Attempt::Sat(copy));
        }
    }
    Ok(Attempt::GaveUp)
}

impl Prover for Probe {
    ghost asked = { λ p. p.asked };

    ghost lacks = { λ p. p.lacks };

    ghost honest = { λ _. true };

    ghost plan = { λ p. Some (λ set _. first_true set p.tries) };

    /// Answers the first try that makes the clause set true, and gives up exactly where there is none. A try that is shorter than the set's variables is passed over. The tries stay.
    fn attempt(&mut self, alloc: Global, cnf: &Cnf, _budget: u32) -> Attempt
        ensures asked { self.new.asked ≡ count_up self.old.asked }
        ensures lacks { self.old.lacks ≤ self.new.lacks }
        ensures memory { result ≡ Attempt.Memory → Rose self.old.lacks self.new.lacks }
        ensures tries { self.new.tries ≡ self.old.tries }
        ensures honest { Stands cnf.now result }
        ensures plan { (result ≡ first_true cnf.now self.old.tries) ⊎ (result ≡ Attempt.Memory) }
        ensures sat { (bits : List Bool) → result ≡ Attempt.Sat bits → IsFirstTrue cnf.now self.old.tries bits }
        ensures gave_up { result ≡ Attempt.GaveUp → All (λ bits. MakesTrue cnf.now bits → ⊥) self.old.tries }
        ensures unsat { (log : List (List Literal)) → result ≡ Attempt.Unsat log → ⊥ }
    {
        self.asked = self.asked.saturating_add(1);
        match try_all(alloc, self.tries.as_slice(), cnf) {
            Ok(attempt) => attempt,
            Err(Memory) => {
                self.lacks = self.lacks.saturating_add(1);
                Attempt::Memory
            }
        }
    }
}
