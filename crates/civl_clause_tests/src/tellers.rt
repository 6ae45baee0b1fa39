// Provers that tell what they will answer, asked alone: what the contract of asking says of them.
ghost use Rattle.std.specs.Prelude.{◌≡◌, ◌≢◌, ℕ, Bool, [], IfOk, Some, true, false, nat_eq, if◌then◌else◌};
ghost use Rattle.civl_portfolio.specs.declared.attempt.Attempt.TheVariants as attempt;
ghost use Rattle.civl_cnf.specs.ClauseSet.{ClauseSet};
ghost use Rattle.civl_portfolio.specs.declared.attempt.Attempt.{Attempt};
ghost use Rattle.civl_portfolio.specs.Attempt.{IsRefused};
ghost use Rattle.civl_clause_tests.specs.Alone.{IsGoneOrLacks, IsLeft};
ghost use Rattle.civl_outside.specs.Count.{count_up};

use crate::dimacs::{PIGEONS, cnf_of};
use civl_cdcl::Outcome;
use civl_cnf::{Cnf, Log};
use civl_portfolio::{Asked, Attempt, Memory, Prover, ask};
use std::alloc::{AllocError, Global};
use std::process::Abort;
use std::test::Fail;

/// A liar, which tells its plan: a log with no clause.
#[derive(Drop)]
struct Liar {
    asked: u64,
}

impl Prover for Liar {
    ghost asked = { λ p. p.asked };

    ghost lacks = { λ _. 0 };

    ghost honest = { λ _. false };

    ghost plan = { λ _. Some (λ _ _. attempt.Unsat []) };

    fn attempt(&mut self, alloc: Global, _cnf: &Cnf, _budget: u32) -> Attempt {
        self.asked = self.asked.saturating_add(1);
        Attempt::Unsat(Log::new(alloc))
    }
}

/// An honest prover, which tells its plan: it has no answer.
#[derive(Drop)]
struct Idler {
    asked: u64,
}

impl Prover for Idler {
    ghost asked = { λ p. p.asked };

    ghost lacks = { λ _. 0 };

    ghost honest = { λ _. true };

    ghost plan = { λ _. Some (λ _ _. attempt.GaveUp) };

    fn attempt(&mut self, _alloc: Global, _cnf: &Cnf, _budget: u32) -> Attempt {
        self.asked = self.asked.saturating_add(1);
        Attempt::GaveUp
    }
}

/// A prover that lies at its third call alone, and tells its plan: there a log with no clause, and else it has no answer.
#[derive(Drop)]
struct ThirdLiar {
    asked: u64,
}

impl Prover for ThirdLiar {
    ghost asked = { λ p. p.asked };

    ghost lacks = { λ _. 0 };

    ghost honest = { λ _. false };

    ghost plan = { λ p. Some (λ _ _. if nat_eq p.asked 2 then attempt.Unsat [] else attempt.GaveUp) };

    fn attempt(&mut self, alloc: Global, _cnf: &Cnf, _budget: u32) -> Attempt {
        let is_third = self.asked == 2;
        self.asked = self.asked.saturating_add(1);
        if is_third {
            Attempt::Unsat(Log::new(alloc))
        } else {
            Attempt::GaveUp
        }
    }
}

/// What was answered where a prover was asked alone, and who is left.
type Alone = (Asked, Vec<Box<dyn Prover>>);

/// Asks a prover alone. One that tells of a certificate that is refused is gone, or else it lacked memory; one that tells of any other answer is left, and was asked once more.
fn ask_alone(
    alloc: Global,
    prover: Box<dyn Prover>,
    cnf: &Cnf,
    budget: u32,
) -> Result<Alone, Memory>
    ensures gone { (told : ClauseSet → ℕ → Attempt) (lacked : ℕ) → plan prover ≡ Some told → lacks prover ≡ lacked → IsRefused cnf.now (told cnf.now budget) → IfOk result (λ r. IsGoneOrLacks r.1.items r.0.retired lacked (record { asked = asked; lacks = lacks; honest = honest; plan = plan })) }
    ensures left { (told : ClauseSet → ℕ → Attempt) (calls : ℕ) (is_honest : Bool) → plan prover ≡ Some told → asked prover ≡ calls → honest prover ≡ is_honest → (IsRefused cnf.now (told cnf.now budget) → ⊥) → IfOk result (λ r. IsLeft r.1.items r.0.retired (count_up calls) is_honest (record { asked = asked; lacks = lacks; honest = honest; plan = plan })) }
{
    let mut provers = Vec::new(alloc);
    let Ok(()) = provers.push(prover) else {
        return Err(Memory);
    };
    let asked = ask(alloc, &mut provers, cnf, budget)?;
    Ok((asked, provers))
}

/// The liar, in a box.
fn boxed_liar(alloc: Global) -> Result<Box<dyn Prover>, AllocError>
    ensures tells { IfOk result (λ p. plan p ≡ Some (λ _ _. attempt.Unsat [])) }
    ensures lacked { IfOk result (λ p. lacks p ≡ 0) }
{
    Ok(Box::new(alloc, Liar { asked: 0 })?)
}

/// Asks the liar alone: it is gone, or else it lacked memory.
fn liar_alone(alloc: Global, cnf: &Cnf, budget: u32) -> Result<Alone, Memory>
    ensures gone { IfOk result (λ r. IsGoneOrLacks r.1.items r.0.retired 0 (record { asked = asked; lacks = lacks; honest = honest; plan = plan })) }
{
    let Ok(liar) = boxed_liar(alloc) else {
        return Err(Memory);
    };
    ask_alone(alloc, liar, cnf, budget)
}

/// The honest prover, in a box.
fn boxed_idler(alloc: Global) -> Result<Box<dyn Prover>, AllocError>
    ensures tells { IfOk result (λ p. plan p ≡ Some (λ _ _. attempt.GaveUp)) }
    ensures often { IfOk result (λ p. asked p ≡ 0) }
    ensures honest { IfOk result (λ p. honest p ≡ true) }
{
    Ok(Box::new(alloc, Idler { asked: 0 })?)
}

/// Asks the honest prover alone: it is left, and was asked once.
fn idler_alone(alloc: Global, cnf: &Cnf, budget: u32) -> Result<Alone, Memory>
    ensures left { IfOk result (λ r. IsLeft r.1.items r.0.retired 1 true (record { asked = asked; lacks = lacks; honest = honest; plan = plan })) }
{
    let Ok(idler) = boxed_idler(alloc) else {
        return Err(Memory);
    };
    ask_alone(alloc, idler, cnf, budget)
}

/// The prover that lies at its third call, in a box, as it is after so many calls.
fn boxed_third_liar(alloc: Global, calls: u64) -> Result<Box<dyn Prover>, AllocError>
    ensures tells { IfOk result (λ p. plan p ≡ Some (λ _ _. if nat_eq calls 2 then attempt.Unsat [] else attempt.GaveUp)) }
    ensures lacked { IfOk result (λ p. lacks p ≡ 0) }
    ensures often { IfOk result (λ p. asked p ≡ calls) }
    ensures honest { IfOk result (λ p. honest p ≡ false) }
{
    Ok(Box::new(alloc, ThirdLiar { asked: calls })?)
}

/// Asks the prover alone that lies at its third call, after so many calls: at the third it is gone, or else it lacked memory, and at any other it is left.
fn third_liar_alone(alloc: Global, calls: u64, cnf: &Cnf, budget: u32) -> Result<Alone, Memory>
    ensures gone { calls ≡ 2 → IfOk result (λ r. IsGoneOrLacks r.1.items r.0.retired 0 (record { asked = asked; lacks = lacks; honest = honest; plan = plan })) }
    ensures left { calls ≢ 2 → IfOk result (λ r. IsLeft r.1.items r.0.retired (count_up calls) false (record { asked = asked; lacks = lacks; honest = honest; plan = plan })) }
{
    let Ok(prover) = boxed_third_liar(alloc, calls) else {
        return Err(Memory);
    };
    ask_alone(alloc, prover, cnf, budget)
}

/// Whether the answer was that there are no values, how many provers are gone, and how many are left.
type Count = (bool, usize, usize);

fn count(left: Result<Alone, Memory>) -> Result<Count, AllocError> {
    match left {
        Ok((asked, provers)) => Ok((
            matches!(&asked.outcome, Outcome::Unsat(_)),
            asked.retired,
            provers.len(),
        )),
        Err(Memory) => Err(AllocError),
    }
}

#[test]
fn tellers(rt: HostRuntime) -> Result<(), Fail> {
    let alloc = rt.alloc();
    let cnf = cnf_of(&rt, alloc, 12, PIGEONS)?;
    assert_eq!(rt; count(liar_alone(alloc, &cnf, 20))?, (true, 1, 0));
    assert_eq!(rt; count(idler_alone(alloc, &cnf, 20))?, (true, 0, 1));
    assert_eq!(rt; count(third_liar_alone(alloc, 0, &cnf, 20))?, (true, 0, 1));
    assert_eq!(rt; count(third_liar_alone(alloc, 1, &cnf, 20))?, (true, 0, 1));
    assert_eq!(rt; count(third_liar_alone(alloc, 2, &cnf, 20))?, (true, 1, 0));
    Ok(())
}

/// How many provers three rounds in turn drop.
fn thrice(
    alloc: Global,
    provers: &mut Vec<Box<dyn Prover>>,
    cnf: &Cnf,
    budget: u32,
) -> Result<(usize, usize, usize), Memory> {
    let first = ask(alloc, provers, cnf, budget)?.retired;
    let second = ask(alloc, provers, cnf, budget)?.retired;
    let third = ask(alloc, provers, cnf, budget)?.retired;
    Ok((first, second, third))
}

/// The prover that lies at its third call, in three rounds.
fn third_liar(alloc: Global, cnf: &Cnf, budget: u32) -> Result<(usize, usize, usize), AllocError> {
    let mut provers: Vec<Box<dyn Prover>> = Vec::new(alloc);
    provers.push(Box::new(alloc, ThirdLiar { asked: 0 })?)?;
    match thrice(alloc, &mut provers, cnf, budget) {
        Ok(retired) => Ok(retired),
        Err(Memory) => Err(AllocError),
    }
}

#[test]
fn the_third_call(rt: HostRuntime) -> Result<(), Fail> {
    let alloc = rt.alloc();
    let cnf = cnf_of(&rt, alloc, 12, PIGEONS)?;
    assert_eq!(rt; third_liar(alloc, &cnf, 20)?, (0, 0, 1));
    Ok(())
}
