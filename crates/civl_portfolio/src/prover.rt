// A prover that is asked.
ghost use Rattle.std.specs.Prelude.{◌≡◌, ◌≤◌, ◌⊎◌, ℕ, Bool, Option, IfSome, IsTrue};
ghost use Rattle.civl_cnf.specs.ClauseSet.{ClauseSet};
ghost use Rattle.civl_outside.specs.Count.{count_up, Rose};
ghost use Rattle.civl_portfolio.specs.Attempt.{Stands};

use crate::Attempt;
use civl_cnf::Cnf;
use std::alloc::Global;

/// A prover: a box that is asked about clause sets, and of which nothing is known but what it tells.
pub trait Prover: Drop {
    ghost use Rattle.civl_portfolio.specs.declared.attempt.Attempt.{Attempt};

    /// How often it was asked. The count is a u64 and stays at its last value.
    ghost asked: { Self → ℕ };

    /// How often memory was wanting, at least. The count is a u64 and stays at its last value.
    ghost lacks: { Self → ℕ };

    /// Whether each certificate that it answers stands.
    ghost honest: { Self → Bool };

    /// Where it tells, the answer that it has, as it stands, for a clause set and a budget.
    ghost plan: { Self → Option (ClauseSet → ℕ → Attempt) };

    /// Asks for bits that make the clause set true, or for a log that refutes it. The budget is the one of the search behind all provers, and binds none. `Memory` is answered only where `lacks` rose; any other answer is free, but for what `honest` and `plan` say.
    fn attempt(&mut self, alloc: Global, cnf: &Cnf, budget: u32) -> Attempt
        ensures asked { asked self.new ≡ count_up (asked self.old) }
        ensures lacks { lacks self.old ≤ lacks self.new }
        ensures memory { result ≡ Attempt.Memory → Rose (lacks self.old) (lacks self.new) }
        ensures same { honest self.new ≡ honest self.old }
        ensures honest { IsTrue (honest self.old) → Stands cnf.now result }
        ensures plan { IfSome (plan self.old) (λ plan. (result ≡ plan cnf.now budget) ⊎ (result ≡ Attempt.Memory)) };
}
