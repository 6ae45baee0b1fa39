// Numbers, of which most follow one another.
ghost use Rattle.std.specs.Prelude.{◌≡◌, ◌+◌, ◌≤◌, ◌^◌, ◌∷◌, [], ◌++◌, IfOk, OnOk};
ghost use Rattle.civl_bodies.specs.Numbers.{numbers_in};

use civl_tree::Memory;
use std::alloc::Global;
use std::marker::Model;

/// So many numbers that follow one another, from the first on.
#[derive(Clone, Copy, Drop)]
pub(crate) struct Run {
    pub first: u32,
    pub count: u32,
}

/// Numbers, which contracts see as their list. Those that follow one another take the room of one.
#[derive(Drop)]
pub struct Numbers {
    runs: Vec<Run>,
    last: Run,
}

impl Model for Numbers {
    ghost use Rattle.std.specs.Prelude.{ℕ, ◌+◌, ◌≤◌, ◌^◌, ◌++◌, List, flat_map, All};
    ghost use Rattle.civl_bodies.specs.Numbers.{numbers_in};

    ghost Value = { List ℕ };

    ghost view = { λ n. flat_map numbers_in n.runs.items ++ numbers_in n.last };

    ghost invariant = { λ n. All (λ r. r.first + r.count ≤ 2 ^ 32) n.runs.items × (n.last.first + n.last.count ≤ 2 ^ 32) };
}

/// Puts the numbers of a run behind others.
fn push_run(list: &mut Vec<u32>, run: Run) -> Result<(), Memory>
    requires { run.first + run.count ≤ 2 ^ 32 }
    ensures { OnOk result (list.new.items ≡ list.old.items ++ numbers_in run) }
{
    for at in 0..run.count {
        list.push(run.first + at)?;
    }
    Ok(())
}

impl Numbers {
    /// No numbers.
    fn new(alloc: Global) -> Numbers
        ensures { result ≡ [] }
    {
        Numbers {
            runs: Vec::new(alloc),
            last: Run { first: 0, count: 0 },
        }
    }

    /// Puts a number behind the others.
    fn push(&mut self, number: u32) -> Result<(), Memory>
        ensures { OnOk result (self.new ≡ self.old ++ number ∷ []) }
    {
        let Run { first, count } = self.last;
        if first <= number && number - first == count && count < u32::MAX {
            self.last = Run {
                first,
                count: count + 1,
            };
            return Ok(());
        }
        self.runs.push(Run { first, count })?;
        self.last = Run {
            first: number,
            count: 1,
        };
        Ok(())
    }

    /// These numbers.
    pub(crate) fn from_slice(alloc: Global, list: &[u32]) -> Result<Numbers, Memory>
        ensures { IfOk result (λ numbers. numbers ≡ list.now) }
    {
        let mut numbers = Numbers::new(alloc);
        for number in list {
            numbers.push(*number)?;
        }
        Ok(numbers)
    }

    /// All of them, in their order.
    ///
    /// # Errors
    ///
    /// For want of memory.
    pub fn list(&self, alloc: Global) -> Result<Vec<u32>, Memory>
        ensures { IfOk result (λ list. list.items ≡ self.now) }
    {
        let mut list = Vec::new(alloc);
        for run in self.runs.as_slice() {
            push_run(&mut list, *run)?;
        }
        push_run(&mut list, self.last)?;
        Ok(list)
    }
}
