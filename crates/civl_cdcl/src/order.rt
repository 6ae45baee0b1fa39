// The order of decisions.
ghost use Rattle.std.specs.Prelude.{◌≤◌, ◌^◌, length, IfSome};
ghost use Rattle.civl_cdcl.specs.inner.Order.{IsFree};
ghost use Rattle.civl_cdcl.specs.inner.Propagation.{ChoiceSays};

use crate::Memory;
use crate::choice::{is_open, next_open};
use civl_cnf::Lit;
use civl_propagation::{Step, Trail};
use std::alloc::Global;
use std::collections::BinaryHeap;

/// So many conflicts pass at most before decisions go by activity.
const FIXED: u64 = 1_000;

/// After so many conflicts it is looked for the first time whether the fixed order is worth keeping.
const EARLY: u64 = 25;

/// So many literals may be taken back by then: twenty by each conflict.
const EARLY_WORK: u64 = 500;

/// After each so many conflicts it is looked again.
const ROUND: u64 = 100;

/// So many literals may be taken back in all before decisions go by activity: where trails are long, the fixed order costs more than it gains.
const WORK: u64 = 30_000;

/// The activity that the first conflict gives.
const FIRST: u64 = 1_024;

/// Where a conflict would give more, all activities are made smaller.
const LIMIT: u64 = 72_057_594_037_927_936;

/// The order in which variables are decided. For the first conflicts the first variable without a value is made false, as long as conflicts take few literals back, and what is learned takes the search far back. From then on it is the variable of the greatest activity, the sum of what conflicts gave it that it played a part in, each a twentieth more than the one before (Moskewicz and others, "Chaff: engineering an efficient SAT solver", 2001; Een and Sorensson, "An extensible SAT-solver", 2003), and it gets the value that it had last (Pipatsrisawat and Darwiche, "A lightweight component caching scheme for satisfiability solvers", 2007). All of this are hints: a variable is taken only where it has no value.
#[derive(Drop)]
pub struct Order {
    variables: u32,
    /// What conflicts gave each variable.
    activities: Vec<u64>,
    /// Variables with the activity that they had when they were queued. Entries that are out of date stay.
    queue: BinaryHeap<(u64, u32)>,
    /// For each variable the activity with which it is queued, and one more, or 0.
    queued: Vec<u64>,
    /// The value that each variable had last.
    phases: Vec<bool>,
    /// What the next conflict gives.
    increment: u64,
    /// How many conflicts there were.
    conflicts: u64,
    /// How many levels were taken back in all.
    taken: u64,
    /// How many literals were taken back in all.
    freed: u64,
    /// Whether decisions go by the fixed order still.
    fixed: bool,
    /// No variable before this one had no value, in the fixed order.
    lowest: usize,
}

/// The value at a place, or 0.
fn at(values: &[u64], place: usize) -> u64 {
    if place < values.len() {
        values[place]
    } else {
        0
    }
}

/// Puts a value at a place, if it is one.
fn put(values: &mut [u64], place: usize, value: u64) {
    if place < values.len() {
        values[place] = value;
    }
}

/// Gives these variables more activity.
fn bump(activities: &mut [u64], found: &[u32], increment: u64) {
    for variable in found {
        let place = *variable as usize;
        let sum = at(activities, place).saturating_add(increment);
        put(activities, place, sum);
    }
}

/// Makes all values smaller.
fn shrink(values: &mut [u64]) {
    for place in 0..values.len() {
        let value = at(values, place) >> 40;
        put(values, place, value);
    }
}

/// Makes all values 0.
fn reset(values: &mut [u64]) {
    for place in 0..values.len() {
        put(values, place, 0);
    }
}

/// Takes entries from the queue, up to one of a variable without a value.
fn pop_open(
    queue: &mut BinaryHeap<(u64, u32)>,
    queued: &mut [u64],
    marks: &[Option<bool>],
) -> Option<u32>
    ensures { IfSome result (λ v. IsFree marks.now v) }
{
    'entries: loop {
        match queue.pop() {
            None => return None,
            Some(entry) => {
                let variable = entry.1;
                put(queued, variable as usize, 0);
                if is_open(marks, variable as usize) {
                    return Some(variable);
                }
            }
        }
    }
}

impl Order {
    /// The order of so many variables, before any conflict.
    pub fn new(alloc: Global, variables: u32) -> Result<Order, Memory> {
        let activities = Vec::from_elem(alloc, 0, variables as usize)?;
        let queued = Vec::from_elem(alloc, 0, variables as usize)?;
        let phases = Vec::from_elem(alloc, false, variables as usize)?;
        Ok(Order {
            variables,
            activities,
            queue: BinaryHeap::new(alloc),
            queued,
            phases,
            increment: FIRST,
            conflicts: 0,
            taken: 0,
            freed: 0,
            fixed: true,
            lowest: 0,
        })
    }

    /// Queues a variable, if it isn't queued with the activity that it has.
    fn enqueue(&mut self, variable: u32) -> Result<(), Memory> {
        let activity = at(self.activities.as_slice(), variable as usize);
        let entry = activity.saturating_add(1);
        if at(self.queued.as_slice(), variable as usize) == entry {
            return Ok(());
        }
        self.queue.push((activity, variable))?;
        put(&mut self.queued, variable as usize, entry);
        Ok(())
    }

    /// Queues all variables anew.
    fn refill(&mut self) -> Result<(), Memory> {
        self.queue.clear();
        reset(&mut self.queued);
        for variable in 0..self.variables {
            self.enqueue(variable)?;
        }
        Ok(())
    }

    /// Whether decisions go by the fixed order still.
    pub fn is_fixed(&self) -> bool {
        self.fixed
    }

    /// Whether the fixed order is to be given up: the first conflicts took back many literals, much was taken back in all, or conflicts take back less than five levels in three. Where each takes back about one, what is learned only rules out one case after the other.
    fn is_poor(&self) -> bool {
        if self.conflicts >= FIXED {
            return true;
        }
        if self.conflicts == EARLY && EARLY_WORK < self.freed {
            return true;
        }
        if self.conflicts % ROUND != 0 {
            return false;
        }
        WORK < self.freed || self.taken.saturating_mul(3) < self.conflicts * 5
    }

    /// Notes a conflict, in which these variables play a part.
    pub fn note(&mut self, found: &[u32]) -> Result<(), Memory> {
        bump(&mut self.activities, found, self.increment);
        self.conflicts = self.conflicts.saturating_add(1);
        self.increment = self.increment.saturating_add(self.increment / 20);
        if LIMIT < self.increment {
            shrink(&mut self.activities);
            self.increment = FIRST;
            self.refill()?;
        }
        if self.fixed && self.is_poor() {
            self.fixed = false;
            self.refill()?;
        }
        Ok(())
    }

    /// Notes that a literal is taken back.
    fn free(&mut self, lit: Lit) -> Result<(), Memory> {
        let place = lit.variable() as usize;
        self.lowest = self.lowest.min(place);
        self.freed = self.freed.saturating_add(1);
        if self.fixed {
            return Ok(());
        }
        if place < self.phases.len() {
            self.phases[place] = lit.positive();
        }
        self.enqueue(lit.variable())
    }

    /// Notes that the literals of these steps are taken back, from a place on.
    fn free_all(&mut self, steps: &[Step], from: usize) -> Result<(), Memory> {
        for place in from..steps.len() {
            self.free(steps[place].lit)?;
        }
        if self.activities.len() < self.queue.len() / 8 {
            self.refill()?;
        }
        Ok(())
    }

    /// Notes that the levels of a trail are taken back until there are so many.
    pub fn take_back(&mut self, trail: &Trail, levels: usize) -> Result<(), Memory> {
        let starts = trail.starts();
        let count = starts.len();
        if levels < count {
            self.taken = self.taken.saturating_add((count - levels) as u64);
            self.free_all(trail.steps(), starts[levels])?;
        }
        Ok(())
    }

    /// The value that a variable had last.
    fn phase(&self, variable: u32) -> bool {
        let place = variable as usize;
        if place < self.phases.len() {
            self.phases[place]
        } else {
            false
        }
    }

    /// The variable of the greatest activity, if decisions go by it.
    fn most_active(&mut self, marks: &[Option<bool>]) -> Option<u32>
        ensures { IfSome result (λ v. IsFree marks.now v) }
    {
        if self.fixed {
            return None;
        }
        pop_open(&mut self.queue, &mut self.queued, marks)
    }

    /// The next variable in the fixed order, made false.
    fn next_fixed(&mut self, marks: &[Option<bool>]) -> Option<Lit>
        requires { length marks.now ≤ 2 ^ 31 }
        ensures { ChoiceSays marks.now result }
    {
        match next_open(marks, self.lowest) {
            None => None,
            Some(variable) => {
                self.lowest = variable;
                Some(Lit::new(variable as u32, false))
            }
        }
    }

    /// The literal that is decided next, if a variable has no value.
    pub fn choose(&mut self, marks: &[Option<bool>]) -> Option<Lit>
        requires { length marks.now ≤ 2 ^ 31 }
        ensures { ChoiceSays marks.now result }
    {
        match self.most_active(marks) {
            None => self.next_fixed(marks),
            Some(variable) => Some(Lit::new(variable, self.phase(variable))),
        }
    }
}
