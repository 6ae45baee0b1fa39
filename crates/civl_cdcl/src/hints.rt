// Hints for the log.
use crate::Memory;
use civl_cnf::Lit;
use civl_propagation::{Step, Trail};
use std::alloc::Global;

/// So many hints are kept at most, of all clauses together. Clauses behind them have none.
const MOST: usize = 33_554_432;

/// By which clauses propagation finds the last conflict once the literals of the learned clause are false: the reasons of what played a part in it, in the order of the trail, and the clause that was falsified. In front of them stand the reasons of what has become true by itself since the last time. Nothing is promised of them.
#[derive(Drop)]
pub struct Hints {
    numbers: Vec<u32>,
    places: Vec<usize>,
    /// The reasons of so many first steps were told.
    told: usize,
    /// How many hints there were in all.
    total: usize,
}

/// The place of a variable among the steps, or 0.
pub fn place_of(places: &[usize], variable: u32) -> usize {
    let at = variable as usize;
    if at < places.len() { places[at] } else { 0 }
}

/// Adds a number, if it has 32 bits.
fn push_number(numbers: &mut Vec<u32>, number: usize) -> Result<(), Memory> {
    match u32::try_from(number) {
        Err(_) => Ok(()),
        Ok(number) => {
            numbers.push(number)?;
            Ok(())
        }
    }
}

/// Adds the reason of the step at a place, if it has one.
fn push_reason(numbers: &mut Vec<u32>, steps: &[Step], place: usize) -> Result<(), Memory> {
    if place >= steps.len() {
        return Ok(());
    }
    match steps[place].reason {
        None => Ok(()),
        Some(reason) => push_number(numbers, reason),
    }
}

/// The places of variables, in rising order.
fn sort_places(places: &mut Vec<usize>, trail: &Trail, found: &[u32]) -> Result<(), Memory> {
    places.clear();
    for variable in found {
        places.push(place_of(trail.places(), *variable))?;
    }
    places.sort_unstable();
    Ok(())
}

/// Adds the reasons of the steps at these places, but for those of a clause's variables. Both are in rising order.
fn push_others(
    numbers: &mut Vec<u32>,
    trail: &Trail,
    places: &[usize],
    clause: &[Lit],
) -> Result<(), Memory> {
    let mut next = 0;
    for place in places {
        if next < clause.len() && place_of(trail.places(), clause[next].variable()) == *place {
            next += 1;
        } else {
            push_reason(numbers, trail.steps(), *place)?;
        }
    }
    Ok(())
}

impl Hints {
    /// Before any conflict.
    pub fn new(alloc: Global) -> Hints {
        Hints {
            numbers: Vec::new(alloc),
            places: Vec::new(alloc),
            told: 0,
            total: 0,
        }
    }

    /// The numbers of the clauses.
    pub fn numbers(&self) -> &[u32] {
        self.numbers.as_slice()
    }

    /// Begins with what is true by itself: the steps before a place.
    fn begin(&mut self, steps: &[Step], end: usize) -> Result<(), Memory> {
        self.numbers.clear();
        for place in self.told..end {
            push_reason(&mut self.numbers, steps, place)?;
        }
        self.told = self.told.max(end);
        Ok(())
    }

    /// Ends with the clause that was falsified. Where there would be too many hints, none are left.
    fn end(&mut self, conflict: usize) -> Result<(), Memory> {
        push_number(&mut self.numbers, conflict)?;
        self.total = self.total.saturating_add(self.numbers.len());
        if self.total > MOST {
            self.numbers.clear();
        }
        Ok(())
    }

    /// The hints for a clause that was learned, whose literals are in the order of the trail. These variables were found to lead to the conflict.
    pub fn learn(
        &mut self,
        trail: &Trail,
        found: &[u32],
        clause: &[Lit],
        conflict: usize,
    ) -> Result<(), Memory> {
        let root = match trail.starts().first() {
            None => trail.len(),
            Some(start) => *start,
        };
        self.begin(trail.steps(), root)?;
        sort_places(&mut self.places, trail, found)?;
        push_others(&mut self.numbers, trail, self.places.as_slice(), clause)?;
        self.end(conflict)
    }

    /// The hints for the empty clause, where the clauses are refuted by themselves.
    pub fn refute(&mut self, trail: &Trail, conflict: usize) -> Result<(), Memory> {
        self.begin(trail.steps(), trail.len())?;
        self.end(conflict)
    }
}
