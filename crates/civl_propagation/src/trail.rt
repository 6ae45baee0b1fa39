// The trail of unit propagation.
ghost use Rattle.std.specs.Prelude.{◌≡◌, ◌<◌, ◌-◌, length, OnOk, OnErr, IfOk, slice_index_or, replicate, None, []};
ghost use Rattle.civl_propagation.specs.declared.trail.Step.{Step as StepOf};
ghost use Rattle.civl_propagation.specs.Trail.{IsPushed, IsDecided, IsPopped, IsUnstarted, IsStanding, IsCut};

use crate::Memory;
use civl_cnf::Lit;
use std::alloc::Global;
use std::marker::Model;

/// A literal that was made true, and the number of the clause that forced it, if one did.
#[derive(Clone, Copy, Drop)]
pub struct Step {
    pub lit: Lit,
    pub reason: Option<usize>,
}

/// The literals that were made true, in order, and where levels start. Contracts see it as the record of all this.
#[derive(Drop)]
pub struct Trail {
    marks: Vec<Option<bool>>,
    places: Vec<usize>,
    steps: Vec<Step>,
    starts: Vec<usize>,
}

impl Model for Trail {
    ghost use Rattle.civl_propagation.specs.Trail.{TrailState};

    ghost Value = { TrailState };

    ghost view = { λ t. record { marks = t.marks.items; places = t.places.items; steps = t.steps.items; starts = t.starts.items } };
}

impl Trail {
    /// A trail with no literal, over so many variables.
    ///
    /// # Errors
    ///
    /// For want of memory.
    pub fn new(alloc: Global, variables: u32) -> Result<Trail, Memory>
        ensures { IfOk result (λ trail. trail ≡ record { marks = replicate variables None; places = replicate variables 0; steps = []; starts = [] }) }
    {
        let marks = Vec::from_elem(alloc, None, variables as usize)?;
        let places = Vec::from_elem(alloc, 0, variables as usize)?;
        Ok(Trail {
            marks,
            places,
            steps: Vec::new(alloc),
            starts: Vec::new(alloc),
        })
    }

    /// For each variable the value that it has.
    pub fn marks(&self) -> &[Option<bool>]
        ensures { result.now ≡ self.now.marks }
    {
        self.marks.as_slice()
    }

    /// For each variable that has a value its place among the steps.
    pub fn places(&self) -> &[usize]
        ensures { result.now ≡ self.now.places }
    {
        self.places.as_slice()
    }

    /// All steps.
    pub fn steps(&self) -> &[Step]
        ensures { result.now ≡ self.now.steps }
    {
        self.steps.as_slice()
    }

    /// The places at which levels start.
    pub fn starts(&self) -> &[usize]
        ensures { result.now ≡ self.now.starts }
    {
        self.starts.as_slice()
    }

    /// How many steps there are.
    pub fn len(&self) -> usize
        ensures { result ≡ length self.now.steps }
    {
        self.steps.len()
    }

    /// How many levels there are.
    pub fn levels(&self) -> usize
        ensures { result ≡ length self.now.starts }
    {
        self.starts.len()
    }

    /// The step at a place, from 0.
    pub fn step(&self, at: usize) -> Step
        requires { at < length self.now.steps }
        ensures { (d : StepOf) → result ≡ slice_index_or self.now.steps at d }
    {
        self.steps[at]
    }

    /// Makes a literal true. After want of memory the trail is as it was.
    ///
    /// # Errors
    ///
    /// For want of memory.
    pub fn push(&mut self, lit: Lit, reason: Option<usize>) -> Result<(), Memory>
        requires marks { lit.variable < length self.old.marks }
        requires places { lit.variable < length self.old.places }
        ensures ok { OnOk result (IsPushed self.old self.new lit reason) }
        ensures err { OnErr result (self.new ≡ self.old) }
    {
        let place = self.steps.len();
        self.steps.push(Step { lit, reason })?;
        self.marks[lit.variable() as usize] = Some(lit.positive());
        self.places[lit.variable() as usize] = place;
        Ok(())
    }

    /// Begins a level with a literal. After want of memory the level may have begun without it.
    ///
    /// # Errors
    ///
    /// For want of memory.
    pub fn decide(&mut self, lit: Lit) -> Result<(), Memory>
        requires marks { lit.variable < length self.old.marks }
        requires places { lit.variable < length self.old.places }
        ensures { OnOk result (IsDecided self.old self.new lit) }
    {
        let place = self.steps.len();
        self.starts.push(place)?;
        self.push(lit, None)
    }

    /// Takes back the start of the last level.
    fn unstart(&mut self)
        requires { 0 < length self.old.starts }
        ensures { IsUnstarted self.old self.new }
    {
        let last = self.starts.len() - 1;
        self.starts.truncate(last);
    }

    /// Takes the last literal back.
    fn pop(&mut self)
        requires some { 0 < length self.old.steps }
        requires last { (d : StepOf) → (slice_index_or self.old.steps (length self.old.steps - 1) d).lit.variable < length self.old.marks }
        ensures { IsPopped self.old self.new }
    {
        let last = self.steps.len() - 1;
        let step = self.steps[last];
        self.marks[step.lit.variable() as usize] = None;
        self.steps.truncate(last);
    }

    /// Where the last level starts.
    fn top(&self) -> usize
        requires { 0 < length self.now.starts }
        ensures { result ≡ slice_index_or self.now.starts (length self.now.starts - 1) 0 }
    {
        self.starts[self.starts.len() - 1]
    }

    /// Takes back the last level.
    fn pop_level(&mut self)
        requires standing { IsStanding self.old }
        requires some { 0 < length self.old.starts }
        ensures { IsCut self.old self.new (length self.old.starts - 1) }
    {
        let top = self.top();
        while top < self.len() {
            self.pop();
        }
        self.unstart();
    }

    /// Takes levels back, one at least, until there are so many.
    pub fn cut(&mut self, levels: usize)
        requires standing { IsStanding self.old }
        requires some { levels < length self.old.starts }
        ensures { IsCut self.old self.new levels }
    {
        self.pop_level();
        while levels < self.levels() {
            self.pop_level();
        }
    }
}
