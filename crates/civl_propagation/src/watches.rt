// The literals of clauses that are watched.
ghost use Rattle.std.specs.Prelude.{◌≡◌, ◌≢◌, ◌<◌, [], None, Some, length, replicate, slice_set, slice_index_or, IfOk, OnOk};
ghost use Rattle.civl_units.specs.Occurrences.{nowhere, of_sign, with_number};
ghost use Rattle.civl_propagation.specs.Watches.{watchers, without_number, with_listed, with_unlisted, with_pair, IsPairBelow, IsPairApart, OtherSays, IsRewatched};

use crate::Memory;
use crate::pairs::Watched;
use civl_cnf::Lit;
use smallvec::SmallVec;
use std::alloc::Global;
use std::marker::Model;

/// Two literals of a clause that are watched: the clause is visited when one of them becomes false.
#[derive(Clone, Copy, Drop)]
pub struct Pair {
    pub first: Lit,
    pub second: Lit,
}

/// What a visit of a clause did: the clause with this number is falsified, or its watches stay, or one went to another literal.
#[derive(Clone, Copy, Drop)]
pub enum Visit {
    Falsified(usize),
    Stays,
    Moved,
}

/// Numbers of clauses for a variable and for its negation, up to four of each in the value itself. Contracts see it as the record of both lists.
#[derive(Drop)]
struct Signs {
    positive: SmallVec<u32, 4>,
    negative: SmallVec<u32, 4>,
}

impl Model for Signs {
    ghost use Rattle.civl_units.specs.Occurrences.{BothSigns};

    ghost Value = { BothSigns };

    ghost view = { λ s. record { positive = s.positive.items; negative = s.negative.items } };
}

impl Signs {
    /// No numbers.
    fn new(alloc: Global) -> Signs
        ensures { result ≡ nowhere }
    {
        Signs {
            positive: SmallVec::new(alloc),
            negative: SmallVec::new(alloc),
        }
    }

    /// The numbers of a sign.
    fn of(&self, positive: bool) -> &[u32]
        ensures { result.now ≡ of_sign positive self.now }
    {
        if positive {
            self.positive.as_slice()
        } else {
            self.negative.as_slice()
        }
    }

    /// Adds a number at the end of the list of a sign.
    fn add(&mut self, positive: bool, number: u32) -> Result<(), Memory>
        ensures { OnOk result (self.new ≡ with_number positive number self.old) }
    {
        if positive {
            self.positive.push(number)?;
        } else {
            self.negative.push(number)?;
        }
        Ok(())
    }

    /// Takes the number at a place out of the list of a sign. The last one takes its place.
    fn remove(&mut self, positive: bool, at: usize)
        requires { at < length (of_sign positive self.old) }
        ensures { self.new ≡ without_number positive at self.old }
    {
        if positive {
            self.positive.swap_remove(at);
        } else {
            self.negative.swap_remove(at);
        }
    }
}

/// For each clause the two literals that are watched, if it has two, and for each literal the clauses that are to be visited when it becomes false. Contracts see it as the record of both.
#[derive(Drop)]
pub struct Watches {
    pairs: Vec<Watched>,
    lists: Vec<Signs>,
}

impl Model for Watches {
    ghost use Rattle.civl_propagation.specs.Watches.{WatchState};

    ghost Value = { WatchState };

    ghost view = { λ w. record { pairs = w.pairs.items; lists = w.lists.items } };
}

impl Watches {
    /// No clauses, over so many variables.
    pub fn new(alloc: Global, variables: u32) -> Result<Watches, Memory>
        ensures { IfOk result (λ watches. watches ≡ record { pairs = []; lists = replicate variables nowhere }) }
    {
        let mut lists = Vec::new(alloc);
        for _at in 0..variables {
            lists.push(Signs::new(alloc))?;
        }
        Ok(Watches {
            pairs: Vec::new(alloc),
            lists,
        })
    }

    /// The clauses that are to be visited when the literal becomes false.
    fn of(&self, lit: Lit) -> &[u32]
        requires { lit.variable < length self.now.lists }
        ensures { result.now ≡ watchers self.now.lists lit }
    {
        self.lists[lit.variable() as usize].of(lit.positive())
    }

    /// How many there are.
    pub fn count(&self, lit: Lit) -> usize
        requires { lit.variable < length self.now.lists }
        ensures { result ≡ length (watchers self.now.lists lit) }
    {
        self.of(lit).len()
    }

    /// The one at a place.
    pub fn at(&self, lit: Lit, at: usize) -> u32
        requires variable { lit.variable < length self.now.lists }
        requires place { at < length (watchers self.now.lists lit) }
        ensures { result ≡ slice_index_or (watchers self.now.lists lit) at 0 }
    {
        self.of(lit)[at]
    }

    /// The other watched literal of the clause with a number, if this one is watched.
    pub fn other(&self, number: u32, lit: Lit) -> Option<Lit>
        requires { number < length self.now.pairs }
        ensures { OtherSays (slice_index_or self.now.pairs number None) lit result }
    {
        self.pairs[number as usize].other(lit)
    }

    /// The clause with a number has these watched literals, which differ.
    fn set(&mut self, number: u32, pair: Pair)
        requires number { number < length self.old.pairs }
        requires apart { pair.first ≢ pair.second }
        ensures { self.new ≡ record self.old { pairs = slice_set self.old.pairs number (Some pair) } }
    {
        self.pairs[number as usize] = Watched::two(pair.first, pair.second);
    }

    /// Adds a clause at the end of a literal's list.
    fn list(&mut self, lit: Lit, number: u32) -> Result<(), Memory>
        requires { lit.variable < length self.old.lists }
        ensures { OnOk result (self.new ≡ record self.old { lists = with_listed self.old.lists lit number }) }
    {
        self.lists[lit.variable() as usize].add(lit.positive(), number)
    }

    /// Takes the clause at a place out of a literal's list.
    fn unlist(&mut self, lit: Lit, at: usize)
        requires variable { lit.variable < length self.old.lists }
        requires place { at < length (watchers self.old.lists lit) }
        ensures { self.new ≡ record self.old { lists = with_unlisted self.old.lists lit at } }
    {
        self.lists[lit.variable() as usize].remove(lit.positive(), at);
    }

    /// The next clause watches these literals, which differ.
    fn push_pair(&mut self, first: Lit, second: Lit) -> Result<(), Memory>
        requires apart { first ≢ second }
        requires first { first.variable < length self.old.lists }
        requires second { second.variable < length self.old.lists }
        ensures { OnOk result (self.new ≡ with_pair self.old (Some (record { first = first; second = second }))) }
    {
        let number = self.pairs.len();
        if number > u32::MAX as usize {
            return Err(Memory);
        }
        self.list(first, number as u32)?;
        self.list(second, number as u32)?;
        self.pairs.push(Watched::two(first, second))?;
        Ok(())
    }

    /// The next clause watches these literals, if it has two. Numbers of clauses have 32 bits.
    pub fn watch(&mut self, pair: Option<Pair>) -> Result<(), Memory>
        requires below { IsPairBelow (length self.old.lists) pair }
        requires apart { IsPairApart pair }
        ensures { OnOk result (self.new ≡ with_pair self.old pair) }
    {
        match pair {
            None => {
                self.pairs.push(Watched::none())?;
                Ok(())
            }
            Some(two) => self.push_pair(two.first, two.second),
        }
    }

    /// The clause at a place of a literal's list watches this pair instead. Its first literal is new to the clause's watches.
    pub fn rewatch(&mut self, lit: Lit, at: usize, pair: Pair) -> Result<(), Memory>
        requires variable { lit.variable < length self.old.lists }
        requires place { at < length (watchers self.old.lists lit) }
        requires first { pair.first.variable < length self.old.lists }
        requires number { slice_index_or (watchers self.old.lists lit) at 0 < length self.old.pairs }
        requires other { pair.first ≢ lit }
        requires apart { pair.first ≢ pair.second }
        ensures { OnOk result (IsRewatched self.old self.new lit at pair) }
    {
        let number = self.at(lit, at);
        self.list(pair.first, number)?;
        self.unlist(lit, at);
        self.set(number, pair);
        Ok(())
    }
}
