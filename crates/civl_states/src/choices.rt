// The terms for the choices of calls.
ghost use Rattle.std.specs.Prelude.{◌≡◌, map};
ghost use Rattle.std.specs.List.Sorted.{IsStrictlyIncreasing};
ghost use Rattle.civl_states.specs.Beginnings.{chosen_at};

use civl_terms::Id;
use civl_tree::List;
use std::marker::Model;

/// The terms for the choices of the statement with this number: those of the action that it calls.
#[derive(Drop)]
pub struct Chosen {
    pub statement: u32,
    pub choices: List<Id>,
}

/// The terms for the choices of calls, which contracts see as the list of what each call chooses. The numbers of the calls rise, so
/// one is found by a binary search.
#[derive(Drop)]
pub struct Choices {
    calls: Vec<Chosen>,
}

impl Model for Choices {
    ghost use Rattle.std.specs.Prelude.{List, map};
    ghost use Rattle.std.specs.List.Sorted.{IsStrictlyIncreasing};
    ghost use Rattle.civl_states.specs.declared.choices.Chosen.{Chosen};

    ghost Value = { List Chosen };

    ghost view = { λ c. c.calls.items };

    ghost invariant = { λ c. IsStrictlyIncreasing (map (λ q. q.statement) c.calls.items) };
}

impl Choices {
    /// What these calls choose, whose numbers rise.
    pub(crate) fn from_vec(calls: Vec<Chosen>) -> Choices
        requires { IsStrictlyIncreasing (map (λ q. q.statement) calls.items) }
        ensures { result ≡ calls.items }
    {
        Choices { calls }
    }

    /// The terms for the choices of the call with this number; none where there is no such call.
    pub fn at(&self, number: u32) -> &[Id]
        ensures { result.now ≡ chosen_at self.now number }
    {
        match self
            .calls
            .binary_search_by_key(&number, |call| call.statement)
        {
            Ok(at) => self.calls[at].choices.as_slice(),
            Err(_) => &[],
        }
    }
}
