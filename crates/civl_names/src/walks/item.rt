// The first item of a kind that breaks a rule.
ghost use Rattle.std.specs.Prelude.{ℕ, ◌≡◌, List, map, slice_get, Some};
ghost use Rattle.civl_tree.specs.declared.program.Program.{Program};
ghost use Rattle.civl_tree.specs.Numbered.{IsNumbered};
ghost use Rattle.civl_tree.specs.rules.Rules.{Rule, Place, refusal_at, item_place, each_place, global_places, invariant_places, action_places, proc_places, thread_places, first_of};

use crate::walks::broken::Decides;
use civl_tree::{Action, Global, Invariant, Proc, Program, Refusal, Thread};

/// The refusal of an item as a whole, where it is broken.
pub(crate) fn item_refusal<R: Decides>(rule: &R, item: u32, broken: bool) -> Option<Refusal>
    ensures { result ≡ first_of (map (refusal_at (R.rule rule.now).code) (item_place item broken)) }
{
    if broken {
        Some(Refusal {
            code: rule.code(),
            item,
            statement: 0,
        })
    } else {
        None
    }
}

/// An item of one kind of a program.
pub(crate) trait Item<R: Decides> {
    ghost items: { Program → List Self };

    ghost places_in: { Rule → Program → ℕ → Self → List Place };

    /// The refusal of the first place in the item at which it breaks the rule, where it stands at this place among those
    /// of its kind.
    fn refusal(&self, rule: &R, program: &Program, place: usize) -> Option<Refusal>
        requires numbered { IsNumbered program.now }
        requires place { slice_get (items program.now) place ≡ Some self.now }
        ensures { result ≡ first_of (map (refusal_at (R.rule rule.now).code) (places_in (R.rule rule.now) program.now place self.now)) };
}

/// The refusal of the first of the items of a kind that is broken.
pub(crate) fn first_item<R: Decides, T: Item<R>>(
    rule: &R,
    program: &Program,
    items: &[T],
) -> Option<Refusal>
    requires numbered { IsNumbered program.now }
    requires items { items.now ≡ T.items program.now }
    ensures { result ≡ first_of (map (refusal_at (R.rule rule.now).code) (each_place (T.places_in (R.rule rule.now) program.now) 0 items.now)) }
{
    for (place, item) in items.iter().enumerate() {
        if let Some(refusal) = item.refusal(rule, program, place) {
            return Some(refusal);
        }
    }
    None
}

impl<R: Decides> Item<R> for Global {
    ghost items = { λ program. program.globals };

    ghost places_in = { global_places };

    fn refusal(&self, rule: &R, program: &Program, place: usize) -> Option<Refusal> {
        let item = place as u32;
        item_refusal(rule, item, rule.global(program, place, self))
    }
}

impl<R: Decides> Item<R> for Invariant {
    ghost items = { λ program. program.invariants };

    ghost places_in = { invariant_places };

    fn refusal(&self, rule: &R, program: &Program, place: usize) -> Option<Refusal> {
        let item = (program.globals.len() + 1 + place) as u32;
        item_refusal(rule, item, rule.invariant(program, place, self))
    }
}

impl<R: Decides> Item<R> for Action {
    ghost items = { λ program. program.actions };

    ghost places_in = { action_places };

    fn refusal(&self, rule: &R, program: &Program, place: usize) -> Option<Refusal> {
        let item = (program.globals.len() + 1 + program.invariants.len() + place) as u32;
        item_refusal(rule, item, rule.action(program, place, self))
    }
}

impl<R: Decides> Item<R> for Proc {
    ghost items = { λ program. program.procs };

    ghost places_in = { proc_places };

    #[tactic(auto, using(crate::proofs::walks::Placing::of_procs))]
    fn refusal(&self, rule: &R, program: &Program, place: usize) -> Option<Refusal> {
        let item = (program.globals.len()
            + 1
            + program.invariants.len()
            + program.actions.len()
            + place) as u32;
        if rule.proc(program, place, self) {
            return Some(Refusal {
                code: rule.code(),
                item,
                statement: 0,
            });
        }
        match rule.statement(program, place, self) {
            Some(statement) => Some(Refusal {
                code: rule.code(),
                item,
                statement,
            }),
            None => None,
        }
    }
}

impl<R: Decides> Item<R> for Thread {
    ghost items = { λ program. program.threads };

    ghost places_in = { thread_places };

    fn refusal(&self, rule: &R, program: &Program, place: usize) -> Option<Refusal> {
        let item = (program.globals.len()
            + 1
            + program.invariants.len()
            + program.actions.len()
            + program.procs.len()
            + place) as u32;
        item_refusal(rule, item, rule.thread(program, place, self))
    }
}
