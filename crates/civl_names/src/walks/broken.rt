// The first place at which a rule is broken, found without memory.
ghost use Rattle.std.specs.Prelude.{◌≡◌, ◌≤◌, ◌<◌, ◌^◌, length};
ghost use Rattle.civl_tree.specs.Numbering.{statements_of};
ghost use Rattle.civl_tree.specs.Numbered.{IsNumbered};
ghost use Rattle.civl_tree.specs.rules.Codes.{number_of};
ghost use Rattle.civl_tree.specs.rules.Rules.{Rule, refusals_of, first_of};

use crate::walks::item::{first_item, item_refusal};
use civl_tree::{Action, Global, Invariant, Proc, Program, Refusal, Thread};

/// A rule whose parts are judged without memory. Each item is handed on with its place among those of its kind.
pub trait Decides {
    ghost rule: { Self → Rule };

    /// The number of the rule's code.
    fn code(&self) -> u32
        ensures { result ≡ number_of (rule self.now).code };

    /// Whether the three numbers of the header break the rule.
    fn header(&self, program: &Program) -> bool
        ensures { result ≡ (rule self.now).header program.now };

    /// Whether a global breaks the rule.
    fn global(&self, program: &Program, place: usize, global: &Global) -> bool
        requires { place ≤ length program.now.globals }
        ensures { result ≡ (rule self.now).global program.now place global.now };

    /// Whether `init` breaks the rule.
    fn init(&self, program: &Program) -> bool
        ensures { result ≡ (rule self.now).init program.now };

    /// Whether an invariant breaks the rule.
    fn invariant(&self, program: &Program, place: usize, invariant: &Invariant) -> bool
        ensures { result ≡ (rule self.now).invariant program.now place invariant.now };

    /// Whether an action breaks the rule.
    fn action(&self, program: &Program, place: usize, action: &Action) -> bool
        ensures { result ≡ (rule self.now).action program.now place action.now };

    /// Whether a procedure as a whole breaks the rule.
    fn proc(&self, program: &Program, place: usize, proc: &Proc) -> bool
        requires { place ≤ length program.now.procs }
        ensures { result ≡ (rule self.now).proc program.now place proc.now };

    /// The number of the first statement of a procedure that breaks the rule.
    fn statement(&self, program: &Program, place: usize, proc: &Proc) -> Option<u32>
        requires place { place ≤ length program.now.procs }
        requires body { length (statements_of proc.now.body) < 2 ^ 32 }
        ensures { result ≡ first_of ((rule self.now).statements program.now place proc.now) };

    /// Whether a declared thread breaks the rule.
    fn thread(&self, program: &Program, place: usize, thread: &Thread) -> bool
        ensures { result ≡ (rule self.now).thread program.now place thread.now };
}

/// The refusal of the first place, by item and statement, at which the rule is broken. The program has fewer than 2^32
/// items, and each procedure fewer than 2^32 statements. It takes no memory.
#[tactic(auto, using(crate::proofs::walks::Placing::of_places), unfolding(civl_tree::specs::rules::Rules::places_of))]
pub fn first_broken<R: Decides>(rule: &R, program: &Program) -> Option<Refusal>
    requires { IsNumbered program.now }
    ensures { result ≡ first_of (refusals_of (R.rule rule.now) program.now) }
{
    if let Some(refusal) = item_refusal(rule, 0, rule.header(program)) {
        return Some(refusal);
    }
    if let Some(refusal) = first_item(rule, program, program.globals.as_slice()) {
        return Some(refusal);
    }
    let init = program.globals.len() as u32;
    if let Some(refusal) = item_refusal(rule, init, rule.init(program)) {
        return Some(refusal);
    }
    if let Some(refusal) = first_item(rule, program, program.invariants.as_slice()) {
        return Some(refusal);
    }
    if let Some(refusal) = first_item(rule, program, program.actions.as_slice()) {
        return Some(refusal);
    }
    if let Some(refusal) = first_item(rule, program, program.procs.as_slice()) {
        return Some(refusal);
    }
    first_item(rule, program, program.threads.as_slice())
}
