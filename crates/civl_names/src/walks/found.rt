// The first place in a procedure at which a rule is broken, found with memory.
ghost use Rattle.std.specs.Prelude.{◌≡◌, ◌+◌, ◌<◌, ◌^◌, length, map, IfOk};
ghost use Rattle.civl_tree.specs.Numbering.{proc_item, sizes_of};
ghost use Rattle.civl_tree.specs.Numbered.{IsNumbered};
ghost use Rattle.civl_tree.specs.rules.Codes.{number_of};
ghost use Rattle.civl_tree.specs.rules.Rules.{Rule, refusal_at, each_place, proc_places, first_of};
ghost use Rattle.civl_names.specs.walks.First.{proc_first};

use civl_tree::{Memory, Proc, Program, Refusal};
use std::alloc::Global;

/// A rule whose procedures are judged with memory. Each procedure is handed on with its place among them.
pub trait Finder {
    ghost rule: { Self → Rule };

    /// The number of the rule's code.
    fn code(&self) -> u32
        ensures { result ≡ number_of (rule self.now).code };

    /// The number of the first statement of a procedure at which the rule is broken; 0 where the procedure breaks it as a
    /// whole.
    ///
    /// # Errors
    ///
    /// For want of memory.
    fn find(
        &self,
        alloc: Global,
        program: &Program,
        place: usize,
        proc: &Proc,
    ) -> Result<Option<u32>, Memory>
        requires { sizes_of proc.now.body < 2 ^ 32 }
        ensures { IfOk result (λ found. found ≡ proc_first (rule self.now) program.now place proc.now) };
}

fn refusal_at(code: u32, program: &Program, place: usize, statement: u32) -> Refusal
    requires numbered { IsNumbered program.now }
    requires place { place < length program.now.procs }
    ensures { result ≡ record { code = code; item = proc_item program.now place; statement = statement } }
{
    let before = program.globals.len() + 1 + program.invariants.len() + program.actions.len();
    Refusal {
        code,
        item: (before + place) as u32,
        statement,
    }
}

/// The refusal of the first place in a procedure, by item and statement, at which the rule is broken. The program has
/// fewer than 2^32 items, and each procedure fewer than 2^32 statements.
///
/// # Errors
///
/// For want of memory.
pub fn first_in_procs<F: Finder>(
    alloc: Global,
    finder: &F,
    program: &Program,
) -> Result<Option<Refusal>, Memory>
    requires { IsNumbered program.now }
    ensures { IfOk result (λ refusal. refusal ≡ first_of (map (refusal_at (F.rule finder.now).code) (each_place (proc_places (F.rule finder.now) program.now) 0 program.now.procs))) }
{
    let procs = program.procs.as_slice();
    for (place, proc) in procs.iter().enumerate() {
        if let Some(statement) = finder.find(alloc, program, place, proc)? {
            return Ok(Some(refusal_at(finder.code(), program, place, statement)));
        }
    }
    Ok(None)
}
