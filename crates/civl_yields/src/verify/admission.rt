// The last static rules.
ghost use Rattle.std.specs.Prelude.{◌≡◌, IfOk, IfErr};
ghost use Rattle.civl_tree.specs.rules.Rules.{refusal_by, Keeps};
ghost use Rattle.civl_types.specs.Checked.{IsCause, IsFirstCause};
ghost use Rattle.civl_linear.specs.Cuts.{all_held};
ghost use Rattle.civl_yields.specs.verify.Admitted.{admission_rules, all_phases};

use crate::{Phases, phases};
use civl_layers::{Held, Layered};
use civl_linear::held;
use civl_tree::Refused;
use std::alloc::Global;
use std::marker::Model;

/// A layered program that keeps the rules E40 to E53, with the locals that it holds at its cuts and the phases before its
/// calls. A contract sees the program.
#[derive(Drop)]
pub struct Admitted {
    src: Layered,
    held: Held,
    phases: Phases,
}

impl Model for Admitted {
    ghost use Rattle.std.specs.Prelude.{◌≡◌};
    ghost use Rattle.civl_tree.specs.declared.program.Program.{Program as Tree};
    ghost use Rattle.civl_tree.specs.contracts.expr.Expr as expr;
    ghost use Rattle.civl_tree.specs.contracts.stmt.Stmt as stmt;
    ghost use Rattle.std.specs.Coded.{codes};
    ghost use Rattle.civl_tree.specs.rules.Rules.{Keeps};
    ghost use Rattle.civl_linear.specs.Cuts.{all_held};
    ghost use Rattle.civl_yields.specs.verify.Admitted.{admission_rules, all_phases};

    ghost Value = { Tree };

    ghost coded = { Prim.hlevel (codes, expr.the_row.coded, stmt.the_row.coded) };

    ghost view = { λ admitted. admitted.src };

    ghost invariant = { λ admitted. Keeps admission_rules admitted.src × (admitted.held.cuts ≡ all_held admitted.src) × (admitted.phases.left ≡ all_phases admitted.src) };
}

/// Takes a layered program that keeps the rules E40 to E53.
///
/// # Errors
///
/// `At` has the first of these rules that the program breaks, by code, item and statement; the program is dropped. `Memory`
/// comes where memory is wanting.
#[tactic(auto, using(crate::proofs::verify::Admitting::keeps_both))]
pub fn admit(alloc: Global, src: Layered) -> Result<Admitted, Refused>
    ensures same { IfOk result (λ admitted. admitted ≡ src) }
    ensures passed { IfOk result (λ admitted. Keeps admission_rules src) }
    ensures refused { IfErr result (λ refused. IsCause (refusal_by admission_rules src) refused) }
    ensures first { IfErr result (λ refused. IsFirstCause admission_rules src refused) }
{
    let held = match held(alloc, &src) {
        Ok(held) => held,
        Err(refused) => return Err(refused),
    };
    let phases = match phases(alloc, &src) {
        Ok(phases) => phases,
        Err(refused) => return Err(refused),
    };
    Ok(Admitted { src, held, phases })
}

/// The program. It takes no memory.
pub fn source(src: &Admitted) -> &Layered
    ensures same { result.now ≡ src.now }
    ensures keeps { Keeps admission_rules src.now }
{
    &src.src
}

/// The locals that are held: for each procedure and each of its cuts their numbers, rising. It takes no memory.
pub fn locals_held(src: &Admitted) -> &Held
    ensures { result.now.cuts ≡ all_held src.now }
{
    &src.held
}

/// The phases: for each procedure and each of its call statements in text order, whether the block may have passed its
/// turning point before this statement. It takes no memory.
pub fn phases_left(src: &Admitted) -> &Phases
    ensures { result.now.left ≡ all_phases src.now }
{
    &src.phases
}
