// Programs that keep all static rules.
ghost use Rattle.std.specs.Prelude.{◌≡◌, IfOk, IfErr};
ghost use Rattle.civl_tree.specs.Numbered.{IsNumbered};
ghost use Rattle.civl_types.specs.Checked.{IsCause};
ghost use Rattle.civl_frontend.specs.Rules.{static_refusal, IsLawful};

use civl_layers::layered;
use civl_tree::{Program, Refused};
use civl_types::check;
use civl_yields::verify::{Admitted, admit};
use std::alloc::Global;

/// Takes a program that keeps all static rules. The program has fewer than 2^32 items, and each procedure fewer than 2^32 statements.
///
/// # Errors
///
/// `At` has the first rule that it breaks, by code, item and statement. `Memory` comes where memory is wanting.
pub fn admitted(alloc: Global, program: Program) -> Result<Admitted, Refused>
    requires { IsNumbered program }
    ensures same { IfOk result (λ admitted. admitted ≡ program) }
    ensures lawful { IfOk result (λ admitted. IsLawful program) }
    ensures refused { IfErr result (λ refused. IsCause (static_refusal program) refused) }
{
    let typed = check(alloc, program)?;
    let src = layered(typed)?;
    let admitted = admit(alloc, src)?;
    Ok(admitted)
}
