// The roots of a program.
ghost use Rattle.std.specs.Prelude.{◌≡◌};
ghost use Rattle.civl_goals.specs.Listed.{is_root, has_statement, begins};

use civl_tree::{Name, Proc, Program};
use civl_types::names::proc_named;

/// Whether a procedure is a root: it refines no action.
pub(crate) fn is_root(proc: &Proc) -> bool
    ensures { result ≡ is_root proc.now }
{
    proc.refines.is_none()
}

/// Whether a procedure has a statement.
fn has_statement(proc: &Proc) -> bool
    ensures { result ≡ has_statement proc.now }
{
    0 < proc.body.len()
}

/// Whether the name is that of a procedure with a statement.
pub(crate) fn begins(program: &Program, name: &Name) -> bool
    ensures { result ≡ begins program.now name.now }
{
    match proc_named(program, name) {
        Some(proc) => has_statement(proc),
        None => false,
    }
}
