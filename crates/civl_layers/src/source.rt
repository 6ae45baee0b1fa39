// Layered programs.

use civl_tree::Program;
use std::marker::Model;

/// A program that keeps the rules E10 to E35. A contract sees the program. It has fewer than 2^32 items, and each of its
/// procedures fewer than 2^32 statements.
#[derive(Drop)]
pub struct Layered {
    program: Program,
}

impl Model for Layered {
    ghost use Rattle.civl_tree.specs.declared.program.Program.{Program as Tree};
    ghost use Rattle.civl_layers.specs.Layered.{IsLayered};
    ghost use Rattle.civl_tree.specs.contracts.expr.Expr as expr;
    ghost use Rattle.civl_tree.specs.contracts.stmt.Stmt as stmt;
    ghost use Rattle.std.specs.Coded.{codes};

    ghost Value = { Tree };

    ghost coded = { Prim.hlevel (codes, expr.the_row.coded, stmt.the_row.coded) };

    ghost view = { λ src. src.program };

    ghost invariant = { λ src. IsLayered src.program };

    ghost inverse = { λ program. record { program = program } };
}

impl Layered {
    ghost use Rattle.std.specs.Prelude.{◌≡◌};
    ghost use Rattle.civl_layers.specs.Layered.{IsLayered};

    /// A program that keeps the rules.
    pub(crate) fn new(program: Program) -> Layered
        requires { IsLayered program }
        ensures { result ≡ program }
    {
        Layered { program }
    }

    /// The program.
    pub(crate) fn as_program(&self) -> &Program
        ensures same { result.now ≡ self.now }
        ensures keeps { IsLayered result.now }
    {
        &self.program
    }

    /// The program.
    pub(crate) fn into_inner(self) -> Program
        ensures same { result ≡ self }
        ensures keeps { IsLayered result }
    {
        let Layered { program } = self;
        program
    }
}

ghost use Rattle.std.specs.Prelude.{◌≡◌};
ghost use Rattle.civl_layers.specs.Layered.{IsLayered};

/// The program of a layered one. It takes no memory.
pub fn program(src: &Layered) -> &Program
    ensures same { result.now ≡ src.now }
    ensures keeps { IsLayered result.now }
{
    src.as_program()
}

/// The program that was found to be layered. It takes no memory.
pub fn into_program(src: Layered) -> Program
    ensures same { result ≡ src }
    ensures keeps { IsLayered result }
{
    src.into_inner()
}
