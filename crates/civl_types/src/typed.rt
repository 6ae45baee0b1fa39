// Programs that keep the static rules.

use civl_tree::Program;
use std::marker::Model;

/// A program that keeps the rules E10 to E24, with fewer than 2^32 items and fewer than 2^32 statements in each procedure. A
/// contract sees the program.
#[derive(Drop)]
pub struct Typed {
    program: Program,
}

impl Model for Typed {
    ghost use Rattle.civl_tree.specs.declared.program.Program.{Program as Tree};
    ghost use Rattle.civl_tree.specs.Numbered.{IsNumbered};
    ghost use Rattle.civl_tree.specs.rules.Rules.{Keeps};
    ghost use Rattle.civl_tree.specs.rules.Typing.{typing_rules};
    ghost use Rattle.civl_tree.specs.contracts.expr.Expr as expr;
    ghost use Rattle.civl_tree.specs.contracts.stmt.Stmt as stmt;
    ghost use Rattle.std.specs.Coded.{codes};

    ghost Value = { Tree };

    ghost coded = { Prim.hlevel (codes, expr.the_row.coded, stmt.the_row.coded) };

    ghost view = { λ typed. typed.program };

    ghost invariant = { λ typed. Keeps typing_rules typed.program × IsNumbered typed.program };

    ghost inverse = { λ program. record { program = program } };
}

impl Typed {
    ghost use Rattle.std.specs.Prelude.{◌≡◌, None};
    ghost use Rattle.civl_tree.specs.Numbered.{IsNumbered};
    ghost use Rattle.civl_tree.specs.rules.Rules.{refusal_by, Keeps};
    ghost use Rattle.civl_tree.specs.rules.Typing.{typing_rules};

    /// A program that keeps the rules.
    pub(crate) fn new(program: Program) -> Typed
        requires keeps { refusal_by typing_rules program ≡ None }
        requires numbered { IsNumbered program }
        ensures { result ≡ program }
    {
        Typed { program }
    }

    /// The program.
    pub(crate) fn into_inner(self) -> Program
        ensures same { result ≡ self }
        ensures keeps { Keeps typing_rules result }
        ensures numbered { IsNumbered result }
    {
        let Typed { program } = self;
        program
    }
}
