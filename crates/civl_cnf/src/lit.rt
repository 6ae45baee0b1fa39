// A literal.
ghost use Rattle.std.specs.Prelude.{◌≡◌, ◌<◌, ◌^◌};
ghost use Rattle.civl_cnf.specs.Literal.{opposite};

use std::marker::Model;

/// A variable or its negation. Contracts see it as the record of both.
#[derive(Clone, Copy, Debug, Default, PartialEq, Eq)]
pub struct Lit {
    variable: u32,
    positive: bool,
}

impl Model for Lit {
    ghost use Rattle.std.specs.Prelude.{◌<◌, ◌^◌};
    ghost use Rattle.civl_cnf.specs.Literal.{Literal};

    ghost Value = { Literal };

    ghost view = { λ l. record { variable = l.variable; positive = l.positive } };

    ghost invariant = { λ l. l.variable < 2 ^ 31 };

    ghost inverse = { λ l. record { variable = l.variable; positive = l.positive } };
}

impl Lit {
    /// The variable of this number, which is below 2^31, or its negation where `positive` is false.
    pub fn new(variable: u32, positive: bool) -> Lit
        requires { variable < 2 ^ 31 }
        ensures { result ≡ record { variable = variable; positive = positive } }
    {
        Lit { variable, positive }
    }

    /// The literal of the other sign.
    pub fn negate(self) -> Lit
        ensures { result ≡ opposite self }
    {
        Lit {
            variable: self.variable,
            positive: !self.positive,
        }
    }

    /// The number of its variable.
    pub fn variable(self) -> u32
        ensures is { result ≡ self.variable }
        ensures low { result < 2 ^ 31 }
    {
        self.variable
    }

    /// Whether it is the variable itself, and not the negation.
    pub fn positive(self) -> bool
        ensures { result ≡ self.positive }
    {
        self.positive
    }
}
