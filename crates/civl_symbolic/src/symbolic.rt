// Symbolic values.
ghost use Rattle.std.specs.Prelude.{◌≡◌};

use civl_cnf::Lit;
use std::marker::Model;

/// The literals of a word's bits, the lowest bit first. Contracts see them as their list.
#[derive(Drop)]
pub struct Lits {
    items: Vec<Lit>,
}

impl Model for Lits {
    ghost use Rattle.std.specs.Prelude.{List};
    ghost use Rattle.civl_cnf.specs.Literal.{Literal};

    ghost Value = { List Literal };

    ghost view = { λ l. l.items.items };
}

impl Lits {
    /// The word of these literals.
    pub fn from_vec(items: Vec<Lit>) -> Lits
        ensures { result ≡ items.items }
    {
        Lits { items }
    }

    /// Its literals.
    pub fn as_slice(&self) -> &[Lit]
        ensures { result.now ≡ self.now }
    {
        self.items.as_slice()
    }
}

/// A value that depends on an assignment: a bool as a literal, or a word as the literals of its bits.
#[derive(Drop)]
pub enum Symbolic {
    Bool(Lit),
    Word(Lits),
}
