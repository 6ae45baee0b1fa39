// Two watched literals in eight bytes.
ghost use Rattle.std.specs.Prelude.{◌≡◌, ◌≢◌, None, Some};
ghost use Rattle.civl_propagation.specs.inner.Pairs.{code_of, literal_of};
ghost use Rattle.civl_propagation.specs.Watches.{OtherSays};

use civl_cnf::Lit;
use std::marker::Model;

/// The number of a literal.
fn code(lit: Lit) -> u32
    ensures { result ≡ code_of lit }
{
    if lit.positive() {
        2 * lit.variable()
    } else {
        2 * lit.variable() + 1
    }
}

/// The literal of a number.
fn lit_of(code: u32) -> Lit
    ensures { result ≡ literal_of code }
{
    Lit::new(code / 2, code % 2 == 0)
}

/// The two watched literals of a clause, if it has two, as the numbers of both. Contracts see it as the pair; two equal numbers stand for none.
#[derive(Drop)]
pub struct Watched {
    first: u32,
    second: u32,
}

impl Model for Watched {
    ghost use Rattle.std.specs.Prelude.{Option};
    ghost use Rattle.civl_propagation.specs.inner.Pairs.{pair_of};
    ghost use Rattle.civl_propagation.specs.declared.watches.Pair.{Pair};

    ghost Value = { Option Pair };

    ghost view = { λ w. pair_of w.first w.second };
}

impl Watched {
    /// No pair.
    pub fn none() -> Watched
        ensures { result ≡ None }
    {
        Watched {
            first: 0,
            second: 0,
        }
    }

    /// Two literals, which differ.
    pub fn two(first: Lit, second: Lit) -> Watched
        requires { first ≢ second }
        ensures { result ≡ Some (record { first = first; second = second }) }
    {
        Watched {
            first: code(first),
            second: code(second),
        }
    }

    /// The other literal of the pair, if this one is in it.
    pub fn other(&self, lit: Lit) -> Option<Lit>
        ensures { OtherSays self.now lit result }
    {
        let number = code(lit);
        let is_first = self.first == number;
        let is_second = self.second == number;
        if is_first == is_second {
            return None;
        }
        if is_first {
            Some(lit_of(self.second))
        } else {
            Some(lit_of(self.first))
        }
    }
}
