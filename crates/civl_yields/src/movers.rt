// Which way actions move.
ghost use Rattle.std.specs.Prelude.{⊤, ◌≡◌, [], ◌∷◌, codes};
ghost use Rattle.civl_yields.specs.Movers.{turns, kinds};
ghost use Rattle.civl_layers.specs.Movers.{is_left};

use bitflags::{Flag, Flags, bitflag_items};
use civl_tree::Mover;

/// Which way an action moves past the actions of other threads: right, left, both ways or neither.
#[derive(Clone, Copy, PartialEq, Eq, Debug)]
pub struct Movers(u8);

bitflag_items! {
    impl Movers: u8 {
        const RIGHT = 1;
        const LEFT = 2;
    }
}

impl Flags for Movers {
    type Bits = u8;

    ghost exact = { ⊤ };

    ghost table = { (codes "RIGHT", 1) ∷ (codes "LEFT", 2) ∷ [] };

    ghost set_of = { λ movers. movers.0 };

    fn flags<'a>() -> &'a [Flag<Movers>] {
        Movers::FLAGS
    }

    fn bits(&self) -> u8 {
        self.0
    }

    fn from_bits_retain(bits: u8) -> Movers {
        Movers(bits)
    }
}

/// The ways in which an action of this kind moves.
fn movers_of(mover: Mover) -> Movers
    ensures { result.0 ≡ kinds mover }
{
    match mover {
        Mover::Atomic => Movers::empty(),
        Mover::Right => Movers::RIGHT,
        Mover::Left => Movers::LEFT,
        Mover::Both => {
            let mut both = Movers::RIGHT;
            both.insert(Movers::LEFT);
            both
        }
    }
}

/// Whether a call of such an action is the turning point of its block, or comes behind it.
pub(crate) fn turns(mover: Mover) -> bool
    ensures { result ≡ turns mover }
{
    !movers_of(mover).contains(Movers::RIGHT)
}

/// Whether a call of such an action may stand behind the turning point of its block.
pub(crate) fn may_follow(mover: Mover) -> bool
    ensures { result ≡ is_left mover }
{
    movers_of(mover).contains(Movers::LEFT)
}
