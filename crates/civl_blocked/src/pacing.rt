// How many moves are arranged at once.
ghost use Rattle.std.specs.Prelude.{◌≤◌, IfOk, IfSome};
ghost use Rattle.civl_blocked.specs.inner.Arranged.{IsArranged};
ghost use Rattle.civl_blocked.specs.inner.Segments.{IsGround, over, FailsTo};

use crate::arranging::Arranged;
use crate::ground::Ground;
use crate::leading::{Found, try_blocks};
use civl_meaning::{Config, Move};
use civl_tree::Memory;
use std::alloc::Global;
use std::collections::VecDeque;

/// How many moves are arranged at once. It says how fast this goes, and nothing else.
#[derive(Clone, Copy)]
pub struct Pace {
    /// So many moves at the front of the rest were looked through, and no block ends among them.
    known: usize,
    /// So many more are looked through next.
    fresh: usize,
}

impl Pace {
    /// All moves.
    pub fn full() -> Pace {
        Pace {
            known: 0,
            fresh: usize::MAX,
        }
    }

    /// How many moves of so many.
    fn count(self, len: usize) -> usize
        ensures { result ≤ len }
    {
        if self.known >= len || self.fresh >= len - self.known {
            len
        } else {
            self.known + self.fresh
        }
    }

    /// Twice as many more, behind so many that were looked through.
    fn longer(self, known: usize) -> Pace {
        let fresh = if self.fresh == 0 {
            1
        } else {
            self.fresh.saturating_mul(2)
        };
        Pace { known, fresh }
    }

    /// Half as many more, of so many in all.
    fn shorter(self, count: usize) -> Pace {
        Pace {
            known: self.known,
            fresh: count.saturating_sub(self.known) / 2,
        }
    }
}

/// Arranges the first moves of a rest that fails, in which no block is open, block by block: as many as the pace says, and half
/// as many more, as long as these don't lead to the same end.
pub fn arrange(
    alloc: Global,
    ground: &Ground<'_, '_, '_>,
    from: &Config,
    rest: &VecDeque<Move>,
    pace: &mut Pace,
) -> Result<Option<Arranged>, Memory>
    requires ground { IsGround ground.now }
    requires fails { FailsTo (over ground.now) rest.now.items from.now }
    ensures { IfOk result (λ o. IfSome o (IsArranged ground.now from.now rest.now.items)) }
{
    for _ in 0..usize::BITS {
        let count = pace.count(rest.len());
        match try_blocks(alloc, ground, from, rest, count)? {
            Found::Whole(arranged) => {
                *pace = pace.longer(arranged.others.len());
                return Ok(Some(arranged));
            }
            Found::Nothing => {
                *pace = pace.longer(pace.known);
                return Ok(None);
            }
            Found::Elsewhere => *pace = pace.shorter(count),
        }
    }
    Ok(None)
}
