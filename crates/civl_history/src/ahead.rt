// What lies ahead of a thread.
ghost use Rattle.std.specs.Prelude.{◌≡◌};
ghost use Rattle.civl_history.specs.inner.Spots.{AreSpots};
ghost use Rattle.civl_history.specs.inner.Ahead.{said, next_of, stand_before, frame_next};
ghost use Rattle.civl_history.specs.inner.Spots.{found};

use crate::spots::{Spots, spot_of};
use crate::stand::Stand;
use civl_meaning::remaining::Numbered;
use civl_meaning::{Plain, Running, State};

/// What lies ahead of a thread: its first call, a statement of a procedure, the end of one, or nothing behind its call of a procedure.
#[derive(Clone, Copy)]
pub(crate) enum Ahead<'p> {
    Begins(usize),
    Statement(usize, Numbered<'p>),
    Exit(usize),
    Ended(usize),
}

/// What lies ahead in a frame of this procedure.
fn in_frame<'p>(procedure: usize, spot: Option<Numbered<'p>>) -> Ahead<'p>
    ensures { said result ≡ frame_next procedure (found spot.entry) }
{
    match spot {
        None => Ahead::Exit(procedure),
        Some(numbered) => Ahead::Statement(procedure, numbered),
    }
}

/// What lies ahead of a thread.
pub(crate) fn ahead_of<'p>(plain: &Plain, spots: &Spots<'p>, thread: &Running) -> Ahead<'p>
    requires { AreSpots plain.now spots.now }
    ensures { said result ≡ next_of plain.now thread.now }
{
    match &thread.state {
        State::Before => Ahead::Begins(thread.callee),
        State::Inside(_, top) => in_frame(top.procedure, spot_of(plain, spots, top)),
        State::After => Ahead::Ended(thread.callee),
    }
}

/// Where a thread stands that has this ahead.
pub(crate) fn stand_before(ahead: Ahead<'_>) -> Stand
    ensures { result ≡ stand_before (said ahead.entry) }
{
    match ahead {
        Ahead::Begins(callee) => Stand::Begins(callee),
        Ahead::Statement(procedure, numbered) => Stand::Before(procedure, numbered.number),
        Ahead::Exit(procedure) => Stand::Leaves(procedure),
        Ahead::Ended(callee) => Stand::Ended(callee),
    }
}
