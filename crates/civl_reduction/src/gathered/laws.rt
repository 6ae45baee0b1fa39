//! The laws. Each function computes nothing; its clauses are theorems.
ghost use Rattle.civl_reduction.specs.gathered.Laws.{PlacesAreInside, EarlyMovesGather, EarlyMovesStop, LateMovesGather, LateMovesStop, LateThreadsStayLate, LateThreadsStep, FailuresStay, OthersLeave};

use crate::checked::laws::checked;
use crate::staged::laws::inside;

/// A thread is inside a block where it stands early or late; and it stands where it stood, behind moves of others.
pub fn places_stay()
    ensures inside { PlacesAreInside }
    ensures others { OthersLeave }
{
    checked();
}

/// Before the turn of a thread's block, and behind it, its moves are gathered at the front, or something fails sooner.
pub fn moves_gather()
    ensures early { EarlyMovesGather }
    ensures late { LateMovesGather }
{
    checked();
}

/// Where a thread fails behind moves before its turn, or in its open block behind it, something fails sooner.
pub fn moves_stop()
    ensures early { EarlyMovesStop }
    ensures late { LateMovesStop }
{
    checked();
    inside();
}

/// A thread that stands late goes on standing late up to its block's end, and its offered step is made, unless it fails; other
/// threads that fail go on failing.
pub fn late_threads_step()
    ensures stay { LateThreadsStayLate }
    ensures step { LateThreadsStep }
    ensures fail { FailuresStay }
{
    checked();
}
