// The phase of a block, as far as it is known.
ghost use Rattle.std.specs.Prelude.{Bool, ◌≡◌, ◌||◌, true, false};
ghost use Rattle.civl_yields.specs.inner.Marks.{seen};

/// The phase of a block before a statement: it hasn't passed its turning point, it may have, or that is as at the head
/// of the loop around.
#[derive(Clone, Copy, PartialEq, Eq, Debug)]
pub(crate) enum Phase {
    Right,
    Left,
    AsHead,
}

/// The phase where two ways meet.
pub(crate) fn joined(first: Phase, second: Phase) -> Phase
    ensures { (head : Bool) → seen head result ≡ (seen head first || seen head second) }
{
    match first {
        Phase::Right => second,
        Phase::Left => Phase::Left,
        Phase::AsHead => match second {
            Phase::Right => Phase::AsHead,
            Phase::Left => Phase::Left,
            Phase::AsHead => Phase::AsHead,
        },
    }
}

/// The phase at the head of a loop, where it is this before the loop, and that at the end of the body.
pub(crate) fn at_head(before: Phase, end: Phase) -> Phase
    ensures { (head : Bool) → seen head result ≡ (seen head before || seen false end) }
{
    match end {
        Phase::Left => Phase::Left,
        Phase::Right | Phase::AsHead => before,
    }
}

/// A phase inside a loop, where it is this at the loop's head.
pub(crate) fn inside(phase: Phase, at_head: Phase) -> Phase
    ensures { (head : Bool) → seen head result ≡ seen (seen head at_head) phase }
{
    match phase {
        Phase::Right => Phase::Right,
        Phase::Left => Phase::Left,
        Phase::AsHead => at_head,
    }
}

/// Whether the block may have passed its turning point, where at the head of the loop around it hasn't.
pub(crate) fn is_left(phase: Phase) -> bool
    ensures { result ≡ seen false phase }
{
    match phase {
        Phase::Left => true,
        Phase::Right | Phase::AsHead => false,
    }
}
