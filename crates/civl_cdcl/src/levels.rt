// The levels of a trail.
ghost use Rattle.std.specs.Prelude.{◌≤◌, ◌<◌, ◌-◌, length, slice_index_or};
ghost use Rattle.civl_cdcl.specs.inner.Levels.{FirstSays, LastSays, AreBefore};

/// The first start of a level.
pub fn first_start(starts: &[usize]) -> usize
    requires { 0 < length starts.now }
    ensures { FirstSays starts.now result }
{
    starts[0]
}

/// The last start of a level, if there is one.
pub fn last_start(starts: &[usize]) -> Option<usize>
    ensures { LastSays starts.now result }
{
    let count = starts.len();
    if count == 0 {
        return None;
    }
    Some(starts[count - 1])
}

/// How many levels start before a place, of starts that rise.
pub fn levels_below(starts: &[usize], limit: usize) -> usize
    requires some { 0 < length starts.now }
    requires last { limit ≤ slice_index_or starts.now (length starts.now - 1) 0 }
    ensures { AreBefore starts.now limit result }
{
    let mut levels = starts.len() - 1;
    while levels > 0 && limit <= starts[levels - 1] {
        levels -= 1;
    }
    levels
}
