// The kinds of cuts.
ghost use Rattle.std.specs.Prelude.{◌≡◌};
ghost use Rattle.civl_conditions.specs.paths.Ends.{is_entry, is_rank_loop};

use civl_layers::CutKind;

/// Whether a cut is the entry.
pub fn is_entry(kind: CutKind) -> bool
    ensures { result ≡ is_entry kind }
{
    match kind {
        CutKind::Entry => true,
        CutKind::Yield | CutKind::YieldLoop | CutKind::RankLoop => false,
    }
}

/// Whether a cut is the head of a loop with a rank.
pub fn is_rank_loop(kind: CutKind) -> bool
    ensures { result ≡ is_rank_loop kind }
{
    match kind {
        CutKind::RankLoop => true,
        CutKind::Entry | CutKind::Yield | CutKind::YieldLoop => false,
    }
}
