// How many conditions hold, how many fail, and how many are undecided.
ghost use Rattle.std.specs.Prelude.{◌≡◌, length, filter};
ghost use Rattle.civl_verdicts.specs.reports.Findings.{is_of};

use crate::Found;

/// What may be found of a condition.
#[derive(Clone, Copy)]
pub(crate) enum Kind {
    Holds,
    Fails,
    Undecided,
}

/// Whether what is found of a condition is of this kind.
fn is_of(kind: Kind, found: &Found) -> bool
    ensures { result ≡ is_of kind found.now }
{
    match (kind, found) {
        (Kind::Holds, Found::Holds) => true,
        (Kind::Fails, Found::Fails(_)) => true,
        (Kind::Undecided, Found::Undecided(_)) => true,
        _ => false,
    }
}

/// How many findings are of this kind.
pub(crate) fn count(kind: Kind, findings: &[Found]) -> usize
    ensures { result ≡ length (filter (is_of kind) findings.now) }
{
    let mut count = 0;
    for found in findings {
        if is_of(kind, found) {
            count += 1;
        }
    }
    count
}
