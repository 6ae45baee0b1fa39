// A commit that is passed again, or none that is passed.
ghost use Rattle.std.specs.Prelude.{◌≡◌};
ghost use Rattle.civl_layers.specs.Cuts.{proc_cuts};
ghost use Rattle.civl_losses.specs.Losses.{again_at, once_loss};
ghost use Rattle.civl_losses.specs.inner.Routes.{end_of};

use crate::loss::Loss;
use crate::route::Route;
use civl_traces::Passage;

/// The first of these statements behind which a commit was passed where `done` was true, or this one.
fn again_at(passed: &[Passage], at: usize) -> usize
    ensures { result ≡ again_at passed.now at }
{
    for passage in passed {
        if passage.again {
            return passage.statement;
        }
    }
    at
}

/// Once: the first commit that is passed where `done` is true; or the exit without one.
pub(crate) fn once_loss(route: &Route<'_>, end: Option<usize>) -> Option<Loss>
    requires cuts { route.now.cuts.now ≡ proc_cuts route.now.proc.now }
    ensures { result ≡ once_loss route.now.proc.now route.now.walked.now.passed route.now.walked.now.at end (end_of route.now) }
{
    let walked = route.walked;
    if walked.end.again {
        return Some(Loss::CommitAgain(again_at(walked.passed.as_slice(), walked.at)));
    }
    match end {
        Some(end) => {
            if end == route.cuts.len() && !walked.end.done {
                Some(Loss::NoCommit)
            } else {
                None
            }
        }
        None => None,
    }
}
