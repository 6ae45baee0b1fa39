// What is counted of what the paths from a cut meet.
ghost use Rattle.std.specs.Prelude.{◌≡◌, ◌<◌, ◌^◌, length, filter, IfOk};
ghost use Rattle.civl_tree.specs.Numbering.{sizes_of};
ghost use Rattle.civl_layers.specs.Cuts.{proc_cuts};
ghost use Rattle.civl_conditions.specs.paths.Ends.{is_rank_loop};
ghost use Rattle.civl_weighing.specs.Weighing.{Weighs};
ghost use Rattle.civl_weights.specs.inner.sums.Met.{block_end, AreMet};

use civl_conditions::paths::{ends_from, is_rank_loop, met_from};
use civl_layers::Cut;
use civl_tree::{List, Memory, Proc};
use civl_weighing::bits::one_where;
use civl_weighing::lists::total_at;
use civl_weighing::weight::Weight;
use std::alloc::Global;

/// Whether a block ends at this end: at each but the head of a rank loop.
fn ends_block(cuts: &[Cut], end: u32) -> bool
    ensures { result ≡ block_end cuts.now end }
{
    match cuts.get(end as usize) {
        Some(cut) => !is_rank_loop(cut.kind),
        None => true,
    }
}

fn block_ends(cuts: &[Cut], ends: &[u32]) -> Weight
    ensures { Weighs result (length (filter (block_end cuts.now) ends.now)) }
{
    let mut total = Weight::of(0);
    for end in ends {
        total = total.plus(one_where(ends_block(cuts, *end)));
    }
    total
}

/// The weight of what some path passes, the bits of the choices of calls among that, how many ends some path reaches, the
/// weight of the invariants there, and how many of the ends are those of blocks.
#[derive(Clone, Copy)]
pub(crate) struct MetSums {
    pub passed: Weight,
    pub choices: Weight,
    pub ends: Weight,
    pub invariants: Weight,
    pub stops: Weight,
}

/// From this cut of a procedure, of which these are all cuts, the weights of their invariants, and the weights and the bits of
/// choices of all statements.
pub(crate) fn met_sums(
    alloc: Global,
    proc: &Proc,
    cut: Cut,
    cuts: &List<Cut>,
    invariants: &[Weight],
    weights: &[Weight],
    choices: &[Weight],
) -> Result<MetSums, Memory>
    requires small { sizes_of proc.now.body < 2 ^ 32 }
    requires few { length cuts.now < 2 ^ 32 }
    requires cuts { cuts.now ≡ proc_cuts proc.now }
    ensures { IfOk result (AreMet proc.now cut invariants.now weights.now choices.now) }
{
    let met = met_from(alloc, proc, cut)?;
    let ends = ends_from(alloc, cuts, &met)?;
    let passed = met.passed.as_slice();
    let reached = ends.as_slice();
    Ok(MetSums {
        passed: total_at(weights, passed),
        choices: total_at(choices, passed),
        ends: Weight::of_count(ends.len()),
        invariants: total_at(invariants, reached),
        stops: block_ends(cuts.as_slice(), reached),
    })
}
