// Runs of lists of moves.
ghost use Rattle.std.specs.Prelude.{◌≡◌, ◌+◌, ◌<◌, ◌≤◌, ◌^◌, ◌↔◌, length, IfOk, IfSome, IsTrue};
ghost use Rattle.civl_reduction.specs.inner.Ends.{end_of};
ghost use Rattle.civl_reduction.specs.Swap.{RunAlike, RunsFailing};

use civl_meaning::{Config, Move, Plain, Stepped, copy_config, failing, places_of, same, step};
use civl_tree::Memory;
use std::alloc::Global;

/// The configuration to which these moves run from this one, if each is made.
pub fn end_of(
    alloc: Global,
    plain: &Plain,
    from: &Config,
    moves: &[Move],
) -> Result<Option<Config>, Memory>
    ensures end { IfOk result (λ end. end ≡ end_of plain.now moves.now from.now) }
    ensures few { IfOk result (λ end. IfSome end (λ c. length c.threads ≤ length from.now.threads + length moves.now)) }
{
    let places = places_of(alloc, plain)?;
    let mut config = copy_config(alloc, from)?;
    for chosen in moves {
        let answer = step(alloc, &mut config, plain, &places, chosen)?;
        if answer != Stepped::Moved {
            return Ok(None);
        }
    }
    Ok(Some(config))
}

/// Whether both lists run from this configuration to the same one.
pub fn run_alike(
    alloc: Global,
    plain: &Plain,
    from: &Config,
    moves: &[Move],
    others: &[Move],
) -> Result<bool, Memory>
    ensures { IfOk result (λ alike. IsTrue alike ↔ RunAlike plain.now from.now moves.now others.now) }
{
    let first = end_of(alloc, plain, from, moves)?;
    let second = end_of(alloc, plain, from, others)?;
    match first {
        None => Ok(false),
        Some(end) => match second {
            None => Ok(false),
            Some(other) => Ok(same(&end, &other)),
        },
    }
}

/// Whether the moves run from this configuration to a failing one.
pub fn runs_failing(
    alloc: Global,
    plain: &Plain,
    from: &Config,
    moves: &[Move],
) -> Result<bool, Memory>
    requires { length from.now.threads + length moves.now < 2 ^ 32 }
    ensures { IfOk result (λ fails. IsTrue fails ↔ RunsFailing plain.now from.now moves.now) }
{
    let end = end_of(alloc, plain, from, moves)?;
    match end {
        None => Ok(false),
        Some(config) => Ok(failing(&config, plain).is_some()),
    }
}
