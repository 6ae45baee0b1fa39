//! Worked examples.
ghost use Rattle.civl_condition_laws.specs.examples.Spinlock.{SpinlockCounts, SpinlockKinds, SpinlockEnds, SpinlockWeights, AcquireWeight, ReleaseWeight, ForgetfulFails, AddingFails};
ghost use Rattle.civl_condition_laws.specs.examples.Flag.{FlagNames, FlagViolated, GatedConditions, OtherFlagFails, FlagWeights};
ghost use Rattle.civl_condition_laws.specs.examples.Product.{ProductNames, ProductWeights};
ghost use Rattle.civl_condition_laws.specs.examples.Countdown.{CountdownFails, SettlingFails, CountdownNames, CountdownWeight};
ghost use Rattle.civl_condition_laws.specs.examples.Pool.{PoolNames, PoolWeights};
ghost use Rattle.civl_condition_laws.specs.examples.Actions.{StartingFails, GrabbingFails, PuttingFails, OfferingFails};
ghost use Rattle.civl_condition_laws.specs.examples.Pairs.{ClearingConditions, ReadingClashes, EndingClashes, FreeingClashes, NeedingFails, RevealingFails, ApartFails};
ghost use Rattle.civl_condition_laws.specs.examples.Blocks.{GateFails, InvariantFails, OnceFails, StutterFails, PerformFails, WithIsPresent};
ghost use Rattle.civl_condition_laws.specs.examples.Yields.{YieldGateFails, YieldInvariantFails, YieldOnceFails, YieldStutterFails, YieldPerformFails, IncrementsFail};
ghost use Rattle.civl_condition_laws.specs.examples.Interfering.{InterferingNames, BlockInvariantFails, BlockYieldFails, BlockFrameFails, ActInvariantFails, ActYieldFails};
ghost use Rattle.civl_condition_laws.specs.examples.Looping.{LoopGateFails, LoopInvariantFails, LoopOnceFails, LoopStutterFails, LoopPerformFails};
ghost use Rattle.civl_condition_laws.specs.examples.Spinning.{SpinGateFails, SpinInvariantFails, SpinOnceFails, SpinStutterFails, SpinPerformFails, SpinRankFails};
ghost use Rattle.civl_condition_laws.specs.examples.Naming.{ActionVariables, ActVariables, EntryVariables, BlockVariables, LoopVariables, YieldVariables, ActionWeights};
ghost use Rattle.civl_condition_laws.specs.examples.Entries.{OwnedFails, FreshFails};

/// How many conditions the spinlock has at each step.
pub fn spinlock_counts()
    ensures { SpinlockCounts }
{}

/// The names of the flag program's conditions, in order.
pub fn flag_names()
    ensures { FlagNames }
{}

/// The flag program with a gate that may be false.
pub fn flag_violated()
    ensures { FlagViolated }
{}

/// What the formulas of the flag program weigh.
pub fn flag_weights()
    ensures { FlagWeights }
{}

/// The names of the product's conditions.
pub fn product_names()
    ensures { ProductNames }
{}

/// The names of the conditions of a loop with a rank.
pub fn countdown_names()
    ensures { CountdownNames }
{}

/// The names of the pool's conditions.
pub fn pool_names()
    ensures { PoolNames }
{}

/// How many conditions of each kind the spinlock has.
pub fn spinlock_kinds()
    ensures { SpinlockKinds }
{}

/// The first and the last of each kind by name.
pub fn spinlock_ends()
    ensures { SpinlockEnds }
{}

/// Initial stores that do not meet an invariant.
pub fn starting_fails()
    ensures { StartingFails }
{}

/// An action that makes or doubles a permission.
pub fn grabbing_fails()
    ensures { GrabbingFails }
{}

/// An action with a permission that is lent, taken or none.
pub fn putting_fails()
    ensures { PuttingFails }
{}

/// A left mover that waits.
pub fn offering_fails()
    ensures { OfferingFails }
{}

/// All conditions of a right mover that spoils a gate.
pub fn clearing_conditions()
    ensures { ClearingConditions }
{}

/// A right mover whose output changes.
pub fn reading_clashes()
    ensures { ReadingClashes }
{}

/// A right mover behind which more is done than before it, or something else.
pub fn ending_clashes()
    ensures { EndingClashes }
{}

/// A left mover with which it is so.
pub fn freeing_clashes()
    ensures { FreeingClashes }
{}

/// A mover whose gate is spoiled.
pub fn needing_fails()
    ensures { NeedingFails }
{}

/// A left mover that hides a failure.
pub fn revealing_fails()
    ensures { RevealingFails }
{}

/// Only permissions that are apart violate a condition on two actions.
pub fn apart_fails()
    ensures { ApartFails }
{}

/// A false assert on a path from the entry.
pub fn gate_fails()
    ensures { GateFails }
{}

/// A path to a yield whose invariant does not hold there.
pub fn invariant_fails()
    ensures { InvariantFails }
{}

/// No commit, or two.
pub fn once_fails()
    ensures { OnceFails }
{}

/// A block without a commit that changes a global.
pub fn stutter_fails()
    ensures { StutterFails }
{}

/// A block with a commit that is no step of the refined action.
pub fn perform_fails()
    ensures { PerformFails }
{}

/// Choices that are given by present values.
pub fn with_is_present()
    ensures { WithIsPresent }
{}

/// A false assert behind a yield.
pub fn yield_gate_fails()
    ensures { YieldGateFails }
{}

/// A loop that does not keep its invariant.
pub fn loop_invariant_fails()
    ensures { LoopInvariantFails }
{}

/// An assert behind a loop that yields.
pub fn loop_gate_fails()
    ensures { LoopGateFails }
{}

/// A second commit behind a loop that yields.
pub fn loop_once_fails()
    ensures { LoopOnceFails }
{}

/// A loop that yields and changes a global.
pub fn loop_stutter_fails()
    ensures { LoopStutterFails }
{}

/// A refined action whose guard is false behind a loop that yields.
pub fn loop_perform_fails()
    ensures { LoopPerformFails }
{}

/// A false assert behind a loop with a rank.
pub fn spin_gate_fails()
    ensures { SpinGateFails }
{}

/// An invariant that speaks of the old global.
pub fn spin_invariant_fails()
    ensures { SpinInvariantFails }
{}

/// A second commit behind a loop with a rank.
pub fn spin_once_fails()
    ensures { SpinOnceFails }
{}

/// A block behind a commit, from a loop with a rank.
pub fn spin_stutter_fails()
    ensures { SpinStutterFails }
{}

/// A block with a commit, from a loop with a rank.
pub fn spin_perform_fails()
    ensures { SpinPerformFails }
{}

/// Ranks that go down, stay and go up.
pub fn spin_rank_fails()
    ensures { SpinRankFails }
{}

/// All conditions of the flag program with a gate that may be false.
pub fn gated_conditions()
    ensures { GatedConditions }
{}

/// The flag program that refines another action.
pub fn other_flag_fails()
    ensures { OtherFlagFails }
{}

/// A path from a yield to a yield whose invariant does not hold there.
pub fn yield_invariant_fails()
    ensures { YieldInvariantFails }
{}

/// A second commit behind a yield.
pub fn yield_once_fails()
    ensures { YieldOnceFails }
{}

/// A block behind a yield, without a commit, that changes a global.
pub fn yield_stutter_fails()
    ensures { YieldStutterFails }
{}

/// A block behind a yield, with a commit, that is no step of the refined action.
pub fn yield_perform_fails()
    ensures { YieldPerformFails }
{}

/// Increments without a lock: what was read may be of the past.
pub fn increments_fail()
    ensures { IncrementsFail }
{}

/// A block that does not keep an invariant.
pub fn block_invariant_fails()
    ensures { BlockInvariantFails }
{}

/// A block that does not keep what another thread may rely on at its yield.
pub fn block_yield_fails()
    ensures { BlockYieldFails }
{}

/// The same, where that speaks of the other thread itself.
pub fn block_frame_fails()
    ensures { BlockFrameFails }
{}

/// An action that does not keep an invariant.
pub fn act_invariant_fails()
    ensures { ActInvariantFails }
{}

/// An action that does not keep what a thread may rely on at its yield.
pub fn act_yield_fails()
    ensures { ActYieldFails }
{}

/// The variables of conditions on initial stores and on actions.
pub fn action_variables()
    ensures { ActionVariables }
{}

/// The variables of what an action has to keep.
pub fn act_variables()
    ensures { ActVariables }
{}

/// The variables of paths from an entry.
pub fn entry_variables()
    ensures { EntryVariables }
{}

/// The variables of what a block has to keep.
pub fn block_variables()
    ensures { BlockVariables }
{}

/// The variables of paths from a loop with a rank.
pub fn loop_variables()
    ensures { LoopVariables }
{}

/// The variables of paths from a yield.
pub fn yield_variables()
    ensures { YieldVariables }
{}

/// What the formulas of actions weigh.
pub fn action_weights()
    ensures { ActionWeights }
{}

/// What the formulas of the product weigh.
pub fn product_weights()
    ensures { ProductWeights }
{}

/// What the formulas of the pool weigh.
pub fn pool_weights()
    ensures { PoolWeights }
{}

/// What the formula of a rank weighs.
pub fn countdown_weight()
    ensures { CountdownWeight }
{}

/// What the formulas of initial stores and of two actions of the spinlock weigh.
pub fn spinlock_weights()
    ensures { SpinlockWeights }
{}

/// What the formula of a path from a loop that yields weighs.
pub fn acquire_weight()
    ensures { AcquireWeight }
{}

/// What the formula of a block and a yield weighs.
pub fn release_weight()
    ensures { ReleaseWeight }
{}

/// A rank that goes down, and one that stays.
pub fn countdown_fails()
    ensures { CountdownFails }
{}

/// A rank that stays, behind a commit.
pub fn settling_fails()
    ensures { SettlingFails }
{}

/// A release that leaves the bit set.
pub fn forgetful_fails()
    ensures { ForgetfulFails }
{}

/// The names of what blocks and actions have to keep.
pub fn interfering_names()
    ensures { InterferingNames }
{}

/// At an entry permissions are apart.
pub fn owned_fails()
    ensures { OwnedFails }
{}

/// At an entry outputs and locals are zero.
pub fn fresh_fails()
    ensures { FreshFails }
{}

/// An increment that refines the action that adds 1, and not the one that adds 2.
pub fn adding_fails()
    ensures { AddingFails }
{}
