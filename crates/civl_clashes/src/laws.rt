//! Laws of the definitions, each the contract of a function that does nothing.
ghost use Rattle.civl_clashes.specs.Laws.{StartsAreTold, LossesAreTold, ClashesAreTold, SpoilsAreTold};
ghost use Rattle.civl_clashes.specs.Laws.{RevealsAreTold, WaitsAreTold, StraysAreTold, ViolationsAreTold};
ghost use Rattle.civl_clashes.specs.examples.Clearing.{ClearStrays, YieldStrays};
ghost use Rattle.civl_clashes.specs.examples.Locking.{LockClashes, HeldLockDoesNot, FreeClashes, ReadClashes};
ghost use Rattle.civl_clashes.specs.examples.Locking.{WriteClashes, GateChanges, PickWaits};
ghost use Rattle.civl_clashes.specs.examples.Pooling.{GrabDoubles, GrabMakes, FillDoubles, PoolStarts};

/// K1: an initial store is told exactly where values violate it.
pub fn starts_are_told()
    ensures { StartsAreTold }
{}

/// K2: a loss is told exactly where values violate it.
pub fn losses_are_told()
    ensures { LossesAreTold }
{}

/// K3 and K5: a clash is told exactly where values violate them.
pub fn clashes_are_told()
    ensures { ClashesAreTold }
{}

/// K4 and K6: a spoiled gate is told exactly where values violate them.
pub fn spoils_are_told()
    ensures { SpoilsAreTold }
{}

/// K7: a gate that becomes true is told exactly where values violate it.
pub fn reveals_are_told()
    ensures { RevealsAreTold }
{}

/// K8: a wait is told exactly where values violate it.
pub fn waits_are_told()
    ensures { WaitsAreTold }
{}

/// K11: a lost target is told exactly where values violate it.
pub fn strays_are_told()
    ensures { StraysAreTold }
{}

/// A violation is told exactly where values violate a condition on actions.
pub fn violations_are_told()
    ensures { ViolationsAreTold }
{}

/// A lock, and what it guards.
pub fn locking()
    ensures lock { LockClashes }
    ensures held { HeldLockDoesNot }
    ensures free { FreeClashes }
    ensures read { ReadClashes }
    ensures write { WriteClashes }
    ensures gates { GateChanges }
    ensures pick { PickWaits }
{}

/// A pool of permissions.
pub fn pooling()
    ensures doubles { GrabDoubles }
    ensures makes { GrabMakes }
    ensures lent { FillDoubles }
    ensures starts { PoolStarts }
{}

/// A flag behind which a thread waits.
pub fn clearing()
    ensures invariant { ClearStrays }
    ensures yields { YieldStrays }
{}
