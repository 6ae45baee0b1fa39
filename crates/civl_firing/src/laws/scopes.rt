//! What names, `done` and `old(..)` are worth at each place.
ghost use Rattle.civl_firing.specs.examples.Scopes.{GlobalPlaces, GatePlaces, GuardPlaces, FramePlaces, OldDiffers};

/// In `init` and the arguments of threads, gates, guards and the statements of a procedure.
pub fn places()
    ensures globals { GlobalPlaces }
    ensures gate { GatePlaces }
    ensures guard { GuardPlaces }
    ensures frame { FramePlaces }
{}

/// Where the old values are others.
pub fn old_values()
    ensures { OldDiffers }
{}
