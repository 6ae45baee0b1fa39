//! The laws. Each function computes nothing; its clauses are theorems.
ghost use Rattle.civl_reduction.specs.Fronted.{ChosenComeFirst, FrontedRunAlike, FrontedFail};
ghost use Rattle.civl_reduction.specs.Never.{ExchangedNeverDiffer, MoversNeverDiffer};

/// The exchange of two moves is no difference where they may be exchanged; and so in a layer's program, where the first is
/// a right mover or the second a left one.
pub fn never_differs()
    ensures exchanged { ExchangedNeverDiffer }
    ensures movers { MoversNeverDiffer }
{}

/// Moves that are brought to the front: `Same` has them first, in their order, and then the others, and runs where the
/// moves run. `Fails` runs to a failing configuration.
pub fn fronted_so()
    ensures order { ChosenComeFirst }
    ensures runs { FrontedRunAlike }
    ensures fails { FrontedFail }
{}
