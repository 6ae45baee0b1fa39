//! The laws. Each function computes nothing; its clauses are theorems.
ghost use Rattle.civl_reduction.specs.checked.Checked.{ActionsKeepPermissions, ActionsAreMovers, CheckedStayParted, CheckedExchange, CheckedNeverDiffers, SpawnsAreInRoots};

/// Spawns stand in roots. Where all conditions hold, actions keep permissions and movers move; so configurations are parted, and steps are
/// exchanged, without a difference.
pub fn checked()
    ensures roots { SpawnsAreInRoots }
    ensures permissions { ActionsKeepPermissions }
    ensures movers { ActionsAreMovers }
    ensures parted { CheckedStayParted }
    ensures exchanged { CheckedExchange }
    ensures differs { CheckedNeverDiffers }
{}
