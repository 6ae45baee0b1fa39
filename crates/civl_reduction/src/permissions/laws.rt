//! The laws. Each function computes nothing; its clauses are theorems.
ghost use Rattle.civl_reduction.specs.permissions.Apart.{CallsAreApart, CallsExist};
ghost use Rattle.civl_reduction.specs.permissions.Stay.{PermissionsStay};

pub mod examples;

/// Every configuration that a run of a layer's program reaches from an initial store is parted, where the condition on
/// permissions holds of each action whose first layer is this one or lower.
pub fn permissions_stay()
    ensures { PermissionsStay }
{}

/// In such a configuration the calls before which threads stand are of actions of the program, with inputs of their sorts,
/// and those of two threads are apart. The actions exist in the layer, where spawns stand in roots alone.
pub fn calls_are_apart()
    ensures apart { CallsAreApart }
    ensures exist { CallsExist }
{}
