//! What stands at the places of a body with branches and loops.
ghost use Rattle.civl_meaning.specs.Rest.{SpotOfRest};
ghost use Rattle.civl_meaning.specs.examples.Places.{ThirteenStatements, PlacesInOrder, PlacesBehind, TableInOrder, TableBehind};

/// How many statements there are, and what comes from each place on and behind it.
pub fn places()
    ensures count { ThirteenStatements }
    ensures first { PlacesInOrder }
    ensures second { PlacesBehind }
{}

/// The entries of a table of these statements.
pub fn entries()
    ensures first { TableInOrder }
    ensures second { TableBehind }
{}

/// What stands at a place is the first of the statements that are still to run from it.
pub fn rests()
    ensures { SpotOfRest }
{}
