//! Blocks that are open, in a program that keeps the rules and all of whose conditions hold.
//!
//! A block of a procedure goes from a cut to the next one or to the exit. A path of civl_conditions::paths is a function of the values at
//! its beginning and of the choices of its calls. A frame in a run makes its choices one by one; it follows the path whose
//! choices are those that it has made, whatever the others are (`Following`). So what is said of all paths from a cut holds of
//! each frame that goes on from there. What the conditions say of paths are tests of the values at their beginning; here they
//! are facts of the state at the end, one a clause (`Ends`). A block is open where its frame follows a path from a cut at which
//! all that the conditions assume held (`Open`): no step of it fails; where it comes to a cut or to the exit, all that the
//! conditions conclude holds; and at the head of a rank loop a path begins anew, which comes to the same loop again or to a
//! later one (`Rounds`). [`laws`] has the theorems.

pub mod laws;
