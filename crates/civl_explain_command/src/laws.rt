// Laws of the definitions, each the contract of a function that does nothing.
ghost use Rattle.civl_explain_command.specs.Laws.{CivlReportsFirst, CivlReportsLast, FindsAllOfCivl, FindsAsCivl, StoriesTell};

use civl_action_stories::laws::violations_tell_losses;
use civl_clashes::laws::violations_are_told;
use civl_losses::laws::losses_are_told;
use civl_path_stories::laws::losses_tell_losses;

/// What is found of an input is what `civl` finds of it.
pub fn finds_as_civl()
    ensures { FindsAsCivl }
{}

/// And all that `civl` finds of it is found.
pub fn finds_all_of_civl()
    ensures { FindsAllOfCivl }
{}

/// The report of `civl` stands first, but for a run.
pub fn civl_reports_first()
    ensures { CivlReportsFirst }
{}

/// Of a run it stands behind the moves.
pub fn civl_reports_last()
    ensures { CivlReportsLast }
{}

/// The story of a condition says where something is lost exactly where the values violate it.
pub fn stories_tell()
    ensures { StoriesTell }
{
    violations_are_told();
    losses_are_told();
    violations_tell_losses();
    losses_tell_losses();
}
