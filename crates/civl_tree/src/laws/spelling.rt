// The spelling of trees, on worked examples.
ghost use Rattle.civl_tree.specs.SpellingLaws.{RaisedHasSpelling, TokensMayStand, SizesAreCounts, BodyIsNumbered, BranchesAreNumbered, LoopsAreNumbered, ItemsAreInTextOrder, ItemsAreNumbered};
ghost use Rattle.civl_tree.specs.examples.SpellingExprs.{SortsAreSpelled, OnesAreSpelled, TwosAreSpelled, ExprsAreSpelled};
ghost use Rattle.civl_tree.specs.examples.SpellingStmts.{StmtsAreSpelled};
ghost use Rattle.civl_tree.specs.examples.SpellingItems.{ModesAreSpelled, MoversAreSpelled, EverythingIsSpelled};
ghost use Rattle.civl_tree.specs.examples.SpellingFlag.{FlagIsSpelled};
ghost use Rattle.civl_tree.specs.examples.SpellingDomains.{NamesAreNames, OpsHaveSpelling, ExprsHaveSpelling, ProgramsUsing, ProgramsNaming, ProgramsSpawning, ModesHaveSpelling, VersionsHaveSpelling};
ghost use Rattle.civl_tree.specs.examples.SpellingTexts.{HeaderText, BracesText, EmptyText, VersionsRaised, FlagText};
ghost use Rattle.civl_tree.specs.examples.SpellingNumbers.{FlagItems, EverythingItems, SpinlockItems, StmtSizes, BodyStatements, BodyNumbers};
ghost use Rattle.civl_tree.specs.examples.SpellingPrograms.{SpinlockIsSpelled, UnlockedIsSpelled, CountdownIsSpelled, PoolIsSpelled, ProductIsSpelled};
ghost use Rattle.civl_tree.specs.examples.SpellingScripts.{ScriptIsSpelled, EntriesHaveSpelling, ChosenHaveSpelling, ScriptsHaveSpelling};

/// Sorts and their tokens.
pub fn sorts_are_spelled()
    ensures { SortsAreSpelled }
{}

/// Operators with one operand and their tokens.
pub fn ones_are_spelled()
    ensures { OnesAreSpelled }
{}

/// Operators with two operands and their tokens.
pub fn twos_are_spelled()
    ensures { TwosAreSpelled }
{}

/// Expressions of every form and their tokens.
#[tactic(auto, using(crate::proofs::Trees::of_trees))]
pub fn exprs_are_spelled()
    ensures { ExprsAreSpelled }
{}

/// Statements of every form and their tokens.
#[tactic(auto, using(crate::proofs::Trees::of_trees))]
pub fn stmts_are_spelled()
    ensures { StmtsAreSpelled }
{}

/// Modes and their words.
pub fn modes_are_spelled()
    ensures { ModesAreSpelled }
{}

/// Movers and their words.
pub fn movers_are_spelled()
    ensures { MoversAreSpelled }
{}

/// A program with declarations of every form has a spelling, and it is this list of tokens.
#[tactic(auto, using(crate::proofs::Trees::of_trees))]
pub fn everything_is_spelled()
    ensures { EverythingIsSpelled }
{}

/// The program of the flag has a spelling, and it is this list of tokens.
#[tactic(auto, using(crate::proofs::Trees::of_trees))]
pub fn flag_is_spelled()
    ensures { FlagIsSpelled }
{}

/// The program of a spinlock and a counter has a spelling, and it is this list of tokens.
pub fn spinlock_is_spelled()
    ensures { SpinlockIsSpelled }
{}

/// The program of increments without a lock has a spelling, and it is this list of tokens.
pub fn unlocked_is_spelled()
    ensures { UnlockedIsSpelled }
{}

/// The program of a rank from 255 to 0 has a spelling, and it is this list of tokens.
pub fn countdown_is_spelled()
    ensures { CountdownIsSpelled }
{}

/// The program of a pool of permissions has a spelling, and it is this list of tokens.
#[tactic(auto, using(crate::proofs::Trees::of_trees))]
pub fn pool_is_spelled()
    ensures { PoolIsSpelled }
{}

/// The program of a product has a spelling, and it is this list of tokens.
#[tactic(auto, using(crate::proofs::Trees::of_trees))]
pub fn product_is_spelled()
    ensures { ProductIsSpelled }
{}

/// A script with values of every form has a spelling, and it is this list of tokens.
#[tactic(auto, using(crate::proofs::Trees::of_trees))]
pub fn script_is_spelled()
    ensures { ScriptIsSpelled }
{}

/// Which entries of a store have a spelling.
pub fn entries_have_spelling()
    ensures { EntriesHaveSpelling }
{}

/// Which values for choices have a spelling.
pub fn chosen_have_spelling()
    ensures { ChosenHaveSpelling }
{}

/// Which scripts have a spelling.
#[tactic(auto, using(crate::proofs::Trees::of_trees))]
pub fn scripts_have_spelling()
    ensures { ScriptsHaveSpelling }
{}

/// What is a name, and what is none.
pub fn names_are_names()
    ensures { NamesAreNames }
{}

/// Which operators each version has.
#[tactic(auto, using(crate::proofs::Trees::of_trees))]
pub fn ops_have_spelling()
    ensures { OpsHaveSpelling }
{}

/// Which expressions have a spelling, by a part at every place.
#[tactic(auto, using(crate::proofs::Trees::of_trees))]
pub fn exprs_have_spelling()
    ensures { ExprsHaveSpelling }
{}

/// Which programs have a spelling, by an expression at every place.
#[tactic(auto, using(crate::proofs::Trees::of_trees))]
pub fn programs_using()
    ensures { ProgramsUsing }
{}

/// Which programs have a spelling, by a name at every place.
#[tactic(auto, using(crate::proofs::Trees::of_trees))]
pub fn programs_naming()
    ensures { ProgramsNaming }
{}

/// Which programs with a `spawn` have a spelling, by their versions.
#[tactic(auto, using(crate::proofs::Trees::of_trees))]
pub fn programs_spawning()
    ensures { ProgramsSpawning }
{}

/// Which modes parameters and outputs may have.
#[tactic(auto, using(crate::proofs::Trees::of_trees))]
pub fn modes_have_spelling()
    ensures { ModesHaveSpelling }
{}

/// A program without words of version 2 has a spelling in every version.
#[tactic(auto, using(crate::proofs::Trees::of_trees))]
pub fn versions_have_spelling()
    ensures { VersionsHaveSpelling }
{}

/// The canonical text of a program's first lines.
#[tactic(auto, using(crate::proofs::Trees::of_texts))]
pub fn header_text()
    ensures { HeaderText }
{}

/// The canonical text of braces, brackets and numbers.
#[tactic(auto, using(crate::proofs::Trees::of_texts))]
pub fn braces_text()
    ensures { BracesText }
{}

/// The canonical text of no tokens.
pub fn empty_text()
    ensures { EmptyText }
{}

/// The versions in which programs are printed.
pub fn versions_raised()
    ensures { VersionsRaised }
{}

/// The canonical text of the flag's program.
pub fn flag_text()
    ensures { FlagText }
{}

/// The numbers of the flag's items.
pub fn flag_items()
    ensures { FlagItems }
{}

/// The numbers of items of every kind.
pub fn everything_items()
    ensures { EverythingItems }
{}

/// The numbers of the spinlock's items.
pub fn spinlock_items()
    ensures { SpinlockItems }
{}

/// How many statements a statement of each form is.
#[tactic(auto, using(crate::proofs::Trees::of_trees))]
pub fn stmt_sizes()
    ensures { StmtSizes }
{}

/// The statements of a body in the order of their numbers.
#[tactic(auto, using(crate::proofs::Preorder::preorder))]
pub fn body_statements()
    ensures { BodyStatements }
{}

/// The numbers of the statements of a body and of its branches.
#[tactic(auto, using(crate::proofs::Trees::of_trees))]
pub fn body_numbers()
    ensures { BodyNumbers }
{}

/// Where a program has a spelling, the program that is printed for it has one.
pub fn raised_has_spelling()
    ensures { RaisedHasSpelling }
{}

/// Counted by its parts, a body has as many statements as it has in text order.
pub fn sizes_are_counts()
    ensures { SizesAreCounts }
{}

/// The statements of a body are numbered from 0.
pub fn body_is_numbered()
    ensures { BodyIsNumbered }
{}

/// The statements of the branches of an `if` are numbered on from its own number, the first branch before the second.
pub fn branches_are_numbered()
    ensures { BranchesAreNumbered }
{}

/// The statements in a loop are numbered on from its own number.
pub fn loops_are_numbered()
    ensures { LoopsAreNumbered }
{}

/// A program's tokens are those of its header and then those of its items, in the order of their numbers.
pub fn items_are_in_text_order()
    ensures { ItemsAreInTextOrder }
{}

/// Each declaration is the item that has its number.
pub fn items_are_numbered()
    ensures { ItemsAreNumbered }
{}

/// Each token of a program or script that has a spelling may stand in a text.
pub fn tokens_may_stand()
    ensures { TokensMayStand }
{}
