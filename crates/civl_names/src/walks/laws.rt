//! What it means to read notes beside statements.
ghost use Rattle.civl_names.specs.walks.Judged.{EachIsJudged};

/// Where there are as many notes as statements, each statement is judged with its own.
pub fn each_is_judged<N>()
    ensures { EachIsJudged N }
{}
