// Laws of reports, each the contract of a function that does nothing.
ghost use Rattle.civl_verdicts.specs.verdict_reports.Laws.{OnlyAcceptedAccepts};

/// The report of no verdict but that of acceptance begins with `accepted`.
pub fn only_accepted_accepts()
    ensures { OnlyAcceptedAccepts }
{}
