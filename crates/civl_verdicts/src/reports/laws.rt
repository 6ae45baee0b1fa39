// Laws of reports, each the contract of a function that does nothing.
ghost use Rattle.civl_verdicts.specs.reports.Laws.{NeverAccepts};

/// No report of a survey has a line that begins with `accepted`.
pub fn surveys_never_accept()
    ensures { NeverAccepts }
{}
