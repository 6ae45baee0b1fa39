//! What is told of a refusal is what its rule speaks of.
ghost use Rattle.civl_subjects.specs.Laws.{AbsentIsTold, AgainIsTold, HiddenIsTold, UnknownIsTold};
ghost use Rattle.civl_subjects.specs.examples.Edits.{HeadersAreTold, LayersAreTold, LinearIsTold, NamesAreTold, SortsAreTold, YieldsAreTold};

/// Under E11 a name is told that stands in the item or statement, and isn't in scope there as what is needed.
pub fn unknown_is_told()
    ensures { UnknownIsTold }
{}

/// Under E10 a name is told that stands for two things: a declaration's own, or one that it declares, updates or names again.
pub fn again_is_told()
    ensures { AgainIsTold }
{}

/// Under E31 a name is told that stands in the item or statement, and that is that of a global which may not be used there.
pub fn hidden_is_told()
    ensures { HiddenIsTold }
{}

/// Under E33 the name of an action is told that is refined, called, or refined by what is called, and doesn't exist there.
pub fn absent_is_told()
    ensures { AbsentIsTold }
{}

/// E10 and E11 on edited copies of the flag program.
pub fn names_are_told()
    ensures { NamesAreTold }
{}

/// E12, the numbers of the header.
pub fn headers_are_told()
    ensures { HeadersAreTold }
{}

/// E20 to E24.
pub fn sorts_are_told()
    ensures { SortsAreTold }
{}

/// E30 to E35 on edited copies of the program of two layers.
pub fn layers_are_told()
    ensures { LayersAreTold }
{}

/// E40, E41 and E43 on bodies with linear locals.
pub fn linear_is_told()
    ensures { LinearIsTold }
{}

/// E50 to E53.
pub fn yields_are_told()
    ensures { YieldsAreTold }
{}
