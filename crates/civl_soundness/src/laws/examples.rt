//! Worked examples.
ghost use Rattle.civl_soundness.specs.examples.Increments.{IncrementsArePlain, MiddleIsOf, LaterIsOf};
ghost use Rattle.civl_soundness.specs.examples.Putting.{ChoiceIsPlain, BeforeIsOf, SevenIsPut, NoWordIsPut, BeforeIsOfOther, TrueIsPut, ChoiceIsWanting, WithoutChoice, ThreadIsStuck};

/// Configurations on a schedule of a program of increments are its own, as the laws say.
pub fn increments()
    ensures plain { IncrementsArePlain }
    ensures middle { MiddleIsOf }
    ensures later { LaterIsOf }
{}

/// A chosen word is put into a global: the configuration stays one of the program. What is no word, though its width is
/// right, takes the configuration out of it, so the laws ask for choices that are values.
pub fn choices()
    ensures plain { ChoiceIsPlain }
    ensures before { BeforeIsOf }
    ensures seven { SevenIsPut }
    ensures no_word { NoWordIsPut }
{}

/// A program that breaks the rule on sorts doesn't keep its configurations.
pub fn sorts()
    ensures before { BeforeIsOfOther }
    ensures put { TrueIsPut }
{}

/// A move that isn't made, and its cause; and a program that breaks the rule on names, with a thread that is stuck
/// without one.
pub fn answers()
    ensures cause { ChoiceIsWanting }
    ensures answered { WithoutChoice }
    ensures stuck { ThreadIsStuck }
{}
