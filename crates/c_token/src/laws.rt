//! Laws of tokens.

ghost use Rattle.c_token.specs.Laws.{BreachIsTold, ConstantsAreLongest, PunctuatorsAreLongest, SpelledIsRead, WordsAreLongest};
ghost use Rattle.c_token.specs.TextsWorked.{AreWorked};

/// A law: a text spells the tokens that are read from it and no others, and breaks the rule that is told, on that line,
/// and no other.
pub fn a_text_has_one_reading()
    ensures spelled { SpelledIsRead }
    ensures broken { BreachIsTold }
{}

/// A law: each token is the longest at its byte (ISO/IEC 9899:2011, 6.4p4).
pub fn each_token_is_the_longest()
    ensures words { WordsAreLongest }
    ensures constants { ConstantsAreLongest }
    ensures punctuators { PunctuatorsAreLongest }
{}

/// A law: the definitions give these tokens and refusals of small texts.
pub fn texts_are_worked()
    ensures { AreWorked }
{}
