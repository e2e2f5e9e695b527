//! A law over the definitions, the contract of a function that does nothing.
ghost use Rattle.amdl_lexer.specs.Laws.{SomeAnswer, OneAnswer};

/// Each text has exactly one answer: it is read as one list of tokens, or has one fault, and never both.
pub fn one_answer()
    ensures some { SomeAnswer }
    ensures one { OneAnswer }
{}
