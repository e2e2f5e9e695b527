//! Laws over the definitions, each the contract of a function that does nothing.
ghost use Rattle.amdl_parser.specs.Answer.{SomeAnswer, OneAnswer};

/// Each token list has exactly one answer: the tree whose spelling it is, or the place of one fault, and never both.
pub fn one_answer()
    ensures some { SomeAnswer }
    ensures one { OneAnswer }
{}
