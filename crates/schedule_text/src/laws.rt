//! Laws over the definitions, each the contract of a function that does nothing.
ghost use Rattle.schedule_text.specs.Laws.{SomeAnswer, OneAnswer, WrittenIsReadBack};

/// Each token list has exactly one answer: the steps whose spelling it is, or the place of one fault, and never both.
pub fn one_answer()
    ensures some { SomeAnswer }
    ensures one { OneAnswer }
{}

/// What is written of steps in range is read, as tokens and then as named steps, as these steps and no others.
pub fn written_is_read_back()
    ensures { WrittenIsReadBack }
{}
