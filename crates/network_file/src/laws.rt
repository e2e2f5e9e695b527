//! Laws over the definitions.
ghost use Rattle.network_file.specs.Laws.{LayoutReadsBack, OneReading};

use amdl_tree::layout_is_file;

/// No text is read in two ways: it is the file of one tree, or has one fault, and never both.
pub fn one_reading()
    ensures { OneReading }
{
    amdl_lexer::one_answer();
    amdl_parser::one_answer();
}

/// Lexing and parsing the canonical layout of a shaped tree gives the tree, where the layout is within the limits.
pub fn layout_reads_back()
    ensures { LayoutReadsBack }
{
    layout_is_file();
}
