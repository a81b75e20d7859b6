//! That the acts that have a text are just those that are parsed: laws, the contracts of functions that do nothing.
#![tactic(auto)]

ghost use Rattle.strip_written.specs.Laws.{ParsedActsAreWritten, WrittenActsAreParsed};

/// What an act that has a text is printed as is parsed as that act.
pub fn written_acts_are_parsed()
    ensures { WrittenActsAreParsed }
{}

/// An act that some bytes are parsed as has a text.
pub fn parsed_acts_are_written()
    ensures { ParsedActsAreWritten }
{}
