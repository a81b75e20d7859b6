//! Laws of acts that suit: the contracts of functions that do nothing. The statements stand in `specs/Laws.antt`.
ghost use Rattle.strip_acts.specs.Laws.{SuitingActsAreWritten, WrittenDeedsSuit};

/// What an act that suits is written as has a text, is accepted, and stands for the act.
pub fn suiting_acts_are_written()
    ensures { SuitingActsAreWritten }
{}

/// What an accepted deed that has a text stands for suits.
pub fn written_deeds_suit()
    ensures { WrittenDeedsSuit }
{}
