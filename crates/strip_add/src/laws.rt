//! Laws of sums: the contracts of functions that do nothing. The statements stand in `specs/Laws.antt`.
ghost use Rattle.strip_add.specs.Laws.{AddingAdds, AddingShows, AddingShowsNamed, AddedRowsRise, FoldsSum, FoldsAppend, FoldedRowsRise, FoldedRowsFit, SumsAreBounded};

/// After adding, a key has the totals that it had and those that were added.
pub fn adding_adds()
    ensures { AddingAdds }
{}

/// After adding, there is a row exactly where one of the totals isn't zero, and the keys rise.
pub fn adding_shows()
    ensures shown { AddingShows }
    ensures named { AddingShowsNamed }
    ensures rise { AddedRowsRise }
{}

/// What is folded of two lists, one after the other, is per key the sum of both.
pub fn folds_add_up()
    ensures sums { FoldsSum }
    ensures append { FoldsAppend }
{}

/// What is folded can be added: its keys rise, and it is of the table's kinds.
pub fn folds_can_be_added()
    ensures rise { FoldedRowsRise }
    ensures fit { FoldedRowsFit }
    ensures bounded { SumsAreBounded }
{}
