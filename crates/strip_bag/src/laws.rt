//! Laws of bags: the contracts of functions that do nothing. The statements stand in `specs/Laws.antt` and, of queries, in `specs/Linear.antt`.
ghost use Rattle.strip_bag.specs.Laws.{AddingRaises, AddingKeepsBags, RowsCount, BagsOfRows, SumsCount, SumsAreBags, DifferencesCount, DifferencesAreBags, AppendsCount, CountsDecide, AppendsAreSums, OrderKeepsBags, SumsFollowBags};
ghost use Rattle.strip_bag.specs.Linear.{AnswersAreSelected, GroupedAnswersAreTotals, GroupingIsLinear, GroupsAreTotals, OneEntryIsChosen, SelectingIsLinear, TotalsFollow};

/// Adding raises the count of the row and of no other.
pub fn adding_raises()
    ensures raises { AddingRaises }
    ensures bag { AddingKeepsBags }
{}

/// In the bag of a list each row counts as often as the list has it.
pub fn rows_count()
    ensures counts { RowsCount }
    ensures bag { BagsOfRows }
{}

/// In the sum of two bags each row has the sum of its counts.
pub fn sums_count()
    ensures counts { SumsCount }
    ensures bag { SumsAreBags }
{}

/// In a bag less a bag each row has the difference of its counts.
pub fn differences_count()
    ensures counts { DifferencesCount }
    ensures bag { DifferencesAreBags }
{}

/// In the bag of two lists, one after the other, each row has the sum of its counts in both.
pub fn appends_count()
    ensures counts { AppendsCount }
    ensures sum { AppendsAreSums }
{}

/// Bags in which each row has one count are one bag.
pub fn counts_decide()
    ensures { CountsDecide }
{}

/// The sum of a number of each row follows from the bag of the rows alone, and so not from their order.
pub fn sums_follow_bags()
    ensures order { OrderKeepsBags }
    ensures sums { SumsFollowBags }
{}

/// Selecting rows by a filter, and items of them, is linear; the answer to a query over one entry, without groups, is what is
/// selected from the bag of that entry's rows.
pub fn selecting_is_linear()
    ensures linear { SelectingIsLinear }
    ensures answers { AnswersAreSelected }
{}

/// Grouping by columns with sums and counts is linear.
pub fn grouping_is_linear()
    ensures { GroupingIsLinear }
{}

/// The sums and counts of the groups of a query over one entry are the totals of the bag of that entry's rows.
pub fn groups_are_totals()
    ensures chosen { OneEntryIsChosen }
    ensures totals { GroupsAreTotals }
    ensures answers { GroupedAnswersAreTotals }
{}

/// How sums and counts of a group change from one list of rows to another follows from the bag of their difference alone.
pub fn totals_follow()
    ensures { TotalsFollow }
{}
