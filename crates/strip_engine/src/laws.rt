//! Laws of histories and of the derived tables in them: the contracts of functions that do nothing. The statements stand
//! in `specs/Quiet.antt`.
ghost use Rattle.strip_engine.specs.Quiet.{DeltasAddUp, EachRowInOneAction, PrefixIsLegal, QueryHasTotals, QuietTablesAreQueries};

/// In a legal history after which no action waits and none runs, each derived table that is declared to be kept has
/// the rows of its query over the base tables.
pub fn quiet_tables_are_queries()
    ensures { QuietTablesAreQueries }
{}

/// At a commit the rows that the rule of a derived table binds have sums. Per key they are the totals of the group
/// after the commit less those before it. The totals are those of the table's query; no row counts as zeros.
pub fn deltas_add_up()
    ensures deltas { DeltasAddUp }
    ensures query { QueryHasTotals }
{}

/// Each bound row is among the rows of one action and of no other, and this action is just one of pending, running
/// and finished.
pub fn each_row_in_one_action()
    ensures { EachRowInOneAction }
{}

/// What a legal history was before its newest entries is legal.
pub fn prefix_is_legal()
    ensures { PrefixIsLegal }
{}
