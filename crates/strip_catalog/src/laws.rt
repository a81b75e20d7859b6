//! Laws of catalogs: the contracts of functions that do nothing. The statements stand in `specs/Laws.antt`.
ghost use Rattle.strip_catalog.specs.Laws.{CatalogsAreSmall, DeclaredTablesAreKept, NamesAreTheirOwn, NamesStandForNumbers, QueriesSuit, RulesSuit, TablesAreNamed, TablesAreSound};

/// There are at most 64 tables, streams and functions, and 128 rules; a table has at most 16 columns.
pub fn catalogs_are_small()
    ensures { CatalogsAreSmall }
{}

/// No two tables have one name, and no two streams, functions or rules.
pub fn names_are_their_own()
    ensures { NamesAreTheirOwn }
{}

/// The names of tables and of their columns are names of the grammar, and no two columns of a table have one name.
pub fn tables_are_named()
    ensures { TablesAreNamed }
{}

/// The name of each table stands for the number of that table, and so does the name of each function.
pub fn names_stand_for_numbers()
    ensures { NamesStandForNumbers }
{}

/// Each table is a base table within the limits or a derived one. A derived table of the first form has the columns that its
/// query gives.
pub fn tables_are_sound()
    ensures { TablesAreSound }
{}

/// The query of each derived table has groups over one entry, and suits the tables: its tables and columns are there, its kinds
/// go together, and no number that it computes is too wide.
pub fn queries_suit()
    ensures { QueriesSuit }
{}

/// What each rule asks suits the tables, its conditions and what it evaluates: its table is there, and so are the tables and
/// columns of its queries, kinds go together, and no number that a query computes is too wide.
pub fn rules_suit()
    ensures { RulesSuit }
{}

/// A table that is declared to be kept has the function and the rule that are made of it. No other function keeps it, and no
/// other rule executes that function.
pub fn declared_tables_are_kept()
    ensures { DeclaredTablesAreKept }
{}
