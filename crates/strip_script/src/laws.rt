//! A law of scripts: the contract of a function that does nothing. The statement stands in `specs/Shown.antt`.
ghost use Rattle.strip_script.specs.Shown.{QuietShowsAreQueries};

/// Where nothing waits and nothing runs, what a script writes of a derived table that is kept are the rows of its query over the
/// base tables.
pub fn quiet_shows_are_queries()
    ensures { QuietShowsAreQueries }
{}
