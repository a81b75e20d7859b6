use strip_value::Name;

/// What there may be only so many or so much of.
#[derive(Clone, Copy, Debug, PartialEq, Eq)]
pub enum LimitKind {
    Tables,
    Streams,
    Functions,
    Rules,
    /// Columns of a table, or items of a query.
    Columns,
    /// Entries in `from`.
    Entries,
    /// Queries of a rule.
    Queries,
    /// Steps of a function.
    Steps,
    /// Rows of a table.
    Rows,
    /// How long an action is put off.
    Delay,
}

/// Why a statement was refused; it then changed nothing. The first that applies comes.
#[derive(Debug, Drop)]
pub enum SetupError {
    /// Setup is over.
    Closed,
    /// The name is taken, stands twice where once is meant, or is of a table that is kept otherwise or of a function that was
    /// made with a table.
    Exists { name: Name },
    /// There is nothing of that name, or more than one column; a step's table that isn't derived; a transition table or
    /// `before` outside a rule.
    Unknown { name: Name },
    /// A limit is passed: there are more than `at` of these, or the rows of a table aren't 1 to `at`.
    Limit { what: LimitKind, at: u64 },
    /// Kinds don't go together. `column` is the first column of the expression, if it has one; of a step or of `unique on` it
    /// is the bound column.
    KindMismatch { column: Option<Name> },
    /// A number may lie this far from 0, which is 2^63 or more.
    TooWide { magnitude: u128 },
    /// The table has no key.
    NoKey,
    /// Only base tables may be named there.
    ReadsDerived { name: Name },
    /// The table is to be kept by sums, and its query has no count.
    NoCount,
    /// The rule doesn't bind the table or the column.
    NotBound { column: Name },
    /// Two queries of the rule bind one name differently, or the rule binds otherwise than an earlier one of its function or
    /// has another `unique` part.
    BoundDiffers { function: Name },
    /// Items and groups don't go together.
    NotGrouped,
    Memory,
}
