ghost use Rattle.strip_parse.specs.Exactness.{ReadsRightly, ReadsAll};
ghost use Rattle.strip_parse.specs.Printing.{PrintsItself, PrintsWithin};

/// What `parse` reads is exactly what is in the grammar. Nothing runs here: the clauses are the laws.
///
/// - `right`: a tree that is read is the tree of the tokens by the grammar. Where the reading stops at a
///   token as unexpected, some statement begins with the tokens before it and none with that token besides;
///   where the tokens end too early, some statement begins with them and they are none. A limit is passed
///   only at a token with which some statement goes on.
/// - `all`: a list of tokens that is a statement with a tree is read as that tree, unless it passes a limit.
pub fn reads_exactly()
    ensures right { ReadsRightly }
    ensures all { ReadsAll }
{}

/// What `print` writes of a statement is a statement with the same tree. Nothing runs here: the clauses are the laws.
///
/// - `tree`: whatever bytes are a statement of the grammar, which has no limits, what its tree is printed as is a
///   statement with the same tree.
/// - `within`: what is printed of a statement that `parsed` reads within the limits is read within them too, as the
///   same tree.
pub fn prints_itself()
    ensures tree { PrintsItself }
    ensures within { PrintsWithin }
{}
