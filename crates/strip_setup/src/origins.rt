//! What the entries of queries are called.
ghost use Rattle.std.specs.Prelude.{◌≡◌, option_copied};
ghost use Rattle.strip_setup.specs.Queries.{alias_of, origin_name};

use strip_ast::{EntryTree, Origin};
use strip_value::Name;

/// The table's own name; a transition table has none.
pub fn origin_name(origin: &Origin) -> Option<&Name>
    ensures { option_copied result ≡ origin_name origin.now }
{
    match origin {
        Origin::Table(name) | Origin::Before(name) => Some(name),
        _ => None,
    }
}

/// The name after the entry, else its table's name.
pub fn alias_of(entry: &EntryTree) -> Option<&Name>
    ensures { option_copied result ≡ alias_of entry.now }
{
    match &entry.alias {
        Some(alias) => Some(alias),
        None => origin_name(&entry.origin),
    }
}
