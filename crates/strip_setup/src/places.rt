//! Which columns of a query's entries are meant.
ghost use Rattle.std.specs.Prelude.{◌≡◌, IfOk, count_by, is_some, map};
ghost use Rattle.strip_value.specs.Bounds.{column_kind};
ghost use Rattle.strip_setup.specs.Small.{AreFew};
ghost use Rattle.strip_setup.specs.Queries.{is_meant, kinds_of, place_of};
ghost use Rattle.strip_setup.specs.Places.{is_clear};
ghost use Rattle.strip_setup.specs.Places.{column_meant};

use crate::names::{column_number, is_same};
use crate::scope::Entry;
use std::alloc::{AllocError, Global};
use strip_value::{ColumnDef, Kind, KindList, Kinds, Name, Place};

/// Whether an entry is meant by what stands before a column.
fn is_meant(of: &Option<Name>, alias: &Option<Name>) -> bool
    ensures { result ≡ is_meant of.now alias.now }
{
    match (of, alias) {
        (None, _) => true,
        (Some(_), None) => false,
        (Some(of), Some(alias)) => is_same(of, alias),
    }
}

/// The number of the column in an entry, if the entry is meant and has it.
fn column_meant(entry: &Entry, of: &Option<Name>, name: &Name) -> Option<usize>
    ensures { result ≡ column_meant of.now name.now entry.now }
{
    if is_meant(of, &entry.alias) {
        column_number(entry.columns.as_slice(), name)
    } else {
        None
    }
}

/// How many entries have a column that is meant.
fn count_meant(entries: &[Entry], of: &Option<Name>, name: &Name) -> usize
    ensures { result ≡ count_by (λ entry. is_some (column_meant of.now name.now entry)) entries.now }
{
    entries
        .iter()
        .filter(|entry| column_meant(entry, of, name).is_some())
        .count()
}

/// Whether one column alone is meant.
#[tactic(auto, using(crate::proofs::Meant::count_places))]
pub fn is_clear(entries: &[Entry], of: &Option<Name>, name: &Name) -> bool
    ensures { result ≡ is_clear entries.now (record { of = of.now; name = name.now }) }
{
    count_meant(entries, of, name) == 1
}

/// The column that is meant; where none is, the first of the first entry.
pub fn place_of(entries: &[Entry], of: &Option<Name>, name: &Name) -> Place
    requires few { AreFew entries.now }
    ensures { result ≡ place_of entries.now of.now name.now }
{
    for (i, entry) in entries.iter().enumerate() {
        if let Some(column) = column_meant(entry, of, name) {
            return Place {
                entry: i as u32,
                column: column as u32,
            };
        }
    }
    Place {
        entry: 0,
        column: 0,
    }
}

/// The kind of the column at a place; one that isn't there counts as a text.
pub fn kind_at(entries: &[Entry], place: Place) -> Kind
    ensures { result ≡ column_kind (kinds_of entries.now) place.entry place.column }
{
    let Some(entry) = entries.get(place.entry as usize) else {
        return Kind::Text;
    };
    match entry.columns.as_slice().get(place.column as usize) {
        Some(column) => column.kind,
        None => Kind::Text,
    }
}

fn kinds_in(alloc: Global, columns: &[ColumnDef]) -> Result<KindList, AllocError>
    ensures { IfOk result (λ made. made ≡ map (λ column. column.kind) columns.now) }
{
    let mut kinds = KindList::new(alloc);
    for column in columns {
        kinds.push(column.kind)?;
    }
    Ok(kinds)
}

/// The kinds of the columns of each entry.
pub fn kinds_of(alloc: Global, entries: &[Entry]) -> Result<Kinds, AllocError>
    ensures { IfOk result (λ made. made ≡ kinds_of entries.now) }
{
    let mut kinds = Kinds::new(alloc);
    for entry in entries {
        kinds.push(kinds_in(alloc, entry.columns.as_slice())?)?;
    }
    Ok(kinds)
}
