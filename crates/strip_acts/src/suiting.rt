//! Which acts suit.
ghost use Rattle.std.specs.Prelude.{◌≡◌, ◌∷◌, [], true, map, not, ◌&&◌, ◌==◌, nat_le, length};
ghost use Rattle.std.specs.List.{list_all, list_any};
ghost use Rattle.std.specs.Str.{bytes_eq};
ghost use Rattle.std.specs.Option.{option_map_or};
ghost use Rattle.strip_value.specs.declared.acts.Act.TheVariants.{Delete, Update};
ghost use Rattle.strip_kinds.specs.Mismatch.{differ};
ghost use Rattle.strip_names.specs.Grouped.{has_misplaced};
ghost use Rattle.strip_names.specs.Limits.{most_columns};
ghost use Rattle.strip_setup.specs.Catalog.{has_name, is_empty};
ghost use Rattle.strip_acts.specs.Laws.{AreNamed};
ghost use Rattle.strip_acts.specs.Shapes.{is_short, is_short_calc, is_short_item, is_short_query, is_short_test, is_short_what};
ghost use Rattle.strip_acts.specs.Suiting.{all_differ, all_once, gives_text, has_column, is_among, is_sound, is_there, kinds_in, most_inputs, suits, suits_filter, suits_group, suits_input, suits_item, suits_query, suits_truth, suits_value};
ghost use Rattle.strip_acts.specs.Trees.{input_columns};
ghost use Rattle.strip_acts.specs.Writable.{are_listed, is_row};

use crate::reads::{Reads, gives_text, suits_sum, suits_value};
use crate::shapes::{is_row, is_short_calc, is_short_test};
use strip_ast::is_grammar_name;
use strip_names::grouped::has_misplaced;
use strip_setup::names::is_same;
use strip_value::{
    Act, Calc, Id, Input, Item, Name, Place, PlaceList, Query, Row, Set, TableDef, Test, What,
};

/// The most items of a query.
const ITEMS: usize = 16;

fn is_there(tables: &[TableDef], id: Id) -> bool
    ensures { result ≡ is_there tables.now id }
{
    (id.0 as usize) < tables.len()
}

/// Whether both are numbers or both are texts.
fn are_alike(reads: &Reads<'_>, left: &Calc, right: &Calc) -> bool
    ensures { result ≡ not (differ (gives_text (kinds_in reads.now) left.now) (gives_text (kinds_in reads.now) right.now)) }
{
    gives_text(reads, left) == gives_text(reads, right)
}

/// Whether the second suits, and goes together with the first.
fn suits_beside(reads: &Reads<'_>, left: &Calc, right: &Calc) -> bool
    ensures { result ≡ (suits_value (kinds_in reads.now) right.now && not (differ (gives_text (kinds_in reads.now) left.now) (gives_text (kinds_in reads.now) right.now))) }
{
    suits_value(reads, right) && are_alike(reads, left, right)
}

/// Whether two numbers or two texts that suit are compared.
fn suits_compare(reads: &Reads<'_>, left: &Calc, right: &Calc) -> bool
    ensures { result ≡ (suits_value (kinds_in reads.now) left.now && (suits_value (kinds_in reads.now) right.now && not (differ (gives_text (kinds_in reads.now) left.now) (gives_text (kinds_in reads.now) right.now)))) }
{
    suits_value(reads, left) && suits_beside(reads, left, right)
}

/// Whether it is made of comparisons of two numbers or two texts.
fn suits_truth(reads: &Reads<'_>, test: &Test) -> bool
    ensures { result ≡ suits_truth (kinds_in reads.now) test.now }
{
    match test {
        Test::True => false,
        Test::Compare(_, left, right) => suits_compare(reads, left, right),
        Test::Not(inner) => suits_truth(reads, inner.get()),
        Test::And(left, right) => {
            suits_truth(reads, left.get()) && suits_truth(reads, right.get())
        }
        Test::Or(left, right) => {
            suits_truth(reads, left.get()) && suits_truth(reads, right.get())
        }
    }
}

#[tactic(auto, using(crate::proofs::VariantTrees::filters))]
fn suits_filter(reads: &Reads<'_>, filter: &Test) -> bool
    ensures { result ≡ suits_filter (kinds_in reads.now) filter.now }
{
    match filter {
        Test::True => true,
        _ => suits_truth(reads, filter),
    }
}

// ---- queries

/// Whether the entry is a plain table that is there.
fn suits_input(tables: &[TableDef], input: &Input) -> bool
    ensures { result ≡ suits_input tables.now input.now }
{
    match input {
        Input::Table(id) => is_there(tables, *id),
        _ => false,
    }
}

/// The most entries.
fn most_inputs(group: &Option<PlaceList>) -> usize
    ensures { result ≡ most_inputs group.now }
{
    match group {
        None => 3,
        Some(_) => 1,
    }
}

fn suits_item(reads: &Reads<'_>, what: &What) -> bool
    ensures { result ≡ suits_item (kinds_in reads.now) what.now }
{
    match what {
        What::Plain(calc) => suits_value(reads, calc),
        What::Sum(calc) => suits_sum(reads, calc),
        What::Count => true,
    }
}

fn suit_items(reads: &Reads<'_>, items: &[Item]) -> bool
    ensures { result ≡ list_all (λ item. suits_item (kinds_in reads.now) item.what) items.now }
{
    items.iter().all(|item| suits_item(reads, &item.what))
}

fn suits_group(reads: &Reads<'_>, group: &Option<PlaceList>) -> bool
    ensures { result ≡ suits_group (kinds_in reads.now) group.now }
{
    match group {
        None => true,
        Some(places) => are_there(reads, places.as_slice()),
    }
}

fn are_there(reads: &Reads<'_>, places: &[Place]) -> bool
    ensures { result ≡ list_all (λ place. has_column (kinds_in reads.now) place.entry place.column) places.now }
{
    places
        .iter()
        .all(|place| reads.has_column(place.entry, place.column))
}

/// Whether each entry is a plain table that is there.
fn suit_inputs(tables: &[TableDef], inputs: &[Input]) -> bool
    ensures { result ≡ list_all (suits_input tables.now) inputs.now }
{
    inputs.iter().all(|input| suits_input(tables, input))
}

fn is_named(items: &[Item], name: &Name) -> bool
    ensures { result ≡ list_any (λ item. bytes_eq item.name name.now) items.now }
{
    items.iter().any(|item| is_same(&item.name, name))
}

/// Whether one of the items has the name.
fn has_item(items: &[Item], name: &Name) -> bool
    ensures { result ≡ has_name (map (λ item. item.name) items.now) name.now }
{
    is_named(items, name)
}

/// Whether no two items have one name.
fn names_differ(items: &[Item]) -> bool
    ensures { result ≡ all_once (map (λ item. item.name) items.now) }
{
    for (i, item) in items.iter().enumerate() {
        if has_item(&items[..i], &item.name) {
            return false;
        }
    }
    true
}

/// Whether the items are no more than there may be, and have names of their own.
fn are_apart(items: &[Item]) -> bool
    ensures { result ≡ (nat_le (length items.now) most_columns && all_once (map (λ item. item.name) items.now)) }
{
    items.len() <= ITEMS && names_differ(items)
}

/// Whether the query has no more entries and items than it may, and the items have names of their own.
fn is_small(query: &Query) -> bool
    ensures { result ≡ (nat_le (length query.now.entries) (most_inputs query.now.group) && (nat_le (length query.now.items) most_columns && all_once (map (λ item. item.name) query.now.items))) }
{
    query.entries.len() <= most_inputs(&query.group) && are_apart(query.items.as_slice())
}

/// Whether the groups are made by columns that are there, and no item may not stand there.
fn is_grouped(reads: &Reads<'_>, query: &Query) -> bool
    ensures { result ≡ (suits_group (kinds_in reads.now) query.now.group && not (has_misplaced query.now)) }
{
    suits_group(reads, &query.group) && !has_misplaced(query)
}

/// Whether the filter suits what is read, and so do the groups.
fn suits_rows(reads: &Reads<'_>, query: &Query) -> bool
    ensures { result ≡ (suits_filter (kinds_in reads.now) query.now.filter && (suits_group (kinds_in reads.now) query.now.group && not (has_misplaced query.now))) }
{
    suits_filter(reads, &query.filter) && is_grouped(reads, query)
}

/// Whether what the query asks for suits what it reads.
fn suits_reads(reads: &Reads<'_>, query: &Query) -> bool
    ensures { result ≡ (list_all (λ item. suits_item (kinds_in reads.now) item.what) query.now.items && (suits_filter (kinds_in reads.now) query.now.filter && (suits_group (kinds_in reads.now) query.now.group && not (has_misplaced query.now)))) }
{
    suit_items(reads, query.items.as_slice()) && suits_rows(reads, query)
}

/// Whether the query is no larger than it may be, and what it asks for suits what it reads.
fn suits_over(reads: &Reads<'_>, query: &Query) -> bool
    ensures { result ≡ ((nat_le (length query.now.entries) (most_inputs query.now.group) && (nat_le (length query.now.items) most_columns && all_once (map (λ item. item.name) query.now.items))) && (list_all (λ item. suits_item (kinds_in reads.now) item.what) query.now.items && (suits_filter (kinds_in reads.now) query.now.filter && (suits_group (kinds_in reads.now) query.now.group && not (has_misplaced query.now))))) }
{
    is_small(query) && suits_reads(reads, query)
}

fn suits_query(tables: &[TableDef], query: &Query) -> bool
    ensures { result ≡ suits_query tables.now query.now }
{
    let entries = query.entries.as_slice();
    let reads = Reads::new(tables, entries);
    suit_inputs(tables, entries) && suits_over(&reads, query)
}

// ---- acts

/// Whether each of the sets is of another column.
fn are_others(sets: &[Set], column: u32) -> bool
    ensures { result ≡ list_all (λ s. not (s.column == column)) sets.now }
{
    sets.iter().all(|set| set.column != column)
}

/// Whether one of the sets is of the column.
fn has_set(sets: &[Set], column: u32) -> bool
    ensures { result ≡ is_among (map (λ s. s.column) sets.now) column }
{
    !are_others(sets, column)
}

/// Whether no two sets are of one column.
fn columns_differ(sets: &[Set]) -> bool
    ensures { result ≡ all_differ (map (λ s. s.column) sets.now) }
{
    for (i, set) in sets.iter().enumerate() {
        if has_set(&sets[i + 1..], set.column) {
            return false;
        }
    }
    true
}

fn suit_sets(reads: &Reads<'_>, sets: &[Set]) -> bool
    ensures { result ≡ list_all (λ s. has_column (kinds_in reads.now) 0 s.column && suits_value (kinds_in reads.now) s.value) sets.now }
{
    sets.iter().all(|set| reads.has_column(0, set.column) && suits_value(reads, &set.value))
}

/// Whether what is set suits what is read, and so does the filter.
fn suits_values(reads: &Reads<'_>, sets: &[Set], filter: &Test) -> bool
    ensures { result ≡ (list_all (λ s. has_column (kinds_in reads.now) 0 s.column && suits_value (kinds_in reads.now) s.value) sets.now && suits_filter (kinds_in reads.now) filter.now) }
{
    suit_sets(reads, sets) && suits_filter(reads, filter)
}

/// Whether each column is set once, and what is set and the filter suit what is read.
fn suits_changes(reads: &Reads<'_>, sets: &[Set], filter: &Test) -> bool
    ensures { result ≡ (all_differ (map (λ s. s.column) sets.now) && (list_all (λ s. has_column (kinds_in reads.now) 0 s.column && suits_value (kinds_in reads.now) s.value) sets.now && suits_filter (kinds_in reads.now) filter.now)) }
{
    columns_differ(sets) && suits_values(reads, sets, filter)
}

/// Whether the update sets columns that are there, each once, to values that suit, by a filter that suits.
fn suits_update(tables: &[TableDef], id: Id, sets: &[Set], filter: &Test) -> bool
    ensures { result ≡ is_sound tables.now (Update id sets.now filter.now) }
{
    let inputs = [Input::Table(id)];
    let reads = Reads::new(tables, &inputs);
    is_there(tables, id) && suits_changes(&reads, sets, filter)
}

fn suits_delete(tables: &[TableDef], id: Id, filter: &Test) -> bool
    ensures { result ≡ is_sound tables.now (Delete id filter.now) }
{
    let inputs = [Input::Table(id)];
    let reads = Reads::new(tables, &inputs);
    is_there(tables, id) && suits_filter(&reads, filter)
}

/// Whether tables and columns are there, kinds go together, nothing is too wide and nothing stands twice.
fn is_sound(tables: &[TableDef], act: &Act) -> bool
    ensures { result ≡ is_sound tables.now act.now }
{
    match act {
        Act::Insert { table, .. } => is_there(tables, *table),
        Act::Put { table, .. } => is_there(tables, *table),
        Act::Update {
            table,
            sets,
            filter,
        } => suits_update(tables, *table, sets.as_slice(), filter),
        Act::Delete { table, filter } => suits_delete(tables, *table, filter),
        Act::Select { query } => suits_query(tables, query),
        Act::Show { table } => is_there(tables, *table),
    }
}

fn is_short_what(what: &What) -> bool
    ensures { result ≡ is_short_what what.now }
{
    match what {
        What::Plain(calc) | What::Sum(calc) => is_short_calc(calc),
        What::Count => true,
    }
}

fn is_short_item(item: &Item) -> bool
    ensures { result ≡ is_short_item item.now }
{
    is_short_what(&item.what) && is_grammar_name(item.name.bytes())
}

fn all_short_items(items: &[Item]) -> bool
    ensures { result ≡ list_all is_short_item items.now }
{
    items.iter().all(is_short_item)
}

fn are_short_items(items: &[Item]) -> bool
    ensures { result ≡ are_listed is_short_item items.now }
{
    !items.is_empty() && all_short_items(items)
}

fn has_entries(inputs: &[Input]) -> bool
    ensures { result ≡ not (is_empty inputs.now) }
{
    !inputs.is_empty()
}

fn has_places(places: &[Place]) -> bool
    ensures { result ≡ not (is_empty places.now) }
{
    !places.is_empty()
}

/// Whether some columns to group by are named, if there are groups.
fn names_groups(group: &Option<PlaceList>) -> bool
    ensures { result ≡ option_map_or (λ places. not (is_empty places)) group.now true }
{
    match group {
        None => true,
        Some(places) => has_places(places.as_slice()),
    }
}

/// Whether the filter is short, and some columns to group by are named, if there are groups.
fn is_short_rest(query: &Query) -> bool
    ensures { result ≡ (is_short_test query.now.filter && option_map_or (λ places. not (is_empty places)) query.now.group true) }
{
    is_short_test(&query.filter) && names_groups(&query.group)
}

/// Whether there are entries, and what is asked of them is short.
fn is_short_over(query: &Query) -> bool
    ensures { result ≡ (not (is_empty query.now.entries) && (is_short_test query.now.filter && option_map_or (λ places. not (is_empty places)) query.now.group true)) }
{
    has_entries(query.entries.as_slice()) && is_short_rest(query)
}

fn is_short_query(query: &Query) -> bool
    ensures { result ≡ is_short_query query.now }
{
    are_short_items(query.items.as_slice()) && is_short_over(query)
}

fn all_rows(rows: &[Row]) -> bool
    ensures { result ≡ list_all is_row rows.now }
{
    rows.iter().all(is_row)
}

fn are_short_rows(rows: &[Row]) -> bool
    ensures { result ≡ are_listed is_row rows.now }
{
    !rows.is_empty() && all_rows(rows)
}

fn all_short_sets(sets: &[Set]) -> bool
    ensures { result ≡ list_all (λ s. is_short_calc s.value) sets.now }
{
    sets.iter().all(|set| is_short_calc(&set.value))
}

fn are_short_sets(sets: &[Set]) -> bool
    ensures { result ≡ are_listed (λ s. is_short_calc s.value) sets.now }
{
    !sets.is_empty() && all_short_sets(sets)
}

/// Whether what the act says itself can be written.
fn is_short(act: &Act) -> bool
    ensures { result ≡ is_short act.now }
{
    match act {
        Act::Insert { rows, .. } => are_short_rows(rows.as_slice()),
        Act::Put { row, .. } => is_row(row),
        Act::Update { sets, filter, .. } => {
            are_short_sets(sets.as_slice()) && is_short_test(filter)
        }
        Act::Delete { filter, .. } => is_short_test(filter),
        Act::Select { query } => is_short_query(query),
        Act::Show { .. } => true,
    }
}

/// Whether some deed of the grammar that would be accepted stands for the act, over these tables. It takes no memory.
pub fn suits(tables: &[TableDef], act: &Act) -> bool
    requires named { AreNamed tables.now }
    ensures { result ≡ suits tables.now act.now }
{
    is_sound(tables, act) && is_short(act)
}
