//! How acts are written: the trees of their deeds.
ghost use Rattle.std.specs.Prelude.{◌≡◌, ◌≤◌, ◌&&◌, IfOk, Some, [], false, get_or, length, map, option_map, true};
ghost use Rattle.std.specs.List.{list_all};
ghost use Rattle.strip_value.specs.declared.acts.Act.TheVariants.{Delete, Update};
ghost use Rattle.strip_value.specs.declared.expressions.Calc.TheVariants.{Column};
ghost use Rattle.strip_ast.specs.declared.expressions.Expr.TheVariants as expr;
ghost use Rattle.strip_meaning.specs.Contents.{def_at};
ghost use Rattle.strip_acts.specs.Suiting.{has_column, is_kinded, is_sound, is_there, kinds_in, suits, suits_filter, suits_group, suits_input, suits_item, suits_query, suits_truth, suits_value};
ghost use Rattle.strip_acts.specs.Trees.{alias_at, col_tree, entries_of, entry_trees, expr_of, filter_tree, item_tree, no_column, no_entry, op_of, origin_of, query_tree, set_tree, total_of, tree_of, truth_of};

use crate::reads::Reads;
use itoa::Buffer;
use sqlite_items::Boxed;
use std::alloc::{AllocError, Global};
use strip_ast::{
    ColTree, ColTreeList, Deed, EntryTree, EntryTreeList, Expr, ItemTree, ItemTreeList, Op, Origin,
    QueryTree, SetTree, SetTreeList, Total,
};
use strip_value::{
    Act, Calc, Cmp, Duplicate, Id, Input, Item, Name, NameError, Place, PlaceList, Query, Set,
    TableDef, Test, What,
};

/// The name of an entry, counted from 0: e1, e2, e3.
fn alias_at(alloc: Global, entry: u32) -> Result<Name, AllocError>
    ensures { IfOk result (λ name. name ≡ alias_at entry) }
{
    let mut buffer = Buffer::new();
    let mut bytes = Vec::from_slice(alloc, b"e")?;
    bytes.extend_from_slice(buffer.format(entry as u64 + 1).as_bytes())?;
    match Name::of(alloc, bytes.as_slice()) {
        Ok(name) => Ok(name),
        Err(NameError::Memory) => Err(AllocError),
        Err(NameError::BadName) => unreachable!(),
    }
}

/// The name of an entry before a column, where one stands there.
fn qualifier(
    alloc: Global,
    reads: &Reads<'_>,
    named: bool,
    entry: u32,
) -> Result<Option<Name>, AllocError>
    ensures { IfOk result (λ name. name ≡ (get_or (entries_of named reads.now) entry no_entry).alias) }
{
    if !named {
        return Ok(None);
    }
    if (entry as usize) < reads.count() {
        Ok(Some(alias_at(alloc, entry)?))
    } else {
        Ok(None)
    }
}

/// The name of a column.
fn column_name(
    alloc: Global,
    reads: &Reads<'_>,
    entry: u32,
    column: u32,
) -> Result<Name, AllocError>
    requires { has_column (kinds_in reads.now) entry column ≡ true }
    ensures { IfOk result (λ name. name ≡ (get_or (get_or reads.now entry []) column no_column).name) }
{
    let columns = reads.columns(entry);
    let number = column as usize;
    columns[number].name.copy(alloc)
}

/// Two expressions with an operator between them.
fn two(alloc: Global, op: Op, left: Expr, right: Expr) -> Result<Expr, AllocError>
    ensures { IfOk result (λ made. made ≡ expr.Two op left right) }
{
    let left = Boxed::new(alloc, left)?;
    let right = Boxed::new(alloc, right)?;
    Ok(Expr::Two { op, left, right })
}

fn not(alloc: Global, inner: Expr) -> Result<Expr, AllocError>
    ensures { IfOk result (λ made. made ≡ expr.Not inner) }
{
    let inner = Boxed::new(alloc, inner)?;
    Ok(Expr::Not(inner))
}

/// A column, as it is written.
#[tactic(auto, using(crate::proofs::Entries::column_name_is))]
fn column_tree(
    alloc: Global,
    reads: &Reads<'_>,
    named: bool,
    entry: u32,
    column: u32,
) -> Result<Expr, AllocError>
    requires { has_column (kinds_in reads.now) entry column ≡ true }
    ensures { IfOk result (λ made. made ≡ expr_of (entries_of named reads.now) (Column entry column)) }
{
    let of = qualifier(alloc, reads, named, entry)?;
    let name = column_name(alloc, reads, entry, column)?;
    Ok(Expr::Column { of, name })
}

/// A value, as it is written.
fn expr_of(alloc: Global, reads: &Reads<'_>, named: bool, calc: &Calc) -> Result<Expr, AllocError>
    requires { is_kinded (kinds_in reads.now) calc.now ≡ true }
    ensures { IfOk result (λ made. made ≡ expr_of (entries_of named reads.now) calc.now) }
{
    match calc {
        Calc::Number(n) => Ok(Expr::Number(*n)),
        Calc::Text(text) => Ok(Expr::Text(text.copy(alloc)?)),
        Calc::Column { entry, column } => column_tree(alloc, reads, named, *entry, *column),
        Calc::Add(left, right) => {
            let left = expr_of(alloc, reads, named, left.get())?;
            let right = expr_of(alloc, reads, named, right.get())?;
            two(alloc, Op::Add, left, right)
        }
        Calc::Sub(left, right) => {
            let left = expr_of(alloc, reads, named, left.get())?;
            let right = expr_of(alloc, reads, named, right.get())?;
            two(alloc, Op::Sub, left, right)
        }
        Calc::Mul(left, right) => {
            let left = expr_of(alloc, reads, named, left.get())?;
            let right = expr_of(alloc, reads, named, right.get())?;
            two(alloc, Op::Mul, left, right)
        }
    }
}

fn op_of(how: Cmp) -> Op
    ensures { result ≡ op_of how }
{
    match how {
        Cmp::Eq => Op::Eq,
        Cmp::Ne => Op::Ne,
        Cmp::Lt => Op::Lt,
        Cmp::Le => Op::Le,
        Cmp::Gt => Op::Gt,
        Cmp::Ge => Op::Ge,
    }
}

/// Two values with a comparison between them.
fn compared(
    alloc: Global,
    reads: &Reads<'_>,
    named: bool,
    how: Cmp,
    left: &Calc,
    right: &Calc,
) -> Result<Expr, AllocError>
    requires left { is_kinded (kinds_in reads.now) left.now ≡ true }
    requires right { is_kinded (kinds_in reads.now) right.now ≡ true }
    ensures { IfOk result (λ made. made ≡ expr.Two (op_of how) (expr_of (entries_of named reads.now) left.now) (expr_of (entries_of named reads.now) right.now)) }
{
    let left = expr_of(alloc, reads, named, left)?;
    let right = expr_of(alloc, reads, named, right)?;
    two(alloc, op_of(how), left, right)
}

/// A truth value, as it is written.
fn truth_of(alloc: Global, reads: &Reads<'_>, named: bool, test: &Test) -> Result<Expr, AllocError>
    requires { suits_truth (kinds_in reads.now) test.now ≡ true }
    ensures { IfOk result (λ made. made ≡ truth_of (entries_of named reads.now) test.now) }
{
    match test {
        Test::True => unreachable!(),
        Test::Compare(how, left, right) => compared(alloc, reads, named, *how, left, right),
        Test::Not(inner) => not(alloc, truth_of(alloc, reads, named, inner.get())?),
        Test::And(left, right) => {
            let left = truth_of(alloc, reads, named, left.get())?;
            let right = truth_of(alloc, reads, named, right.get())?;
            two(alloc, Op::And, left, right)
        }
        Test::Or(left, right) => {
            let left = truth_of(alloc, reads, named, left.get())?;
            let right = truth_of(alloc, reads, named, right.get())?;
            two(alloc, Op::Or, left, right)
        }
    }
}

#[tactic(auto, using(crate::proofs::VariantTrees::filters))]
fn filter_tree(
    alloc: Global,
    reads: &Reads<'_>,
    named: bool,
    filter: &Test,
) -> Result<Option<Expr>, AllocError>
    requires { suits_filter (kinds_in reads.now) filter.now ≡ true }
    ensures { IfOk result (λ tree. tree ≡ filter_tree (entries_of named reads.now) filter.now) }
{
    match filter {
        Test::True => Ok(None),
        _ => Ok(Some(truth_of(alloc, reads, named, filter)?)),
    }
}

// ---- queries

#[tactic(auto, using(crate::proofs::VariantTrees::kinded))]
fn total_of(alloc: Global, reads: &Reads<'_>, what: &What) -> Result<Total, AllocError>
    requires { suits_item (kinds_in reads.now) what.now ≡ true }
    ensures { IfOk result (λ total. total ≡ total_of (entries_of true reads.now) what.now) }
{
    match what {
        What::Plain(calc) => Ok(Total::Plain(expr_of(alloc, reads, true, calc)?)),
        What::Sum(calc) => Ok(Total::Sum(expr_of(alloc, reads, true, calc)?)),
        What::Count => Ok(Total::Count),
    }
}

fn item_tree(alloc: Global, reads: &Reads<'_>, item: &Item) -> Result<ItemTree, AllocError>
    requires { suits_item (kinds_in reads.now) item.now.what ≡ true }
    ensures { IfOk result (λ tree. tree ≡ item_tree (entries_of true reads.now) item.now) }
{
    let what = total_of(alloc, reads, &item.what)?;
    let name = item.name.copy(alloc)?;
    Ok(ItemTree {
        what,
        name: Some(name),
    })
}

fn item_trees(alloc: Global, reads: &Reads<'_>, items: &[Item]) -> Result<ItemTreeList, AllocError>
    requires { list_all (λ item. suits_item (kinds_in reads.now) item.what) items.now ≡ true }
    ensures { IfOk result (λ trees. trees ≡ map (item_tree (entries_of true reads.now)) items.now) }
{
    let mut trees = ItemTreeList::new(alloc);
    for item in items {
        trees.push(item_tree(alloc, reads, item)?)?;
    }
    Ok(trees)
}

/// The name of a table that is there.
fn table_name(alloc: Global, tables: &[TableDef], id: Id) -> Result<Name, AllocError>
    requires { is_there tables.now id ≡ true }
    ensures { IfOk result (λ name. name ≡ (def_at tables.now id).name) }
{
    let number = id.0 as usize;
    tables[number].name.copy(alloc)
}

/// The table of an entry.
fn origin_of(alloc: Global, tables: &[TableDef], input: &Input) -> Result<Origin, AllocError>
    requires { suits_input tables.now input.now ≡ true }
    ensures { IfOk result (λ origin. origin ≡ origin_of tables.now input.now) }
{
    match input {
        Input::Table(id) => Ok(Origin::Table(table_name(alloc, tables, *id)?)),
        _ => unreachable!(),
    }
}

/// An entry of that number, with its name.
fn entry_tree(
    alloc: Global,
    tables: &[TableDef],
    number: u32,
    input: &Input,
) -> Result<EntryTree, AllocError>
    requires { suits_input tables.now input.now ≡ true }
    ensures { IfOk result (λ tree. tree ≡ record { origin = origin_of tables.now input.now; alias = Some (alias_at number) }) }
{
    let origin = origin_of(alloc, tables, input)?;
    let alias = alias_at(alloc, number)?;
    Ok(EntryTree {
        origin,
        alias: Some(alias),
    })
}

fn entry_trees(
    alloc: Global,
    tables: &[TableDef],
    inputs: &[Input],
) -> Result<EntryTreeList, AllocError>
    requires there { list_all (suits_input tables.now) inputs.now ≡ true }
    requires few { length inputs.now ≤ 3 }
    ensures { IfOk result (λ trees. trees ≡ entry_trees tables.now inputs.now) }
{
    let mut trees = EntryTreeList::new(alloc);
    for (i, input) in inputs.iter().enumerate() {
        trees.push(entry_tree(alloc, tables, i as u32, input)?)?;
    }
    Ok(trees)
}

#[tactic(auto, using(crate::proofs::Entries::column_name_is))]
fn col_tree(alloc: Global, reads: &Reads<'_>, place: Place) -> Result<ColTree, AllocError>
    requires { has_column (kinds_in reads.now) place.entry place.column ≡ true }
    ensures { IfOk result (λ tree. tree ≡ col_tree (entries_of true reads.now) place) }
{
    let of = qualifier(alloc, reads, true, place.entry)?;
    let name = column_name(alloc, reads, place.entry, place.column)?;
    Ok(ColTree { of, name })
}

fn col_trees(alloc: Global, reads: &Reads<'_>, places: &[Place]) -> Result<ColTreeList, AllocError>
    requires { list_all (λ place. has_column (kinds_in reads.now) place.entry place.column) places.now ≡ true }
    ensures { IfOk result (λ trees. trees ≡ map (col_tree (entries_of true reads.now)) places.now) }
{
    let mut trees = ColTreeList::new(alloc);
    for place in places {
        trees.push(col_tree(alloc, reads, *place)?)?;
    }
    Ok(trees)
}

fn group_trees(
    alloc: Global,
    reads: &Reads<'_>,
    group: &Option<PlaceList>,
) -> Result<Option<ColTreeList>, AllocError>
    requires { suits_group (kinds_in reads.now) group.now ≡ true }
    ensures { IfOk result (λ trees. trees ≡ option_map (map (col_tree (entries_of true reads.now))) group.now) }
{
    match group {
        None => Ok(None),
        Some(places) => Ok(Some(col_trees(alloc, reads, places.as_slice())?)),
    }
}

fn query_tree(alloc: Global, tables: &[TableDef], query: &Query) -> Result<QueryTree, AllocError>
    requires { suits_query tables.now query.now ≡ true }
    ensures { IfOk result (λ tree. tree ≡ query_tree tables.now query.now) }
{
    let inputs = query.entries.as_slice();
    let reads = Reads::new(tables, inputs);
    let items = item_trees(alloc, &reads, query.items.as_slice())?;
    let entries = entry_trees(alloc, tables, inputs)?;
    let filter = filter_tree(alloc, &reads, true, &query.filter)?;
    let group = group_trees(alloc, &reads, &query.group)?;
    Ok(QueryTree {
        items,
        entries,
        filter,
        group,
    })
}

// ---- acts

#[tactic(auto, using(crate::proofs::Entries::column_name_is))]
fn set_tree(alloc: Global, reads: &Reads<'_>, set: &Set) -> Result<SetTree, AllocError>
    requires column { has_column (kinds_in reads.now) 0 set.now.column ≡ true }
    requires value { is_kinded (kinds_in reads.now) set.now.value ≡ true }
    ensures { IfOk result (λ tree. tree ≡ set_tree (entries_of false reads.now) set.now) }
{
    let column = column_name(alloc, reads, 0, set.column)?;
    let value = expr_of(alloc, reads, false, &set.value)?;
    Ok(SetTree { column, value })
}

fn set_trees(alloc: Global, reads: &Reads<'_>, sets: &[Set]) -> Result<SetTreeList, AllocError>
    requires { list_all (λ s. has_column (kinds_in reads.now) 0 s.column && suits_value (kinds_in reads.now) s.value) sets.now ≡ true }
    ensures { IfOk result (λ trees. trees ≡ map (set_tree (entries_of false reads.now)) sets.now) }
{
    let mut trees = SetTreeList::new(alloc);
    for set in sets {
        trees.push(set_tree(alloc, reads, set)?)?;
    }
    Ok(trees)
}

fn update_tree(
    alloc: Global,
    tables: &[TableDef],
    id: Id,
    sets: &[Set],
    filter: &Test,
) -> Result<Deed, AllocError>
    requires { is_sound tables.now (Update id sets.now filter.now) ≡ true }
    ensures { IfOk result (λ deed. deed ≡ tree_of tables.now (Update id sets.now filter.now)) }
{
    let inputs = [Input::Table(id)];
    let reads = Reads::new(tables, &inputs);
    let table = table_name(alloc, tables, id)?;
    let sets = set_trees(alloc, &reads, sets)?;
    let filter = filter_tree(alloc, &reads, false, filter)?;
    Ok(Deed::Update {
        table,
        sets,
        filter,
    })
}

fn delete_tree(
    alloc: Global,
    tables: &[TableDef],
    id: Id,
    filter: &Test,
) -> Result<Deed, AllocError>
    requires { is_sound tables.now (Delete id filter.now) ≡ true }
    ensures { IfOk result (λ deed. deed ≡ tree_of tables.now (Delete id filter.now)) }
{
    let inputs = [Input::Table(id)];
    let reads = Reads::new(tables, &inputs);
    let table = table_name(alloc, tables, id)?;
    let filter = filter_tree(alloc, &reads, false, filter)?;
    Ok(Deed::Delete { table, filter })
}

/// The deed that an act is written as. The entries of a query are called e1, e2, e3, each of its columns stands behind the name
/// of its entry, and each item has a name; the columns of an update or a delete stand alone.
pub fn tree_of(alloc: Global, tables: &[TableDef], act: &Act) -> Result<Deed, AllocError>
    requires { suits tables.now act.now ≡ true }
    ensures { IfOk result (λ deed. deed ≡ tree_of tables.now act.now) }
{
    match act {
        Act::Insert { table, rows } => Ok(Deed::Insert {
            table: table_name(alloc, tables, *table)?,
            rows: rows.copy(alloc)?,
        }),
        Act::Put { table, row } => Ok(Deed::Put {
            table: table_name(alloc, tables, *table)?,
            row: row.copy(alloc)?,
        }),
        Act::Update {
            table,
            sets,
            filter,
        } => update_tree(alloc, tables, *table, sets.as_slice(), filter),
        Act::Delete { table, filter } => delete_tree(alloc, tables, *table, filter),
        Act::Select { query } => Ok(Deed::Select {
            query: query_tree(alloc, tables, query)?,
        }),
        Act::Show { table } => Ok(Deed::Show {
            table: table_name(alloc, tables, *table)?,
        }),
    }
}
