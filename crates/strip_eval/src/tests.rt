//! Queries, and their rows as worked out by hand.
ghost use Rattle.std.specs.Prelude.{◌≡◌, [], ◌∷◌, map, IfOk, OnOk};
ghost use Rattle.std.specs.List.{AllByRecursion};
ghost use Rattle.strip_value.specs.Bounds.{table_kinds};
ghost use Rattle.strip_value.specs.Kinds.{FitsKinds};
ghost use Rattle.strip_value.specs.Trees.{And as both_of, Mul as product_of, Not as none_of};
ghost use Rattle.strip_eval.specs.Tests.{IsOne, IsSetting, MayAsk, at, numbers, words};
ghost use Rattle.strip_eval.specs.Tests as wanted;

use crate::{Env, Moved, Query, Row, RowList, Table, rows};
use sqlite_items::Boxed;
use std::alloc::{AllocError, Global};
use std::marker::Model;
use std::process::Abort;
use std::test::Fail;
use strip_value::{
    Calc, Cmp, ColumnDef, Id, Input, Item, ItemList, Items, Kind, Name, NameError, Place,
    PlaceList, TableDef, Test, Text, TextError, Value, What,
};

// ---- tables

// What queries are asked of: one table as it stands and as it stood, and the rows that were added since.
#[derive(Drop)]
struct Setting {
    now: Vec<Table>,
    before: Vec<Table>,
    moved: Moved,
}

impl Model for Setting {
    ghost use Rattle.strip_value.specs.Query.{Environment};
    ghost use Rattle.strip_eval.specs.Codes.{environment_code};

    ghost Value = { Environment };

    ghost coded = { environment_code };

    ghost view = { λ s. record { now = s.now.items; before = s.before.items; moved = s.moved } };
}

fn column_of(alloc: Global, name: &[u8], kind: Kind) -> Result<ColumnDef, NameError>
    ensures { IfOk result (λ column. column.kind ≡ kind) }
{
    let name = Name::of(alloc, name)?;
    Ok(ColumnDef { name, kind })
}

// An empty table with the first column as its key.
fn empty(alloc: Global, columns: Vec<ColumnDef>) -> Result<Table, Fail>
    ensures { IfOk result (λ table. table.def.columns ≡ columns.items) }
{
    let name = Name::of(alloc, b"t")?;
    let def = TableDef {
        name,
        columns: Items::from_vec(columns),
        key: Items::from_vec(vec![in alloc; 0]?),
        limit: None,
        query: None,
        kept: None,
        declared: false,
    };
    Ok(Table::new(alloc, &def)?)
}

fn put(table: &mut Table, row: Row) -> Result<(), Fail>
    requires { FitsKinds (table_kinds table.old) row }
    ensures { OnOk result (table_kinds table.new ≡ table_kinds table.old) }
{
    table.put(row)?;
    Ok(())
}

fn three(alloc: Global, cells: (i32, i32, i32)) -> Result<Row, AllocError>
    ensures { IfOk result (FitsKinds numbers) }
{
    let first = Value::Int(i128::from(cells.0));
    let second = Value::Int(i128::from(cells.1));
    let third = Value::Int(i128::from(cells.2));
    Ok(Row::of(vec![in alloc; first, second, third]?))
}

// The table of a query's entries, of which there are few rows.
fn alone(alloc: Global, table: Table) -> Result<Vec<Table>, Fail>
    ensures { IfOk result (λ tables. IsOne (table_kinds table) tables.items) }
{
    if table.len() > 9 {
        return Err(Fail::from("too many rows"));
    }
    Ok(vec![in alloc; table]?)
}

// Table t (id int, g int, v int, key id) with these rows.
fn table_t(alloc: Global, cells: &[(i32, i32, i32)]) -> Result<Vec<Table>, Fail>
    ensures { IfOk result (λ tables. IsOne numbers tables.items) }
{
    let id = column_of(alloc, b"id", Kind::Int)?;
    let g = column_of(alloc, b"g", Kind::Int)?;
    let v = column_of(alloc, b"v", Kind::Int)?;
    let mut table = empty(alloc, vec![in alloc; id, g, v]?)?;
    for row in cells {
        put(&mut table, three(alloc, *row)?)?;
    }
    alone(alloc, table)
}

fn word(alloc: Global, id: i32, text: &[u8]) -> Result<Row, TextError>
    ensures { IfOk result (FitsKinds words) }
{
    let text = Text::of(alloc, text)?;
    let Ok(values) = vec![in alloc; Value::Int(i128::from(id)), Value::Text(text)] else {
        return Err(TextError::Memory);
    };
    Ok(Row::of(values))
}

// Table w (id int, s text, key id) with these texts, numbered from 1.
fn table_w(alloc: Global, texts: &[&[u8]]) -> Result<Vec<Table>, Fail>
    ensures { IfOk result (λ tables. IsOne words tables.items) }
{
    let id = column_of(alloc, b"id", Kind::Int)?;
    let s = column_of(alloc, b"s", Kind::Text)?;
    let mut table = empty(alloc, vec![in alloc; id, s]?)?;
    for (place, text) in (1..).zip(texts) {
        put(&mut table, word(alloc, place, text)?)?;
    }
    alone(alloc, table)
}

fn added(alloc: Global, cells: &[(i32, i32, i32)]) -> Result<RowList, AllocError>
    ensures { IfOk result (AllByRecursion (FitsKinds numbers)) }
{
    let mut rows = RowList::new(alloc);
    for row in cells {
        rows.push(three(alloc, *row)?)?;
    }
    Ok(rows)
}

fn moved(alloc: Global, inserted: RowList) -> Moved
    ensures { result.inserted ≡ inserted }
{
    Moved {
        inserted,
        deleted: RowList::new(alloc),
        old: RowList::new(alloc),
        new: RowList::new(alloc),
    }
}

// Table t as it stands, as it stood, and the rows that were added.
fn setting_t(
    alloc: Global,
    now: &[(i32, i32, i32)],
    before: &[(i32, i32, i32)],
    inserted: &[(i32, i32, i32)],
) -> Result<Setting, Fail>
    ensures { IfOk result (IsSetting numbers) }
{
    let now = table_t(alloc, now)?;
    let before = table_t(alloc, before)?;
    let moved = moved(alloc, added(alloc, inserted)?);
    Ok(Setting { now, before, moved })
}

// Table w as it stands and as it stood.
fn setting_w(alloc: Global, texts: &[&[u8]]) -> Result<Setting, Fail>
    ensures { IfOk result (IsSetting words) }
{
    let now = table_w(alloc, texts)?;
    let before = table_w(alloc, texts)?;
    let moved = moved(alloc, RowList::new(alloc));
    Ok(Setting { now, before, moved })
}

// ---- queries

fn column(entry: u32, column: u32) -> Calc
    ensures { result ≡ Calc.Column entry column }
{
    Calc::Column { entry, column }
}

#[tactic(auto, using(strip_value::specs::Trees::trees))]
fn product(alloc: Global, left: Calc, right: Calc) -> Result<Calc, AllocError>
    ensures { IfOk result (λ e. e ≡ product_of left right) }
{
    Ok(Calc::Mul(Boxed::new(alloc, left)?, Boxed::new(alloc, right)?))
}

fn compare(how: Cmp, left: Calc, right: Calc) -> Test
    ensures { result ≡ Test.Compare how left right }
{
    Test::Compare(how, left, right)
}

#[tactic(auto, using(strip_value::specs::Trees::trees))]
fn both(alloc: Global, left: Test, right: Test) -> Result<Test, AllocError>
    ensures { IfOk result (λ t. t ≡ both_of left right) }
{
    Ok(Test::And(Boxed::new(alloc, left)?, Boxed::new(alloc, right)?))
}

#[tactic(auto, using(strip_value::specs::Trees::trees))]
fn not(alloc: Global, test: Test) -> Result<Test, AllocError>
    ensures { IfOk result (λ t. t ≡ none_of test) }
{
    Ok(Test::Not(Boxed::new(alloc, test)?))
}

fn item(alloc: Global, what: What) -> Result<Item, NameError>
    ensures { IfOk result (λ item. item.what ≡ what) }
{
    let name = Name::of(alloc, b"c")?;
    Ok(Item { name, what })
}

fn by_g(alloc: Global) -> Result<PlaceList, AllocError>
    ensures { IfOk result (λ places. places ≡ at 0 1) }
{
    let place = Place {
        entry: 0,
        column: 1,
    };
    Ok(Items::from_vec(vec![in alloc; place]?))
}

// select g from t
fn plain(alloc: Global) -> Result<Query, Fail>
    ensures { IfOk result wanted.IsPlain }
{
    let g = item(alloc, What::Plain(column(0, 1)))?;
    Ok(Query {
        items: Items::from_vec(vec![in alloc; g]?),
        entries: Items::from_vec(vec![in alloc; Input::Table(Id(0))]?),
        filter: Test::True,
        group: None,
    })
}

// g, sum(..), count(*)
fn sum_items(alloc: Global, part: Calc) -> Result<ItemList, Fail>
    ensures { IfOk result (λ items. map (λ item. item.what) items ≡ What.Plain (Calc.Column 0 1) ∷ What.Sum part ∷ What.Count ∷ []) }
{
    let g = item(alloc, What::Plain(column(0, 1)))?;
    let sum = item(alloc, What::Sum(part))?;
    let count = item(alloc, What::Count)?;
    Ok(Items::from_vec(vec![in alloc; g, sum, count]?))
}

// select g, sum(..), count(*) from t where .. group by g
fn sums(alloc: Global, part: Calc, filter: Test) -> Result<Query, Fail>
    ensures { IfOk result (wanted.IsSums part filter) }
{
    let items = sum_items(alloc, part)?;
    let entries = Items::from_vec(vec![in alloc; Input::Table(Id(0))]?);
    let group = Some(by_g(alloc)?);
    Ok(Query {
        items,
        entries,
        filter,
        group,
    })
}

// select a.id, b.id from t a, t b where ..
fn joined(alloc: Global, filter: Test) -> Result<Query, Fail>
    ensures { IfOk result (wanted.IsJoined filter) }
{
    let first = item(alloc, What::Plain(column(0, 0)))?;
    let second = item(alloc, What::Plain(column(1, 0)))?;
    Ok(Query {
        items: Items::from_vec(vec![in alloc; first, second]?),
        entries: Items::from_vec(vec![in alloc; Input::Table(Id(0)), Input::Table(Id(0))]?),
        filter,
        group: None,
    })
}

// select a.id, b.id, c.id from first a, second b, third c where a.id < b.id and b.id < c.id
fn chain(alloc: Global, first: Input, second: Input, third: Input) -> Result<Query, Fail>
    ensures { IfOk result (wanted.IsChain first second third) }
{
    let a = item(alloc, What::Plain(column(0, 0)))?;
    let b = item(alloc, What::Plain(column(1, 0)))?;
    let c = item(alloc, What::Plain(column(2, 0)))?;
    let low = compare(Cmp::Lt, column(0, 0), column(1, 0));
    let high = compare(Cmp::Lt, column(1, 0), column(2, 0));
    Ok(Query {
        items: Items::from_vec(vec![in alloc; a, b, c]?),
        entries: Items::from_vec(vec![in alloc; first, second, third]?),
        filter: both(alloc, low, high)?,
        group: None,
    })
}

// a.g = b.g and a.id < b.id
fn alike(alloc: Global) -> Result<Test, AllocError>
    ensures { IfOk result (λ t. t ≡ wanted.alike) }
{
    let same = compare(Cmp::Eq, column(0, 1), column(1, 1));
    let below = compare(Cmp::Lt, column(0, 0), column(1, 0));
    both(alloc, same, below)
}

// not (a.g = b.g and a.id < b.id)
fn others(alloc: Global) -> Result<Test, AllocError>
    ensures { IfOk result (λ t. t ≡ none_of wanted.alike) }
{
    not(alloc, alike(alloc)?)
}

// a column of the first entry and the same of the second
fn compare_both(how: Cmp, place: u32) -> Test
    ensures { result ≡ Test.Compare how (Calc.Column 0 place) (Calc.Column 1 place) }
{
    compare(how, column(0, place), column(1, place))
}

// v > 100
fn large() -> Test
    ensures { result ≡ wanted.large }
{
    compare(Cmp::Gt, column(0, 2), Calc::Number(100))
}

// v * v
fn square(alloc: Global) -> Result<Calc, AllocError>
    ensures { IfOk result (λ e. e ≡ product_of (Calc.Column 0 2) (Calc.Column 0 2)) }
{
    product(alloc, column(0, 2), column(0, 2))
}

// ---- what they give

fn check(
    rt: &impl Abort,
    alloc: Global,
    setting: &Setting,
    query: &Query,
    rows: &str,
) -> Result<(), Fail>
    requires { MayAsk query.now setting.now }
{
    let env = Env::new(
        setting.now.as_slice(),
        setting.before.as_slice(),
        &setting.moved,
    );
    let mut text = Vec::new(alloc);
    for row in crate::rows(alloc, query, &env)?.as_slice() {
        row.text(alloc, &mut text)?;
    }
    assert_eq!(rt; text.as_slice(), rows.as_bytes());
    Ok(())
}

// select g from t
fn ask_plain(rt: &impl Abort, alloc: Global, tables: &Setting, rows: &str) -> Result<(), Fail>
    requires { IsSetting numbers tables.now }
{
    let query = plain(alloc)?;
    check(rt, alloc, tables, &query, rows)
}

// select g, sum(v), count(*) from t group by g
fn ask_sums(rt: &impl Abort, alloc: Global, tables: &Setting, rows: &str) -> Result<(), Fail>
    requires { IsSetting numbers tables.now }
{
    let part = column(0, 2);
    let query = sums(alloc, part, Test::True)?;
    check(rt, alloc, tables, &query, rows)
}

// select g, sum(v), count(*) from t where v > 100 group by g
fn ask_large(rt: &impl Abort, alloc: Global, tables: &Setting, rows: &str) -> Result<(), Fail>
    requires { IsSetting numbers tables.now }
{
    let part = column(0, 2);
    let filter = large();
    let query = sums(alloc, part, filter)?;
    check(rt, alloc, tables, &query, rows)
}

// select g, sum(v * v), count(*) from t group by g
fn ask_squares(rt: &impl Abort, alloc: Global, tables: &Setting, rows: &str) -> Result<(), Fail>
    requires { IsSetting numbers tables.now }
{
    let part = square(alloc)?;
    let query = sums(alloc, part, Test::True)?;
    check(rt, alloc, tables, &query, rows)
}

// select a.id, b.id from t a, t b where a.g = b.g and a.id < b.id
fn ask_alike(rt: &impl Abort, alloc: Global, tables: &Setting, rows: &str) -> Result<(), Fail>
    requires { IsSetting numbers tables.now }
{
    let filter = alike(alloc)?;
    let query = joined(alloc, filter)?;
    check(rt, alloc, tables, &query, rows)
}

// select a.id, b.id from t a, t b where not (a.g = b.g and a.id < b.id)
fn ask_others(rt: &impl Abort, alloc: Global, tables: &Setting, rows: &str) -> Result<(), Fail>
    requires { IsSetting numbers tables.now }
{
    let filter = others(alloc)?;
    let query = joined(alloc, filter)?;
    check(rt, alloc, tables, &query, rows)
}

// select a.id, b.id from t a, t b where a.g <> b.g
fn ask_unlike(rt: &impl Abort, alloc: Global, tables: &Setting, rows: &str) -> Result<(), Fail>
    requires { IsSetting numbers tables.now }
{
    let filter = compare_both(Cmp::Ne, 1);
    let query = joined(alloc, filter)?;
    check(rt, alloc, tables, &query, rows)
}

// select a.id, b.id, c.id from t a, t b, t c where a.id < b.id and b.id < c.id
fn ask_chain(rt: &impl Abort, alloc: Global, tables: &Setting, rows: &str) -> Result<(), Fail>
    requires { IsSetting numbers tables.now }
{
    let query = chain(
        alloc,
        Input::Table(Id(0)),
        Input::Table(Id(0)),
        Input::Table(Id(0)),
    )?;
    check(rt, alloc, tables, &query, rows)
}

// the same from inserted a, t b, before t c
fn ask_added(rt: &impl Abort, alloc: Global, tables: &Setting, rows: &str) -> Result<(), Fail>
    requires { IsSetting numbers tables.now }
{
    let query = chain(
        alloc,
        Input::Inserted,
        Input::Table(Id(0)),
        Input::Before(Id(0)),
    )?;
    check(rt, alloc, tables, &query, rows)
}

// the same from before t a, inserted b, t c
fn ask_before(rt: &impl Abort, alloc: Global, tables: &Setting, rows: &str) -> Result<(), Fail>
    requires { IsSetting numbers tables.now }
{
    let query = chain(
        alloc,
        Input::Before(Id(0)),
        Input::Inserted,
        Input::Table(Id(0)),
    )?;
    check(rt, alloc, tables, &query, rows)
}

// select a.id, b.id from w a, w b where a.s < b.s
fn ask_texts_below(rt: &impl Abort, alloc: Global, tables: &Setting, rows: &str) -> Result<(), Fail>
    requires { IsSetting words tables.now }
{
    let filter = compare_both(Cmp::Lt, 1);
    let query = joined(alloc, filter)?;
    check(rt, alloc, tables, &query, rows)
}

// select a.id, b.id from w a, w b where a.s = b.s and a.id < b.id
fn ask_texts_alike(rt: &impl Abort, alloc: Global, tables: &Setting, rows: &str) -> Result<(), Fail>
    requires { IsSetting words tables.now }
{
    let filter = alike(alloc)?;
    let query = joined(alloc, filter)?;
    check(rt, alloc, tables, &query, rows)
}

const ROWS: [(i32, i32, i32); 3] = [(1, 7, 5), (2, 7, 6), (3, 8, 1)];

#[test]
fn rows_of_one_table(rt: HostRuntime) -> Result<(), Fail> {
    let alloc = rt.alloc();
    let t = setting_t(alloc, &ROWS, &[], &[])?;
    ask_plain(&rt, alloc, &t, "(7)(7)(8)")?;
    ask_sums(&rt, alloc, &t, "(7, 11, 2)(8, 1, 1)")?;
    ask_large(&rt, alloc, &t, "")
}

#[test]
fn rows_of_joins(rt: HostRuntime) -> Result<(), Fail> {
    let alloc = rt.alloc();
    let t = setting_t(alloc, &ROWS, &[], &[])?;
    ask_alike(&rt, alloc, &t, "(1, 2)")?;
    let others = "(1, 1)(1, 3)(2, 1)(2, 2)(2, 3)(3, 1)(3, 2)(3, 3)";
    ask_others(&rt, alloc, &t, others)?;
    ask_unlike(&rt, alloc, &t, "(1, 3)(2, 3)(3, 1)(3, 2)")?;
    ask_chain(&rt, alloc, &t, "(1, 2, 3)")
}

// The greatest squares of an int column.
#[test]
fn sums_are_not_cut(rt: HostRuntime) -> Result<(), Fail> {
    let alloc = rt.alloc();
    let most = 2_147_483_647;
    let t = setting_t(alloc, &[(1, 7, most), (2, 7, most)], &[], &[])?;
    ask_squares(&rt, alloc, &t, "(7, 9223372028264841218, 2)")
}

#[test]
fn texts_are_compared_by_their_bytes(rt: HostRuntime) -> Result<(), Fail> {
    let alloc = rt.alloc();
    let w = setting_w(alloc, &[b"b", b"ab", b"a", b"b"])?;
    ask_texts_below(&rt, alloc, &w, "(2, 1)(2, 4)(3, 1)(3, 2)(3, 4)")?;
    ask_texts_alike(&rt, alloc, &w, "(1, 4)")
}

#[test]
fn rows_as_they_stood_and_rows_that_were_added(rt: HostRuntime) -> Result<(), Fail> {
    let alloc = rt.alloc();
    let t = setting_t(
        alloc,
        &ROWS,
        &[(1, 7, 5), (5, 7, 6)],
        &[(0, 8, 1), (2, 8, 2)],
    )?;
    ask_added(&rt, alloc, &t, "(0, 1, 5)(0, 2, 5)(0, 3, 5)(2, 3, 5)")?;
    ask_before(&rt, alloc, &t, "(1, 2, 3)")
}

#[test]
fn an_empty_table_gives_no_rows(rt: HostRuntime) -> Result<(), Fail> {
    let alloc = rt.alloc();
    let t = setting_t(alloc, &[], &ROWS, &ROWS)?;
    ask_alike(&rt, alloc, &t, "")?;
    ask_sums(&rt, alloc, &t, "")?;
    ask_before(&rt, alloc, &t, "")
}
