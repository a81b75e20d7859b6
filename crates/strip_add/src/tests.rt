//! Sums compared with ones worked out by hand, and the time of a long fold.
ghost use Rattle.std.specs.Prelude.{◌≡◌, ◌+◌, ◌^◌, ◌<◌, ◌∷◌, [], length, IfOk};
ghost use Rattle.std.specs.List.{AllByRecursion};
ghost use Rattle.strip_add.specs.Cells.{AreInts, IsCellsDef};

use crate::{Row, RowList, Table, TableDef, Totals, Value, apply, fold};
use std::alloc::{AllocError, Global};
use std::io;
use std::process::Abort;
use std::rt::Clock;
use std::time::Instant;
use strip_value::{ColumnDef, ColumnDefList, Kind, Name, NameError, U32List};

fn column(alloc: Global, name: &[u8], kind: Kind) -> Result<ColumnDef, NameError>
    ensures { IfOk result (λ column. column.kind ≡ kind) }
{
    let name = Name::of(alloc, name)?;
    Ok(ColumnDef { name, kind })
}

// A key and two totals.
fn cells_def(alloc: Global) -> Result<TableDef, NameError>
    ensures { IfOk result IsCellsDef }
{
    let name = Name::of(alloc, b"d")?;
    let key_column = column(alloc, b"k", Kind::Int)?;
    let sum = column(alloc, b"s", Kind::Big)?;
    let count = column(alloc, b"n", Kind::Big)?;
    let mut columns = ColumnDefList::new(alloc);
    let Ok(()) = columns.push(key_column) else {
        return Err(NameError::Memory)
    };
    let Ok(()) = columns.push(sum) else {
        return Err(NameError::Memory)
    };
    let Ok(()) = columns.push(count) else {
        return Err(NameError::Memory)
    };
    let mut key = U32List::new(alloc);
    let Ok(()) = key.push(0) else {
        return Err(NameError::Memory)
    };
    Ok(TableDef {
        name,
        columns,
        key,
        limit: None,
        query: None,
        kept: None,
        declared: false,
    })
}

fn cell_row(alloc: Global, cells: (i32, i32, i32)) -> Result<Row, AllocError>
    ensures { IfOk result AreInts }
{
    let mut values = Vec::with_capacity(alloc, 3)?;
    values.push(Value::Int(i128::from(cells.0)))?;
    values.push(Value::Int(i128::from(cells.1)))?;
    values.push(Value::Int(i128::from(cells.2)))?;
    Ok(Row::of(values))
}

fn cell_rows(alloc: Global, cells: &[(i32, i32, i32)]) -> Result<RowList, AllocError>
    ensures ints { IfOk result (AllByRecursion AreInts) }
    ensures len { IfOk result (λ rows. length rows ≡ length cells.now) }
{
    let mut rows = RowList::new(alloc);
    for three in cells {
        rows.push(cell_row(alloc, *three)?)?;
    }
    Ok(rows)
}

// The sums per key.
fn totals_of(alloc: Global, def: &TableDef, rows: &RowList) -> Result<Totals, AllocError>
    requires def { IsCellsDef def.now }
    requires ints { AllByRecursion AreInts rows.now }
    requires few { length rows.now < 2 ^ 62 }
{
    fold(alloc, rows, def, &[0, 1, 2])
}

// The table after the sums of some rows are added to an empty one.
fn added(alloc: Global, def: &TableDef, rows: &RowList) -> Result<Table, AllocError>
    requires def { IsCellsDef def.now }
    requires ints { AllByRecursion AreInts rows.now }
    requires few { length rows.now < 2 ^ 62 }
{
    let totals = fold(alloc, rows, def, &[0, 1, 2])?;
    let mut table = Table::new(alloc, def)?;
    apply(alloc, &mut table, &totals)?;
    Ok(table)
}

fn text_of(alloc: Global, rows: &RowList) -> Result<Vec<u8>, AllocError> {
    let mut text = Vec::new(alloc);
    for row in rows.as_slice() {
        row.text(alloc, &mut text)?;
    }
    Ok(text)
}

fn table_text(alloc: Global, table: &Table) -> Result<Vec<u8>, AllocError> {
    let mut text = Vec::new(alloc);
    for row in table.rows() {
        row.text(alloc, &mut text)?;
    }
    Ok(text)
}

fn folded_text(
    alloc: Global,
    def: &TableDef,
    cells: &[(i32, i32, i32)],
) -> Result<Vec<u8>, AllocError>
    requires def { IsCellsDef def.now }
    requires few { length cells.now < 2 ^ 62 }
{
    let rows = cell_rows(alloc, cells)?;
    let totals = totals_of(alloc, def, &rows)?;
    text_of(alloc, &totals)
}

fn added_text(
    alloc: Global,
    def: &TableDef,
    cells: &[(i32, i32, i32)],
) -> Result<Vec<u8>, AllocError>
    requires def { IsCellsDef def.now }
    requires few { length cells.now < 2 ^ 62 }
{
    let rows = cell_rows(alloc, cells)?;
    let table = added(alloc, def, &rows)?;
    table_text(alloc, &table)
}

// Sums by hand: the rows, what is folded of them, and the table to which that is added.
fn compare(rt: &impl Abort, alloc: Global, def: &TableDef) -> Result<(), AllocError>
    requires { IsCellsDef def.now }
{
    let cases: [(&[(i32, i32, i32)], &[u8], &[u8]); 6] = [
        (&[], b"", b""),
        (&[(7, -5, 1)], b"(7, -5, 1)", b"(7, -5, 1)"),
        (
            &[
                (2, 10, 1),
                (1, -3, 1),
                (2, -30, 1),
                (-4, 2_000_000_000, 1),
                (-4, 2_000_000_000, 1),
            ],
            b"(-4, 4000000000, 2)(1, -3, 1)(2, -20, 2)",
            b"(-4, 4000000000, 2)(1, -3, 1)(2, -20, 2)",
        ),
        (&[(3, 8, 1), (3, -8, -1)], b"(3, 0, 0)", b""),
        (&[(1, 5, 1), (1, -5, 1)], b"(1, 0, 2)", b"(1, 0, 2)"),
        (
            &[(2, 6, 1), (1, 5, 1), (2, 4, -1), (1, -5, -1)],
            b"(1, 0, 0)(2, 10, 0)",
            b"(2, 10, 0)",
        ),
    ];
    for (cells, sums, table) in cases {
        assert!(rt; cells.len() < 100);
        let folded = folded_text(alloc, def, cells)?;
        assert!(rt; folded.as_slice() == sums);
        let added = added_text(alloc, def, cells)?;
        assert!(rt; added.as_slice() == table);
    }
    Ok(())
}

#[test]
fn sums_are_those_by_hand(rt: HostRuntime) {
    let Ok(def) = cells_def(rt.alloc()) else {
        assert!(rt; false);
        return;
    };
    let compared = compare(&rt, rt.alloc(), &def);
    assert!(rt; compared.is_ok());
}

fn many(alloc: Global) -> Result<Vec<(i32, i32, i32)>, AllocError> {
    let mut cells = Vec::with_capacity(alloc, 100_000)?;
    for i in 0..100_000 {
        cells.push((i % 10, i, 1))?;
    }
    Ok(cells)
}

fn fold_many(alloc: Global, def: &TableDef, rows: &RowList) -> Result<usize, AllocError>
    requires def { IsCellsDef def.now }
    requires ints { AllByRecursion AreInts rows.now }
    requires few { length rows.now < 2 ^ 62 }
{
    let totals = totals_of(alloc, def, rows)?;
    Ok(totals.len())
}

// The time of a long fold is printed, and not judged.
fn time<R: Clock + Eprint + Abort>(rt: &R, alloc: Global, def: &TableDef) -> io::Result<usize>
    requires { IsCellsDef def.now }
{
    let cells = many(alloc)?;
    let cells = cells.as_slice();
    assert!(rt; cells.len() < 1_000_000);
    let rows = cell_rows(alloc, cells)?;
    let start = Instant::now(rt)?;
    let keys = fold_many(alloc, def, &rows)?;
    let took = start.elapsed(rt)?;
    rt.eprintln(format_args!("100,000 rows of ten keys: {took:?}"))?;
    Ok(keys)
}

#[test]
fn a_hundred_thousand_rows_of_ten_keys(rt: HostRuntime) {
    let Ok(def) = cells_def(rt.alloc()) else {
        assert!(rt; false);
        return;
    };
    let keys = time(&rt, rt.alloc(), &def);
    assert!(rt; matches!(keys, Ok(10)));
}
