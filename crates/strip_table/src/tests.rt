//! Each public call once, on a table of pairs by their second column.
ghost use Rattle.std.specs.Prelude.{IfOk};
ghost use Rattle.strip_value.specs.Kinds.{FitsColumns};

use crate::{PutError, Row, Table, TableDef, Value};
use std::alloc::{AllocError, Global};
use std::process::Abort;
use std::test::Fail;
use strip_value::{ColumnDef, ColumnDefList, Kind, Name, U32List, fits};

// Pairs by their second column, at most two.
fn pairs(alloc: Global) -> Result<TableDef, Fail> {
    let mut columns = ColumnDefList::new(alloc);
    for name in [b"a", b"k"] {
        columns.push(ColumnDef {
            name: Name::of(alloc, name)?,
            kind: Kind::Int,
        })?;
    }
    let mut key = U32List::new(alloc);
    key.push(1)?;
    Ok(TableDef {
        name: Name::of(alloc, b"t")?,
        columns,
        key,
        limit: Some(2),
        query: None,
        kept: None,
        declared: false,
    })
}

fn row_of(alloc: Global, numbers: &[i128]) -> Result<Row, AllocError> {
    let mut values = Vec::with_capacity(alloc, numbers.len())?;
    for number in numbers {
        values.push(Value::Int(*number))?;
    }
    Ok(Row::of(values))
}

// The pair, which is one of the table's columns.
fn pair(rt: &impl Abort, alloc: Global, table: &Table, a: i128, k: i128) -> Result<Row, AllocError>
    ensures { IfOk result (FitsColumns table.now.def.columns) }
{
    let row = row_of(alloc, &[a, k])?;
    let columns = table.def().columns.as_slice();
    let values = row.values();
    assert!(rt; columns.len() == 2 && values.len() == 2);
    assert!(rt; fits(columns[0].kind, &values[0]));
    assert!(rt; fits(columns[1].kind, &values[1]));
    Ok(row)
}

fn text(alloc: Global, table: &Table) -> Result<Vec<u8>, AllocError> {
    let mut text = Vec::new(alloc);
    for row in table.rows() {
        row.text(alloc, &mut text)?;
    }
    Ok(text)
}

fn row_text(alloc: Global, row: Option<&Row>) -> Result<Vec<u8>, AllocError> {
    let mut text = Vec::new(alloc);
    if let Some(row) = row {
        row.text(alloc, &mut text)?;
    }
    Ok(text)
}

#[test]
fn rows_are_put_and_taken_by_key(rt: HostRuntime) -> Result<(), Fail> {
    let alloc = rt.alloc();
    let def = pairs(alloc)?;
    let mut table = Table::new(alloc, &def)?;
    assert_eq!(rt; table.def().limit, Some(2));
    // the pair that is put, the one that it replaces, and the table then; the third key finds it full
    let puts: [(i128, i128, Option<&[u8]>, &[u8]); 4] = [
        (1, 5, Some(b""), b"(1, 5)"),
        (2, 3, Some(b""), b"(2, 3)(1, 5)"),
        (9, 7, None, b"(2, 3)(1, 5)"),
        (4, 5, Some(b"(1, 5)"), b"(2, 3)(4, 5)"),
    ];
    for (a, k, replaced, then) in puts {
        let row = pair(&rt, alloc, &table, a, k)?;
        match table.put(row) {
            Ok(old) => {
                assert_eq!(rt;
                    Some(row_text(alloc, old.as_ref())?.as_slice()),
                    replaced,
                    "at {a}"
                )
            }
            Err(PutError::Full { limit }) => {
                assert_eq!(rt; limit, 2);
                assert_eq!(rt; replaced, None, "at {a}");
            }
            Err(PutError::Memory) => assert!(rt; false, "no memory"),
        }
        assert_eq!(rt; text(alloc, &table)?.as_slice(), then, "at {a}");
    }
    assert_eq!(rt;
        row_text(alloc, table.get(&[Value::Int(5)]))?.as_slice(),
        b"(4, 5)".as_slice()
    );
    assert!(rt; table.get(&[Value::Int(4)]).is_none());
    let shared = table.share(alloc)?;
    let back = pair(&rt, alloc, &table, 6, 3)?;
    table.put_back(back);
    let other = pair(&rt, alloc, &table, 6, 8)?;
    table.put_back(other);
    assert_eq!(rt; text(alloc, &table)?.as_slice(), b"(6, 3)(4, 5)".as_slice());
    assert_eq!(rt;
        row_text(alloc, table.remove(&[Value::Int(5)])?.as_ref())?.as_slice(),
        b"(4, 5)".as_slice()
    );
    assert!(rt; table.remove(&[Value::Int(5)])?.is_none());
    assert_eq!(rt; table.len(), 1);
    assert_eq!(rt;
        row_text(alloc, table.take_out(&[Value::Int(3)]).as_ref())?.as_slice(),
        b"(6, 3)".as_slice()
    );
    assert_eq!(rt; table.len(), 0);
    assert_eq!(rt; shared.def().limit, Some(2));
    assert_eq!(rt;
        text(alloc, &shared)?.as_slice(),
        b"(2, 3)(4, 5)".as_slice()
    );
    Ok(())
}
