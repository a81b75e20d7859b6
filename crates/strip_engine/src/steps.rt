ghost use Rattle.std.specs.Prelude.{◌≡◌, ◌<◌, ◌≤◌, ◌+◌, ◌^◌, length, vec_len, vec_capacity, IfOk, ◌++◌, ◌∷◌, []};
ghost use Rattle.std.specs.List.{AllByRecursion};
ghost use Rattle.strip_engine.specs.Asked.{IsAsked};
ghost use Rattle.strip_engine.specs.Steps.{AreTables, PutsInto, PutsRow, RepliesTo, Performs, SameSession, defs_of};
ghost use Rattle.strip_meaning.specs.Effect.{effect};
ghost use Rattle.strip_value.specs.declared.acts.Act.TheVariants.{Show};
ghost use Rattle.strip_value.specs.Kinds.{FitsColumns};
ghost use Rattle.strip_value.specs.Table.{key_of, column_of, IsTable};

use crate::asking::select;
use crate::causes::{cause_before_put, cause_not_held};
use crate::undo::{Logged, Session};
use std::alloc::{AllocError, Global};
use strip_model::{Entry, History};
use strip_table::{PutError, Table};
use strip_value::{Act, ActError, Change, Duplicate, Holds, Id, Items, Reply, Row, Shift, Value};

fn copied_column(alloc: Global, row: &[Value], column: u32) -> Result<Value, AllocError>
    ensures { IfOk result (λ value. value ≡ column_of row.now column) }
{
    match row.get(column as usize) {
        Some(value) => value.copy(alloc),
        None => Ok(Value::Int(0)),
    }
}

/// The key of a row, as a row of its own.
fn key_row(alloc: Global, columns: &[u32], row: &[Value]) -> Result<Row, AllocError>
    ensures { IfOk result (λ key. key ≡ key_of columns.now row.now) }
{
    let mut values = Vec::with_capacity(alloc, columns.len())?;
    for column in columns {
        values.push(copied_column(alloc, row, *column)?)?;
    }
    Ok(Row::of(values))
}

fn push_change(log: &mut Vec<Logged>, key: Row, table: Id, shift: Shift)
    requires { vec_len log.old < vec_capacity log.old }
    ensures { log.new.items ≡ log.old.items ++ record { key = key; change = record { table = table; shift = shift } } ∷ [] }
{
    let change = Change { table, shift };
    let Ok(()) = log.push(Logged { key, change }) else {
        unreachable!()
    };
}

/// Puts a row into a table, and writes down the change, with the copy of the row.
fn put_into(
    table: &mut Table,
    log: &mut Vec<Logged>,
    id: Id,
    key: Row,
    row: Row,
    copy: Row,
) -> Result<Option<ActError>, AllocError>
    requires fits { FitsColumns table.old.def.columns row }
    requires key { key ≡ key_of table.old.def.key row }
    requires copy { copy ≡ row }
    requires room { vec_len log.old < vec_capacity log.old }
    ensures puts { PutsInto table.old log.old.items id row table.new log.new.items result }
    ensures table { IsTable table.old.def table.old.rows }
{
    match table.put(row) {
        Ok(None) => {
            push_change(log, key, id, Shift::Inserted(copy));
            Ok(None)
        }
        Ok(Some(old)) => {
            push_change(log, key, id, Shift::Changed { old, new: copy });
            Ok(None)
        }
        Err(PutError::Full { limit }) => Ok(Some(ActError::Full { table: id, limit })),
        Err(PutError::Memory) => Err(AllocError),
    }
}

/// A put among the tables. Its refusals change nothing.
pub(crate) fn put(
    alloc: Global,
    tables: &mut Vec<Table>,
    holds: &Holds,
    log: &mut Vec<Logged>,
    id: Id,
    row: &Row,
) -> Result<Option<ActError>, AllocError>
    requires there { id < vec_len tables.old }
    requires tables_are { AreTables (defs_of tables.old.items) }
    ensures { PutsRow holds.now tables.old.items log.old.items id row.now tables.new.items log.new.items result }
{
    let at = id.0 as usize;
    let def = tables[at].def();
    if let Some(cause) = cause_before_put(holds, def, id, row.values()) {
        return Ok(Some(cause));
    }
    let key = key_row(alloc, def.key.as_slice(), row.values())?;
    let copy = row.copy(alloc)?;
    let row = row.copy(alloc)?;
    log.reserve(1)?;
    put_into(&mut tables[at], log, id, key, row, copy)
}

fn copied_rows(alloc: Global, table: &Table) -> Result<Items<Row>, AllocError>
    ensures { IfOk result (λ rows. rows ≡ table.now.rows) }
{
    let mut rows = Items::new(alloc);
    for row in table.rows() {
        rows.push(row.copy(alloc)?)?;
    }
    Ok(rows)
}

/// The reply of a show.
#[tactic(auto, unfolding(strip_meaning::specs::Effect::effect))]
pub(crate) fn show(
    alloc: Global,
    tables: &[Table],
    holds: &Holds,
    id: Id,
) -> Result<Reply, AllocError>
    requires { id < length tables.now }
    ensures { IfOk result (λ reply. reply ≡ (effect holds.now tables.now (Show id)).reply) }
{
    if let Some(cause) = cause_not_held(holds, id) {
        return Ok(Reply::Refused(cause));
    }
    let rows = copied_rows(alloc, &tables[id.0 as usize])?;
    Ok(Reply::Rows(rows))
}

fn twice(alloc: Global, reply: Reply) -> Result<(Reply, Reply), AllocError>
    ensures { IfOk result (λ both. (both.0 ≡ reply) × (both.1 ≡ reply)) }
{
    let other = reply.copy(alloc)?;
    Ok((other, reply))
}

/// Does an act, and makes its reply twice: one to keep and one to hand out.
fn replies(
    alloc: Global,
    tables: &mut Vec<Table>,
    holds: &Holds,
    log: &mut Vec<Logged>,
    act: &Act,
) -> Result<(Reply, Reply), AllocError>
    requires asked { IsAsked (defs_of tables.old.items) act.now }
    requires tables_are { AreTables (defs_of tables.old.items) }
    ensures { RepliesTo holds.now tables.old.items log.old.items act.now tables.new.items log.new.items result }
{
    match act {
        Act::Put { table, row } => match put(alloc, tables, holds, log, *table, row)? {
            None => Ok((Reply::Count(1), Reply::Count(1))),
            Some(cause) => twice(alloc, Reply::Refused(cause)),
        },
        Act::Select { query } => {
            let reply = select(alloc, tables.as_slice(), holds, query)?;
            twice(alloc, reply)
        }
        Act::Show { table } => {
            let reply = show(alloc, tables.as_slice(), holds, *table)?;
            twice(alloc, reply)
        }
        _ => unreachable!(),
    }
}

/// Does an act of a session, and writes its entry. So much room is left in the history.
pub(crate) fn perform(
    alloc: Global,
    tables: &mut Vec<Table>,
    session: &mut Session,
    history: &mut History,
    act: &Act,
    left: usize,
) -> Result<Reply, AllocError>
    requires asked { IsAsked (defs_of tables.old.items) act.now }
    requires tables_are { AreTables (defs_of tables.old.items) }
    requires room { left ≤ history.old.room }
    requires small { left < 2 ^ 63 + 1 }
    ensures performs { Performs session.old tables.old.items history.old.entries act.now session.new tables.new.items history.new.entries result }
    ensures same { SameSession session.old session.new }
    ensures room { left ≤ history.new.room }
{
    let given = act.copy(alloc)?;
    history.reserve(left + 1)?;
    let (kept, reply) = replies(alloc, tables, &session.holds, &mut session.log, act)?;
    history.push(Entry::Did {
        caller: session.caller,
        session: session.number,
        act: given,
        reply: kept,
    });
    Ok(reply)
}
