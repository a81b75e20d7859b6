ghost use Rattle.std.specs.Prelude.{◌≡◌, ◌++◌, ◌<◌, length, IfOk, OnOk};
ghost use Rattle.strip_model.specs.Texts.{line_of_reply, line_of_spent, line_of_not_running, line_of_finished, line_of_job, line_of_not_due, line_of_in_hand, line_of_empty, key_text, number_line, cause_text, rows_text, row_lines, table_name, number_field};

use itoa::Buffer;
use std::alloc::{AllocError, Global};
use strip_value::{ActError, Id, KeyOf, Reply, Row, TableDef};

/// The text of a reply: its line, and for rows a line each. Names of tables are those of the definitions.
#[tactic(auto, unfolding(crate::specs::Texts::line_of_reply))]
pub fn reply_text(alloc: Global, defs: &[TableDef], reply: &Reply) -> Result<Vec<u8>, AllocError>
    ensures { IfOk result (λ text. text.items ≡ line_of_reply defs.now reply.now) }
{
    match reply {
        Reply::Count(n) => {
            let mut text = Vec::from_slice(alloc, b"count ")?;
            push_number(*n as i128, &mut text)?;
            text.push(b'\n')?;
            Ok(text)
        }
        Reply::Rows(rows) => rows_of_reply(alloc, rows.as_slice()),
        Reply::Refused(cause) => {
            let mut text = Vec::from_slice(alloc, b"refused ")?;
            let cause = refusal_text(alloc, defs, cause)?;
            text.extend_from_slice(cause.as_slice())?;
            text.push(b'\n')?;
            Ok(text)
        }
    }
}

fn rows_of_reply(alloc: Global, rows: &[Row]) -> Result<Vec<u8>, AllocError>
    ensures { IfOk result (λ text. text.items ≡ rows_text rows.now) }
{
    let mut text = Vec::from_slice(alloc, b"rows ")?;
    push_number(rows.len() as i128, &mut text)?;
    text.push(b'\n')?;
    push_rows(alloc, rows, &mut text)?;
    Ok(text)
}

fn push_rows(alloc: Global, rows: &[Row], text: &mut Vec<u8>) -> Result<(), AllocError>
    ensures { OnOk result (text.new.items ≡ text.old.items ++ row_lines rows.now) }
{
    for row in rows {
        row.text(alloc, text)?;
        text.push(b'\n')?;
    }
    Ok(())
}

/// The cause of a refused act, as it stands behind `refused `.
pub fn refusal_text(
    alloc: Global,
    defs: &[TableDef],
    cause: &ActError,
) -> Result<Vec<u8>, AllocError>
    ensures { IfOk result (λ text. text.items ≡ cause_text defs.now cause.now) }
{
    match cause {
        ActError::NotHeld { table } => cause_of_table(alloc, b"NotHeld ", defs, *table),
        ActError::ReadOnly { table } => cause_of_table(alloc, b"ReadOnly ", defs, *table),
        ActError::Derived { table } => cause_of_table(alloc, b"Derived ", defs, *table),
        ActError::KindMismatch { column } => {
            let mut text = Vec::from_slice(alloc, b"KindMismatch ")?;
            push_number(*column as i128, &mut text)?;
            Ok(text)
        }
        ActError::OutOfRange { column, value } => {
            let mut text = Vec::from_slice(alloc, b"OutOfRange ")?;
            push_number(*column as i128, &mut text)?;
            text.push(b' ')?;
            push_number(*value, &mut text)?;
            Ok(text)
        }
        ActError::Duplicate { key } => {
            let mut text = Vec::from_slice(alloc, b"Duplicate ")?;
            key.text(alloc, &mut text)?;
            Ok(text)
        }
        ActError::Full { table, limit } => {
            let mut text = cause_of_table(alloc, b"Full ", defs, *table)?;
            text.push(b' ')?;
            push_number(*limit as i128, &mut text)?;
            Ok(text)
        }
    }
}

fn cause_of_table(
    alloc: Global,
    word: &[u8],
    defs: &[TableDef],
    table: Id,
) -> Result<Vec<u8>, AllocError>
    ensures { IfOk result (λ text. text.items ≡ word.now ++ table_name defs.now table) }
{
    let mut text = Vec::from_slice(alloc, word)?;
    if let Some(def) = defs.get(table.0 as usize) {
        text.extend_from_slice(def.name.bytes())?;
    }
    Ok(text)
}

fn push_number(n: i128, text: &mut Vec<u8>) -> Result<(), AllocError>
    ensures { OnOk result (text.new.items ≡ text.old.items ++ number_field n) }
{
    let mut digits = Buffer::new();
    text.extend_from_slice(digits.format(n).as_bytes())
}

fn number_text(alloc: Global, word: &[u8], n: u128) -> Result<Vec<u8>, AllocError>
    ensures { IfOk result (λ text. text.items ≡ number_line word.now n) }
{
    let mut text = Vec::from_slice(alloc, word)?;
    let mut digits = Buffer::new();
    text.extend_from_slice(digits.format(n).as_bytes())?;
    text.push(b'\n')?;
    Ok(text)
}

/// The reply to a commit whose rules would bind so many rows in all, more than the limit.
#[tactic(auto, unfolding(crate::specs::Texts::line_of_spent))]
pub fn spent_text(alloc: Global, total: u64) -> Result<Vec<u8>, AllocError>
    ensures { IfOk result (λ text. text.items ≡ line_of_spent total) }
{
    number_text(alloc, b"refused Spent ", total as u128)
}

/// The reply to the finish of a number that isn't running.
#[tactic(auto, unfolding(crate::specs::Texts::line_of_not_running))]
pub fn not_running_text(alloc: Global, number: u128) -> Result<Vec<u8>, AllocError>
    ensures { IfOk result (λ text. text.items ≡ line_of_not_running number) }
{
    number_text(alloc, b"refused NotRunning ", number)
}

/// The reply to a finish.
#[tactic(auto, unfolding(crate::specs::Texts::line_of_finished))]
pub fn finished_text(alloc: Global, number: u64) -> Result<Vec<u8>, AllocError>
    ensures { IfOk result (λ text. text.items ≡ line_of_finished number) }
{
    number_text(alloc, b"finished ", number as u128)
}

/// The reply to a start that took an action: its number, the name of its function and its key, when it
/// was due, and how many bound rows it has.
#[tactic(auto, unfolding(crate::specs::Texts::line_of_job))]
pub fn job_text(
    alloc: Global,
    function: &[u8],
    number: u64,
    key: &KeyOf,
    due: u64,
    rows: u64,
) -> Result<Vec<u8>, AllocError>
    ensures { IfOk result (λ text. text.items ≡ line_of_job function.now number key.now due rows) }
{
    let mut text = Vec::from_slice(alloc, b"job ")?;
    push_number(number as i128, &mut text)?;
    text.push(b' ')?;
    text.extend_from_slice(function)?;
    text.push(b' ')?;
    push_key(alloc, key, &mut text)?;
    text.extend_from_slice(b" due ")?;
    push_number(due as i128, &mut text)?;
    text.extend_from_slice(b" rows ")?;
    push_number(rows as i128, &mut text)?;
    text.push(b'\n')?;
    Ok(text)
}

fn push_key(alloc: Global, key: &KeyOf, text: &mut Vec<u8>) -> Result<(), AllocError>
    ensures { OnOk result (text.new.items ≡ text.old.items ++ key_text key.now) }
{
    match key {
        KeyOf::Plain { .. } => text.extend_from_slice(b"plain"),
        KeyOf::Unique { values, .. } => values.text(alloc, text),
    }
}

/// The reply to a start where all pending actions are due later, the first at `next`.
#[tactic(auto, unfolding(crate::specs::Texts::line_of_not_due))]
pub fn not_due_text(alloc: Global, next: u64) -> Result<Vec<u8>, AllocError>
    ensures { IfOk result (λ text. text.items ≡ line_of_not_due next) }
{
    number_text(alloc, b"not due ", next as u128)
}

/// The reply to a start where each action that is due has a running twin, the first one's being this
/// number.
#[tactic(auto, unfolding(crate::specs::Texts::line_of_in_hand))]
pub fn in_hand_text(alloc: Global, number: u64) -> Result<Vec<u8>, AllocError>
    ensures { IfOk result (λ text. text.items ≡ line_of_in_hand number) }
{
    number_text(alloc, b"in hand ", number as u128)
}

/// The reply to a start where no action is pending.
#[tactic(auto, unfolding(crate::specs::Texts::line_of_empty))]
pub fn empty_text(alloc: Global) -> Result<Vec<u8>, AllocError>
    ensures { IfOk result (λ text. text.items ≡ line_of_empty) }
{
    Vec::from_slice(alloc, b"empty\n")
}
