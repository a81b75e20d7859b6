ghost use Rattle.std.specs.Prelude.{◌≡◌, ◌++◌, IfOk, OnOk, OnErr};
ghost use Rattle.std.specs.Ordering.{eq_by_cmp, as_partial_cmp};
ghost use Rattle.std.specs.Cmp.{partial_order_from_own_ties};
ghost use Rattle.std.specs.Cmp.Rules.{comparing};
ghost use Rattle.std.proofs.Common.{rules};
ghost use Rattle.strip_value.specs.Order.{row_cmp, row_cmp_total};
ghost use Rattle.strip_value.specs.Print.{tuple_text, values_text, value_text, quoted, doubled};

use crate::copies::Duplicate;
use crate::items::{Items, copied};
use crate::values::Value;
use itoa::Buffer;
use std::alloc::{AllocError, Global};
use std::cmp::Ordering;
use std::marker::Model;

/// A row, seen as the list of its values.
#[derive(Debug, Drop)]
pub struct Row {
    values: Vec<Value>,
}

impl Model for Row {
    ghost use Rattle.std.specs.Prelude.{List};
    ghost use Rattle.strip_value.specs.declared.values.Value.{Value as OneValue};

    ghost Value = { List OneValue };

    ghost view = { λ r. r.values.items };
}

/// A list of rows.
pub type RowList = Items<Row>;

impl Row {
    pub fn of(values: Vec<Value>) -> Row
        ensures { result ≡ values.items }
    {
        Row { values }
    }

    pub fn values(&self) -> &[Value]
        ensures { result.now ≡ self.now }
    {
        self.values.as_slice()
    }

    /// Appends the row as a tuple, as `('IBM', 101)`.
    pub fn text(&self, alloc: Global, into: &mut Vec<u8>) -> Result<(), AllocError>
        ensures ok { OnOk result (into.new.items ≡ into.old.items ++ tuple_text self.now) }
        ensures err { OnErr result (into.new.items ≡ into.old.items) }
    {
        let text = tuple(alloc, self.values.as_slice())?;
        into.extend_from_slice(text.as_slice())
    }
}

#[tactic(auto, unfolding(crate::specs::Print::tuple_text))]
fn tuple(alloc: Global, values: &[Value]) -> Result<Vec<u8>, AllocError>
    ensures { IfOk result (λ text. text.items ≡ tuple_text values.now) }
{
    let mut text = Vec::from_slice(alloc, b"(")?;
    push_values(values, &mut text)?;
    text.push(b')')?;
    Ok(text)
}

fn push_values(values: &[Value], into: &mut Vec<u8>) -> Result<(), AllocError>
    ensures { OnOk result (into.new.items ≡ into.old.items ++ values_text values.now) }
{
    let Some((first, others)) = values.split_first() else {
        return Ok(());
    };
    push_value(first, into)?;
    for value in others {
        into.extend_from_slice(b", ")?;
        push_value(value, into)?;
    }
    Ok(())
}

fn push_value(value: &Value, into: &mut Vec<u8>) -> Result<(), AllocError>
    ensures { OnOk result (into.new.items ≡ into.old.items ++ value_text value.now) }
{
    match value {
        Value::Int(n) => {
            let mut digits = Buffer::new();
            into.extend_from_slice(digits.format(*n).as_bytes())?;
        }
        Value::Text(text) => push_quoted(text.bytes(), into)?,
    }
    Ok(())
}

fn push_quoted(bytes: &[u8], into: &mut Vec<u8>) -> Result<(), AllocError>
    ensures { OnOk result (into.new.items ≡ into.old.items ++ quoted bytes.now) }
{
    into.push(b'\'')?;
    push_doubled(bytes, into)?;
    into.push(b'\'')?;
    Ok(())
}

fn push_doubled(bytes: &[u8], into: &mut Vec<u8>) -> Result<(), AllocError>
    ensures { OnOk result (into.new.items ≡ into.old.items ++ doubled bytes.now) }
{
    for byte in bytes {
        if *byte == b'\'' {
            into.push(b'\'')?;
        }
        into.push(*byte)?;
    }
    Ok(())
}

impl Duplicate for Row {
    fn copy(&self, alloc: Global) -> Result<Row, AllocError> {
        let values = copied(alloc, self.values.as_slice())?;
        Ok(Row { values })
    }
}

impl PartialEq for Row {
    ghost eq = { eq_by_cmp row_cmp };

    ghost laws = { Prim.search (row_cmp_total, comparing, rules) };

    fn eq(&self, other: &Row) -> bool {
        self.cmp(other) == Ordering::Equal
    }
}

impl Eq for Row {
    ghost laws = { Prim.search (row_cmp_total, comparing, rules) };
}

/// Value by value; a row that ends first is below.
impl Ord for Row {
    ghost cmp = { row_cmp };

    ghost total = { row_cmp_total };

    ghost matches_partial_cmp = { Prim.search (row_cmp_total, comparing, rules) };

    ghost matches_eq = { Prim.search (row_cmp_total, comparing, rules) };

    fn cmp(&self, other: &Row) -> Ordering {
        self.values.as_slice().cmp(other.values.as_slice())
    }
}

impl PartialOrd for Row {
    ghost partial_cmp = { as_partial_cmp row_cmp };

    ghost laws = { partial_order_from_own_ties (Prim.search (row_cmp_total, comparing, rules)) (Prim.search (row_cmp_total, comparing, rules)) };

    fn partial_cmp(&self, other: &Row) -> Option<Ordering> {
        Some(self.cmp(other))
    }
}
