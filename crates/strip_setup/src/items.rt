//! The names of a query's items.
ghost use Rattle.std.specs.Prelude.{◌≡◌, ◌++◌, IfOk, codes};
ghost use Rattle.std.specs.Fmt.{decimal};
ghost use Rattle.strip_setup.specs.Queries.{item_name, item_names, own_name};

use itoa::Buffer;
use std::alloc::{AllocError, Global};
use strip_ast::{Expr, ItemTree, Total};
use strip_value::{Duplicate, Name, NameError, NameList};

fn numbered_name(alloc: Global, number: u64) -> Result<Name, AllocError>
    ensures { IfOk result (λ made. made ≡ codes "item_" ++ decimal number) }
{
    let mut digits = Buffer::new();
    let mut bytes = Vec::from_slice(alloc, b"item_")?;
    bytes.extend_from_slice(digits.format(number).as_bytes())?;
    match Name::of(alloc, bytes.as_slice()) {
        Ok(name) => Ok(name),
        Err(NameError::Memory) => Err(AllocError),
        Err(NameError::BadName) => unreachable!(),
    }
}

/// A column's name; any other item is called `item_` and its number.
#[tactic(auto, using(crate::specs::Trees::trees))]
fn own_name(alloc: Global, number: u64, what: &Total) -> Result<Name, AllocError>
    ensures { IfOk result (λ made. made ≡ own_name number what.now) }
{
    match what {
        Total::Plain(Expr::Column { name, .. }) => name.copy(alloc),
        _ => numbered_name(alloc, number),
    }
}

/// The name of the item of that number: the one after `as`, else its own.
pub fn item_name(alloc: Global, number: u64, item: &ItemTree) -> Result<Name, AllocError>
    ensures { IfOk result (λ made. made ≡ item_name (number, item.now)) }
{
    match &item.name {
        Some(name) => name.copy(alloc),
        None => own_name(alloc, number, &item.what),
    }
}

/// The items' names. Items are numbered from 1.
pub fn item_names(alloc: Global, items: &[ItemTree]) -> Result<NameList, AllocError>
    ensures { IfOk result (λ made. made ≡ item_names items.now) }
{
    let mut names = NameList::new(alloc);
    for (i, item) in items.iter().enumerate() {
        names.push(item_name(alloc, i as u64 + 1, item)?)?;
    }
    Ok(names)
}
