ghost use Rattle.std.specs.Prelude.{◌≡◌, IfOk};
ghost use Rattle.strip_engine.specs.Holding.{held_by};
ghost use Rattle.strip_model.specs.Says.{chosen, read_besides};

use crate::causes::has;
use std::alloc::{AllocError, Global};
use strip_value::{Holds, Id, Ids};

fn is_chosen(asked: &[Id], besides: &[Id], id: Id) -> bool
    ensures { result ≡ read_besides besides.now asked.now id }
{
    has(asked, id) && !has(besides, id)
}

/// The numbers below `count` that are asked for, and not among the others; each once, rising.
fn chosen_ids(alloc: Global, count: u32, asked: &[Id], besides: &[Id]) -> Result<Ids, AllocError>
    ensures { IfOk result (λ ids. ids ≡ chosen (read_besides besides.now asked.now) 0 count) }
{
    let mut ids = Ids::new(alloc);
    for number in 0..count {
        let id = Id(number);
        if is_chosen(asked, besides, id) {
            ids.push(id)?;
        }
    }
    Ok(ids)
}

/// The tables that a transaction holds that asks for these.
pub(crate) fn holds_of(
    alloc: Global,
    count: u32,
    write: &[Id],
    read: &[Id],
) -> Result<Holds, AllocError>
    ensures { IfOk result (λ holds. holds ≡ held_by count write.now read.now) }
{
    let read = chosen_ids(alloc, count, read, write)?;
    let write = chosen_ids(alloc, count, write, &[])?;
    Ok(Holds { write, read })
}
