ghost use Rattle.std.specs.Prelude.{◌≡◌, Ok, Err};
ghost use Rattle.strip_parse.specs.Reading.{State, Out};
ghost use Rattle.strip_parse.specs.Taking.{IsTaken, following_of, listed_of};

use crate::cursor::Cursor;
use crate::stops::Stop;
use std::alloc::Global;
use strip_ast::Mark;
use strip_value::Items;

/// What the items of a list are, by the marker that the trait is implemented for.
pub(crate) trait Part<T: Drop>: Drop {
    ghost taking: { State → Out T };

    fn take(alloc: Global, cursor: &mut Cursor) -> Result<T, Stop>
        ensures { IsTaken (taking cursor.old) result cursor.new };
}

/// The items, with commas between.
pub(crate) fn listed<T: Drop, P: Part<T>>(
    alloc: Global,
    cursor: &mut Cursor,
) -> Result<Items<T>, Stop>
    ensures { IsTaken (listed_of P.taking cursor.old) result cursor.new }
{
    let mut items = Items::new(alloc);
    let first = P::take(alloc, cursor)?;
    items.push(first)?;
    for _turn in 0..cursor.most() {
        if !cursor.skip(Mark::Comma) {
            return Ok(items);
        }
        let item = P::take(alloc, cursor)?;
        items.push(item)?;
    }
    Ok(items)
}
