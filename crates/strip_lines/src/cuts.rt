ghost use Rattle.std.specs.Prelude.{◌≡◌, ℕ, ◌+◌, ◌^◌, ◌<◌, length};
ghost use Rattle.strip_lines.specs.Steps.{EndsAt, Cuts};

use crate::begun::Begun;
use crate::rooms::Room;
use std::alloc::{AllocError, Global};
use strip_value::Piece;

// How many of the bytes belong to the segment that has begun, and whether quotes are open behind
// them. A `;` outside quotes ends a segment.
fn run_of(bytes: &[u8], mut quoted: bool) -> (usize, bool)
    ensures { EndsAt quoted bytes.now result.0 result.1 }
{
    for (i, byte) in bytes.iter().enumerate() {
        if *byte == b';' && !quoted {
            return (i, quoted);
        }
        if *byte == b'\'' {
            quoted = !quoted;
        }
    }
    (bytes.len(), quoted)
}

// Looks through the bytes in the room up to the end of the segment that has begun.
pub(crate) fn cut(
    alloc: Global,
    room: &mut Room,
    begun: &mut Begun,
) -> Result<Option<Piece>, AllocError>
    requires { begun.old.from + length begun.old.bytes + length room.old < 2 ^ 64 }
    ensures { Cuts begun.old begun.new room.old room.new result }
{
    let waiting = room.as_slice();
    let (run, quoted) = run_of(waiting, begun.is_quoted());
    let whole = run < waiting.len();
    begun.go_on(&waiting[..run], quoted)?;
    if !whole {
        room.clear();
        return Ok(None);
    }
    room.skip(run + 1);
    Ok(Some(begun.end(alloc)))
}
