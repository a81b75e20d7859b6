ghost use Rattle.std.specs.Prelude.{◌≡◌, ◌+ℤ◌, [], pos, IfOk, IfErr, OnOk, OnErr};
ghost use Rattle.strip_bag.specs.Entries.{counted, IsEntryAt, IsEntryGap};
ghost use Rattle.strip_value.specs.Bag.{IsBag, IsCount, added, count_in};

use std::alloc::{AllocError, Global};
use std::marker::Model;
use strip_value::{Duplicate, Row};

/// A row and its count.
#[derive(Debug, Drop)]
struct Entry {
    row: Row,
    count: i128,
}

/// A signed bag: rows with counts, which may be negative. Contracts see the rows that count, with
/// their counts, by rising row.
#[derive(Debug, Drop)]
pub struct Bag {
    entries: Vec<Entry>,
}

impl Model for Bag {
    ghost use Rattle.std.specs.Prelude.{List};
    ghost use Rattle.strip_value.specs.Bag.{Counted, IsBag};
    ghost use Rattle.strip_bag.specs.Codes.{bag_code};
    ghost use Rattle.strip_bag.specs.Entries.{counted};

    ghost Value = { List Counted };

    ghost coded = { bag_code };

    ghost view = { λ b. counted b.entries.items };

    ghost invariant = { λ b. IsBag (counted b.entries.items) };
}

impl Bag {
    /// A bag in which no row counts.
    pub fn new(alloc: Global) -> Bag
        ensures { result ≡ [] }
    {
        Bag {
            entries: Vec::new(alloc),
        }
    }

    /// Raises the row's count; a row whose count comes to zero is listed no longer.
    pub fn add(&mut self, row: &Row, times: i128) -> Result<(), AllocError>
        requires { IsCount (count_in self.old row.now +ℤ times) }
        ensures ok { OnOk result (self.new ≡ added self.old row.now times) }
        ensures err { OnErr result (self.new ≡ self.old) }
    {
        add_entry(&mut self.entries, row, times)
    }

    /// How often the row counts.
    pub fn count(&self, row: &Row) -> i128
        ensures { result ≡ count_in self.now row.now }
    {
        count_of(self.entries.as_slice(), row)
    }
}

/// Where a row stands among rising rows, or where it would be put.
fn place_of(entries: &[Entry], row: &Row) -> Result<usize, usize>
    requires { IsBag (counted entries.now) }
    ensures found { IfOk result (IsEntryAt entries.now row.now) }
    ensures gap { IfErr result (IsEntryGap entries.now row.now) }
{
    entries.binary_search_by(|entry| entry.row.cmp(row))
}

fn count_of(entries: &[Entry], row: &Row) -> i128
    requires { IsBag (counted entries.now) }
    ensures { result ≡ count_in (counted entries.now) row.now }
{
    match place_of(entries, row) {
        Ok(at) => entries[at].count,
        Err(_gap) => 0,
    }
}

fn add_entry(entries: &mut Vec<Entry>, row: &Row, times: i128) -> Result<(), AllocError>
    requires bag { IsBag (counted entries.old.items) }
    requires fits { IsCount (count_in (counted entries.old.items) row.now +ℤ times) }
    ensures ok { OnOk result (counted entries.new.items ≡ added (counted entries.old.items) row.now times) }
    ensures err { OnErr result (counted entries.new.items ≡ counted entries.old.items) }
{
    match place_of(entries.as_slice(), row) {
        Ok(at) => {
            let count = entries[at].count + times;
            if count == 0 {
                entries.remove(at);
            } else {
                entries[at].count = count;
            }
            Ok(())
        }
        Err(at) => {
            if times == 0 {
                return Ok(());
            }
            let alloc = *entries.allocator();
            let row = row.copy(alloc)?;
            entries.insert(at, Entry { row, count: times })?;
            Ok(())
        }
    }
}
