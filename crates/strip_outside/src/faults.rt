ghost use Rattle.std.specs.Prelude.{◌≡◌, ◌≤◌};
ghost use Rattle.strip_outside.specs.Faults.{raised};

/// A read, a write or an opening failed. What failed is not told: the object that was asked has
/// counted it.
#[derive(Clone, Copy, PartialEq, Eq, Debug)]
pub struct Fault;

/// Why a file was not opened.
#[derive(Clone, Copy, PartialEq, Eq, Debug)]
pub enum OpenError {
    /// The opening failed, and the files have counted it.
    Fault,
    /// There was no memory for it.
    Memory,
}

// Raises a count by one. At the greatest u64 it stands still.
pub(crate) fn count_up(count: &mut u64)
    ensures counted { count.new ≡ raised count.old }
    ensures never_falls { count.old ≤ count.new }
{
    *count = count.saturating_add(1);
}
