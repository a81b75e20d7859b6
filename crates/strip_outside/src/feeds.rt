ghost use Rattle.std.specs.Prelude.{◌≡◌, ℕ, ◌≤◌, List, Option, IfOk};
ghost use Rattle.strip_outside.specs.Faults.{CountsFeed, CountsOpening};
ghost use Rattle.strip_outside.specs.Openings.{Adds, Asks, HasAll, held_at};

use crate::{OpenError, Source};

/// Files that can be opened for reading.
pub trait Files {
    /// An opened file. It is given back by `take_back`.
    type Feed: Source + Send;

    // How many openings have failed, and how many feeds with faults were taken back. At the
    // greatest u64 the count stands still.
    ghost faults: { Self → ℕ };

    // The bytes at each path, where the files tell them.
    ghost holds: { Self → Option (List ℕ → Option (List ℕ)) };

    // The paths of all openings so far, in order, where the files tell them.
    ghost asked: { Self → Option (List (List ℕ)) };

    // Of each feed taken back, in order, its count of faults and what it had left, where the
    // files tell them.
    ghost back: { Self → Option (List (ℕ × Option (List ℕ))) };

    /// Opens the file at a path. The files keep their own allocator, so none is passed.
    fn open_feed(&mut self, path: &str) -> Result<Self::Feed, OpenError>
        ensures never_falls { faults self.old ≤ faults self.new }
        ensures counted { CountsOpening (faults self.old) (faults self.new) result }
        ensures still_holds { holds self.new ≡ holds self.old }
        ensures none_back { back self.new ≡ back self.old }
        ensures asks { Asks (asked self.old) (asked self.new) path.now result }
        ensures no_faults_yet { IfOk result (λ feed. Self.Feed.faults feed ≡ 0) }
        ensures content { IfOk result (λ feed. HasAll (held_at (holds self.old) path.now) (Self.Feed.left feed)) };

    /// Takes a feed back. Its faults count as one of the files.
    fn take_back(&mut self, feed: Self::Feed)
        ensures never_falls { faults self.old ≤ faults self.new }
        ensures counted { CountsFeed (faults self.old) (faults self.new) (Self.Feed.faults feed) }
        ensures still_holds { holds self.new ≡ holds self.old }
        ensures none_asked { asked self.new ≡ asked self.old }
        ensures is_back { Adds (back self.old) (back self.new) (Self.Feed.faults feed, Self.Feed.left feed) };
}
