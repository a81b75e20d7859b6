use crate::faults::count_up;
use crate::{Clock, Files, OpenError, Source, StdSource};
use std::fs::File;
use std::marker::Model;
use std::time;
use std::time::Instant;

/// The files of the machine. At this stage none can be opened: each opening is a fault. They tell
/// nothing of what they hold.
#[derive(Drop)]
pub struct HostFiles {
    faults: u64,
}

// A clause sees the files as their count of faults.
impl Model for HostFiles {
    ghost use Rattle.std.specs.Prelude.{ℕ};

    ghost Value = { ℕ };

    ghost view = { λ s. s.faults };
}

impl HostFiles {
    ghost use Rattle.std.specs.Prelude.{◌≡◌};

    /// The files of the machine, none of them opened yet.
    pub fn new() -> HostFiles
        ensures { result ≡ 0 }
    {
        HostFiles { faults: 0 }
    }

    /// How many openings have failed, and how many feeds with faults were taken back.
    pub fn faults(&self) -> u64
        ensures { result ≡ self.now }
    {
        self.faults
    }
}

impl Files for HostFiles {
    ghost use Rattle.std.specs.Prelude.{◌≡◌, ◌≤◌, None};
    ghost use Rattle.strip_outside.specs.Faults.{raised};

    type Feed = StdSource<File>;

    ghost faults = { λ s. s };

    ghost holds = { λ _. None };

    ghost asked = { λ _. None };

    ghost back = { λ _. None };

    fn open_feed(&mut self, _path: &str) -> Result<StdSource<File>, OpenError>
        ensures always_fault { result ≡ Err OpenError.Fault }
        ensures counted { self.new ≡ raised self.old }
        ensures never_falls { self.old ≤ self.new }
    {
        count_up(&mut self.faults);
        Err(OpenError::Fault)
    }

    fn take_back(&mut self, feed: StdSource<File>) {
        if feed.faults() > 0 {
            count_up(&mut self.faults);
        }
    }
}

/// A clock of the machine: the milliseconds since it was made. Where the machine's clock can't be
/// read, it answers 0.
#[derive(Drop)]
pub struct HostClock<C: time::Clock> {
    clock: C,
    made: Option<Instant>,
}

impl<C: time::Clock> HostClock<C> {
    /// A clock that begins at 0 now.
    pub fn new(clock: C) -> HostClock<C> {
        let made = Instant::now(&clock).ok();
        HostClock { clock, made }
    }
}

impl<C: time::Clock> Clock for HostClock<C> {
    fn now(&self) -> u64 {
        let Some(made) = self.made else {
            return 0;
        };
        match made.elapsed(&self.clock) {
            Ok(since) => u64::try_from(since.as_millis()).unwrap_or(u64::MAX),
            Err(_) => 0,
        }
    }
}
