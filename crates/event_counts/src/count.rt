//! How often something happened.
ghost use Rattle.std.specs.Prelude.{◌≡◌};
ghost use Rattle.event_counts.specs.Count.{next_count};

use std::marker::Model;

/// A count of events. It stays at the last value of a `u64`.
#[derive(Drop)]
pub struct Count {
    number: u64,
}

impl Model for Count {
    ghost use Rattle.std.specs.Prelude.{ℕ};

    ghost Value = { ℕ };

    ghost view = { λ c. c.number };
}

impl Count {
    /// A count of no events.
    pub fn new() -> Count
        ensures { result ≡ 0 }
    {
        Count { number: 0 }
    }

    /// Counts one more event.
    pub fn add_one(&mut self)
        ensures { self.new ≡ next_count self.old }
    {
        self.number = self.number.saturating_add(1);
    }

    /// How many events there were.
    pub fn number(&self) -> u64
        ensures { result ≡ self.now }
    {
        self.number
    }
}
