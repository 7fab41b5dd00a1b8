//! How long something lasts.

ghost use Rattle.std.specs.Prelude.{◌≡◌, ◌≤◌};
ghost use Rattle.std.specs.Duration.{as_nanos};

use std::time::{Clock, Duration};

/// A watch for something that may last so long. It is started by the first look at it.
#[derive(Debug, Drop)]
pub struct Deadline {
    most: Duration,
    since: Option<Duration>,
}

impl Deadline {
    /// A watch for this time, not started.
    pub fn new(most: Duration) -> Deadline
        ensures { result.most ≡ most }
    {
        Deadline { most, since: None }
    }

    /// Stops it. The next look starts it again.
    pub fn reset(&mut self)
        ensures { self.new.most ≡ self.old.most }
    {
        self.since = None;
    }

    /// What is left of its time since the first look. Where the clock cannot be read, nothing is.
    pub fn left<R: Clock>(&mut self, rt: &R) -> Duration
        ensures left { as_nanos result ≤ as_nanos self.old.most }
        ensures kept { self.new.most ≡ self.old.most }
    {
        let Ok(now) = rt.monotonic() else {
            return Duration::ZERO;
        };
        match self.since {
            None => {
                self.since = Some(now);
                self.most
            }
            Some(since) => self.most.saturating_sub(now.saturating_sub(since)),
        }
    }

    /// Whether nothing is left of it.
    pub fn is_over<R: Clock>(&mut self, rt: &R) -> bool
        ensures { self.new.most ≡ self.old.most }
    {
        self.left(rt).is_zero()
    }
}
