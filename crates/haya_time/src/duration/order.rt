//! Durations in the order of their length.
use super::Duration;
use std::cmp::Ordering;

impl Duration {
    ghost use Rattle.std.specs.Prelude.{◌≡◌, ◌<◌, ◌^◌};
    ghost use Rattle.haya_time.specs.DurationOrder.{total_milliseconds};

    // The whole length in milliseconds.
    fn total_milliseconds(&self) -> u64
        ensures { result ≡ total_milliseconds self.now }
    {
        let hours = u64::from(self.days) * 24 + u64::from(self.hours);
        let minutes = hours * 60 + u64::from(self.minutes);
        let seconds = minutes * 60 + u64::from(self.seconds);
        seconds * 1000 + u64::from(self.milliseconds)
    }
}

/// By the whole length, and among equal lengths by days, hours, minutes, seconds and milliseconds.
impl Ord for Duration {
    ghost use Rattle.std.proofs.Common.{rules};
    ghost use Rattle.std.specs.Cmp.Rules.{comparing};
    ghost use Rattle.haya_time.specs.DurationOrder.{duration_cmp, IsTotalOrder-duration_cmp};

    ghost cmp = { duration_cmp };

    ghost total = { IsTotalOrder-duration_cmp };

    ghost matches_partial_cmp = { Prim.search (comparing, rules) };

    ghost matches_eq = { Prim.search (comparing, rules) };

    fn cmp(&self, other: &Duration) -> Ordering {
        self.total_milliseconds()
            .cmp(&other.total_milliseconds())
            .then(self.days.cmp(&other.days))
            .then(self.hours.cmp(&other.hours))
            .then(self.minutes.cmp(&other.minutes))
            .then(self.seconds.cmp(&other.seconds))
            .then(self.milliseconds.cmp(&other.milliseconds))
    }
}

impl PartialOrd for Duration {
    ghost use Rattle.std.proofs.Common.{rules};
    ghost use Rattle.std.specs.Cmp.Rules.{comparing};
    ghost use Rattle.std.specs.Cmp.{partial_order_from_own_ties, partial_order_from_total};
    ghost use Rattle.std.specs.Ordering.{as_partial_cmp};
    ghost use Rattle.haya_time.specs.DurationOrder.{duration_cmp, IsTotalOrder-duration_cmp};

    ghost partial_cmp = { as_partial_cmp duration_cmp };

    ghost laws = { partial_order_from_own_ties
        (partial_order_from_total IsTotalOrder-duration_cmp)
        (Prim.search (comparing, rules)) };

    fn partial_cmp(&self, other: &Duration) -> Option<Ordering> {
        Some(self.cmp(other))
    }
}
