//! Numbers of a date's text.
ghost use Rattle.std.specs.Prelude.{◌<◌, ◌≤◌, ◌^◌};

// A number of a date's text: how many digits it has, at most four, and its value.
#[derive(Clone, Copy)]
pub(super) struct Number {
    pub(super) count: u8,
    pub(super) value: u16,
    ghost short: { count ≤ 4 },
    ghost bounded: { value < 10 ^ count },
}
