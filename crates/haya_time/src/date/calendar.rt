//! The calendar, which is that of the crate `jiff`.
ghost use Rattle.std.specs.Prelude.{◌≡◌, ◌+◌, ◌<◌, ◌≤ℤ◌, pos, negsuc, true};
ghost use Rattle.haya_time.specs.DateCalendar.{is_month, has_day};
ghost use Rattle.haya_time.specs.DateReadBack.{is_on_calendar};

// Whether a year has the month, counted from 1.
pub(super) fn is_month(month: u8) -> bool
    ensures { result ≡ is_month month }
{
    1 <= month && month <= 12
}

// Whether the month of that year has the day, both counted from 1.
pub(super) fn has_day(year: i16, month: u8, day: u8) -> bool
    requires year_low { negsuc 9998 ≤ℤ year }
    requires year_high { year ≤ℤ pos 9999 }
    requires month { is_month month ≡ true }
    requires day { day < 128 }
    ensures { result ≡ has_day year month day }
{
    jiff::civil::Date::new(year, month as i8, day as i8).is_ok()
}

// Whether the calendar has this month and day of the year, if they are told, each less one. No day
// is told without its month.
pub(super) fn is_on_calendar(year: i16, month: Option<u8>, day: Option<u8>) -> bool
    requires year_low { negsuc 9998 ≤ℤ year }
    requires year_high { year ≤ℤ pos 9999 }
    ensures { result ≡ is_on_calendar year month day }
{
    match (month, day) {
        (None, day) => day.is_none(),
        (Some(month), None) => has_month(month),
        (Some(month), Some(day)) => has_month(month)
            && day < 31
            && has_day(year, month + 1, day + 1),
    }
}

// Whether a year has the month, counted from 0.
fn has_month(month: u8) -> bool
    ensures { result ≡ is_month (month + 1) }
{
    month < 12
}
