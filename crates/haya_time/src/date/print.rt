//! Dates and their years as texts.
ghost use Rattle.std.specs.Prelude.{◌≡◌, ◌+◌, IfOk, Some, unsigned_abs, false, true};
ghost use Rattle.std.specs.Int.{is_negative};
ghost use Rattle.haya_text.specs.Characters.{hyphen};
ghost use Rattle.haya_time.specs.DatePrinted.{HasText, mark_text, date_text, year_digits};
ghost use Rattle.haya_time.specs.DatePrinted.{part_text, designated_year, year_text, era_before};

use super::Date;
use haya_text::OutOfMemory;
use std::alloc::Global;
use std::fmt;

impl fmt::Display for Date {
    ghost output = { λ d. Some (date_text d) };

    /// The date by ISO 8601, as `2014-05-01`, with a tilde before one that is approximate.
    fn fmt<W: fmt::Write>(&self, f: &mut fmt::Formatter<W>) -> fmt::Result {
        let mark = if self.approximate { "~" } else { "" };
        let year = YearDigits(self.year);
        match (self.month, self.day) {
            (None, _) => write!(f, "{mark}{year}"),
            (Some(month), None) => write!(f, "{mark}{year}{}", Part(month)),
            (Some(month), Some(day)) => write!(f, "{mark}{year}{}{}", Part(month), Part(day)),
        }
    }
}

// A year with its sign, in four digits at least.
#[derive(Clone, Copy)]
struct YearDigits(i32);

impl fmt::Display for YearDigits {
    ghost output = { λ y. Some (year_digits y.0) };

    fn fmt<W: fmt::Write>(&self, f: &mut fmt::Formatter<W>) -> fmt::Result {
        let year = self.0;
        let sign = sign_of(year);
        let distance = distance_from_zero(year);
        write!(f, "{sign}{distance:04}")
    }
}

// A month or a day, which is kept less one, behind a hyphen.
#[derive(Clone, Copy)]
struct Part(u8);

impl fmt::Display for Part {
    ghost output = { λ n. Some (part_text n.0) };

    fn fmt<W: fmt::Write>(&self, f: &mut fmt::Formatter<W>) -> fmt::Result {
        let n = counted_from_one(self.0);
        write!(f, "-{n:02}")
    }
}

impl Date {
    /// The year as readers count it: the year before 1 is `1 BCE`. Another year stands alone.
    pub fn display_year(&self, alloc: Global) -> Result<String, OutOfMemory>
        ensures { IfOk result (HasText (year_text true false false false self.now.year)) }
    {
        self.display_year_opt(alloc, true, false, false, false)
    }

    /// The year as readers count it, with its era: `BCE` or `BC` behind a year before 1. Another
    /// year has one where `designate_positive` asks for it: `AD` in front where `ad_prefix` asks
    /// for that, or `CE` behind. `secular` chooses `BCE`, and `periods` writes each era with
    /// periods, as `B.C.E.`.
    pub fn display_year_opt(
        &self,
        alloc: Global,
        secular: bool,
        periods: bool,
        designate_positive: bool,
        ad_prefix: bool,
    ) -> Result<String, OutOfMemory>
        ensures { let year = self.now.year in
            IfOk result (HasText (year_text secular periods designate_positive ad_prefix year)) }
    {
        if self.year <= 0 {
            let year = 1 - i64::from(self.year);
            let era = era_before(secular, periods);
            return Ok(format!(in alloc; "{year} {era}")?);
        }
        if designate_positive {
            return self.designated_year(alloc, periods, ad_prefix);
        }
        Ok(format!(in alloc; "{}", self.year)?)
    }

    // The year with the era of the years from 1 on.
    fn designated_year(
        &self,
        alloc: Global,
        periods: bool,
        in_front: bool,
    ) -> Result<String, OutOfMemory>
        ensures { IfOk result (HasText (designated_year periods in_front self.now.year)) }
    {
        let year = self.year;
        if in_front {
            let era = if periods { "A.D." } else { "AD" };
            return Ok(format!(in alloc; "{era} {year}")?);
        }
        let era = if periods { "C.E." } else { "CE" };
        Ok(format!(in alloc; "{year} {era}")?)
    }
}

// A minus before a year below 0.
fn sign_of(year: i32) -> &'static str
    ensures { result.now ≡ mark_text (is_negative year) hyphen }
{
    if year < 0 { "-" } else { "" }
}

// The year without its sign.
fn distance_from_zero(year: i32) -> u32
    ensures { result ≡ unsigned_abs year }
{
    year.unsigned_abs()
}

// The number of a month or a day, which is kept less one.
fn counted_from_one(n: u8) -> u16
    ensures { result ≡ n + 1 }
{
    u16::from(n) + 1
}

// The era of the years before 1.
fn era_before(secular: bool, periods: bool) -> &'static str
    ensures { result.now ≡ era_before secular periods }
{
    match (secular, periods) {
        (true, false) => "BCE",
        (true, true) => "B.C.E.",
        (false, false) => "BC",
        (false, true) => "B.C.",
    }
}
