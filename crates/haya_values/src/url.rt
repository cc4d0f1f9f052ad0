//! Addresses on the web.
ghost use Rattle.std.specs.Prelude.{◌≡◌, Some, IfOk, string_bytes};
ghost use Rattle.haya_values.specs.Url.{UrlView, undated, url_view};

use haya_text::{OutOfMemory, ReadText, TryClone};
use haya_time::Date;
use std::alloc::Global;
use std::fmt;

/// An address on the web, and perhaps the date of a visit there.
#[derive(Debug, Drop, PartialEq, Eq, Hash)]
pub struct QualifiedUrl {
    /// The address, as it was handed in: it need not be one that a browser accepts.
    pub value: String,
    /// When the page was last seen at the address.
    pub visit_date: Option<Date>,
}

impl QualifiedUrl {
    /// This address, with that date.
    pub fn new(value: String, visit_date: Option<Date>) -> QualifiedUrl
        ensures { url_view result
            ≡ record { value = string_bytes value; visit_date = visit_date } }
    {
        QualifiedUrl { value, visit_date }
    }

    /// A copy, equal to this address and its date.
    pub fn try_clone(&self, alloc: Global) -> Result<QualifiedUrl, OutOfMemory>
        ensures { IfOk result (λ copy. url_view copy ≡ url_view self.now) }
    {
        Ok(QualifiedUrl {
            value: self.value.try_clone(alloc)?,
            visit_date: self.visit_date,
        })
    }
}

impl TryClone for QualifiedUrl {
    ghost View = { UrlView };

    ghost view = { url_view };

    fn try_clone(&self, alloc: Global) -> Result<QualifiedUrl, OutOfMemory> {
        self.try_clone(alloc)
    }
}

impl ReadText for QualifiedUrl {
    type Fault = OutOfMemory;

    ghost Value = { UrlView };

    ghost value = { url_view };

    ghost reads = { λ text. Some (undated text) };

    /// The text as the address, whatever it is, without a date.
    fn from_str(alloc: Global, text: &str) -> Result<QualifiedUrl, OutOfMemory>
        ensures { IfOk result (λ url. url_view url ≡ undated text.now) }
    {
        Ok(QualifiedUrl::new(String::from_str(alloc, text)?, None))
    }
}

impl fmt::Display for QualifiedUrl {
    ghost output = { λ url. Some (url_view url).value };

    /// The address.
    fn fmt<W: fmt::Write>(&self, f: &mut fmt::Formatter<W>) -> fmt::Result {
        write!(f, "{}", self.value)
    }
}
