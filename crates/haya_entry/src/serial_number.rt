//! The numbers that catalogues know works by.
ghost use Rattle.std.specs.Prelude.{◌≡◌, ◌==◌, not, true, if◌then◌else◌, is_some, length};

use haya_text::{OutOfMemory, TryClone};
use std::alloc::Global;
use std::collections::BTreeMap;

/// The numbers that catalogues know a work by, such as its DOI: texts, each under a key, in the
/// order of the keys. Nearly all works have one: it is kept by itself, since the first node of a
/// map has room for eleven.
#[derive(PartialEq, Eq, Hash, Debug, Drop)]
pub struct SerialNumber {
    only: Option<(String, String)>,
    several: BTreeMap<String, String>,
    ghost apart: { (if is_some only then length several.entries == 0
        else not (length several.entries == 1)) ≡ true },
}

impl SerialNumber {
    ghost use Rattle.std.specs.Prelude.{◌≡◌, ◌≢◌, [], ◌∷◌, IfOk, OnErr, OnOk, Some, map};
    ghost use Rattle.std.specs.Prelude.{option_map, string_bytes};
    ghost use Rattle.haya_entry.specs.SerialNumber.{only_serial, serial_entry, serial_text};
    ghost use Rattle.haya_entry.specs.SerialNumber.{serial_view, several_serials, with_serial};

    /// None.
    pub fn new(alloc: Global) -> SerialNumber
        ensures { serial_view result ≡ [] }
    {
        SerialNumber {
            only: None,
            several: BTreeMap::new(alloc),
        }
    }

    /// The key and the text of the only number, where there is one.
    pub fn only(&self) -> Option<&(String, String)>
        ensures { option_map (λ e. serial_entry e.now) result ≡ only_serial self.now }
    {
        self.only.as_ref()
    }

    /// The texts under their keys, where there are none or more than one.
    pub fn several(&self) -> &BTreeMap<String, String>
        ensures { map serial_entry result.now.entries ≡ several_serials self.now }
    {
        &self.several
    }

    /// The text under a key.
    pub fn get(&self, key: &str) -> Option<&str>
        ensures { option_map (λ t. t.now) result
            ≡ serial_text key.now (Some (serial_view self.now)) }
    {
        if let Some(number) = &self.only {
            if key == number.0.as_str() {
                return Some(number.1.as_str());
            }
        }
        let text = self.several.get(key)?;
        Some(text.as_str())
    }

    /// Keeps a text under a key, in the place of the one that was there. When out of memory nothing
    /// changes, and the text that was handed in is dropped.
    pub fn insert(&mut self, key: String, text: String) -> Result<(), OutOfMemory>
        ensures ok { OnOk result (serial_view self.new
            ≡ with_serial (string_bytes key) (string_bytes text) (Some (serial_view self.old))) }
        ensures err { OnErr result (serial_view self.new ≡ serial_view self.old) }
    {
        match self.only.take() {
            Some(only) if key.as_str() == only.0.as_str() => {
                self.only = Some((key, text));
                Ok(())
            }
            Some(only) => self.insert_beside(only, key, text),
            None if self.several.is_empty() => {
                self.only = Some((key, text));
                Ok(())
            }
            None => {
                self.several.insert(key, text)?;
                Ok(())
            }
        }
    }

    // Keeps two texts, where there are none, the first under another key than the second. When out
    // of memory the first alone is kept.
    fn insert_beside(
        &mut self,
        first: (String, String),
        key: String,
        text: String,
    ) -> Result<(), OutOfMemory>
        requires none { serial_view self.old ≡ [] }
        requires apart { string_bytes first.0 ≢ string_bytes key }
        ensures ok { OnOk result (serial_view self.new ≡ with_serial (string_bytes key)
            (string_bytes text) (Some (serial_entry first ∷ []))) }
        ensures err { OnErr result (serial_view self.new ≡ serial_entry first ∷ []) }
    {
        if let Err(refused) = self.several.insert(first.0, first.1) {
            self.only = Some(refused.value);
            return Err(OutOfMemory);
        }
        if let Err(_refused) = self.several.insert(key, text) {
            self.only = self.several.pop_first();
            return Err(OutOfMemory);
        }
        Ok(())
    }

    /// A copy, equal to these serial numbers.
    pub fn try_clone(&self, _alloc: Global) -> Result<SerialNumber, OutOfMemory>
        ensures { IfOk result (λ copy. serial_view copy ≡ serial_view self.now) }
    {
        let only = match &self.only {
            Some(number) => Some((number.0.clone()?, number.1.clone()?)),
            None => None,
        };
        Ok(SerialNumber {
            only,
            several: self.several.clone()?,
        })
    }
}

impl TryClone for SerialNumber {
    ghost use Rattle.haya_entry.specs.SerialNumber.{Serials, serial_view};

    ghost View = { Serials };

    ghost view = { serial_view };

    fn try_clone(&self, alloc: Global) -> Result<SerialNumber, OutOfMemory> {
        self.try_clone(alloc)
    }
}
