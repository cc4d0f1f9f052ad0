//! The serial numbers of an entry, each under its key.
ghost use Rattle.std.specs.Prelude.{◌≡◌, OnOk, OnErr, option_map, string_bytes, codes};
ghost use Rattle.haya_entry.specs.Tree.{SetsSerial, view, serial_of};

use crate::{Entry, SerialNumber};
use haya_text::OutOfMemory;

impl Entry {
    /// The serial number under a key.
    pub fn keyed_serial_number(&self, key: &str) -> Option<&str>
        ensures { option_map (λ t. t.now) result ≡ serial_of key.now self.now }
    {
        self.serial_number.as_ref()?.get(key)
    }

    /// Keeps a serial number under a key, in the place of the one that was there. Any key is kept
    /// as it is handed in. Nothing else changes, and nothing at all when out of memory: then the
    /// number that was handed in is dropped.
    pub fn set_keyed_serial_number(&mut self, key: &str, value: String) -> Result<(), OutOfMemory>
        ensures ok { OnOk result (SetsSerial self.old self.new key.now (string_bytes value)) }
        ensures err { OnErr result (view self.new ≡ view self.old) }
    {
        let alloc = *self.key.allocator();
        let key = String::from_str(alloc, key)?;
        match &mut self.serial_number {
            Some(serial) => {
                serial.insert(key, value)?;
            }
            None => {
                let mut serials = SerialNumber::new(alloc);
                serials.insert(key, value)?;
                self.serial_number = Some(serials);
            }
        }
        Ok(())
    }

    /// The DOI, the digital object identifier: the serial number under the key `doi`.
    pub fn doi(&self) -> Option<&str>
        ensures { option_map (λ t. t.now) result ≡ serial_of (codes "doi") self.now }
    {
        self.keyed_serial_number("doi")
    }

    /// The ISBN, the number of a book: the serial number under the key `isbn`.
    pub fn isbn(&self) -> Option<&str>
        ensures { option_map (λ t. t.now) result ≡ serial_of (codes "isbn") self.now }
    {
        self.keyed_serial_number("isbn")
    }

    /// The ISSN, the number of a periodical: the serial number under the key `issn`.
    pub fn issn(&self) -> Option<&str>
        ensures { option_map (λ t. t.now) result ≡ serial_of (codes "issn") self.now }
    {
        self.keyed_serial_number("issn")
    }

    /// The PMID, the number in PubMed: the serial number under the key `pmid`.
    pub fn pmid(&self) -> Option<&str>
        ensures { option_map (λ t. t.now) result ≡ serial_of (codes "pmid") self.now }
    {
        self.keyed_serial_number("pmid")
    }

    /// The PMCID, the number in PubMed Central: the serial number under the key `pmcid`.
    pub fn pmcid(&self) -> Option<&str>
        ensures { option_map (λ t. t.now) result ≡ serial_of (codes "pmcid") self.now }
    {
        self.keyed_serial_number("pmcid")
    }

    /// The arXiv identifier: the serial number under the key `arxiv`.
    pub fn arxiv(&self) -> Option<&str>
        ensures { option_map (λ t. t.now) result ≡ serial_of (codes "arxiv") self.now }
    {
        self.keyed_serial_number("arxiv")
    }

    /// Keeps the DOI under the key `doi`, as `set_keyed_serial_number` does.
    pub fn set_doi(&mut self, doi: String) -> Result<(), OutOfMemory>
        ensures ok { OnOk result (SetsSerial self.old self.new (codes "doi") (string_bytes doi)) }
        ensures err { OnErr result (view self.new ≡ view self.old) }
    {
        self.set_keyed_serial_number("doi", doi)
    }

    /// Keeps the ISBN under the key `isbn`, as `set_keyed_serial_number` does.
    pub fn set_isbn(&mut self, isbn: String) -> Result<(), OutOfMemory>
        ensures ok { OnOk result (SetsSerial self.old self.new (codes "isbn") (string_bytes isbn)) }
        ensures err { OnErr result (view self.new ≡ view self.old) }
    {
        self.set_keyed_serial_number("isbn", isbn)
    }

    /// Keeps the ISSN under the key `issn`, as `set_keyed_serial_number` does.
    pub fn set_issn(&mut self, issn: String) -> Result<(), OutOfMemory>
        ensures ok { OnOk result (SetsSerial self.old self.new (codes "issn") (string_bytes issn)) }
        ensures err { OnErr result (view self.new ≡ view self.old) }
    {
        self.set_keyed_serial_number("issn", issn)
    }

    /// Keeps the PMID under the key `pmid`, as `set_keyed_serial_number` does.
    pub fn set_pmid(&mut self, pmid: String) -> Result<(), OutOfMemory>
        ensures ok { OnOk result (SetsSerial self.old self.new (codes "pmid") (string_bytes pmid)) }
        ensures err { OnErr result (view self.new ≡ view self.old) }
    {
        self.set_keyed_serial_number("pmid", pmid)
    }

    /// Keeps the PMCID under the key `pmcid`, as `set_keyed_serial_number` does.
    pub fn set_pmcid(&mut self, pmcid: String) -> Result<(), OutOfMemory>
        ensures ok { OnOk result (SetsSerial self.old self.new (codes "pmcid")
            (string_bytes pmcid)) }
        ensures err { OnErr result (view self.new ≡ view self.old) }
    {
        self.set_keyed_serial_number("pmcid", pmcid)
    }

    /// Keeps the arXiv identifier under the key `arxiv`, as `set_keyed_serial_number` does.
    pub fn set_arxiv(&mut self, arxiv: String) -> Result<(), OutOfMemory>
        ensures ok { OnOk result (SetsSerial self.old self.new (codes "arxiv")
            (string_bytes arxiv)) }
        ensures err { OnErr result (view self.new ≡ view self.old) }
    {
        self.set_keyed_serial_number("arxiv", arxiv)
    }
}
