//! Inputs that are no library's text in any of the formats.
ghost use Rattle.std.specs.Prelude.{◌≡◌};
ghost use Rattle.haya_formats.specs.Foreign.{archives, documents, foreign_of, marks, signed_in};
ghost use Rattle.haya_formats.specs.Foreign.{wide_text};

/// What standard input is called in messages.
pub const STANDARD_INPUT: &str = "standard input";

/// What an input is, or looks like, that isn't read.
#[derive(Clone, Copy, Debug, Drop, PartialEq, Eq)]
pub enum Foreign {
    /// UTF-16 with a byte order mark.
    Utf16,
    /// UTF-16 without one, the low byte of a unit first.
    Utf16Le,
    /// UTF-16 without one, the high byte of a unit first.
    Utf16Be,
    /// UTF-32 with a byte order mark.
    Utf32,
    /// UTF-32 without one, the low byte of a unit first.
    Utf32Le,
    /// UTF-32 without one, the high byte of a unit first.
    Utf32Be,
    /// What gzip compressed.
    Gzip,
    /// What bzip2 compressed.
    Bzip2,
    /// What xz compressed.
    Xz,
    /// What zstd compressed.
    Zstd,
    /// A ZIP archive.
    Zip,
    /// A PDF.
    Pdf,
    /// A SQLite database.
    Sqlite,
    /// RIS.
    Ris,
    /// MEDLINE, as PubMed exports it.
    Medline,
    /// XML, as EndNote exports it.
    EndNoteXml,
    /// Values separated by commas, with their names in front.
    Csv,
}

/// What an input is that begins with these bytes, where they aren't those of a text in UTF-8: by a
/// byte order mark or the first bytes of a kind of file, otherwise by a zero byte among the first
/// four.
pub fn foreign_of(bytes: &[u8]) -> Option<Foreign>
    ensures { result ≡ foreign_of bytes.now }
{
    encoding(bytes)
        .or(archive(bytes))
        .or(document(bytes))
        .or(wide_text(bytes))
}

// The encoding that a byte order mark says.
fn encoding(bytes: &[u8]) -> Option<Foreign>
    ensures { result ≡ signed_in marks bytes.now }
{
    match bytes {
        [0xff, 0xfe, 0, 0, ..] | [0, 0, 0xfe, 0xff, ..] => Some(Foreign::Utf32),
        [0xff, 0xfe, ..] | [0xfe, 0xff, ..] => Some(Foreign::Utf16),
        _ => None,
    }
}

// By which program files were compressed.
fn archive(bytes: &[u8]) -> Option<Foreign>
    ensures { result ≡ signed_in archives bytes.now }
{
    match bytes {
        [0x1f, 0x8b, ..] => Some(Foreign::Gzip),
        [b'B', b'Z', b'h', ..] => Some(Foreign::Bzip2),
        [0xfd, b'7', b'z', b'X', b'Z', 0, ..] => Some(Foreign::Xz),
        [0x28, 0xb5, 0x2f, 0xfd, ..] => Some(Foreign::Zstd),
        [b'P', b'K', 3, 4, ..] | [b'P', b'K', 5, 6, ..] => Some(Foreign::Zip),
        _ => None,
    }
}

// A kind of file that isn't text.
fn document(bytes: &[u8]) -> Option<Foreign>
    ensures { result ≡ signed_in documents bytes.now }
{
    if bytes.starts_with(b"%PDF-") {
        Some(Foreign::Pdf)
    } else if bytes.starts_with(b"SQLite format 3\0") {
        Some(Foreign::Sqlite)
    } else {
        None
    }
}

// In which of these encodings a text without a byte order mark is that has zero bytes among the
// first four, as those of a character below U+0100 are.
fn wide_text(bytes: &[u8]) -> Option<Foreign>
    ensures { result ≡ wide_text bytes.now }
{
    match bytes {
        [0, 0, ..] => Some(Foreign::Utf32Be),
        [_, _, 0, 0, ..] => Some(Foreign::Utf32Le),
        [0, ..] | [_, _, 0, ..] => Some(Foreign::Utf16Be),
        [_, 0, ..] | [_, _, _, 0, ..] => Some(Foreign::Utf16Le),
        _ => None,
    }
}

/// An input that isn't read, and what it is called.
#[derive(Debug, Drop, PartialEq, Eq)]
pub struct ForeignInput {
    /// Its name.
    pub name: String,
    /// What it is, or looks like.
    pub foreign: Foreign,
}
