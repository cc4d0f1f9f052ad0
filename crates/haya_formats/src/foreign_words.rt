//! What is said of an input that isn't read, and how it becomes one that is.
use crate::foreign::{Foreign, ForeignInput, STANDARD_INPUT};
use std::fmt;

impl fmt::Display for ForeignInput {
    /// What the input is, behind its name, and a command that converts it, if there is one.
    fn fmt<W: fmt::Write>(&self, f: &mut fmt::Formatter<W>) -> fmt::Result {
        let file = FileWord(self.name.as_str());
        let name = self.name.as_str();
        write!(f, "{name}: {}", self.foreign.likeness())?;
        match self.foreign.remedy() {
            Remedy::Decode(encoding) => { write!(f, "; convert it: iconv -f {encoding} -t UTF-8") }
            Remedy::Unpack(program) => write!(f, "; unpack it: {program}{file} | haya .. -"),
            Remedy::Convert(format) => {
                write!(f, "; convert it: pandoc -f {format} -t csljson{file}")
            }
            Remedy::Chain(program, filters) => write!(f, "; convert it: {program}{file}{filters}"),
            Remedy::Export => f.write_str("; export the library as CSL JSON"),
        }
    }
}

// How an input becomes one that is read.
#[derive(Clone, Copy)]
enum Remedy {
    // From this encoding.
    Decode(&'static str),
    // By this program.
    Unpack(&'static str),
    // From this format.
    Convert(&'static str),
    // By a program, and what is behind it in a pipeline.
    Chain(&'static str, &'static str),
    // By the program that it comes from.
    Export,
}

impl Foreign {
    // What an input is, or looks like.
    fn likeness(self) -> &'static str {
        match self {
            Foreign::Utf16 | Foreign::Utf16Le | Foreign::Utf16Be => "is UTF-16",
            Foreign::Utf32 | Foreign::Utf32Le | Foreign::Utf32Be => "is UTF-32",
            Foreign::Gzip => "is compressed by gzip",
            Foreign::Bzip2 => "is compressed by bzip2",
            Foreign::Xz => "is compressed by xz",
            Foreign::Zstd => "is compressed by zstd",
            Foreign::Zip => "is a ZIP archive",
            Foreign::Pdf => "is a PDF",
            Foreign::Sqlite => "is a SQLite database",
            Foreign::Ris => "looks like RIS",
            Foreign::Medline => "looks like MEDLINE",
            Foreign::EndNoteXml => "looks like EndNote XML",
            Foreign::Csv => "looks like CSV",
        }
    }

    // How it becomes one that is read.
    fn remedy(self) -> Remedy {
        match self {
            Foreign::Utf16 => Remedy::Decode("UTF-16"),
            Foreign::Utf16Le => Remedy::Decode("UTF-16LE"),
            Foreign::Utf16Be => Remedy::Decode("UTF-16BE"),
            Foreign::Utf32 => Remedy::Decode("UTF-32"),
            Foreign::Utf32Le => Remedy::Decode("UTF-32LE"),
            Foreign::Utf32Be => Remedy::Decode("UTF-32BE"),
            Foreign::Gzip => Remedy::Unpack("zcat"),
            Foreign::Bzip2 => Remedy::Unpack("bzcat"),
            Foreign::Xz => Remedy::Unpack("xzcat"),
            Foreign::Zstd => Remedy::Unpack("zstdcat"),
            Foreign::Zip => Remedy::Unpack("unzip -p"),
            Foreign::Ris => Remedy::Convert("ris"),
            Foreign::EndNoteXml => Remedy::Convert("endnotexml"),
            Foreign::Medline => {
                Remedy::Chain("nbib2xml", " | xml2ris | pandoc -f ris -t csljson")
            }
            Foreign::Pdf | Foreign::Sqlite | Foreign::Csv => Remedy::Export,
        }
    }
}

// A file's name as a word of a shell, behind a blank; nothing for standard input.
#[derive(Clone, Copy)]
struct FileWord<'n>(&'n str);

impl fmt::Display for FileWord<'_> {
    fn fmt<W: fmt::Write>(&self, f: &mut fmt::Formatter<W>) -> fmt::Result {
        let name = self.0;
        if name == STANDARD_INPUT {
            return Ok(());
        }
        if name.bytes().all(is_plain) {
            return write!(f, " {name}");
        }
        f.write_str(" '")?;
        for c in name.chars() {
            if c == '\'' {
                f.write_str("'\\''")?;
            } else {
                f.write_char(c)?;
            }
        }
        f.write_str("'")
    }
}

// Whether a shell takes a byte as it is.
fn is_plain(byte: u8) -> bool {
    byte.is_ascii_alphanumeric() || b"-_./+,:@%".contains(&byte) || byte >= 0x80
}
