//! Where an item of a text begins and ends.

/// Where an item is.
#[derive(Clone, Copy, Debug)]
pub(crate) struct Place {
    /// Where its `@` is.
    pub(crate) start: usize,
    /// How many bytes it has.
    pub(crate) len: usize,
}

/// The place of the first item of a text that is no comment. What it finds is meant for a text that
/// is by the grammar, and whoever takes it reads the item again.
pub(crate) fn next_place(text: &str) -> Option<Place> {
    let mut scan = Scan::new();
    'characters: for (at, c) in text.char_indices() {
        if scan.ends_with(text, at, c) {
            let start = scan.start;
            let len = at.saturating_sub(start).saturating_add(1);
            return Some(Place { start, len });
        }
    }
    None
}

// What a character is part of.
#[derive(Clone, Copy)]
enum Mode {
    // What is between items.
    Between,
    // A remark there, up to the end of its line.
    Remark,
    // White space behind an `@`.
    Sign,
    // The name of a type.
    Name,
    // White space behind it.
    BehindName,
    // A comment or a preamble, in which braces alone count.
    Whole,
    // The blank in front of a key.
    BeforeKey,
    // A remark there.
    KeyRemark,
    // A key.
    Key,
    // Fields, outside of their texts.
    Fields,
    // A remark there.
    FieldRemark,
    // A text in braces.
    Braced,
    // A text in quotation marks.
    Quoted,
    // Nothing more: the item has ended.
    Ended,
}

// What an item is, by the name of its type.
#[derive(Clone, Copy, PartialEq, Eq)]
enum Kind {
    Comment,
    Preamble,
    Strings,
    Entry,
}

impl Kind {
    // The kind of an item whose type is called so, in any case of ASCII letters.
    fn named(name: &str) -> Kind {
        if name.eq_ignore_ascii_case("comment") {
            Kind::Comment
        } else if name.eq_ignore_ascii_case("preamble") {
            Kind::Preamble
        } else if name.eq_ignore_ascii_case("string") {
            Kind::Strings
        } else {
            Kind::Entry
        }
    }

    // What the characters behind its opening bracket are part of.
    fn front(self) -> Mode {
        match self {
            Kind::Comment | Kind::Preamble => Mode::Whole,
            Kind::Strings => Mode::Fields,
            Kind::Entry => Mode::BeforeKey,
        }
    }
}

// What has been seen of a text, up to a character.
#[derive(Drop)]
struct Scan {
    mode: Mode,
    // Where the last `@` is that may begin an item.
    start: usize,
    // Where the name behind it begins.
    name: usize,
    kind: Kind,
    // What closes the item.
    close: char,
    // How many braces are open in it.
    depth: usize,
}

impl Scan {
    // In front of a text.
    fn new() -> Scan {
        Scan {
            mode: Mode::Between,
            start: 0,
            name: 0,
            kind: Kind::Entry,
            close: '}',
            depth: 0,
        }
    }

    // Takes the next character of the text, which is at this place: whether an item ends with it
    // that is no comment.
    fn ends_with(&mut self, text: &str, at: usize, c: char) -> bool {
        match self.mode {
            Mode::Between | Mode::Remark => self.take_between(at, c),
            Mode::Sign | Mode::Name | Mode::BehindName => self.take_opening(text, at, c),
            Mode::BeforeKey | Mode::KeyRemark => self.take_before_key(c),
            Mode::Whole | Mode::Key | Mode::Fields | Mode::FieldRemark => self.take_inside(c),
            Mode::Braced | Mode::Quoted => self.take_value(c),
            Mode::Ended => {}
        }
        if !matches!(self.mode, Mode::Ended) {
            return false;
        }
        self.mode = Mode::Between;
        self.kind != Kind::Comment
    }

    // The same between items.
    fn take_between(&mut self, at: usize, c: char) {
        if matches!(self.mode, Mode::Remark) && c != '\n' {
            return;
        }
        self.mode = match c {
            '%' => Mode::Remark,
            '@' => Mode::Sign,
            _ => Mode::Between,
        };
        self.start = at;
    }

    // The same from behind an `@` up to the bracket that opens. A character that can't be there ends
    // what was none.
    fn take_opening(&mut self, text: &str, at: usize, c: char) {
        let is_named = matches!(self.mode, Mode::Name);
        if is_in_name(c) && !matches!(self.mode, Mode::BehindName) {
            if !is_named {
                self.name = at;
            }
            self.mode = Mode::Name;
            return;
        }
        if is_named {
            self.kind = Kind::named(text.get(self.name..at).unwrap_or(""));
            self.mode = Mode::BehindName;
        }
        match (self.mode, c) {
            (_, _) if c.is_whitespace() => {}
            (Mode::BehindName, '{') => self.open('}'),
            (Mode::BehindName, '(') => self.open(')'),
            _ => {
                self.mode = Mode::Between;
                self.take_between(at, c);
            }
        }
    }

    // The same of a bracket that opens an item, which this one closes.
    fn open(&mut self, close: char) {
        self.mode = self.kind.front();
        self.close = close;
        self.depth = 0;
    }

    // The same of the blank in front of a key, and of its first character.
    fn take_before_key(&mut self, c: char) {
        match (self.mode, c) {
            (Mode::KeyRemark, '\n') => self.mode = Mode::BeforeKey,
            (Mode::KeyRemark, _) => {}
            (_, '%') => self.mode = Mode::KeyRemark,
            _ if !c.is_whitespace() => self.mode = Mode::Key,
            _ => {}
        }
    }

    // The same of a comment, a preamble, a key, and what is between the texts of fields.
    fn take_inside(&mut self, c: char) {
        if c == self.close && self.depth == 0 && !matches!(self.mode, Mode::FieldRemark) {
            self.mode = Mode::Ended;
            return;
        }
        match (self.mode, c) {
            (Mode::Whole, _) => self.count(c),
            (Mode::Key, _) if c == ',' || c.is_whitespace() => self.mode = Mode::Fields,
            (Mode::FieldRemark, '\n') => self.mode = Mode::Fields,
            (Mode::Fields, '%') => self.mode = Mode::FieldRemark,
            (Mode::Fields, '{') => self.mode = Mode::Braced,
            (Mode::Fields, '"') => self.mode = Mode::Quoted,
            _ => {}
        }
    }

    // The same of a text in braces or in quotation marks.
    fn take_value(&mut self, c: char) {
        let close = match self.mode {
            Mode::Quoted => '"',
            _ => '}',
        };
        if c == close && self.depth == 0 {
            self.mode = Mode::Fields;
        } else {
            self.count(c);
        }
    }

    // Counts the braces that are open.
    fn count(&mut self, c: char) {
        match c {
            '{' => self.depth = self.depth.saturating_add(1),
            '}' => self.depth = self.depth.saturating_sub(1),
            _ => {}
        }
    }
}

// Whether the name of a type may have the character.
fn is_in_name(c: char) -> bool {
    !c.is_whitespace()
        && !matches!(
            c,
            '"' | '#' | '%' | '\'' | '(' | ')' | ',' | '=' | '@' | '\\' | '{' | '}'
        )
}
