//! Where in a text a byte stands, and what is put in its place.
ghost use Rattle.std.specs.Prelude.{◌≡◌, [], ◌∷◌, if◌then◌else◌};
ghost use Rattle.json.specs.Lex.{class};
ghost use Rattle.haya_json_elements.specs.Elements.{end_of};
ghost use Rattle.haya_json_elements.specs.Steps.{blank_byte, closing_bracket, closing_step, comma_step};
ghost use Rattle.haya_json_elements.specs.Steps.{element_step, mark, opening_bracket, opening_step};
ghost use Rattle.haya_json_elements.specs.Steps.{operator_step, space_step, start_step, step, text_byte};

/// The brackets around all elements of a text.
#[derive(Clone, Copy, Debug, Drop, PartialEq, Eq)]
pub enum Brackets {
    /// Those of an array, whose elements are its items.
    Square,
    /// Those of an object, whose elements are its members.
    Curly,
}

impl Brackets {
    // The byte of the bracket that opens.
    fn opening_bracket(self) -> u8
        ensures { result ≡ opening_bracket self }
    {
        match self {
            Brackets::Square => b'[',
            Brackets::Curly => b'{',
        }
    }

    // The byte of the bracket that closes.
    fn closing_bracket(self) -> u8
        ensures { result ≡ closing_bracket self }
    {
        match self {
            Brackets::Square => b']',
            Brackets::Curly => b'}',
        }
    }
}

/// What a byte in an element is part of.
#[derive(Clone, Copy, Debug, Drop, PartialEq, Eq)]
pub enum Mode {
    /// Nothing: it is between two tokens.
    Between,
    /// A number, or `true`, `false` or `null`.
    Word,
    /// A string.
    Text,
    /// A string, behind a backslash.
    Escape,
}

/// Where in a text a byte stands.
#[derive(Clone, Copy, Debug, Drop, PartialEq, Eq)]
pub enum Place {
    /// In front of the bracket that opens.
    Front,
    /// Behind the bracket that opens, and in front of the first element.
    Opened,
    /// Behind a comma, and in front of the next element.
    Next,
    /// In an element, within so many brackets of its own.
    Element(Mode, u8),
    /// Behind the bracket that closes.
    Closed,
    /// Behind a byte that can't stand where it does.
    Lost,
}

// The end of a line that no element has.
pub(crate) const MARK: u8 = b',';

// The step at a byte that can't stand where it does.
const LOST_STEP: (Place, u8) = (Place::Lost, MARK);

impl Place {
    // Whether no mark is due where a text ends here.
    pub(crate) fn may_end(self) -> bool
        ensures { end_of self ≡ (if result then [] else mark ∷ []) }
    {
        matches!(self, Place::Closed | Place::Lost)
    }

    // The place behind a byte, and the byte that is put in its place.
    pub(crate) fn step(self, brackets: Brackets, byte: u8) -> (Place, u8)
        ensures { result ≡ step brackets self byte }
    {
        match self {
            Place::Element(mode, depth) => element_step(brackets, mode, depth, byte),
            Place::Front => front_step(brackets, byte),
            Place::Opened => opened_step(brackets, byte),
            Place::Next => start_step(brackets, Place::Next, byte),
            Place::Closed => space_step(Place::Closed, byte),
            Place::Lost => (Place::Lost, b'\n'),
        }
    }
}

// The step in front of the bracket that opens.
fn front_step(brackets: Brackets, byte: u8) -> (Place, u8)
    ensures { result ≡ step brackets Place.Front byte }
{
    if byte == brackets.opening_bracket() {
        (Place::Opened, b'\n')
    } else {
        space_step(Place::Front, byte)
    }
}

// The step behind the bracket that opens, in front of the first element.
fn opened_step(brackets: Brackets, byte: u8) -> (Place, u8)
    ensures { result ≡ step brackets Place.Opened byte }
{
    if byte == brackets.closing_bracket() {
        (Place::Closed, b'\n')
    } else {
        start_step(brackets, Place::Opened, byte)
    }
}

// The step where nothing but white space may stand.
fn space_step(place: Place, byte: u8) -> (Place, u8)
    ensures { result ≡ space_step place (class byte) }
{
    match byte {
        b' ' | b'\t' | b'\n' | b'\r' => (place, b'\n'),
        _ => LOST_STEP,
    }
}

// The step where an element may begin.
fn start_step(brackets: Brackets, place: Place, byte: u8) -> (Place, u8)
    ensures { result ≡ start_step brackets place (class byte) byte }
{
    match byte {
        b' ' | b'\t' | b'\n' | b'\r' => (place, b'\n'),
        b'{' | b'[' => opening_step(0, byte),
        b'}' | b']' | b',' | b':' => LOST_STEP,
        _ => element_step(brackets, Mode::Between, 0, byte),
    }
}

// The step in an element.
fn element_step(brackets: Brackets, mode: Mode, depth: u8, byte: u8) -> (Place, u8)
    ensures { result ≡ element_step brackets mode depth (class byte) byte }
{
    match mode {
        Mode::Text => string_step(brackets, depth, byte),
        Mode::Escape => (Place::Element(Mode::Text, depth), text_byte(byte)),
        Mode::Between => between_step(brackets, depth, byte),
        Mode::Word => word_step(brackets, depth, byte),
    }
}

// The step in a string of an element.
fn string_step(brackets: Brackets, depth: u8, byte: u8) -> (Place, u8)
    ensures { result ≡ element_step brackets Mode.Text depth (class byte) byte }
{
    match byte {
        b'"' => (Place::Element(Mode::Between, depth), byte),
        b'\\' => (Place::Element(Mode::Escape, depth), byte),
        _ => (Place::Element(Mode::Text, depth), text_byte(byte)),
    }
}

// The step between two tokens of an element.
fn between_step(brackets: Brackets, depth: u8, byte: u8) -> (Place, u8)
    ensures { result ≡ element_step brackets Mode.Between depth (class byte) byte }
{
    match byte {
        b'"' => (Place::Element(Mode::Text, depth), byte),
        _ => word_step(brackets, depth, byte),
    }
}

// The step in a number or a word of an element.
fn word_step(brackets: Brackets, depth: u8, byte: u8) -> (Place, u8)
    ensures { result ≡ element_step brackets Mode.Word depth (class byte) byte }
{
    match byte {
        b' ' | b'\t' | b'\n' | b'\r' => (Place::Element(Mode::Between, depth), blank_byte(byte)),
        b'{' | b'}' | b'[' | b']' | b',' | b':' => operator_step(brackets, depth, byte),
        _ => (Place::Element(Mode::Word, depth), byte),
    }
}

// The step at a bracket, a comma or a colon in an element.
fn operator_step(brackets: Brackets, depth: u8, byte: u8) -> (Place, u8)
    ensures { result ≡ operator_step brackets depth byte }
{
    match byte {
        b'{' | b'[' => opening_step(depth, byte),
        b'}' | b']' => closing_step(brackets, depth, byte),
        b',' => comma_step(depth),
        _ => (Place::Element(Mode::Between, depth), byte),
    }
}

// The step at a bracket that opens.
fn opening_step(depth: u8, byte: u8) -> (Place, u8)
    ensures { result ≡ opening_step depth byte }
{
    if depth < 128 {
        (Place::Element(Mode::Between, depth + 1), byte)
    } else {
        LOST_STEP
    }
}

// The step at a bracket that closes.
fn closing_step(brackets: Brackets, depth: u8, byte: u8) -> (Place, u8)
    ensures { result ≡ closing_step brackets depth byte }
{
    if depth > 0 {
        (Place::Element(Mode::Between, depth - 1), byte)
    } else if byte == brackets.closing_bracket() {
        (Place::Closed, b'\n')
    } else {
        LOST_STEP
    }
}

// The step at a comma.
fn comma_step(depth: u8) -> (Place, u8)
    ensures { result ≡ comma_step depth }
{
    if depth == 0 {
        (Place::Next, b'\n')
    } else {
        (Place::Element(Mode::Between, depth), b',')
    }
}

// What is put in place of white space in an element.
fn blank_byte(byte: u8) -> u8
    ensures { result ≡ blank_byte byte }
{
    if byte == b'\n' { b'\t' } else { b' ' }
}

// What is put in place of a byte in a string.
fn text_byte(byte: u8) -> u8
    ensures { result ≡ text_byte byte }
{
    if byte == b'\n' || byte == b'\r' {
        b'\t'
    } else {
        byte
    }
}
