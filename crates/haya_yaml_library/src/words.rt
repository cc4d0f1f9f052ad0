//! What is said of a text that says no value.
ghost use Rattle.std.specs.Prelude.{◌≡◌};
ghost use Rattle.haya_yaml_library.specs.Messages.{kind_text};

use haya_yaml_text::fault::FaultKind;

/// The name of a fault, and what to write instead.
pub(crate) fn words(kind: FaultKind) -> &'static str
    ensures { result.now ≡ kind_text kind }
{
    match kind {
        FaultKind::ControlCharacter => "control character: write it as an escape in double quotes",
        FaultKind::Directive => "directive: only one %YAML 1.2 is read, and --- behind it",
        FaultKind::SecondDocument => "second document: give it a file of its own",
        FaultKind::Tab => "tab: indent with spaces",
        FaultKind::Indent => "indent: no entry begins in this column",
        FaultKind::NoKey => "no key: a line of a map has a key and a colon",
        FaultKind::NestedKey => "nested key: put a value with a colon in quotes",
        FaultKind::EmptyKey => "empty key: write a key before the colon",
        FaultKind::ExplicitKey => "explicit key: write the key before its colon, without the ?",
        FaultKind::DuplicateKey => "duplicate key: its map has this key before",
        FaultKind::MergeKey => "merge key: write its members out",
        FaultKind::KeyOverLines => "key over lines: write a key and its colon on one line",
        FaultKind::Pair => "pair: put braces around a key and its value",
        FaultKind::Anchor => {
            "anchor: write the value out where it is used, or put a text in quotes"
        }
        FaultKind::Alias => "alias: write the value out, or put a text in quotes",
        FaultKind::Tag => "tag: leave it out, or put a text in quotes",
        FaultKind::Indicator => "indicator: put a text that begins so in quotes",
        FaultKind::Unclosed => "unclosed: the end of this quote or bracket is missing",
        FaultKind::Escape => "escape: write \\\\ for the sign itself",
        FaultKind::Flow => "flow: expected a value, a comma or the closing bracket",
        FaultKind::Behind => "behind: the value ends before this",
        FaultKind::Header => "header: behind | or > there is at most a digit and a sign",
        FaultKind::Blank => "blank: this line of spaces is longer than the indent of the text",
        FaultKind::TooDeep => "too deep: more than 128 lists and maps inside one another",
    }
}
