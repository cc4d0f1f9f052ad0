//! The forms in which entries are printed as their input has them.
ghost use Rattle.std.specs.Prelude.{◌≡◌, find};
ghost use Rattle.haya_command.specs.SourceForm.{is_source_named, kind_in, kind_of, source_name};
ghost use Rattle.haya_command.specs.SourceForm.{source_named};

use haya_formats::Format;
use haya_source::ElementKind;

/// A form in which entries are printed as their input has them, byte for byte: each by the element
/// of the input that it was read from.
#[derive(Clone, Copy, Debug, Drop, PartialEq, Eq)]
pub enum SourceForm {
    /// Elements of any of the formats whose elements can be told apart.
    Source,
    /// Items of CSL-JSON.
    CslJson,
}

impl SourceForm {
    /// Each form once, in the order of the variants.
    pub const ALL: [SourceForm; 2] = [SourceForm::Source, SourceForm::CslJson];

    /// The name that the command gives it.
    pub fn name(self) -> &'static str
        ensures { result.now ≡ source_name self }
    {
        match self {
            SourceForm::Source => "source",
            SourceForm::CslJson => "csl-json",
        }
    }

    /// The form with this name, written exactly as `name` answers.
    pub fn named(name: &str) -> Option<SourceForm>
        ensures { result ≡ source_named name.now }
    {
        first_named(&SourceForm::ALL, name)
    }

    /// The kind of the elements that are printed in this form of a text in this format, if they can
    /// be.
    pub fn kind_in(self, format: Format) -> Option<ElementKind>
        ensures { result ≡ kind_in self format }
    {
        match (self, format) {
            (SourceForm::Source, _) => kind_of(format),
            (SourceForm::CslJson, Format::CslJson(key)) => Some(ElementKind::Items(key)),
            (SourceForm::CslJson, _) => None,
        }
    }
}

// The first of the forms with this name.
fn first_named(forms: &[SourceForm], name: &str) -> Option<SourceForm>
    ensures { result ≡ find (is_source_named name.now) forms.now }
{
    forms.iter().copied().find(|form| form.name() == name)
}

// The kind of the elements of a text in this format, if they can be told apart.
fn kind_of(format: Format) -> Option<ElementKind>
    ensures { result ≡ kind_of format }
{
    match format {
        Format::CslJson(key) => Some(ElementKind::Items(key)),
        Format::Hayagriva => Some(ElementKind::Members),
        Format::JsonLines => Some(ElementKind::JsonLines),
        Format::Lines => Some(ElementKind::Lines),
        Format::Yaml => Some(ElementKind::Yaml),
        Format::Bibtex => None,
    }
}
