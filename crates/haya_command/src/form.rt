//! The forms in which hits are printed.
ghost use Rattle.std.specs.Prelude.{◌≡◌, find};
ghost use Rattle.haya_command.specs.Form.{form_name, form_named, is_form_named, is_library};

/// How the entries that a selector picks are printed.
#[derive(Clone, Copy, Debug, Drop, PartialEq, Eq)]
pub enum Form {
    /// A line a hit: its key, and `name=key` for each name that is bound.
    Keys,
    /// The entries in lines, with their ancestors, as `haya_line_library` reads them.
    Lines,
    /// A library of the entries in hayagriva's file format, laid out for people.
    Hayagriva,
    /// The same library in YAML.
    Yaml,
    /// A line of JSON a hit: its `key`, its `bindings`, and the `entry` in the file format.
    JsonLines,
}

impl Form {
    /// Each form once, in the order of the variants.
    pub const ALL: [Form; 5] = [
        Form::Keys,
        Form::Lines,
        Form::Hayagriva,
        Form::Yaml,
        Form::JsonLines,
    ];

    /// The name that the command gives it.
    pub fn name(self) -> &'static str
        ensures { result.now ≡ form_name self }
    {
        match self {
            Form::Keys => "keys",
            Form::Lines => "lines",
            Form::Hayagriva => "hayagriva",
            Form::Yaml => "yaml",
            Form::JsonLines => "json-lines",
        }
    }

    /// Whether it is a library of all hits, and not a text of each.
    pub fn is_library(self) -> bool
        ensures { result ≡ is_library self }
    {
        matches!(self, Form::Hayagriva | Form::Yaml)
    }

    /// The form with this name, written exactly as `name` answers.
    pub fn named(name: &str) -> Option<Form>
        ensures { result ≡ form_named name.now }
    {
        first_named(&Form::ALL, name)
    }
}

// The first of the forms with this name.
fn first_named(forms: &[Form], name: &str) -> Option<Form>
    ensures { result ≡ find (is_form_named name.now) forms.now }
{
    forms.iter().copied().find(|form| form.name() == name)
}
