//! The forms of a whole name.
ghost use Rattle.std.specs.Prelude.{◌≡◌, ◌↔◌, [], ◌∷◌, None, IfOk, IsTrue, option_map};
ghost use Rattle.std.specs.Prelude.{string_bytes, if◌then◌else◌, is_some};
ghost use Rattle.haya_people.specs.Forms.{between, given_first, given_form, name_first};
ghost use Rattle.haya_people.specs.Person.{person_view};
ghost use Rattle.haya_people.specs.Pieces.{piece_bytes};
ghost use Rattle.haya_people.specs.Signs.{blank, comma};

use crate::Person;
use crate::initials::Initials;
use haya_text::OutOfMemory;
use std::alloc::Global;
use std::fmt;

impl Person {
    /// The name with the family name first, as `van Dissmer, Courtney Deliah, Jr.`: with `initials`
    /// the given name by its initials, as `C. D.`; with `prefix_given_name` the prefix behind the
    /// given name, as `Dissmer, Courtney Deliah van, Jr.`.
    #[tactic(auto, unfolding(crate::specs::Forms::name_first))]
    pub fn name_first(
        &self,
        alloc: Global,
        initials: bool,
        prefix_given_name: bool,
    ) -> Result<String, OutOfMemory>
        ensures { IfOk result (λ s. string_bytes s
            ≡ name_first initials prefix_given_name (person_view self.now)) }
    {
        let front = self.prefix_if(!prefix_given_name, "", " ");
        let behind_given = blank_if(self.given_name.is_some());
        let back = self.prefix_if(prefix_given_name, behind_given, "");
        let name = self.name.as_str();
        let given_name = self.given_piece(initials, ", ", "");
        let suffix = whole_piece(&self.suffix, ", ", "");
        Ok(format!(in alloc; "{front}{name}{given_name}{back}{suffix}")?)
    }

    /// The name with the given name first, as `Courtney Deliah van Dissmer Jr.`, or with `initials`
    /// as `C. D. van Dissmer Jr.`.
    #[tactic(auto, unfolding(crate::specs::Forms::given_first))]
    pub fn given_first(&self, alloc: Global, initials: bool) -> Result<String, OutOfMemory>
        ensures { IfOk result (λ s. string_bytes s ≡ given_first initials (person_view self.now)) }
    {
        let given_name = self.given_piece(initials, "", " ");
        let prefix = whole_piece(&self.prefix, "", " ");
        let name = self.name.as_str();
        let suffix = whole_piece(&self.suffix, " ", "");
        Ok(format!(in alloc; "{given_name}{prefix}{name}{suffix}")?)
    }

    /// Whether the name is that of an institution: it has no given name, no suffix and no prefix.
    pub fn is_institutional(&self) -> bool
        ensures { IsTrue result
            ↔ ((self.now.given_name ≡ None) × (self.now.suffix ≡ None) × (self.now.prefix ≡ None)) }
    {
        self.given_name.is_none() && self.suffix.is_none() && self.prefix.is_none()
    }

    // The prefix between two texts, if it is wanted.
    fn prefix_if<'a>(&'a self, wanted: bool, before: &'a str, behind: &'a str) -> Piece<'a>
        ensures { piece_bytes result ≡ (if wanted then between before.now behind.now
            (option_map string_bytes self.now.prefix) else []) }
    {
        if wanted {
            whole_piece(&self.prefix, before, behind)
        } else {
            Piece {
                before,
                text: None,
                behind,
            }
        }
    }

    // The given name between two texts, whole or by its initials.
    fn given_piece<'a>(&'a self, by_initials: bool, before: &'a str, behind: &'a str) -> Piece<'a>
        ensures { piece_bytes result ≡ between before.now behind.now
            (option_map (given_form by_initials) (option_map string_bytes self.now.given_name)) }
    {
        let text = match &self.given_name {
            Some(given_name) if by_initials => Some(PieceText::ByInitials(Initials {
                given_name: given_name.as_str(),
                delimiter: ". ",
                with_hyphen: true,
            })),
            Some(given_name) => Some(PieceText::Whole(given_name.as_str())),
            None => None,
        };
        Piece {
            before,
            text,
            behind,
        }
    }
}

// A text between two others, if there is one.
#[derive(Clone, Copy)]
struct Piece<'a> {
    before: &'a str,
    text: Option<PieceText<'a>>,
    behind: &'a str,
}

// A text as it is, or a given name by its initials.
#[derive(Clone, Copy)]
enum PieceText<'a> {
    Whole(&'a str),
    ByInitials(Initials<'a>),
}

impl fmt::Display for Piece<'_> {
    ghost use Rattle.std.specs.Prelude.{Some};
    ghost use Rattle.haya_people.specs.Pieces.{piece_bytes};

    ghost output = { λ p. Some (piece_bytes p) };

    fn fmt<W: fmt::Write>(&self, f: &mut fmt::Formatter<W>) -> fmt::Result {
        match self.text {
            Some(text) => write!(f, "{}{text}{}", self.before, self.behind),
            None => Ok(()),
        }
    }
}

impl fmt::Display for PieceText<'_> {
    ghost use Rattle.std.specs.Prelude.{Some};
    ghost use Rattle.haya_people.specs.Pieces.{text_bytes};

    ghost output = { λ t. Some (text_bytes t) };

    fn fmt<W: fmt::Write>(&self, f: &mut fmt::Formatter<W>) -> fmt::Result {
        match *self {
            PieceText::Whole(text) => write!(f, "{text}"),
            PieceText::ByInitials(initials) => write!(f, "{initials}"),
        }
    }
}

// A blank, if it is wanted.
fn blank_if(wanted: bool) -> &'static str
    ensures { result.now ≡ (if wanted then blank ∷ [] else []) }
{
    if wanted { " " } else { "" }
}

// A text between two others, if there is one.
fn whole_piece<'a>(text: &'a Option<String>, before: &'a str, behind: &'a str) -> Piece<'a>
    ensures { piece_bytes result
        ≡ between before.now behind.now (option_map string_bytes text.now) }
{
    let text = match text {
        Some(text) => Some(PieceText::Whole(text.as_str())),
        None => None,
    };
    Piece {
        before,
        text,
        behind,
    }
}
