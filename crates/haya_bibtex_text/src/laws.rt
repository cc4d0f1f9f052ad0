//! Laws of the definitions. A call of one gives its statement to the caller's proof.
ghost use Rattle.std.specs.Prelude.{◌≡◌, ◌⊎◌, ℕ, List};
ghost use Rattle.haya_bibtex_text.specs.Bibliography.{BibliographyTexts};
ghost use Rattle.haya_bibtex_text.specs.Outcomes.{HasFault, Reads};
ghost use Rattle.haya_bibtex_text.specs.declared.fault.Fault.{Fault as TextFault};

/// A text has one outcome: it says one bibliography, or it has one first fault, and never both.
pub fn one_outcome()
    ensures some { (text : List ℕ) →
        ((b : BibliographyTexts) × Reads text b) ⊎ ((f : TextFault) × HasFault text f) }
    ensures bibliography { (text : List ℕ) (b c : BibliographyTexts) →
        Reads text b → Reads text c → b ≡ c }
    ensures fault { (text : List ℕ) (f g : TextFault) → HasFault text f → HasFault text g → f ≡ g }
    ensures either { (text : List ℕ) (b : BibliographyTexts) (f : TextFault) →
        Reads text b → HasFault text f → ⊥ }
{}
