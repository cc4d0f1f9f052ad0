//! Laws of the definitions. A call of one, as `lists_stand();`, gives its statement to the caller's
//! proof.
ghost use Rattle.std.specs.Prelude.{◌≡◌, ◌<◌, ◌≤◌, ◌↔◌, ◌⊎◌, ◌++◌, ◌∷◌, [], ℕ, All, Bool};
ghost use Rattle.std.specs.Prelude.{IsTrue, List};
ghost use Rattle.std.specs.Prelude.{None, Option, false, filter, length, map, string_bytes};
ghost use Rattle.std.specs.List.{AllPairs, AllZip, concat, flat_map};
ghost use Rattle.std.specs.Str.{IsUtf8, chars};
ghost use Rattle.std.specs.Io.KnownBytes.{Appends};
ghost use Rattle.hayagriva.specs.Holds.{holds};
ghost use Rattle.hayagriva.specs.Library.{AreDistinct, from_entries, key_of, push};
ghost use Rattle.hayagriva.specs.Parts.{AreApart};
ghost use Rattle.hayagriva.specs.Query.{AreHits, IsHit, hit_bound, hit_entry};
ghost use Rattle.hayagriva.specs.Reading.{TextReads};
ghost use Rattle.hayagriva.specs.Syntax.{Syntax};
ghost use Rattle.hayagriva.specs.Tree.{Tree};
ghost use Rattle.hayagriva.specs.declared.query.Hit.{Hit as HitData};
ghost use Rattle.haya_hits.specs.Line.{AreLines};
ghost use Rattle.haya_line_library.specs.Parts.{AreWholeLines};
ghost use Rattle.haya_json.specs.JsonLines as json_lines;
ghost use Rattle.haya_json.specs.JsonLines.{IsListOf};
ghost use Rattle.haya_json.specs.Libraries as json;
ghost use Rattle.haya_json.specs.Readable.{EntriesAreReadable};
ghost use Rattle.haya_source.specs.Elements.{Element};
ghost use Rattle.haya_source.specs.declared.kind.ElementKind.{ElementKind as KindData};
ghost use Rattle.haya_command.specs.Answer.{IsAnswer};
ghost use Rattle.haya_command.specs.Bound.{can_bind};
ghost use Rattle.haya_command.specs.Picks.{wanted};
ghost use Rattle.haya_command.specs.Printed.{FitsLine, IsJsonLineOf};
ghost use Rattle.haya_command.specs.Reading.{IsWhole, format_in};
ghost use Rattle.haya_command.specs.Run.{Prints};
ghost use Rattle.haya_command.specs.AskedLines.{IsListIn};
ghost use Rattle.haya_command.specs.Source.{AreElementsIn, IsElementFor, IsSourceOf};
ghost use Rattle.haya_command.specs.Streamable.{is_streamable};
ghost use Rattle.haya_command.specs.Streamed.{IsTold, IsWithin, end_text, has_enough, passing};
ghost use Rattle.haya_command.specs.Streamed.{start_text};
ghost use Rattle.haya_formats.specs.declared.format.Format.{Format as FormatData};
ghost use Rattle.haya_command.specs.declared.options.Options.{Options as OptionsData};

use haya_source::laws::elements_are_parts;

/// What is printed of the hits of a list as they come, between the row of names in front of them and
/// their number at the end, is the answer of the list, where they are neither sorted nor told from
/// others. And where the hits of its first entries are enough, it is what these are answered.
pub fn told_hits_answer()
    ensures all { (options : OptionsData) (s : Syntax) (entries : List Tree) (hits : List HitData)
        (printed : List ℕ) (found : Bool) →
        IsTrue (is_streamable options) → TextReads (chars (string_bytes options.selector)) s →
        AreHits (wanted options.invert s) entries hits →
        IsWithin options.questions.max (length (passing options hits)) →
        IsTold options (passing options hits) printed →
        (IsTrue found ↔ (0 < length (passing options hits))) →
        IsAnswer options entries
        (start_text options ++ printed ++ end_text options (length (passing options hits))) found }
    ensures first { (options : OptionsData) (s : Syntax) (entries : List Tree)
        (hits others : List HitData) (printed : List ℕ) (found : Bool) →
        IsTrue (is_streamable options) → TextReads (chars (string_bytes options.selector)) s →
        AreHits (wanted options.invert s) entries (hits ++ others) →
        IsWithin options.questions.max (length (passing options hits)) →
        IsTrue (has_enough options (length (passing options hits))) →
        IsTold options (passing options hits) printed →
        (IsTrue found ↔ (0 < length (passing options hits))) →
        IsAnswer options entries
        (start_text options ++ printed ++ end_text options (length (passing options hits))) found }
{}

/// Each element that is printed of hits is a part of one of the texts, byte for byte, and says an
/// entry that has the hit's key.
pub fn printed_elements_are_parts()
    ensures { (kind : KindData) (texts : List (List ℕ)) (es : List Element) (hits : List HitData)
        (text : List ℕ) (given : IsSourceOf kind es hits text) → AreElementsIn kind texts es →
        AllZip (λ hit part. IsElementFor kind texts (key_of (hit_entry hit)) part)
        hits given.parts }
{
    elements_are_parts();
}

/// Where the keys of a list are distinct, its answer is what the command prints that reads a
/// library first. In a strict run nothing may be passed over of the text.
pub fn distinct_lists_stand()
    ensures { (options : OptionsData) (text : List ℕ) (entries : List Tree) (printed : List ℕ)
        (found : Bool) (before after : Option (List ℕ)) →
        (IsTrue options.strict → IsWhole (format_in options text) text) →
        IsListIn (format_in options text) text entries → AreDistinct entries →
        IsAnswer options entries printed found →
        Appends before after printed → Prints options (text ∷ []) before after found }
{}

/// A hit binds no name that its selector can't bind: so no value is ever missed by the refusal of a
/// place whose name can't be bound.
pub fn unbound_names_stay()
    ensures { (s : Syntax) (x : Tree) (hit : HitData) (name : List ℕ) →
        IsHit s x hit → can_bind name s ≡ false → hit_bound hit name ≡ None }
{}

/// The library of a list is that of the entries before the last, in which the last replaces the
/// entry of its key in its place, or follows the others.
pub fn last_entry_replaces()
    ensures { (entries : List Tree) (t : Tree) →
        from_entries (entries ++ t ∷ []) ≡ push t (from_entries entries) }
{}

/// Whole lines of JSON and a text behind them list the entries of both, and where no key is in
/// both they describe the libraries of both.
pub fn json_lines_in_parts()
    ensures list { (first second : List ℕ) (a b : List Tree) → AreWholeLines first →
        IsListOf first a → IsListOf second b → IsListOf (first ++ second) (a ++ b) }
    ensures lists { (texts : List (List ℕ)) (parts : List (List Tree)) →
        All AreWholeLines texts → AllZip IsListOf texts parts →
        IsListOf (concat texts) (flat_map (λ a. a) parts) }
    ensures two { (first second : List ℕ) (a b : List Tree) → AreWholeLines first → AreApart a b →
        json_lines.Describes first a → json_lines.Describes second b →
        json_lines.Describes (first ++ second) (a ++ b) }
    ensures many { (texts : List (List ℕ)) (parts : List (List Tree)) →
        All AreWholeLines texts → AllPairs AreApart parts →
        AllZip json_lines.Describes texts parts →
        json_lines.Describes (concat texts) (flat_map (λ a. a) parts) }
{}

/// What is printed of hits as lines of JSON lists their entries again, where the values of each
/// are as `TreeIsReadable` says and its line nests no deeper than 128. So it does where they are
/// hits of entries that were read of JSON: of a library in either format, or of a list of lines.
pub fn printed_lines_read_back()
    ensures hits { (hits : List HitData) (text : List ℕ) →
        EntriesAreReadable (map hit_entry hits) → All FitsLine (map hit_entry hits) →
        AreLines IsJsonLineOf hits text → IsListOf text (map hit_entry hits) }
    ensures read { (s : Syntax) (text printed : List ℕ) (entries : List Tree)
        (hits : List HitData) → IsUtf8 text →
        json.Describes text entries ⊎ (json_lines.Describes text entries ⊎ IsListOf text entries) →
        AreHits s entries hits → All FitsLine (filter (holds s) entries) →
        AreLines IsJsonLineOf hits printed → IsListOf printed (filter (holds s) entries) }
{
    haya_json::laws::printed_json_is_one_line();
    haya_json::laws::read_entries_are_readable();
    haya_json::laws::readable_entries_say_themselves();
}
