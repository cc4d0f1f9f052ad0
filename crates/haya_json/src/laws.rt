//! Laws of the definitions. A call of one, as `one_library();`, gives its statement to the caller's
//! proof.
ghost use Rattle.std.specs.Prelude.{◌≡◌, ◌≤◌, [], ℕ, All, Err, List, Ok};
ghost use Rattle.std.specs.Str.{IsUtf8};
ghost use Rattle.json.specs.Json.{Json, Members, max_depth, object};
ghost use Rattle.json.specs.Print.{print};
ghost use Rattle.json.specs.Tree.{HasNumbers, depth as nesting, json_tokens};
ghost use Rattle.haya_text.specs.Chunks.{chunks};
ghost use Rattle.haya_text.specs.Normal.{IsNormal};
ghost use Rattle.haya_text.specs.declared.strings.chunked.ChunkedString.{ChunkedString as Text};
ghost use Rattle.haya_people.specs.Person.{PersonView};
ghost use Rattle.haya_time.specs.declared.date.Date.{Date};
ghost use Rattle.haya_entry.specs.Tree.{Tree};
ghost use Rattle.hayagriva.specs.Library.{AreDistinct};
ghost use Rattle.haya_json.specs.Entries.{Default, entry_said};
ghost use Rattle.haya_json.specs.Fields.{EntryView};
ghost use Rattle.haya_json.specs.JsonLines as json_lines;
ghost use Rattle.haya_json.specs.Libraries.{Describes, library_of};
ghost use Rattle.haya_json.specs.LostMembers.{HasMember, LosesUnder, RefusesLibrary, member_said};
ghost use Rattle.haya_json.specs.MemberLines.{LinesList, Lists};
ghost use Rattle.haya_json.specs.Notes.{NotesView};
ghost use Rattle.haya_json.specs.Printed.{date_json, library_json, person_json};
ghost use Rattle.haya_json.specs.ReadBack.{EntriesAreBack, EntrySaysItself, ReadsBack, SaysItself};
ghost use Rattle.haya_json.specs.Readable.{AreReadable, EntriesAreReadable, IsReadableDate};
ghost use Rattle.haya_json.specs.Readable.{TreeIsReadable};
ghost use Rattle.haya_json.specs.Refusal.{Refusal};
ghost use Rattle.haya_json.specs.Told.{Tells, told};
ghost use Rattle.haya_json.specs.Values.{date_of, person_of};

/// A text describes one library, if it describes any.
pub fn one_library()
    ensures { (text : List ℕ) (a b : List Tree) → Describes text a → Describes text b → a ≡ b }
{}

/// The JSON of a library says the library, with its order, its keys and those of all ancestors,
/// where each value of each of its entries and their ancestors is read from what is printed of it.
/// Nothing is told of it.
pub fn entries_read_back()
    ensures library { (library : List Tree) → EntriesAreBack library
        → library_of (library_json library) ≡ Ok library }
    ensures told { (library : List Tree) → EntriesAreBack library
        → told (library_json library) ≡ [] }
{}

/// Where the JSON of a library says the library, and nests no deeper than 128, the bytes that
/// `to_json` prints describe that library.
pub fn printed_libraries_read_back()
    ensures { (library : List Tree) → SaysItself library → ReadsBack library }
{}

/// A library with distinct keys, whose values are as `EntriesAreReadable` says type by type, and
/// whose JSON nests no deeper than 128, is read back from what `to_json` prints of it.
pub fn readable_libraries_read_back()
    ensures { (library : List Tree) → EntriesAreReadable library → AreDistinct library
        → nesting (library_json library) ≤ max_depth → ReadsBack library }
{}

/// A library that was read of a text is read back from what `to_json` prints of it, where its
/// JSON nests no deeper than 128. It may nest deeper than the text by an object that stands for a
/// text, as that of a serial number.
pub fn read_libraries_read_back()
    ensures { (text : List ℕ) (library : List Tree) → IsUtf8 text → Describes text library
        → nesting (library_json library) ≤ max_depth → ReadsBack library }
{
    read_entries_are_readable();
}

/// Persons are always read from what is printed of them, and chunks of a text where they are in
/// normal form.
pub fn values_read_back()
    ensures person { (p : PersonView) → person_of (person_json p) ≡ Ok p }
    ensures date { (d : Date) → IsReadableDate d → date_of (date_json d) ≡ Ok d }
    ensures text { (text : Text) → IsNormal (chunks text) → AreReadable (chunks text) }
{
    haya_text::laws::canonical();
    haya_text::laws::normal_form();
}

/// The members of a text, each read on a line of its own, say entries exactly where the text is an
/// object in JSON that lists them, and what is told of these lines is told of it.
pub fn member_lines_are_a_list()
    ensures list { (text : List ℕ) (entries : List Tree) (kept : NotesView) →
        LinesList text entries kept → Lists text entries }
    ensures notes { (text : List ℕ) (entries : List Tree) (kept : NotesView) →
        LinesList text entries kept → Tells text kept }
    ensures lines { (text : List ℕ) (entries : List Tree) (kept : NotesView) →
        Lists text entries → Tells text kept → LinesList text entries kept }
{}

/// Where no key comes twice, a text that lists entries describes the library of them.
pub fn lists_are_libraries()
    ensures { (text : List ℕ) (entries : List Tree) →
        Lists text entries → AreDistinct entries → Describes text entries }
{}

/// A text that describes a library lists its entries, and no key comes twice.
pub fn libraries_are_lists()
    ensures list { (text : List ℕ) (library : List Tree) →
        Describes text library → Lists text library }
    ensures distinct { (text : List ℕ) (library : List Tree) →
        Describes text library → AreDistinct library }
{}

/// Entries that were read have values as `EntriesAreReadable` says: those of a library, those that
/// lines of JSON list, and those of the library of such lines.
pub fn read_entries_are_readable()
    ensures library { (text : List ℕ) (library : List Tree) → IsUtf8 text → Describes text library
        → EntriesAreReadable library }
    ensures list { (text : List ℕ) (entries : List Tree) → IsUtf8 text
        → json_lines.IsListOf text entries → EntriesAreReadable entries }
    ensures of_lines { (text : List ℕ) (library : List Tree) → IsUtf8 text
        → json_lines.Describes text library → EntriesAreReadable library }
{
    haya_text::laws::read_texts_read_back();
    haya_numbers::laws::read_numbers_read_back();
    haya_numbers::laws::read_numbers_round_trip();
    haya_numbers::laws::pages::read_pages_round_trip();
    haya_time::laws::durations::read_durations_read_back();
    haya_time::laws::dates::reads_the_forms_of_dates();
}

/// What is printed of an entry whose values are as `TreeIsReadable` says can be read, where it
/// isn't too deep, and says the entry.
pub fn readable_entries_say_themselves()
    ensures { (t : Tree) → TreeIsReadable t → EntrySaysItself t }
{}

/// What is printed of JSON whose numbers are numbers has no byte below 32, and so it is one line.
pub fn printed_json_is_one_line()
    ensures { (j : Json) → HasNumbers j → All (λ b. 32 ≤ b) (print (json_tokens j)) }
{}

/// What is lost of a member of an entry is lost of the entry, under the name of the member: where it
/// has no place, where its value isn't read, or what of the value has no place. What else is lost is
/// a type that is missing.
pub fn lost_members_are_told()
    ensures { (key : List ℕ) (default : Default) (ms : Members) (said : EntryView)
        (name : List ℕ) (j : Json) →
        entry_said key default (object ms) ≡ Ok said → HasMember ms name j →
        (t : Tree) × LosesUnder said name (member_said key default ms name j t).lost }
{}

/// No value of an entry refuses a library: one is refused that is no object, or has an entry that is
/// none.
pub fn refusals_are_few()
    ensures { (j : Json) (r : Refusal) → library_of j ≡ Err r → RefusesLibrary r }
{}
