//! Laws of the definitions. A call of one, as `lists_are_libraries();`, gives its statement to the
//! caller's proof.
ghost use Rattle.std.specs.Prelude.{◌≡◌, ℕ, List, Err, Ok, Some};
ghost use Rattle.std.specs.List.{Contains};
ghost use Rattle.json.specs.Find.{get_item, get_member};
ghost use Rattle.json.specs.Json.{Items, Json, Members, array, document, member, no_members};
ghost use Rattle.json.specs.Json.{object};
ghost use Rattle.haya_people.specs.Person.{PersonView};
ghost use Rattle.haya_entry.specs.Tree.{Tree};
ghost use Rattle.hayagriva.specs.Library.{AreDistinct, from_entries};
ghost use Rattle.haya_json.specs.Fields.{EntryView};
ghost use Rattle.haya_json.specs.LostMembers.{HasMember};
ghost use Rattle.haya_json.specs.Notes.{LostView, NotesView};
ghost use Rattle.haya_json.specs.Refusal.{Refusal};
ghost use Rattle.haya_csl.specs.DatesReadOrTold.{DatePartIsReadOrTold};
ghost use Rattle.haya_csl.specs.ItemLines.{LinesList, Lists};
ghost use Rattle.haya_csl.specs.Items.{item_key, item_said};
ghost use Rattle.haya_csl.specs.Libraries.{DescribesAsCsl, csl_library_of};
ghost use Rattle.haya_csl.specs.LostMembers.{lost_as, told_as};
ghost use Rattle.haya_csl.specs.Names.{alone, name_said, names_said};
ghost use Rattle.haya_csl.specs.NamesReadOrTold.{IsAlone, IsAmong, PartIsReadOrTold, TellsAt};
ghost use Rattle.haya_csl.specs.ReadOrTold.{IsReadOrTold, entries_after, joined};
ghost use Rattle.haya_csl.specs.Refused.{RefusesLibrary};
ghost use Rattle.haya_csl.specs.Told.{TellsAsCsl};
ghost use Rattle.haya_csl.specs.declared.item_key.ItemKey.{ItemKey};

/// The items of a text, each read on a line of its own, say entries only where the text is an array
/// in JSON that lists them. Where no key comes twice, what is told of these lines is what is told
/// of it, and the other way.
pub fn item_lines_are_a_list()
    ensures list { (by : ItemKey) (text : List ℕ) (entries : List Tree) (kept : NotesView) →
        LinesList by text entries kept → Lists by text entries }
    ensures notes { (by : ItemKey) (text : List ℕ) (entries : List Tree) (kept : NotesView) →
        LinesList by text entries kept → AreDistinct entries → TellsAsCsl by text kept }
    ensures lines { (by : ItemKey) (text : List ℕ) (entries : List Tree) (kept : NotesView) →
        Lists by text entries → AreDistinct entries → TellsAsCsl by text kept →
        LinesList by text entries kept }
{}

/// A text that lists entries describes the library of them in CSL-JSON. Where no key comes twice,
/// these are its entries.
pub fn lists_are_libraries()
    ensures pushed { (by : ItemKey) (text : List ℕ) (entries : List Tree) →
        Lists by text entries → DescribesAsCsl by text (from_entries entries) }
    ensures distinct { (by : ItemKey) (text : List ℕ) (entries : List Tree) →
        Lists by text entries → AreDistinct entries → DescribesAsCsl by text entries }
{}

/// A text that is an array and describes a library in CSL-JSON lists entries, of which that is the
/// library.
pub fn libraries_are_lists()
    ensures { (by : ItemKey) (text : List ℕ) (js : Items) (library : List Tree) →
        document text ≡ Some (array js) → DescribesAsCsl by text library →
        (entries : List Tree) × (library ≡ from_entries entries) × Lists by text entries }
{}

/// A member of an item that sets nothing is told under its name: one that has no place in an entry,
/// or in whose place the item has another.
pub fn lost_members_are_told()
    ensures { (by : ItemKey) (ms : Members) (said : EntryView) (name : List ℕ) (j : Json)
        (told : List ℕ) →
        item_said by (object ms) ≡ Ok said → HasMember ms name j →
        told_as (object ms) name j ≡ Some told → Contains said.lost (lost_as name told) }
{}

/// Each member of an item that is read is as if it weren't there, or is the item's key or type, or
/// right after it the entry that it goes to has what it says, or it is told under its name.
pub fn members_are_read_or_told()
    ensures { (by : ItemKey) (first behind : Members) (name : List ℕ) (j : Json) (key : List ℕ)
        (said : EntryView) →
        let item = object (joined first (member name j behind)) in
        let after = entries_after by key item (joined first (member name j no_members)) in
        item_key by item ≡ Ok key → item_said by item ≡ Ok said →
        IsReadOrTold by name item j after said.lost }
{}

/// Each member of a name, the last of its name, is as if it weren't there, or the person has what
/// it says, or it is told under its name.
pub fn parts_are_read_or_told()
    ensures { (of : List ℕ) (ms : Members) (name : List ℕ) (j : Json) →
        get_member name ms ≡ Some j → PartIsReadOrTold of ms name j }
{}

/// The person whom a name of a list says is among the persons of the list, and what is lost of the
/// name is told at its place. A name in no list says its person alone, and what is lost of it is lost.
pub fn names_are_read_or_told()
    ensures person { (of : List ℕ) (js : Items) (n : ℕ) (j : Json) (p : PersonView) →
        get_item n js ≡ Some j → (name_said of j).value ≡ Some p → IsAmong of js p }
    ensures lost { (of : List ℕ) (js : Items) (n : ℕ) (j : Json) (x : LostView) →
        get_item n js ≡ Some j → Contains (name_said of j).lost x → TellsAt of js n x }
    ensures one { (of : List ℕ) (j : Json) →
        IsAlone j → names_said of j ≡ alone (name_said of j) }
{}

/// Each member of a date, the last of its name, is as if it weren't there, or the date has what it
/// says, or it is told under its name.
pub fn date_parts_are_read_or_told()
    ensures { (of : List ℕ) (ms : Members) (name : List ℕ) (j : Json) →
        get_member name ms ≡ Some j → DatePartIsReadOrTold of ms name j }
{}

/// No value of an item refuses a library but its key: a library is refused that has no list of
/// items, or an item that is no object, or has no `id`, or one that is no text.
pub fn refusals_are_few()
    ensures { (by : ItemKey) (j : Json) (r : Refusal) →
        csl_library_of by j ≡ Err r → RefusesLibrary r }
{}
