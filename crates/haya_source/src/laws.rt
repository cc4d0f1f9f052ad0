//! Laws of the definitions. A call of one, as `parts_say_entries();`, gives its statement to the
//! caller's proof.
ghost use Rattle.std.specs.Prelude.{◌≡◌, ◌++◌, ℕ, List, Some, Contains, map};
ghost use Rattle.std.specs.List.{AllByRecursion};
ghost use Rattle.json.specs.Json.{Json, document};
ghost use Rattle.haya_csl.specs.declared.item_key.ItemKey.{ItemKey as ItemKeyData};
ghost use Rattle.haya_entry.specs.Tree.{Tree};
ghost use Rattle.hayagriva.specs.Library.{AreDistinct, from_entries, key_of};
ghost use Rattle.haya_slices.specs.Layout.{IsPartOf};
ghost use Rattle.haya_source.specs.Elements.{AreElementsOf, Describes, Element, IsDivided};
ghost use Rattle.haya_source.specs.Elements.{SayEntries, entries_of, parts_of};
ghost use Rattle.haya_source.specs.Places.{part_for};
ghost use Rattle.haya_source.specs.Printed.{IsTextOf, printed_text};
ghost use Rattle.haya_source.specs.declared.kind.ElementKind.{ElementKind as KindData};
ghost use Rattle.haya_source.specs.declared.kind.ElementKind.TheVariants.{Items, Members, Yaml};

use haya_csl::laws::{libraries_are_lists, lists_are_libraries};
use haya_line_slices::laws::parts_are_entries;
use haya_slices::laws::{
    brackets_tell, lists_are_laid_out, slices_are_elements, slices_are_parts, slices_make_documents,
};
use haya_yaml_slices::laws::parts_are_members;

/// Each part of a text that describes a library says an entry, and the library is that of these
/// entries: each part is the element that was read as its entry.
pub fn parts_say_entries()
    ensures { (kind : KindData) (text : List ℕ) (parts : List (List ℕ)) (library : List Tree) →
        IsDivided kind text parts → Describes kind text library → (es : List Element)
        × (parts_of es ≡ parts) × SayEntries kind es × (library ≡ from_entries (entries_of es)) }
{
    brackets_tell();
    libraries_are_lists();
    parts_are_entries();
    parts_are_members();
    slices_are_elements();
}

/// What is printed of elements of a text, read again, is the library of exactly their entries, in
/// this order, where no key comes twice.
pub fn picked_elements_read_back()
    ensures items { (by : ItemKeyData) (text : List ℕ) (es picked : List Element) →
        AreElementsOf (Items by) text es → AllByRecursion (Contains es) picked →
        AreDistinct (entries_of picked) →
        Describes (Items by) (printed_text (Items by) (parts_of picked)) (entries_of picked) }
    ensures members { (text : List ℕ) (es picked : List Element) →
        AreElementsOf Members text es → AllByRecursion (Contains es) picked →
        AreDistinct (entries_of picked) →
        Describes Members (printed_text Members (parts_of picked)) (entries_of picked) }
    ensures yaml { (text : List ℕ) (es picked : List Element) (printed : List ℕ) →
        AreElementsOf Yaml text es → AllByRecursion (Contains es) picked →
        AreDistinct (entries_of picked) → IsTextOf Yaml (parts_of picked) printed →
        Describes Yaml printed (entries_of picked) }
{
    lists_are_laid_out();
    lists_are_libraries();
    parts_are_members();
    slices_make_documents();
}

/// Each element of a text is a part of it, byte for byte.
pub fn elements_are_parts()
    ensures { (kind : KindData) (text : List ℕ) (es : List Element) → AreElementsOf kind text es →
        AllByRecursion (λ e. IsPartOf e.0 text) es }
{
    slices_are_parts();
}

/// Where no key comes twice, the elements of all entries are all elements, in order.
pub fn all_elements_are_found()
    ensures { (es : List Element) → AreDistinct (entries_of es) →
        map (λ e. part_for (key_of e.1) es) es ≡ map (λ e. Some e.0) es }
{}

/// What is printed of all elements of a text has the value of the text.
pub fn all_elements_say_the_value()
    ensures items { (by : ItemKeyData) (text : List ℕ) (parts : List (List ℕ)) (j : Json) →
        IsDivided (Items by) text parts → document text ≡ Some j →
        document (printed_text (Items by) parts) ≡ Some j }
    ensures members { (text : List ℕ) (parts : List (List ℕ)) (j : Json) →
        IsDivided Members text parts → document text ≡ Some j →
        document (printed_text Members parts) ≡ Some j }
{
    brackets_tell();
    lists_are_laid_out();
    slices_are_elements();
    slices_make_documents();
}
