//! Laws of the definitions. A call of one, as `equal_by_value();`, gives its statement to the
//! caller's proof.
ghost use Rattle.std.specs.Prelude.{◌≡◌, ◌≢◌, ◌↔◌, ℕ, List, [], ◌∷◌, true, Some, None};
ghost use Rattle.std.specs.Str.{IsUtf8};
ghost use Rattle.haya_text.specs.Chunks.{Chunk, chunk_view, chunks, characters};
ghost use Rattle.haya_text.specs.Equality.{EqualsByValue, EqualsByView, HashesAlike};
ghost use Rattle.haya_text.specs.Foldable.{foldable_view, foldable_chunks, fold_error_view};
ghost use Rattle.haya_text.specs.Grammar.{ReadsAs, IsRefusedAt};
ghost use Rattle.haya_text.specs.Normal.{norm, IsNormal};
ghost use Rattle.haya_text.specs.Printing.{to_serialized};
ghost use Rattle.haya_text.specs.Reading.{chunks_read};
ghost use Rattle.haya_text.specs.Texts.{text_view};
ghost use Rattle.haya_text.specs.declared.strings.kind.ChunkKind.{ChunkKind as ChunkKindData};
ghost use Rattle.haya_text.specs.declared.strings.kind.FoldableKind.{FoldableKind as FoldableKindData};
ghost use Rattle.haya_text.specs.declared.strings.chunked.ChunkedString.{ChunkedString as Text};

use crate::{
    ChunkKind, ChunkedReadError, ChunkedStrParseError, ChunkedString, FoldError,
    FoldableChunkedString, FoldableKind, FoldableStringChunk, FormatString, LongShortForm,
    OutOfMemory, StringChunk,
};
use std::hash::Hash;

/// `==` of texts and of their chunks holds exactly where both are equal by value.
pub fn equal_by_value()
    ensures chunk { EqualsByView ⟦<StringChunk as PartialEq>⟧.eq chunk_view }
    ensures chunked { EqualsByView ⟦<ChunkedString as PartialEq>⟧.eq chunks }
    ensures foldable_chunk { EqualsByView ⟦<FoldableStringChunk as PartialEq>⟧.eq foldable_view }
    ensures foldable { EqualsByView ⟦<FoldableChunkedString as PartialEq>⟧.eq foldable_chunks }
    ensures format { EqualsByView ⟦<FormatString as PartialEq>⟧.eq text_view }
{}

/// `==` of kinds and of forms holds exactly where both are the same.
pub fn kinds_equal_by_value()
    ensures chunk { EqualsByValue ⟦<ChunkKind as PartialEq>⟧.eq }
    ensures foldable { EqualsByValue ⟦<FoldableKind as PartialEq>⟧.eq }
    ensures form { EqualsByValue ⟦<LongShortForm as PartialEq>⟧.eq }
{}

/// Texts, their chunks, kinds and forms that are equal by `==` hash alike.
pub fn equal_texts_hash_alike()
    ensures chunk { HashesAlike ⟦<StringChunk as PartialEq>⟧.eq ⟦<StringChunk as Hash>⟧.hash_input }
    ensures chunked { HashesAlike ⟦<ChunkedString as PartialEq>⟧.eq
        ⟦<ChunkedString as Hash>⟧.hash_input }
    ensures foldable_chunk { HashesAlike ⟦<FoldableStringChunk as PartialEq>⟧.eq
        ⟦<FoldableStringChunk as Hash>⟧.hash_input }
    ensures foldable { HashesAlike ⟦<FoldableChunkedString as PartialEq>⟧.eq
        ⟦<FoldableChunkedString as Hash>⟧.hash_input }
    ensures format { HashesAlike ⟦<FormatString as PartialEq>⟧.eq
        ⟦<FormatString as Hash>⟧.hash_input }
    ensures kind { HashesAlike ⟦<ChunkKind as PartialEq>⟧.eq ⟦<ChunkKind as Hash>⟧.hash_input }
    ensures foldable_kind { HashesAlike ⟦<FoldableKind as PartialEq>⟧.eq
        ⟦<FoldableKind as Hash>⟧.hash_input }
    ensures form { HashesAlike ⟦<LongShortForm as PartialEq>⟧.eq
        ⟦<LongShortForm as Hash>⟧.hash_input }
{}

/// `==` of errors goes by all fields: by the variant, by the place of a brace, and by the text that
/// is handed back.
pub fn errors_equal_by_value()
    ensures memory { EqualsByValue ⟦<OutOfMemory as PartialEq>⟧.eq }
    ensures parse { EqualsByValue ⟦<ChunkedStrParseError as PartialEq>⟧.eq }
    ensures read { EqualsByValue ⟦<ChunkedReadError as PartialEq>⟧.eq }
    ensures fold { EqualsByView ⟦<FoldError as PartialEq>⟧.eq fold_error_view }
{}

/// The default kind is Normal.
pub fn default_kind_is_normal()
    ensures chunk { (k : ChunkKindData) → ⟦<ChunkKind as Default>⟧.is_default k
        → k ≡ ChunkKind.Normal }
    ensures foldable { (k : FoldableKindData)
        → ⟦<FoldableKind as Default>⟧.is_default k → k ≡ FoldableKind.Normal }
{}

/// A text reads as chunks exactly where the grammar gives them, so as one list of chunks. It reads
/// as none exactly where the grammar refuses it, and that is at one place.
pub fn reads_the_grammar()
    ensures read { (text : List ℕ) (cs : List Chunk)
        → (chunks_read text ≡ Some cs) ↔ ReadsAs text cs }
    ensures refused { (text : List ℕ)
        → (chunks_read text ≡ None) ↔ ((place : ℕ) × IsRefusedAt place text) }
    ensures one_place { (text : List ℕ) (j k : ℕ) → IsRefusedAt j text → IsRefusedAt k text
        → j ≡ k }
{}

/// The normal form has the same characters with the same kinds, no chunk of it is empty, and
/// neighbours differ in their kinds. A list of chunks like that is its own normal form.
pub fn normal_form()
    ensures characters { (text : Text)
        → characters (norm (chunks text)) ≡ characters (chunks text) }
    ensures normal { (text : Text) → IsNormal (norm (chunks text)) }
    ensures itself { (text : Text) → IsNormal (chunks text) → norm (chunks text) ≡ chunks text }
{}

/// Every text is read back from its serialized form, as its normal form. What is read is its own
/// normal form. Two texts read alike exactly where what they read as serializes alike, and equal
/// texts serialize alike.
pub fn canonical()
    ensures back { (text : Text)
        → chunks_read (to_serialized (chunks text)) ≡ Some (norm (chunks text)) }
    ensures normal { (text : List ℕ) (cs : List Chunk) → IsUtf8 text → chunks_read text ≡ Some cs
        → norm cs ≡ cs }
    ensures alike { (s t : List ℕ) (cs ds : List Chunk) → IsUtf8 s → IsUtf8 t
        → chunks_read s ≡ Some cs → chunks_read t ≡ Some ds
        → (cs ≡ ds) ↔ (to_serialized cs ≡ to_serialized ds) }
    ensures equal { (a b : Text) → ⟦<ChunkedString as PartialEq>⟧.eq a b ≡ true
        → to_serialized (chunks a) ≡ to_serialized (chunks b) }
{}

/// What was read of a text is read again from its serialized form, and so is a chunk of any kind
/// that isn't empty.
pub fn read_texts_read_back()
    ensures read { (text : List ℕ) (cs : List Chunk) → IsUtf8 text → chunks_read text ≡ Some cs
        → chunks_read (to_serialized cs) ≡ Some cs }
    ensures chunk { (bytes : List ℕ) (kind : ChunkKindData) → IsUtf8 bytes → bytes ≢ []
        → chunks_read (to_serialized ((bytes, kind) ∷ [])) ≡ Some ((bytes, kind) ∷ []) }
{}
