//! Languages.
ghost use Rattle.std.specs.Prelude.{◌≡◌, ◌==◌, ◌<◌, IfOk, map, option_map, string_bytes, true};
ghost use Rattle.std.specs.Char.{to_ascii_lowercase};
ghost use Rattle.std.specs.List.{slice_split};
ghost use Rattle.haya_bibtex_fields.specs.FieldTexts.{unknown_in};
ghost use Rattle.haya_bibtex_fields.specs.Languages.{comma, language_in, language_tags, tag_of};
ghost use Rattle.haya_bibtex_fields.specs.Languages.{variant_among, variant_by, variant_in};
ghost use Rattle.haya_bibtex_fields.specs.Languages.{variant_of};
ghost use Rattle.haya_bibtex_fields.specs.Tables.{text_under};

use crate::reading::Reading;
use crate::tables::text_under;
use crate::texts::{is_itself, read_plain};
use haya_text::OutOfMemory;
use std::alloc::{AllocError, Global};

// The names of languages and their tags.
const LANGUAGES: &[(&str, &str)] = &[
    // English.
    ("english", "en-US"),
    ("american", "en-US"),
    ("usenglish", "en-US"),
    ("british", "en-GB"),
    ("ukenglish", "en-GB"),
    ("canadian", "en-CA"),
    ("australian", "en-AU"),
    ("newzealand", "en-NZ"),
    // German, Dutch and their like.
    ("german", "de-DE"),
    ("ngerman", "de-DE"),
    ("austrian", "de-AT"),
    ("naustrian", "de-AT"),
    ("swissgerman", "de-CH"),
    ("nswissgerman", "de-CH"),
    ("dutch", "nl-NL"),
    ("afrikaans", "af-ZA"),
    // French, Italian and their like.
    ("french", "fr-FR"),
    ("francais", "fr-FR"),
    ("frenchb", "fr-FR"),
    ("acadian", "fr-CA"),
    ("canadien", "fr-CA"),
    ("italian", "it-IT"),
    ("romanian", "ro-RO"),
    ("latin", "la"),
    // The languages of Spain and Portugal, and of America.
    ("spanish", "es-ES"),
    ("mexican", "es-MX"),
    ("catalan", "ca-ES"),
    ("galician", "gl-ES"),
    ("basque", "eu-ES"),
    ("portuguese", "pt-PT"),
    ("portuges", "pt-PT"),
    ("brazil", "pt-BR"),
    ("brazilian", "pt-BR"),
    // The languages of the north.
    ("danish", "da-DK"),
    ("swedish", "sv-SE"),
    ("norsk", "nb-NO"),
    ("norwegian", "nb-NO"),
    ("nynorsk", "nn-NO"),
    ("icelandic", "is-IS"),
    ("finnish", "fi-FI"),
    ("estonian", "et-EE"),
    ("latvian", "lv-LV"),
    ("lithuanian", "lt-LT"),
    // Slavic languages.
    ("polish", "pl-PL"),
    ("czech", "cs-CZ"),
    ("slovak", "sk-SK"),
    ("slovene", "sl-SI"),
    ("slovenian", "sl-SI"),
    ("croatian", "hr-HR"),
    ("serbian", "sr-RS"),
    ("bulgarian", "bg-BG"),
    ("russian", "ru-RU"),
    ("ukrainian", "uk-UA"),
    // Other languages of Europe and the Near East.
    ("hungarian", "hu-HU"),
    ("magyar", "hu-HU"),
    ("greek", "el-GR"),
    ("polutonikogreek", "el-GR"),
    ("turkish", "tr-TR"),
    ("irish", "ga-IE"),
    ("welsh", "cy-GB"),
    ("esperanto", "eo"),
    ("hebrew", "he-IL"),
    ("arabic", "ar"),
    // Languages of Asia.
    ("persian", "fa-IR"),
    ("farsi", "fa-IR"),
    ("hindi", "hi-IN"),
    ("sanskrit", "sa"),
    ("thai", "th-TH"),
    ("vietnamese", "vi-VN"),
    ("indonesian", "id-ID"),
    ("chinese", "zh-CN"),
    ("japanese", "ja-JP"),
    ("korean", "ko-KR"),
];

// How long the shortest of these names is.
const SHORTEST: usize = 4;

// The tag of a language by its name in lower case.
#[tactic(auto, unfolding(crate::specs::Languages::language_tags))]
fn lower_tag(name: &str) -> Option<&'static str>
    ensures { option_map (λ t. t.now) result ≡ text_under language_tags name.now }
{
    text_under(LANGUAGES, name)
}

// Whether a text has no capital letter of ASCII.
fn is_lower(text: &str) -> bool
    ensures { result ≡ true → map to_ascii_lowercase text.now ≡ text.now }
{
    'bytes: for byte in text.as_bytes() {
        if byte.is_ascii_uppercase() {
            return false;
        }
    }
    true
}

// The tag of a language by its name, in any case.
fn tag_of(alloc: Global, name: &str) -> Result<Option<&'static str>, AllocError>
    ensures { IfOk result (λ t. option_map (λ s. s.now) t ≡ tag_of name.now) }
{
    // No name is as short.
    if name.len() < SHORTEST {
        return Ok(None);
    }
    if is_lower(name) {
        return Ok(lower_tag(name));
    }
    let mut lower = String::from_str(alloc, name)?;
    lower.make_ascii_lowercase();
    Ok(lower_tag(lower.as_str()))
}

/// The language that a text names, by the tag of its name in LaTeX, in any case, or the text as it
/// is.
pub fn read_language(alloc: Global, text: &str) -> Result<Reading<String>, OutOfMemory>
    ensures value { IfOk result (λ r. option_map string_bytes r.value ≡ language_in text.now) }
    ensures unknown { IfOk result (λ r. map string_bytes r.unknown.items ≡ unknown_in text.now) }
{
    if is_itself(text) {
        let language = match tag_of(alloc, text)? {
            Some(tag) => tag,
            None => text,
        };
        let language = String::from_str(alloc, language)?;
        return Ok(Reading {
            value: Some(language),
            unknown: Vec::new(alloc),
        });
    }
    let Reading { value, unknown } = read_plain(alloc, text)?;
    let Some(name) = value else {
        return Ok(Reading {
            value: None,
            unknown,
        });
    };
    let language = match tag_of(alloc, name.as_str())? {
        Some(tag) => String::from_str(alloc, tag)?,
        None => name,
    };
    Ok(Reading {
        value: Some(language),
        unknown,
    })
}

// The parts of a text between signs of this kind.
fn parts_of<'a>(alloc: Global, sign: char, text: &'a str) -> Result<Vec<&'a str>, AllocError>
    requires { sign < 128 }
    ensures { IfOk result (λ v.
        map (λ t. t.now) v.items ≡ slice_split (λ b. b == sign) text.now) }
{
    Ok(text.split(sign).collect(alloc)?)
}

// The language that an option names, by its parts around equals signs.
fn variant_by(alloc: Global, parts: &[&str]) -> Result<Option<&'static str>, AllocError>
    ensures { IfOk result (λ t. option_map (λ s. s.now) t
        ≡ variant_by (map (λ p. p.now) parts.now)) }
{
    let [name, value] = parts else {
        return Ok(None);
    };
    if name.trim() == "variant" {
        tag_of(alloc, value.trim())
    } else {
        Ok(None)
    }
}

// The language that an option names.
fn variant_of(alloc: Global, option: &str) -> Result<Option<&'static str>, AllocError>
    ensures { IfOk result (λ t. option_map (λ s. s.now) t ≡ variant_of option.now) }
{
    let parts = parts_of(alloc, '=', option)?;
    variant_by(alloc, parts.as_slice())
}

// The language of the first of the options of a text that names one.
fn variant_among(alloc: Global, text: &str) -> Result<Option<&'static str>, AllocError>
    ensures { IfOk result (λ t. option_map (λ s. s.now) t
        ≡ variant_among (slice_split (λ b. b == comma) text.now)) }
{
    let options = parts_of(alloc, ',', text)?;
    'options: for option in &options {
        if let Some(tag) = variant_of(alloc, option)? {
            return Ok(Some(tag));
        }
    }
    Ok(None)
}

/// The language of the first option `variant` of a text, as `spelling=new, variant=british`, that
/// names one.
pub fn read_variant(alloc: Global, text: &str) -> Result<Reading<String>, OutOfMemory>
    ensures value { IfOk result (λ r. option_map string_bytes r.value ≡ variant_in text.now) }
    ensures unknown { IfOk result (λ r. map string_bytes r.unknown.items ≡ unknown_in text.now) }
{
    let Reading { value, unknown } = read_plain(alloc, text)?;
    let Some(options) = value else {
        return Ok(Reading {
            value: None,
            unknown,
        });
    };
    let value = match variant_among(alloc, options.as_str())? {
        Some(tag) => Some(String::from_str(alloc, tag)?),
        None => None,
    };
    Ok(Reading { value, unknown })
}
