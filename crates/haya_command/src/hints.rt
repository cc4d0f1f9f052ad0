//! Hints: what was probably meant by a selector that finds nothing.
ghost use Rattle.std.specs.Prelude.{◌≡◌, IsTrue, false};
ghost use Rattle.hayagriva.specs.Holds.{holds, some_holds};
ghost use Rattle.hayagriva.specs.Syntax.{members_of, syntax};
ghost use Rattle.hayagriva.specs.Tree.{Tree};

use crate::near::field_question;
use crate::words::listed_unknown;
use haya_text::OutOfMemory;
use hayagriva::types::EntryType;
use hayagriva::{Entry, Library, Selector, SelectorError};
use std::alloc::Global;

/// A line for a selector that holds at no entry whatever the library, and one for each name in
/// brackets that no entry can have.
pub(crate) fn warnings(alloc: Global, selector: &str) -> Result<String, OutOfMemory> {
    let mut text = nowhere_text(alloc, selector.trim())?;
    let names = listed_unknown(alloc, selector)?;
    for name in &names {
        let like = field_question(alloc, name)?;
        let line = format!(in alloc; "haya: no entry has `{name}`{like}\n")?;
        text.push_str(line.as_str())?;
    }
    Ok(text)
}

// What is said of a selector that holds at no entry, and what was probably meant by it.
fn nowhere_text(alloc: Global, text: &str) -> Result<String, OutOfMemory> {
    let Some(selector) = read(alloc, text)? else {
        return Ok(String::new(alloc));
    };
    if !holds_nowhere(&selector) {
        return Ok(String::new(alloc));
    }
    let (why, likely) = if matches!(&selector, Selector::Multi(_)) {
        (", as `&` is for parents", on_parents(alloc, text)?)
    } else {
        ("", negated_later(alloc, text)?)
    };
    for meant in &likely {
        if let Some(other) = read(alloc, meant)?
            && !holds_nowhere(&other)
        {
            return Ok(format!(in alloc;
                "haya: `{text}` holds at no entry{why}: did you mean `{meant}`?\n"
            )?);
        }
    }
    Ok(format!(in alloc; "haya: `{text}` holds at no entry{why}\n")?)
}

// The selector of a text, if it is one.
fn read(alloc: Global, text: &str) -> Result<Option<Selector>, OutOfMemory> {
    match Selector::parse(alloc, text) {
        Ok(selector) => Ok(Some(selector)),
        Err(SelectorError::OutOfMemory) => Err(OutOfMemory),
        Err(_) => Ok(None),
    }
}

// The selector as one of parents.
fn on_parents(alloc: Global, text: &str) -> Result<Vec<String>, OutOfMemory> {
    let mut likely = Vec::new(alloc);
    likely.push(format!(in alloc; "* > ({text})")?)?;
    Ok(likely)
}

// The selector with its first `!` before what a bracket list is behind, or before all that follows.
fn negated_later(alloc: Global, text: &str) -> Result<Vec<String>, OutOfMemory> {
    let mut likely = Vec::new(alloc);
    let Some((before, behind)) = text.split_once('!') else {
        return Ok(likely);
    };
    if let Some((listed, rest)) = behind.split_once(']') {
        likely.push(format!(in alloc; "{before}!({listed}]){rest}")?)?;
    }
    likely.push(format!(in alloc; "{before}!({behind})")?)?;
    Ok(likely)
}

// Whether a selector's form says that it holds at no entry, whatever the library.
fn holds_nowhere(selector: &Selector) -> bool
    ensures { IsTrue result → (x : Tree) → holds (syntax selector.now) x ≡ false }
{
    is_settled(selector, false)
}

// Whether a selector's form says that it has this answer at each entry.
#[cycle(settled)]
fn is_settled(selector: &Selector, answer: bool) -> bool
    ensures { IsTrue result → (x : Tree) → holds (syntax selector.now) x ≡ answer }
{
    let mut at = selector;
    let mut wanted = answer;
    'down: loop {
        match at {
            Selector::Wildcard => return wanted,
            Selector::Entry(_) => return false,
            Selector::Neg(inner) => {
                at = inner;
                wanted = !wanted;
            }
            Selector::Binding(_, inner) => at = inner,
            Selector::Attr(inner, names) => {
                if wanted && !names.is_empty() {
                    return false;
                }
                at = inner;
            }
            Selector::Alt(members) => return are_settled(members, wanted),
            Selector::Multi(_) => return !wanted,
            Selector::Ancestrage(child, _) => {
                if wanted {
                    return false;
                }
                at = child;
            }
        }
    }
}

// The same of the members of a `|`: one that holds at each entry is enough, and none may hold.
#[cycle(settled)]
fn are_settled(members: &[Selector], answer: bool) -> bool
    ensures { IsTrue result → (x : Tree) → some_holds (members_of members.now) x ≡ answer }
{
    'members: for member in members {
        if is_settled(member, answer) == answer {
            return answer;
        }
    }
    !answer
}

/// What is said of a selector `article[volume]` or `*[volume]` that finds nothing.
#[derive(Drop)]
pub(crate) struct ParentsHint {
    selector: Option<Selector>,
    text: String,
}

impl ParentsHint {
    /// Nothing so far.
    pub(crate) fn new(alloc: Global, selector: &str) -> Result<ParentsHint, OutOfMemory> {
        Ok(ParentsHint {
            selector: read(alloc, selector)?,
            text: String::new(alloc),
        })
    }

    /// Sees an entry of the library. Where it is of the type, and has a parent with the names that it
    /// hasn't itself, that is what is said; where the selector holds at it, nothing is from now on.
    pub(crate) fn see(&mut self, alloc: Global, entry: &Entry) -> Result<(), OutOfMemory> {
        let Some(asked) = self.selector.as_ref().and_then(Asked::of) else {
            return Ok(());
        };
        if asked.finds(entry) {
            self.selector = None;
            self.text.clear();
            return Ok(());
        }
        if self.text.is_empty() && asked.is_type_of(entry) {
            for parent in entry.parents() {
                if asked.finds_between(entry, parent) {
                    self.text = asked.hint(alloc, entry)?;
                    return Ok(());
                }
            }
        }
        Ok(())
    }

    /// A line that says which names are on the parents, or nothing.
    pub(crate) fn into_text(self) -> String {
        let ParentsHint { selector: _, text } = self;
        text
    }
}

/// A line that says which names are on the parents, for a selector `article[volume]` or `*[volume]`
/// that finds nothing in the library, where some entry of the type has a parent with the names that
/// it hasn't itself. Otherwise it is empty.
pub(crate) fn parents_hint(
    alloc: Global,
    library: &Library,
    selector: &str,
) -> Result<String, OutOfMemory> {
    let mut hint = ParentsHint::new(alloc, selector)?;
    for entry in library.iter() {
        hint.see(alloc, entry)?;
    }
    Ok(hint.into_text())
}

// A selector that is a type, or `*`, with a bracket list.
#[derive(Clone, Copy)]
struct Asked<'s> {
    entry_type: Option<EntryType>,
    names: &'s [String],
}

impl<'s> Asked<'s> {
    // The selector as one of these, if it is one.
    fn of(selector: &'s Selector) -> Option<Asked<'s>> {
        let Selector::Attr(inner, names) = selector else {
            return None;
        };
        let entry_type = match **inner {
            Selector::Wildcard => None,
            Selector::Entry(entry_type) => Some(entry_type),
            _ => return None,
        };
        Some(Asked { entry_type, names })
    }

    // Whether the entry is of the type.
    fn is_type_of(self, entry: &Entry) -> bool {
        self.entry_type
            .is_none_or(|wanted| entry.entry_type() == wanted)
    }

    // Whether the selector holds at the entry.
    fn finds(self, entry: &Entry) -> bool {
        self.is_type_of(entry) && self.names.iter().all(|name| entry.has(name))
    }

    // Whether each name is on the entry or on its parent.
    fn finds_between(self, entry: &Entry, parent: &Entry) -> bool {
        self.names
            .iter()
            .all(|name| entry.has(name) || parent.has(name))
    }

    // What is said where the names that the entry hasn't are on a parent.
    fn hint(self, alloc: Global, entry: &Entry) -> Result<String, OutOfMemory> {
        let mut own = String::new(alloc);
        let mut others = String::new(alloc);
        for name in self.names {
            let list = if entry.has(name) {
                &mut own
            } else {
                &mut others
            };
            if !list.is_empty() {
                list.push_str(", ")?;
            }
            list.push_str(name)?;
        }
        let entry_type = self.entry_type.map_or("*", EntryType::lower_name);
        let listed = if own.is_empty() {
            own
        } else {
            format!(in alloc; "[{own}]")?
        };
        let verb = if others.contains(',') { "are" } else { "is" };
        Ok(format!(in alloc;
            "haya: {others} {verb} on the parents: {entry_type}{listed} > *[{others}]\n"
        )?)
    }
}
