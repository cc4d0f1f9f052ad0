//! A small library: an article in a journal on a web site, an article on a blog, and a note without
//! parents. Where a call fails, the entries are dropped by calls: at an exit, the drop of an entry
//! is proved field by field.
use hayagriva::types::{EntryType, FormatString};
use hayagriva::{Entry, Library};
use std::alloc::Global;

fn text(alloc: Global, value: &str) -> anyhow::Result<String> {
    Ok(String::from_str(alloc, value)?)
}

// An entry with one more parent.
fn below(child: anyhow::Result<Entry>, parent: anyhow::Result<Entry>) -> anyhow::Result<Entry> {
    match (child, parent) {
        (Ok(mut child), Ok(parent)) => Ok(child.parents.push(parent).and(Ok(child))?),
        (Err(fault), other) | (other, Err(fault)) => {
            drop(other);
            Err(fault)
        }
    }
}

fn empty(alloc: Global, key: &str, kind: EntryType) -> anyhow::Result<Entry> {
    Ok(Entry::new(alloc, key, kind)?)
}

fn site(alloc: Global) -> anyhow::Result<Entry> {
    let english = text(alloc, "en")?;
    let mut site = Entry::new(alloc, "acm", EntryType::Web)?;
    site.set_language(english);
    Ok(site)
}

fn journal(alloc: Global) -> anyhow::Result<Entry> {
    let title = FormatString::with_value(alloc, text(alloc, "TOPLAS")?)?;
    let mut journal = Entry::new(alloc, "toplas", EntryType::Periodical)?;
    journal.set_title(title);
    Ok(journal)
}

fn paper(alloc: Global) -> anyhow::Result<Entry> {
    let doi = text(alloc, "10.1145/24039.24041")?;
    let mut paper = Entry::new(alloc, "dependence", EntryType::Article)?;
    Ok(paper.set_doi(doi).and(Ok(paper))?)
}

fn paper_in_journal(alloc: Global) -> anyhow::Result<Entry> {
    below(paper(alloc), below(journal(alloc), site(alloc)))
}

fn post(alloc: Global) -> anyhow::Result<Entry> {
    below(
        empty(alloc, "post", EntryType::Article),
        empty(alloc, "blog", EntryType::Blog),
    )
}

fn note(alloc: Global) -> anyhow::Result<Entry> {
    empty(alloc, "note", EntryType::Misc)
}

fn add(library: &mut Library, entry: anyhow::Result<Entry>) -> anyhow::Result<()> {
    library.insert(entry?)?;
    Ok(())
}

fn fill(library: &mut Library, alloc: Global) -> anyhow::Result<()> {
    add(library, paper_in_journal(alloc))?;
    add(library, post(alloc))?;
    add(library, note(alloc))
}

/// The library of the three works.
pub fn library(alloc: Global) -> anyhow::Result<Library> {
    let mut library = Library::new(alloc);
    fill(&mut library, alloc)?;
    Ok(library)
}
