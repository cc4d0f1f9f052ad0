//! Asks a library of three works by selectors that are written in the code, each with a contract in
//! words of entries, and by one that is only known when it runs.
#![tactic(auto)]

mod callers;
mod literals;
mod sample;

ghost use Rattle.std.specs.Prelude.{◌≡◌, IfOk, filter, length};
ghost use Rattle.std.specs.Str.{chars};
ghost use Rattle.hayagriva.specs.Holds.{holds};
ghost use Rattle.hayagriva.specs.Reading.{TextReads};
ghost use Rattle.hayagriva.specs.Syntax.{Syntax};

use hayagriva::{Entry, Hit, Library, Selector, SelectorError, Steps};
use literals::{articles_with_doi, works_with_doi};
use std::alloc::Global;

// How many entries of the library the selector of the text picks.
fn hit_count(alloc: Global, library: &Library, text: &str) -> Result<usize, SelectorError>
    ensures { IfOk result (λ n. (s : Syntax) × TextReads (chars text.now) s
        × (n ≡ length (filter (holds s) library.now))) }
{
    let hits = library.query(alloc, text, &mut Steps::new())?;
    Ok(hits.len())
}

// Prints a line for each hit: its key, and the key of the entry that is called `name` there.
fn print_hits(rt: &impl Print, hits: &[Hit], name: &str) -> anyhow::Result<()> {
    for hit in hits {
        match hit.bindings.get(name) {
            Some(entry) => println!(rt; "{} with {name} {}", hit.entry.key(), entry.key())?,
            None => println!(rt; "{}", hit.entry.key())?,
        }
    }
    Ok(())
}

fn print_parent(rt: &impl Print, entry: &Entry, parent: Option<&Entry>) -> anyhow::Result<()> {
    if let Some(parent) = parent {
        println!(rt; "{} in {}", entry.key(), parent.key())?;
    }
    Ok(())
}

// Prints a line for each entry where the selector holds, with the entry that is called `name`
// there.
fn print_bound(
    rt: &impl Print,
    alloc: Global,
    library: &Library,
    selector: &Selector,
    name: &str,
) -> anyhow::Result<()> {
    for entry in library {
        if let Some(bindings) = selector.apply(alloc, entry)? {
            print_parent(rt, entry, bindings.get(name).copied())?;
        }
    }
    Ok(())
}

// The same for a text.
fn print_read(rt: &impl Print, alloc: Global, library: &Library, text: &str) -> anyhow::Result<()> {
    let selector = Selector::parse(alloc, text)?;
    let printed = print_bound(rt, alloc, library, &selector, "p");
    drop(selector);
    printed
}

// Prints the keys of the articles with a DOI one at a time, and how often the evaluator was called.
fn print_in_turn(rt: &impl Print, alloc: Global, library: &Library) -> anyhow::Result<()> {
    let mut query = library.query_iter(alloc, "article[doi]")?;
    for hit in &mut query {
        println!(rt; "{}", hit?.entry.key())?;
    }
    println!(rt; "{} steps", query.steps().seen())?;
    Ok(())
}

fn print_all(rt: &impl Print, alloc: Global, library: &Library) -> anyhow::Result<()> {
    print_read(rt, alloc, library, "article > p:periodical")?;
    print_hits(rt, &articles_with_doi(alloc, library)?, "p")?;
    print_hits(rt, &works_with_doi(alloc, library)?, "a")?;
    println!(rt; "{}", hit_count(alloc, library, "* > !blog")?)?;
    print_in_turn(rt, alloc, library)?;
    Ok(())
}

fn main(rt: HostRuntime) -> anyhow::Result<()> {
    let alloc = rt.alloc();
    let library = sample::library(alloc)?;
    let printed = print_all(&rt, alloc, &library);
    drop(library);
    printed
}
