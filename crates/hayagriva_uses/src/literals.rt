//! A proved call for each form of selector. What each ensures speaks of entries alone: their types,
//! names and parents.
ghost use Rattle.std.specs.Prelude.{◌≡◌, ◌&&◌, ◌||◌, if◌then◌else◌, All, IfOk, IsOkUnless};
ghost use Rattle.std.specs.Prelude.{None, Some, codes, filter, find, map, not, true};
ghost use Rattle.std.specs.List.{list_any};
ghost use Rattle.std.specs.Option.{option_map_or};
ghost use Rattle.haya_entry.specs.declared.types.EntryType.TheVariants.{Article, Book, Chapter};
ghost use Rattle.haya_entry.specs.declared.types.EntryType.TheVariants.{Periodical, Proceedings};
ghost use Rattle.haya_entry.specs.Names.{is_of_type, has_name};
ghost use Rattle.haya_entry.specs.Tree.{parents};
ghost use Rattle.hayagriva.specs.declared.SelectorError.TheVariants.{OutOfMemory};
ghost use Rattle.hayagriva.specs.InWords.{choices};
ghost use Rattle.hayagriva.specs.Query.{hit_bound, hit_entry};

use hayagriva::{Hit, Library, SelectorError, Steps};
use std::alloc::Global;

/// A type: the articles, in order.
pub fn articles<'s>(alloc: Global, library: &'s Library) -> Result<Vec<Hit<'s>>, SelectorError>
    ensures hits { IfOk result (λ hits. map hit_entry hits.items ≡
        filter (λ x. is_of_type Article x) library.now) }
    ensures error { IsOkUnless result OutOfMemory }
{
    library.query(alloc, "article", &mut Steps::new())
}

/// `*`: all entries, in order.
pub fn all<'s>(alloc: Global, library: &'s Library) -> Result<Vec<Hit<'s>>, SelectorError>
    ensures hits { IfOk result (λ hits. map hit_entry hits.items ≡
        filter (λ x. true) library.now) }
    ensures error { IsOkUnless result OutOfMemory }
{
    library.query(alloc, "*", &mut Steps::new())
}

/// `!`: the entries that aren't books.
pub fn no_books<'s>(alloc: Global, library: &'s Library) -> Result<Vec<Hit<'s>>, SelectorError>
    ensures hits { IfOk result (λ hits. map hit_entry hits.items ≡
        filter (λ x. not (is_of_type Book x)) library.now) }
    ensures error { IsOkUnless result OutOfMemory }
{
    library.query(alloc, "!book", &mut Steps::new())
}

/// A name: the entries with a DOI, each called `a`.
pub fn works_with_doi<'s>(
    alloc: Global,
    library: &'s Library,
) -> Result<Vec<Hit<'s>>, SelectorError>
    ensures hits { IfOk result (λ hits. map hit_entry hits.items ≡
        filter (λ x. has_name x (codes "doi")) library.now) }
    ensures named { IfOk result (λ hits.
        All (λ hit. hit_bound hit (codes "a") ≡ Some (hit_entry hit)) hits.items) }
    ensures error { IsOkUnless result OutOfMemory }
{
    library.query(alloc, "a:*[doi]", &mut Steps::new())
}

/// A list, and `>`: the articles with a DOI that have a periodical among their parents, each with
/// the first of these as `p`.
pub fn articles_with_doi<'s>(
    alloc: Global,
    library: &'s Library,
) -> Result<Vec<Hit<'s>>, SelectorError>
    ensures hits { IfOk result (λ hits. map hit_entry hits.items ≡
        filter (λ x. is_of_type Article x && has_name x (codes "doi")
        && list_any (is_of_type Periodical) (parents x)) library.now) }
    ensures named { IfOk result (λ hits.
        All (λ hit. hit_bound hit (codes "p")
        ≡ find (is_of_type Periodical) (parents (hit_entry hit))) hits.items) }
    ensures error { IsOkUnless result OutOfMemory }
{
    library.query(alloc, "article[doi] > p:periodical", &mut Steps::new())
}

/// `|`: the articles and the books.
pub fn articles_and_books<'s>(
    alloc: Global,
    library: &'s Library,
) -> Result<Vec<Hit<'s>>, SelectorError>
    ensures hits { IfOk result (λ hits. map hit_entry hits.items ≡
        filter (λ x. is_of_type Article x || is_of_type Book x) library.now) }
    ensures error { IsOkUnless result OutOfMemory }
{
    library.query(alloc, "article | book", &mut Steps::new())
}

/// `|` on both sides of `>`: the articles and the chapters with a book or proceedings among their
/// parents, each with the first book as `p`, or where there is none the first proceedings.
pub fn in_books<'s>(alloc: Global, library: &'s Library) -> Result<Vec<Hit<'s>>, SelectorError>
    ensures hits { IfOk result (λ hits. map hit_entry hits.items ≡
        filter (λ x. (is_of_type Article x || is_of_type Chapter x)
        && (list_any (is_of_type Book) (parents x) || list_any (is_of_type Proceedings) (parents x)))
        library.now) }
    ensures named { IfOk result (λ hits. All (λ hit. hit_bound hit (codes "p")
        ≡ (if list_any (is_of_type Book) (parents (hit_entry hit))
        then find (is_of_type Book) (parents (hit_entry hit))
        else find (is_of_type Proceedings) (parents (hit_entry hit)))) hits.items) }
    ensures error { IsOkUnless result OutOfMemory }
{
    library.query(
        alloc,
        "(article | chapter) > p:(book | proceedings)",
        &mut Steps::new(),
    )
}

/// `&`: the entries with a periodical among their parents, and a book among the others.
pub fn in_both<'s>(alloc: Global, library: &'s Library) -> Result<Vec<Hit<'s>>, SelectorError>
    ensures hits { IfOk result (λ hits. map hit_entry hits.items ≡
        filter (λ x. list_any (λ c. is_of_type Periodical c.0 && list_any (is_of_type Book) c.1)
        (choices (parents x))) library.now) }
    ensures error { IsOkUnless result OutOfMemory }
{
    library.query(alloc, "* > (periodical & book)", &mut Steps::new())
}

/// `&` with names: the entries with an article among their parents and one more parent. The first
/// that leaves an article is `p`, and the first article that it leaves is `q`.
pub fn beside_articles<'s>(
    alloc: Global,
    library: &'s Library,
) -> Result<Vec<Hit<'s>>, SelectorError>
    ensures hits { IfOk result (λ hits. map hit_entry hits.items ≡
        filter (λ x. list_any (λ c. list_any (is_of_type Article) c.1) (choices (parents x)))
        library.now) }
    ensures first { IfOk result (λ hits. All (λ hit. hit_bound hit (codes "p")
        ≡ option_map_or (λ c. Some c.0) (find (λ c. list_any (is_of_type Article) c.1)
        (choices (parents (hit_entry hit)))) None) hits.items) }
    ensures second { IfOk result (λ hits. All (λ hit. hit_bound hit (codes "q")
        ≡ option_map_or (λ c. find (is_of_type Article) c.1)
        (find (λ c. list_any (is_of_type Article) c.1)
        (choices (parents (hit_entry hit)))) None) hits.items) }
    ensures error { IsOkUnless result OutOfMemory }
{
    library.query(alloc, "* > (p:* & q:article)", &mut Steps::new())
}

/// A longer chain: the entries with a periodical among their parents that has a parent with a
/// language.
pub fn in_languages<'s>(alloc: Global, library: &'s Library) -> Result<Vec<Hit<'s>>, SelectorError>
    ensures hits { IfOk result (λ hits. map hit_entry hits.items ≡
        filter (λ x. list_any (λ y. is_of_type Periodical y
        && list_any (λ z. has_name z (codes "language")) (parents y)) (parents x))
        library.now) }
    ensures error { IsOkUnless result OutOfMemory }
{
    library.query(alloc, "* > (periodical > *[language])", &mut Steps::new())
}
