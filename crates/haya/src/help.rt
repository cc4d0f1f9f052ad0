//! The words of the command's help.

/// What the command does.
pub const ABOUT: &str = "Prints the entries of a library that a selector picks.

Status: 0 where an entry is found, 1 where none is, 2 at a fault.";

/// How a selector is written, and examples. `tests/help` runs each of them.
pub const AFTER: &str = "Selectors:
  *                              every entry
  book                           the entries of a type, in any case: --list types
  *[doi, date]                   those that have all of these names: --list fields
  !book                          what is no book
  !(*[date])                     what has no date; !*[date] is (!*)[date], which picks nothing
  book | web                     what is one of them, as many as there are
  article > periodical           what has a parent that the right side picks
  article > !periodical          what has no such parent
  article > (periodical & web)   what has a parent for each, and no parent for two of them
  article > p:periodical         the parent is called p: its key is printed as p=key
  article > book > anthology     (article > book) > anthology: what has both as parents
  `!` binds tightest, then `[ ]`, `:`, `|` with `&`, and `>`; each groups from the left.

Examples:
  haya 'article > periodical' refs.bib     the articles that appear in a periodical
  haya -c '*[doi]' refs.json more.json     how many entries of both files have a DOI
  haya -t lines '!(*[date])' refs.json     what has no date, with all its fields
  haya -s -f lines 'article' works.tsv     the articles of a library larger than memory
  haya '*' -w 'date >= 1986' --sort -date refs.json    what came out since 1986, newest first
  haya 'article' --columns key,date,title refs.json    the articles as a table
  haya '*' --unique doi refs.json more.json            the entries of both files, each DOI once
  haya -t source 'book' refs.json                      the books as the file has them, byte for byte

Tests (-w) are a place, one of = != ~ !~ < <= > >=, and a text, which is compared case aside. A
place is a name of --list fields, a role such as translator, key or type; behind p. it is of p.

Without --from a format is guessed from the first 4096 bytes: with --stream, too, which waits for
them. There entries are asked as they come: a key that comes again isn't replaced, and at a fault
what was printed before stays (`cut -f1 | sort | uniq -d` over the keys printed shows such).";
