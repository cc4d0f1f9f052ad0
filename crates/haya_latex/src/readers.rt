//! A reader: what is written so far, the groups around, and the accents that wait.
ghost use Rattle.std.specs.Prelude.{◌≡◌, ◌∷◌, ◌++◌, [], reverse, IfOk, OnOk};
ghost use Rattle.haya_latex.specs.Reading.{close, count, end_group, enter, is_inside, leave, put};
ghost use Rattle.haya_latex.specs.Reading.{put_formula, put_last, put_output, put_text, settle};
ghost use Rattle.haya_latex.specs.Reading.{settle_inner, start, take_turn, under, wait, write};
ghost use Rattle.haya_latex.specs.Reading.{write_under};
ghost use Rattle.haya_latex.specs.ReadingViews.{group_view, reader_view};
ghost use Rattle.haya_latex.specs.TokenViews.{output_view};

use crate::formulas::push_formula;
use crate::kinds::{Kind, Turn, sign_kind};
use crate::scans::white_length;
use crate::tokens::Output;
use haya_characters::string_of;
use haya_latex_words::{Accent, dotted};
use std::alloc::{AllocError, Global};

/// A group.
#[derive(Clone, Copy)]
pub(crate) struct Group {
    /// The kind of its text.
    pub(crate) kind: Kind,
    /// How many braces are open in it that begin no group.
    pub(crate) depth: usize,
    /// The sign that is written at its end.
    pub(crate) last: Option<char>,
}

/// A reader.
#[derive(Drop)]
pub(crate) struct Reader {
    /// The characters that are written.
    pub(crate) chars: Vec<(char, Kind)>,
    /// The names of the commands that aren't known.
    pub(crate) counted: Vec<String>,
    /// The group around.
    pub(crate) inner: Group,
    /// The groups around that, the outermost first.
    pub(crate) outer: Vec<Group>,
    /// The accents that wait, the innermost last, each with the kind around it and the number of
    /// groups around that.
    pub(crate) waiting: Vec<(Accent, Kind, usize)>,
}

/// A reader of text of a kind, with room for so many characters.
pub(crate) fn start(alloc: Global, kind: Kind, room: usize) -> Result<Reader, AllocError>
    ensures { IfOk result (λ r. reader_view r ≡ start kind) }
{
    Ok(Reader {
        chars: Vec::with_capacity(alloc, room)?,
        counted: Vec::new(alloc),
        inner: Group {
            kind,
            depth: 0,
            last: None,
        },
        outer: Vec::new(alloc),
        waiting: Vec::new(alloc),
    })
}

/// Whether it is inside of a group.
pub(crate) fn is_inside(reader: &Reader) -> bool
    ensures { result ≡ is_inside (reader_view reader.now).outer }
{
    !reader.outer.is_empty()
}

// The character under accents that wait, and the marks behind it, the first one last.
fn under(
    alloc: Global,
    waiting: &mut Vec<(Accent, Kind, usize)>,
    c: char,
    kind: Kind,
) -> Result<(char, Vec<(char, Kind)>), AllocError>
    ensures none { OnOk result (waiting.new.items ≡ []) }
    ensures under { IfOk result (λ r. under (reverse waiting.old.items) c kind
        ≡ (r.0, kind) ∷ reverse r.1.items) }
{
    let mut marks = Vec::new(alloc);
    let mut letter = c;
    'accents: while let Some((accent, _, _)) = waiting.pop() {
        let base = dotted(letter);
        match accent.composed(base) {
            Some(whole) => letter = whole,
            None => {
                letter = base;
                marks.push((accent.mark(), kind))?;
            }
        }
    }
    Ok((letter, marks))
}

// Writes marks, the last one first.
fn push_marks(
    chars: &mut Vec<(char, Kind)>,
    marks: &mut Vec<(char, Kind)>,
) -> Result<(), AllocError>
    ensures { OnOk result (chars.new.items ≡ chars.old.items ++ reverse marks.old.items) }
{
    'marks: while let Some(mark) = marks.pop() {
        chars.push(mark)?;
    }
    Ok(())
}

// Writes a character under the accents that wait.
fn write_under(reader: &mut Reader, alloc: Global, c: char, kind: Kind) -> Result<(), AllocError>
    ensures { OnOk result (reader_view reader.new
        ≡ write_under (reader_view reader.old).waiting c kind (reader_view reader.old)) }
{
    let (letter, mut marks) = under(alloc, &mut reader.waiting, c, kind)?;
    reader.chars.push((letter, kind))?;
    push_marks(&mut reader.chars, &mut marks)?;
    Ok(())
}

/// Writes alone the accents that wait in so many groups or more.
pub(crate) fn settle(reader: &mut Reader, alloc: Global, groups: usize) -> Result<(), AllocError>
    ensures { OnOk result (reader_view reader.new ≡ settle groups (reader_view reader.old)) }
{
    'accents: while let Some((accent, kind, around)) = reader.waiting.pop() {
        if around < groups {
            reader.waiting.push((accent, kind, around))?;
            return Ok(());
        }
        if let Some(c) = accent.alone() {
            return write_under(reader, alloc, c, kind);
        }
    }
    Ok(())
}

// Writes alone the accents that wait in the group.
fn settle_inner(reader: &mut Reader, alloc: Global) -> Result<(), AllocError>
    ensures { OnOk result (reader_view reader.new ≡ settle_inner (reader_view reader.old)) }
{
    let groups = reader.outer.len();
    settle(reader, alloc, groups)
}

/// Writes a character where no accent waits.
pub(crate) fn put_alone(reader: &mut Reader, c: char, kind: Kind) -> Result<(), AllocError>
    ensures { OnOk result
        (reader_view reader.new ≡ write ((c, kind) ∷ []) (reader_view reader.old)) }
{
    reader.chars.push((c, kind))?;
    Ok(())
}

// Writes a character.
#[tactic(auto, using(crate::proofs::Itself::put_free))]
fn put(reader: &mut Reader, alloc: Global, c: char, kind: Kind) -> Result<(), AllocError>
    ensures { OnOk result (reader_view reader.new ≡ put c kind (reader_view reader.old)) }
{
    if reader.waiting.is_empty() {
        return put_alone(reader, c, kind);
    }
    if c.is_whitespace() {
        settle(reader, alloc, 0)?;
        reader.chars.push((c, kind))?;
        Ok(())
    } else {
        write_under(reader, alloc, c, kind)
    }
}

// Writes the characters that a command stands for.
fn put_text(reader: &mut Reader, alloc: Global, text: &[char], kind: Kind) -> Result<(), AllocError>
    ensures { OnOk result (reader_view reader.new
        ≡ put_text text.now kind (reader_view reader.old)) }
{
    'chars: for c in text {
        put(reader, alloc, *c, sign_kind(kind, *c))?;
    }
    Ok(())
}

// Writes a formula, unless it is white.
fn put_formula(reader: &mut Reader, alloc: Global, formula: &[char]) -> Result<(), AllocError>
    ensures { OnOk result (reader_view reader.new
        ≡ put_formula formula.now (reader_view reader.old)) }
{
    if white_length(formula) != formula.len() {
        settle(reader, alloc, 0)?;
        push_formula(&mut reader.chars, formula)?;
    }
    Ok(())
}

// Counts a command.
fn count(reader: &mut Reader, alloc: Global, name: &[char]) -> Result<(), AllocError>
    ensures { OnOk result (reader_view reader.new ≡ count name.now (reader_view reader.old)) }
{
    let name = string_of(alloc, name)?;
    reader.counted.push(name)?;
    Ok(())
}

/// Writes what a token writes.
pub(crate) fn put_output(
    reader: &mut Reader,
    alloc: Global,
    output: Output<'_>,
) -> Result<(), AllocError>
    ensures { OnOk result (reader_view reader.new
        ≡ put_output (output_view output.entry) (reader_view reader.old)) }
{
    let kind = reader.inner.kind;
    match output {
        Output::Nothing => Ok(()),
        Output::One(c) => put(reader, alloc, c, kind),
        Output::Two(c, d) => {
            put(reader, alloc, c, kind)?;
            put(reader, alloc, d, kind)
        }
        Output::Sign(c) => put(reader, alloc, c, sign_kind(kind, c)),
        Output::Text(text) => put_text(reader, alloc, text, kind),
        Output::Formula(formula) => put_formula(reader, alloc, formula),
        Output::Counted(name) => count(reader, alloc, name),
        Output::Odd(c, name) => {
            put(reader, alloc, c, kind)?;
            count(reader, alloc, name)
        }
    }
}

fn enter(reader: &mut Reader, kind: Kind, last: Option<char>) -> Result<(), AllocError>
    ensures { OnOk result (reader_view reader.new ≡ enter kind last (reader_view reader.old)) }
{
    reader.outer.push(reader.inner)?;
    reader.inner = Group {
        kind,
        depth: 0,
        last,
    };
    Ok(())
}

fn wait(reader: &mut Reader, accent: Accent) -> Result<(), AllocError>
    ensures { OnOk result (reader_view reader.new ≡ wait accent (reader_view reader.old)) }
{
    let groups = reader.outer.len();
    reader.waiting.push((accent, reader.inner.kind, groups))?;
    Ok(())
}

fn leave(reader: &mut Reader)
    ensures { reader_view reader.new ≡ leave (reader_view reader.old) }
{
    if let Some(group) = reader.outer.pop() {
        reader.inner = group;
    }
}

fn put_last(reader: &mut Reader, alloc: Global, last: Option<char>) -> Result<(), AllocError>
    ensures { OnOk result (reader_view reader.new ≡ put_last last (reader_view reader.old)) }
{
    let kind = reader.inner.kind;
    match last {
        Some(c) => put(reader, alloc, c, kind),
        None => Ok(()),
    }
}

// Does what is to be done behind a group.
fn end_group(reader: &mut Reader, alloc: Global, group: Group) -> Result<(), AllocError>
    ensures { OnOk result (reader_view reader.new
        ≡ end_group (group_view group) (reader_view reader.old)) }
{
    put_last(reader, alloc, group.last)?;
    settle_inner(reader, alloc)
}

fn close(reader: &mut Reader, alloc: Global) -> Result<(), AllocError>
    ensures { OnOk result (reader_view reader.new ≡ close (reader_view reader.old)) }
{
    let group = reader.inner;
    if group.depth == 0 {
        leave(reader);
        end_group(reader, alloc, group)
    } else {
        reader.inner.depth -= 1;
        Ok(())
    }
}

/// Does what a token does with groups and accents.
pub(crate) fn take_turn(reader: &mut Reader, alloc: Global, turn: Turn) -> Result<(), AllocError>
    ensures { OnOk result (reader_view reader.new ≡ take_turn turn (reader_view reader.old)) }
{
    match turn {
        Turn::Stay => settle_inner(reader, alloc),
        Turn::Enter(kind, last) => enter(reader, kind, last),
        Turn::Open(depth) => {
            reader.inner.depth = depth;
            settle_inner(reader, alloc)
        }
        Turn::Close => {
            settle_inner(reader, alloc)?;
            close(reader, alloc)
        }
        Turn::Wait(accent) => wait(reader, accent),
        Turn::Under(accent, kind) => {
            wait(reader, accent)?;
            enter(reader, kind, None)
        }
    }
}
