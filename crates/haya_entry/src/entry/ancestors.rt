//! Searches over the ancestors of an entry, level by level.
ghost use Rattle.std.specs.Prelude.{◌≡◌, ℕ, suc, ◌+◌, ◌-◌, ◌*◌, ◌<◌, ◌≤◌, List, [], ◌∷◌, Some};
ghost use Rattle.std.specs.Prelude.{length, option_map, slice_get};
ghost use Rattle.haya_entry.specs.Tree.{Tree, fields, parents, size, view};
ghost use Rattle.haya_entry.specs.Levels.{AsksAll, AsksAllWithin, ancestors, height, level};
ghost use Rattle.haya_entry.specs.Levels.{levels_from};
ghost use Rattle.haya_entry.specs.Lookups.{first_value};
ghost use Rattle.haya_entry.specs.Walks.{AsksWithin, IsReached, answer_of, levels_further};
ghost use Rattle.haya_values.specs.Url.{url_view};

use crate::{Entry, Steps};
use haya_time::Date;
use haya_values::QualifiedUrl;

// What a walk goes over: an entry behind a reference.
trait Node: Copy {
    ghost tree: { Self → Tree };

    fn parent_count(self) -> usize
        ensures { result ≡ length (parents (tree self)) };

    fn parent(self, place: usize) -> Self
        requires { place < length (parents (tree self)) }
        ensures { slice_get (parents (tree self)) place ≡ Some (tree result) };
}

impl<'e> Node for &'e Entry {
    ghost tree = { λ e. view e.now };

    fn parent_count(self) -> usize {
        self.parents().len()
    }

    fn parent(self, place: usize) -> &'e Entry {
        &self.parents()[place]
    }
}

// How far a walk goes: to the parents, or one level further than another.
#[derive(Drop)]
enum Depth<'a> {
    One,
    Next(&'a Depth<'a>),
}

// How a walk ended: no entry stands so far away, all that do were asked and none answered, or one
// answered.
enum Outcome<T> {
    Nobody,
    Asked,
    Answered(T),
}

// Asks the entry itself at no distance, otherwise its ancestors.
#[cycle(walk)]
fn ask<E: Node, T, F: FnMut(E) -> Option<T>>(
    node: E,
    depth: &Depth,
    f: &mut F,
    steps: &mut Steps,
) -> Outcome<T>
    requires { F.IsAlwaysCallable f.old }
    ensures callable { F.IsAlwaysCallable f.new }
    ensures asks { let paths = level (E.tree node) (levels_further depth.now) in
        AsksWithin E.tree F.step (E.tree node) f.old paths (answer_of result)
        f.new steps.old steps.new }
    ensures reached { IsReached result (level (E.tree node) (levels_further depth.now)) }
    ensures most { steps.new ≤ steps.old + size (E.tree node) }
{
    steps.tick();
    match depth {
        Depth::One => match f(node) {
            Some(answer) => Outcome::Answered(answer),
            None => Outcome::Asked,
        },
        Depth::Next(shallower) => walk(node, *shallower, f, steps),
    }
}

// Asks the ancestors at a depth, in order, until one answers.
#[cycle(walk)]
fn walk<E: Node, T, F: FnMut(E) -> Option<T>>(
    node: E,
    depth: &Depth,
    f: &mut F,
    steps: &mut Steps,
) -> Outcome<T>
    requires { F.IsAlwaysCallable f.old }
    ensures callable { F.IsAlwaysCallable f.new }
    ensures asks { let paths = level (E.tree node) (suc (levels_further depth.now)) in
        AsksWithin E.tree F.step (E.tree node) f.old paths (answer_of result)
        f.new steps.old steps.new }
    ensures reached { IsReached result (level (E.tree node) (suc (levels_further depth.now))) }
    ensures most { steps.new + 1 ≤ steps.old + size (E.tree node) }
{
    let mut is_reached = false;
    'parents: for place in 0..node.parent_count() {
        match ask(node.parent(place), depth, f, steps) {
            Outcome::Nobody => {}
            Outcome::Asked => is_reached = true,
            Outcome::Answered(answer) => return Outcome::Answered(answer),
        }
    }
    if is_reached {
        Outcome::Asked
    } else {
        Outcome::Nobody
    }
}

// Asks the ancestors at a depth and further away, until one answers.
fn walk_from<E: Node, T, F: FnMut(E) -> Option<T>>(
    node: E,
    depth: &Depth,
    f: &mut F,
    steps: &mut Steps,
) -> Option<T>
    requires callable { F.IsAlwaysCallable f.old }
    requires within { levels_further depth.now ≤ height (E.tree node) }
    ensures asks { let paths = levels_from (E.tree node) (suc (levels_further depth.now)) in
        AsksWithin E.tree F.step (E.tree node) f.old paths result f.new steps.old steps.new }
    ensures most { let x = E.tree node in
        steps.new ≤ steps.old + (height x + 1 - levels_further depth.now) * length (ancestors x) }
{
    match walk(node, depth, f, steps) {
        Outcome::Nobody => None,
        Outcome::Asked => walk_from(node, &Depth::Next(&*depth), f, steps),
        Outcome::Answered(answer) => Some(answer),
    }
}

impl Entry {
    /// What the first ancestor that answers makes of itself: the parents are asked in order, then
    /// all parents of these, and so on, each once, until `f` answers. `None` says that all were
    /// asked.
    pub fn map_parents<'a, T, F: FnMut(&'a Entry) -> Option<T> + Drop>(&'a self, f: F) -> Option<T>
        requires { F.IsAlwaysCallable f }
        ensures { AsksAll F.step (view self.now) f (ancestors (view self.now)) result }
    {
        self.map_parents_counted(f, &mut Steps::new())
    }

    /// The same. `steps` ticks once for each entry that a walk reaches: at least once for each call
    /// of `f`, and at most as often as the entry has ancestors, times their levels and one.
    pub fn map_parents_counted<'a, T, F: FnMut(&'a Entry) -> Option<T> + Drop>(
        &'a self,
        f: F,
        steps: &mut Steps,
    ) -> Option<T>
        requires { F.IsAlwaysCallable f }
        ensures asks { let x = view self.now in
            AsksAllWithin F.step x f (ancestors x) result steps.old steps.new }
        ensures most { let x = view self.now in
            steps.new ≤ steps.old + (height x + 1) * length (ancestors x) }
    {
        let mut f = f;
        walk_from(self, &Depth::One, &mut f, steps)
    }

    /// What the entry makes of itself, otherwise what the first ancestor that answers does.
    pub fn map<'a, T, F: FnMut(&'a Entry) -> Option<T> + Drop>(&'a self, f: F) -> Option<T>
        requires { F.IsAlwaysCallable f }
        ensures { let x = view self.now in AsksAll F.step x f ([] ∷ ancestors x) result }
    {
        let mut f = f;
        match f(self) {
            Some(answer) => Some(answer),
            None => self.map_parents(f),
        }
    }

    /// The date of the entry, otherwise of its first ancestor that has one: the parents are looked
    /// at in order, then all parents of these, and so on. `None` where none has a date.
    pub fn date_any(&self) -> Option<&Date>
        ensures { option_map (λ d. d.now) result
            ≡ first_value (λ t. (fields t).date) (view self.now) }
    {
        self.map(|entry| entry.date())
    }

    /// The address of the entry, otherwise of its first ancestor that has one, in the same order.
    /// `None` where none has an address.
    pub fn url_any(&self) -> Option<&QualifiedUrl>
        ensures { option_map (λ u. url_view u.now) result
            ≡ first_value (λ t. (fields t).url) (view self.now) }
    {
        self.map(|entry| entry.url())
    }
}
