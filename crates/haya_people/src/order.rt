//! The orders of persons: by all parts of their names, and that of lists in a style.
ghost use Rattle.std.specs.Prelude.{◌≡◌, ℕ, Bool, true, false, IfOk, IsTrue, map, option_map};
ghost use Rattle.std.specs.Prelude.{string_bytes};
ghost use Rattle.std.specs.Cmp.Lexicographic.{slice_cmp};
ghost use Rattle.std.specs.List.{IsAnyAnswer};
ghost use Rattle.std.specs.Option.{option_copied};
ghost use Rattle.std.specs.Str.{chars};
ghost use Rattle.haya_people.specs.Orders.{person_cmp, name_characters, cjk_parts, plain_parts};
ghost use Rattle.haya_people.specs.Orders.{demoted_parts, split_parts, first_difference, pair_cmp};
ghost use Rattle.haya_people.specs.Orders.{parts_cmp, csl_cmp, csl_cmp_by, is_cjk, IsCslOrder};
ghost use Rattle.haya_people.specs.Orders.{AnswersAs};
ghost use Rattle.haya_people.specs.Particles.{folded};
ghost use Rattle.haya_people.specs.Person.{person_view};
ghost use Rattle.haya_people.specs.Tables.{texts, is_sorted_table};

use crate::Person;
use crate::particles::folded;
use haya_text::{LongShortForm, OutOfMemory};
use std::alloc::Global;
use std::cmp::Ordering;

impl Ord for Person {
    ghost use Rattle.std.specs.Prelude.{refl};
    ghost use Rattle.std.specs.Ordering.{on};
    ghost use Rattle.haya_people.specs.PersonOrder.{persons_total, persons_tie};

    ghost cmp = { on person_view person_cmp };

    ghost total = { persons_total };

    ghost matches_partial_cmp = { λ x y. refl };

    ghost matches_eq = { persons_tie };

    /// By name, given name, suffix, prefix, `comma_suffix` and alias, each as it is: texts by their
    /// bytes, a missing one first.
    fn cmp(&self, other: &Person) -> Ordering {
        self.name
            .cmp(&other.name)
            .then_with(|| self.given_name.cmp(&other.given_name))
            .then_with(|| self.suffix.cmp(&other.suffix))
            .then_with(|| self.prefix.cmp(&other.prefix))
            .then_with(|| self.comma_suffix.cmp(&other.comma_suffix))
            .then_with(|| self.alias.cmp(&other.alias))
    }
}

impl PartialOrd for Person {
    ghost use Rattle.std.specs.Cmp.{po};
    ghost use Rattle.std.specs.Ordering.{as_partial_cmp, on};
    ghost use Rattle.haya_people.specs.PersonOrder.{persons_total, persons_tie};

    ghost partial_cmp = { as_partial_cmp (on person_view person_cmp) };

    ghost laws = { po persons_total persons_tie };

    /// The same as `cmp`: any two persons are in order.
    fn partial_cmp(&self, other: &Person) -> Option<Ordering> {
        Some(self.cmp(other))
    }
}

impl Person {
    /// Whether the predicate says yes to some character of the name or of the given name. It is
    /// asked in order, up to the first yes.
    pub fn is_cjk<P: Fn(char) -> bool>(&self, pred: P) -> bool
        requires { P.IsAlwaysCallable pred }
        ensures answer { IsAnyAnswer (P.post pred) (name_characters (person_view self.now)) result }
        ensures tested { (test : ℕ → Bool) → AnswersAs (P.post pred) test →
            result ≡ is_cjk test (person_view self.now) }
    {
        is_cjk(self, &pred)
    }

    /// The order of the lists of a style (CSL). Names that are CJK, by the predicate, come last.
    /// Two CJK names go by name and, in the long form, then by given name. Two other names go by
    /// name, prefix, given name and suffix; with a demoted particle by the name without it, prefix
    /// and particle, given name and suffix. Parts are compared in default case fold, by their
    /// bytes, a missing one first.
    pub fn csl_cmp<P: Fn(char) -> bool>(
        &self,
        alloc: Global,
        other: &Person,
        form: LongShortForm,
        demote_particle: bool,
        table: &[&str],
        pred: P,
    ) -> Result<Ordering, OutOfMemory>
        requires callable { P.IsAlwaysCallable pred }
        requires sorted { IsTrue (is_sorted_table (texts table.now)) }
        ensures answer { IfOk result (IsCslOrder (P.post pred) form demote_particle
            (texts table.now) (person_view self.now) (person_view other.now)) }
        ensures tested { (test : ℕ → Bool) → AnswersAs (P.post pred) test → IfOk result (λ order.
            order ≡ csl_cmp_by test form demote_particle
            (texts table.now) (person_view self.now) (person_view other.now)) }
    {
        let are_cjk = (is_cjk(self, &pred), is_cjk(other, &pred));
        self.told_cmp(alloc, other, are_cjk, form, demote_particle, table)
    }

    // The same where it is told whether each of the two names is CJK.
    fn told_cmp(
        &self,
        alloc: Global,
        other: &Person,
        are_cjk: (bool, bool),
        form: LongShortForm,
        demote_particle: bool,
        table: &[&str],
    ) -> Result<Ordering, OutOfMemory>
        requires { IsTrue (is_sorted_table (texts table.now)) }
        ensures { IfOk result (λ order.
            order ≡ csl_cmp form demote_particle (texts table.now)
            (are_cjk.0, person_view self.now) (are_cjk.1, person_view other.now)) }
    {
        match are_cjk {
            (true, true) => self.cjk_cmp(alloc, other, form),
            (false, false) if demote_particle => self.demoted_cmp(alloc, other, table),
            (false, false) => self.plain_cmp(alloc, other),
            (mine, theirs) => Ok(mine.cmp(&theirs)),
        }
    }

    // Two CJK names.
    fn cjk_cmp(
        &self,
        alloc: Global,
        other: &Person,
        form: LongShortForm,
    ) -> Result<Ordering, OutOfMemory>
        ensures { IfOk result (λ order.
            order ≡ parts_cmp (cjk_parts form (person_view self.now))
            (cjk_parts form (person_view other.now))) }
    {
        let name = (Some(self.name.as_str()), Some(other.name.as_str()));
        match form {
            LongShortForm::Long => {
                let given_name = (self.given_name.as_deref(), other.given_name.as_deref());
                first_difference(alloc, &[name, given_name])
            }
            LongShortForm::Short => first_difference(alloc, &[name]),
        }
    }

    // Two names that aren't CJK, with their particles where they stand.
    fn plain_cmp(&self, alloc: Global, other: &Person) -> Result<Ordering, OutOfMemory>
        ensures { IfOk result (λ order.
            order ≡ parts_cmp (plain_parts (person_view self.now))
            (plain_parts (person_view other.now))) }
    {
        let name = (self.name.as_str(), other.name.as_str());
        let prefix = (self.prefix.as_deref(), other.prefix.as_deref());
        self.split_cmp(alloc, other, name, prefix)
    }

    // Two names that aren't CJK, with their particles demoted.
    fn demoted_cmp(
        &self,
        alloc: Global,
        other: &Person,
        table: &[&str],
    ) -> Result<Ordering, OutOfMemory>
        requires { IsTrue (is_sorted_table (texts table.now)) }
        ensures { IfOk result (λ order.
            order ≡ parts_cmp (demoted_parts (texts table.now) (person_view self.now))
            (demoted_parts (texts table.now) (person_view other.now))) }
    {
        let mine = self.name_without_particle(alloc, table)?;
        let theirs = other.name_without_particle(alloc, table)?;
        let my_particles = self.name_particles(alloc, table)?;
        let their_particles = other.name_particles(alloc, table)?;
        let particles = (my_particles.as_deref(), their_particles.as_deref());
        self.split_cmp(alloc, other, (mine, theirs), particles)
    }

    // By these names and particles, and then by given name and suffix.
    fn split_cmp(
        &self,
        alloc: Global,
        other: &Person,
        names: (&str, &str),
        particles: (Option<&str>, Option<&str>),
    ) -> Result<Ordering, OutOfMemory>
        ensures { IfOk result (λ order. order ≡ parts_cmp
            (split_parts names.entry.0.now (option_copied particles.entry.0) (person_view self.now))
            (split_parts names.entry.1.now (option_copied particles.entry.1)
            (person_view other.now))) }
    {
        let names = (Some(names.0), Some(names.1));
        let given_name = (self.given_name.as_deref(), other.given_name.as_deref());
        let suffix = (self.suffix.as_deref(), other.suffix.as_deref());
        first_difference(alloc, &[names, particles, given_name, suffix])
    }
}

// Whether the predicate says yes to some character of the name or of the given name.
fn is_cjk<P: Fn(char) -> bool>(person: &Person, pred: &P) -> bool
    requires { P.IsAlwaysCallable pred.now }
    ensures { IsAnyAnswer (P.post pred.now) (name_characters (person_view person.now)) result }
{
    let given_name = person.given_name.as_deref().unwrap_or("");
    some_char(person.name.as_str(), pred) || some_char(given_name, pred)
}

// Whether the predicate says yes to some character of the text.
fn some_char<P: Fn(char) -> bool>(text: &str, pred: &P) -> bool
    requires { P.IsAlwaysCallable pred.now }
    ensures { IsAnyAnswer (P.post pred.now) (chars text.now) result }
{
    text.chars().any(|c| pred(c))
}

// The first difference of two parts, of all pairs of them.
fn first_difference(
    alloc: Global,
    pairs: &[(Option<&str>, Option<&str>)],
) -> Result<Ordering, OutOfMemory>
    ensures { IfOk result (λ order. order ≡ first_difference (map pair_cmp pairs.now)) }
{
    for (mine, theirs) in pairs {
        let order = folded_cmp(alloc, *mine, *theirs)?;
        if order.is_ne() {
            return Ok(order);
        }
    }
    Ok(Ordering::Equal)
}

// Two parts in default case fold, by their bytes; a missing one comes first.
fn folded_cmp(
    alloc: Global,
    mine: Option<&str>,
    theirs: Option<&str>,
) -> Result<Ordering, OutOfMemory>
    ensures { IfOk result (λ order. order ≡ pair_cmp (mine.entry, theirs.entry)) }
{
    match (mine, theirs) {
        (Some(mine), Some(theirs)) => {
            let mine = folded(alloc, mine)?;
            let theirs = folded(alloc, theirs)?;
            Ok(mine.cmp(&theirs))
        }
        _ => Ok(mine.is_some().cmp(&theirs.is_some())),
    }
}
