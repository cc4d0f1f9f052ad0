//! Words at the beginning of a name that a list of persons may leave out: particles and articles.
ghost use Rattle.std.specs.Prelude.{◌≡◌, IfOk, IsTrue, option_map, string_bytes};
ghost use Rattle.std.specs.Cow.{cow_str_bytes};
ghost use Rattle.std.specs.Option.{option_copied};
ghost use Rattle.haya_people.specs.Particles.{folded, is_particle, name_particle};
ghost use Rattle.haya_people.specs.Particles.{name_without_particle, name_particles};
ghost use Rattle.haya_people.specs.Particles.{name_without_article};
ghost use Rattle.haya_people.specs.Person.{person_view};
ghost use Rattle.haya_people.specs.Tables.{texts, is_sorted_table};

use crate::Person;
use crate::table::is_listed;
use caseless::default_case_fold_str;
use haya_text::OutOfMemory;
use std::alloc::Global;
use std::borrow::CowStr;

impl Person {
    /// The particle that the name begins with, as `von der`: of the beginnings of the name that end
    /// before a blank, U+0020, the longest whose default case fold is in the table.
    pub fn name_particle(&self, alloc: Global, table: &[&str]) -> Result<Option<&str>, OutOfMemory>
        requires { IsTrue (is_sorted_table (texts table.now)) }
        ensures { IfOk result (λ particle.
            option_copied particle ≡ name_particle (texts table.now) (string_bytes self.now.name)) }
    {
        let mut name = self.name.as_str();
        'shorter: while let Some((beginning, _)) = name.rsplit_once(' ') {
            if is_particle(alloc, beginning, table)? {
                return Ok(Some(beginning));
            }
            name = beginning;
        }
        Ok(None)
    }

    /// The name without its particle and the white space behind that. The
    /// whole name where it has none.
    pub fn name_without_particle(&self, alloc: Global, table: &[&str]) -> Result<&str, OutOfMemory>
        requires { IsTrue (is_sorted_table (texts table.now)) }
        ensures { IfOk result (λ rest.
            rest.now ≡ name_without_particle (texts table.now) (string_bytes self.now.name)) }
    {
        let name = self.name.as_str();
        match self.name_particle(alloc, table)? {
            Some(particle) => Ok(name[particle.len()..].trim_start()),
            None => Ok(name),
        }
    }

    /// The prefix and the particle of the name with a blank between, or the one that is there.
    pub fn name_particles(
        &self,
        alloc: Global,
        table: &[&str],
    ) -> Result<Option<CowStr<'_>>, OutOfMemory>
        requires { IsTrue (is_sorted_table (texts table.now)) }
        ensures { IfOk result (λ particles.
            option_map cow_str_bytes particles
            ≡ name_particles (texts table.now) (person_view self.now)) }
    {
        let particle = self.name_particle(alloc, table)?;
        match (self.prefix.as_deref(), particle) {
            (Some(prefix), Some(particle)) => {
                let joined = format!(in alloc; "{prefix} {particle}")?;
                Ok(Some(CowStr::Owned(joined)))
            }
            (Some(only), None) | (None, Some(only)) => Ok(Some(CowStr::Borrowed(only))),
            (None, None) => Ok(None),
        }
    }

    /// The name without the article that it begins with, as `The`: what stands behind the
    /// first blank, where something does and what stands before it is in the table as
    /// written. Else the whole name.
    pub fn name_without_article(&self, table: &[&str]) -> &str
        requires { IsTrue (is_sorted_table (texts table.now)) }
        ensures { result.now ≡ name_without_article (texts table.now) (string_bytes self.now.name) }
    {
        match self.name.split_once(' ') {
            Some((article, rest)) if !rest.is_empty() && is_listed(table, article) => rest,
            _ => self.name.as_str(),
        }
    }
}

// Whether the text, in default case fold, is in the table.
fn is_particle(alloc: Global, text: &str, table: &[&str]) -> Result<bool, OutOfMemory>
    requires { IsTrue (is_sorted_table (texts table.now)) }
    ensures { IfOk result (λ is_one. is_one ≡ is_particle (texts table.now) text.now) }
{
    let fold = folded(alloc, text)?;
    Ok(is_listed(table, fold.as_str()))
}

// The text in default case fold.
#[tactic(auto, unfolding(crate::specs::Particles::folded))]
pub(crate) fn folded(alloc: Global, text: &str) -> Result<String, OutOfMemory>
    ensures { IfOk result (λ fold. string_bytes fold ≡ folded text.now) }
{
    Ok(default_case_fold_str(alloc, text)?)
}
