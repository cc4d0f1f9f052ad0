//! Look-ups from an entry: of works above it, and of persons who had a part in it.
ghost use Rattle.std.specs.Prelude.{◌≡◌, ◌∷◌, ◌++◌, [], IfOk, IfErr, OnOk, Some, map, unwrap_or};
ghost use Rattle.haya_entry.specs.Lookups.{IsAt, add_affiliated_persons, add_parent};
ghost use Rattle.haya_entry.specs.Lookups.{affiliated_with_role, collections, containers};
ghost use Rattle.haya_entry.specs.Lookups.{entries_of_type, first, full_path, is_full, lists_view};
ghost use Rattle.haya_entry.specs.Lookups.{pair_view, parents_passing, persons_of_role};
ghost use Rattle.haya_entry.specs.Names.{is_of_type};
ghost use Rattle.haya_entry.specs.ParentTypes.{container_types, is_collected};
ghost use Rattle.haya_entry.specs.Tree.{view};
ghost use Rattle.haya_people.specs.Person.{person_view};
ghost use Rattle.haya_people.specs.Roles.{role_view, roles_view};

use crate::{Entry, EntryType};
use haya_people::{Person, PersonRole, PersonsWithRoles};
use haya_text::OutOfMemory;
use std::alloc::Global;

// The types of the works that contain a work of this type, the most fitting first.
fn container_types(entry_type: EntryType) -> &'static [EntryType]
    ensures { result.now ≡ container_types entry_type }
{
    match entry_type {
        EntryType::Article => &[
            EntryType::Book,
            EntryType::Proceedings,
            EntryType::Conference,
            EntryType::Periodical,
            EntryType::Newspaper,
            EntryType::Blog,
            EntryType::Reference,
            EntryType::Web,
        ],
        EntryType::Anthos | EntryType::Chapter | EntryType::Case => &[
            EntryType::Book,
            EntryType::Anthology,
            EntryType::Reference,
            EntryType::Report,
        ],
        EntryType::Report => &[EntryType::Book, EntryType::Anthology],
        EntryType::Web => &[EntryType::Web],
        EntryType::Scene => &[
            EntryType::Audio,
            EntryType::Video,
            EntryType::Performance,
            EntryType::Artwork,
        ],
        EntryType::Post => &[EntryType::Thread, EntryType::Blog, EntryType::Web],
        EntryType::Thread => &[EntryType::Thread, EntryType::Web, EntryType::Blog],
        _ => &[],
    }
}

// Whether the collections of a work of this type are among its parents.
fn is_collected(entry_type: EntryType) -> bool
    ensures { result ≡ is_collected entry_type }
{
    matches!(
        entry_type,
        EntryType::Anthology
            | EntryType::Newspaper
            | EntryType::Performance
            | EntryType::Periodical
            | EntryType::Proceedings
            | EntryType::Book
            | EntryType::Reference
            | EntryType::Exhibition
    )
}

// Of lists of persons with their role, all persons with this role, in order.
fn persons_of_role<'a>(
    alloc: Global,
    lists: &'a [PersonsWithRoles],
    role: &PersonRole,
) -> Result<Vec<&'a Person>, OutOfMemory>
    ensures { IfOk result (λ persons. map (λ p. person_view p.now) persons.items
        ≡ persons_of_role (role_view role.now) (map roles_view lists.now)) }
{
    let mut persons = Vec::new(alloc);
    'lists: for list in lists {
        if list.role != *role {
            continue;
        }
        persons.extend(list.names.iter())?;
    }
    Ok(persons)
}

// Puts persons with their role behind the lists that are there. When out of memory they are handed
// back, and nothing has changed.
fn add_list(
    alloc: Global,
    lists: &mut Option<Vec<PersonsWithRoles>>,
    added: PersonsWithRoles,
) -> Result<(), PersonsWithRoles>
    ensures ok { OnOk result (lists_view lists.new
        ≡ Some (unwrap_or (lists_view lists.old) [] ++ roles_view added ∷ [])) }
    ensures same { IfErr result (λ _. lists_view lists.new ≡ lists_view lists.old) }
    ensures back { IfErr result (λ back. roles_view back ≡ roles_view added) }
{
    if let Some(lists) = lists {
        return match lists.push(added) {
            Ok(()) => Ok(()),
            Err(refused) => Err(refused.value),
        };
    }
    let mut first = Vec::new(alloc);
    match first.push(added) {
        Ok(()) => {
            *lists = Some(first);
            Ok(())
        }
        Err(refused) => Err(refused.value),
    }
}

impl Entry {
    /// The work that the entry appears in, a book for a chapter: the types of such works are tried
    /// in order, the most fitting first, and the answer is the first parent of the first type that
    /// some parent has. `None` where there is none.
    ///
    /// | Type of the entry | Types of its container |
    /// |---|---|
    /// | Article | Book, Proceedings, Conference, Periodical, Newspaper, Blog, Reference, Web |
    /// | Anthos, Chapter, Case | Book, Anthology, Reference, Report |
    /// | Report | Book, Anthology |
    /// | Web | Web |
    /// | Scene | Audio, Video, Performance, Artwork |
    /// | Post | Thread, Blog, Web |
    /// | Thread | Thread, Web, Blog |
    /// | any other | none |
    pub fn get_container(&self) -> Option<&Entry>
        ensures { IsAt (view self.now) (first (containers (view self.now))) result }
    {
        for kind in container_types(self.entry_type) {
            if let Some(container) = self.parent_of_type(*kind) {
                return Some(container);
            }
        }
        None
    }

    // The first parent of a type.
    fn parent_of_type(&self, kind: EntryType) -> Option<&Entry>
        ensures { IsAt (view self.now) (first (parents_passing (is_of_type kind) (view self.now)))
            result }
    {
        self.parents.iter().find(|parent| parent.entry_type == kind)
    }

    /// The work that collects this one with others, as an anthology does. For the types Anthology,
    /// Newspaper, Performance, Periodical, Proceedings, Book, Reference and Exhibition it is the
    /// first parent of the same type or of the type Anthology; for any other type it is the
    /// collection of the first parent that has one. `None` where there is none.
    pub fn get_collection(&self) -> Option<&Entry>
        ensures { IsAt (view self.now) (first (collections (view self.now))) result }
    {
        if is_collected(self.entry_type) {
            return self.parents.iter().find(|parent| {
                parent.entry_type == self.entry_type || parent.entry_type == EntryType::Anthology
            });
        }
        for parent in &self.parents {
            if let Some(collection) = parent.get_collection() {
                return Some(collection);
            }
        }
        None
    }

    /// The work that a part without a title of its own belongs to: while the entry is a Chapter or
    /// a Scene that has no title and has a parent, its first parent stands for it. Any other entry
    /// stands for itself.
    pub fn get_full(&self) -> &Entry
        ensures { IsAt (view self.now) (full_path (view self.now)) (Some result) }
    {
        let mut full = self;
        while !full.is_full() {
            match full.parents.first() {
                Some(parent) => full = parent,
                None => break,
            }
        }
        full
    }

    // Whether the entry stands for itself.
    fn is_full(&self) -> bool
        ensures { result ≡ is_full (view self.now) }
    {
        let is_part = matches!(self.entry_type, EntryType::Chapter | EntryType::Scene);
        !(is_part && self.title.is_none())
    }

    /// The entry itself if it has this type, otherwise the first above it that has, depth first: a
    /// parent and all that is above it come before the next parent. `None` where there is none.
    pub fn dfs_parent(&self, kind: EntryType) -> Option<&Entry>
        ensures { IsAt (view self.now) (first (entries_of_type kind (view self.now))) result }
    {
        if self.entry_type == kind {
            return Some(self);
        }
        for parent in &self.parents {
            if let Some(found) = parent.dfs_parent(kind) {
                return Some(found);
            }
        }
        None
    }

    /// The entry or the first work above it of the type `Original`, as `dfs_parent` finds it.
    pub fn get_original(&self) -> Option<&Entry>
        ensures { IsAt (view self.now)
            (first (entries_of_type EntryType.Original (view self.now))) result }
    {
        self.dfs_parent(EntryType::Original)
    }

    /// All affiliated persons with a role, in order.
    pub fn affiliated_with_role(
        &self,
        alloc: Global,
        role: PersonRole,
    ) -> Result<Vec<&Person>, OutOfMemory>
        ensures { IfOk result (λ persons. map (λ p. person_view p.now) persons.items
            ≡ affiliated_with_role (role_view role) (view self.now)) }
    {
        let lists = self.affiliated.as_deref().unwrap_or(&[]);
        persons_of_role(alloc, lists, &role)
    }

    /// Puts a work behind the parents that are there. When out of memory the work is handed back,
    /// and nothing has changed.
    pub fn add_parent(&mut self, parent: Entry) -> Result<(), Entry>
        ensures ok { OnOk result (view self.new ≡ add_parent (view parent) (view self.old)) }
        ensures same { IfErr result (λ _. view self.new ≡ view self.old) }
        ensures back { IfErr result (λ back. view back ≡ view parent) }
    {
        match self.parents.push(parent) {
            Ok(()) => Ok(()),
            Err(refused) => Err(refused.value),
        }
    }

    /// Puts persons with their role behind the affiliated persons that are there. When out of
    /// memory the persons and the role are handed back, and nothing has changed.
    pub fn add_affiliated_persons(
        &mut self,
        persons: (Vec<Person>, PersonRole),
    ) -> Result<(), (Vec<Person>, PersonRole)>
        ensures ok { OnOk result (view self.new
            ≡ add_affiliated_persons (pair_view persons) (view self.old)) }
        ensures same { IfErr result (λ _. view self.new ≡ view self.old) }
        ensures back { IfErr result (λ back. pair_view back ≡ pair_view persons) }
    {
        let alloc = *self.parents.allocator();
        let (names, role) = persons;
        match add_list(
            alloc,
            &mut self.affiliated,
            PersonsWithRoles::new(names, role),
        ) {
            Ok(()) => Ok(()),
            Err(back) => Err((back.names, back.role)),
        }
    }
}
