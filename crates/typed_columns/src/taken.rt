// The names that no further column may have.
ghost use Rattle.std.specs.Prelude.{◌≡◌, [], IfOk, OnOk};
ghost use Rattle.typed_trees.specs.Faults.{fault_where, first_with};
ghost use Rattle.typed_trees.specs.Items as spec;

use insertion_map::InsertionMap;
use mql_ast::Name;
use std::alloc::{AllocError, Global};
use std::marker::Model;
use typed_trees::{Faults, TypeKind};

/// The name of a column that is made, and where the text says it.
#[derive(Clone, Copy)]
pub(crate) struct Label<'a> {
    pub(crate) text: &'a str,
    pub(crate) at: u32,
}

impl<'a> Label<'a> {
    /// A name of the text.
    pub(crate) fn of(name: &'a Name) -> Label<'a>
        ensures text { result.text.now ≡ name.now.text }
        ensures at { result.at ≡ name.now.at }
    {
        Label {
            text: name.text.as_str(),
            at: name.at,
        }
    }
}

/// Names that are taken. Contracts see them in the order of their taking, each once.
#[derive(Drop)]
pub(crate) struct Taken<'a> {
    names: InsertionMap<&'a str, ()>,
}

impl<'a> Model for Taken<'a> {
    ghost use Rattle.std.specs.Prelude.{List, ℕ, map};

    ghost Value = { List (List ℕ) };

    ghost view = { λ taken. map (λ entry. entry.0.now) taken.names.entries };
}

impl<'a> Taken<'a> {
    /// No name is taken.
    pub(crate) fn none(alloc: Global) -> Taken<'a>
        ensures none { result ≡ [] }
    {
        Taken {
            names: InsertionMap::new(alloc),
        }
    }

    /// What no column is called: `time`.
    pub(crate) fn new(alloc: Global) -> Result<Taken<'a>, AllocError>
        ensures reserved { IfOk result (λ taken. taken ≡ spec.reserved_names) }
    {
        let mut taken = Taken::none(alloc);
        taken.take("time")?;
        Ok(taken)
    }

    /// Takes a name, and says whether it was taken before.
    pub(crate) fn take(&mut self, name: &'a str) -> Result<bool, AllocError>
        ensures taken { IfOk result (λ taken. taken ≡ spec.is_taken name.now self.old) }
        ensures names { OnOk result (self.new ≡ spec.with_name self.old name.now) }
    {
        Ok(self.names.insert(name, ())?.is_some())
    }

    /// Whether a name is taken.
    pub(crate) fn has(&self, name: &str) -> bool
        ensures taken { result ≡ spec.is_taken name.now self.now }
    {
        self.names.contains_key(name)
    }

    /// Takes a name, tells where it was taken before, and says so.
    pub(crate) fn tell(&mut self, name: Label<'a>, found: &mut Faults) -> Result<bool, AllocError>
        ensures taken { IfOk result (λ taken. taken ≡ spec.is_taken name.entry.text.now self.old) }
        ensures names { OnOk result (self.new ≡ spec.with_name self.old name.entry.text.now) }
        ensures faults { OnOk result (found.new.first ≡ first_with found.old.first
            (fault_where (spec.is_taken name.entry.text.now self.old) name.entry.at TypeKind.DuplicateColumn)) }
    {
        let before = self.take(name.text)?;
        found.tell_where(before, name.at, TypeKind::DuplicateColumn);
        Ok(before)
    }
}
