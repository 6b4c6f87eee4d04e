// Names that were given, by ids, and ids by such names.
ghost use Rattle.std.specs.Prelude.{◌≡◌, ◌∷◌, ◌++◌, [], OnOk, OnErr, None};
ghost use Rattle.std.specs.Option.{option_copied};
ghost use Rattle.cedar_named_sessions.specs.NameLists.{given_to, id_given, id_of, name_of, without};

use cedar_policy_parts::PolicyID;
use cedar_policy_set::policy_map::PolicyMap;
use std::alloc::{AllocError, Global};
use std::marker::Model;

/// The names that were given to what a session holds. Contracts see each behind the id of what has it, in the order in
/// which they were given.
#[derive(Drop)]
pub(crate) struct GivenNames {
    names: PolicyMap<PolicyID>,
    // the same entries, each the other way round
    ids: PolicyMap<PolicyID>,
}

impl Model for GivenNames {
    ghost use Rattle.std.specs.Prelude.{◌≡◌};
    ghost use Rattle.cedar_named_sessions.specs.NameLists.{Names, swapped};

    ghost Value = { Names };

    ghost view = { λ given. given.names };

    ghost invariant = { λ given. given.ids ≡ swapped given.names };
}

impl GivenNames {
    /// None were given. Takes no memory.
    pub(crate) fn new(alloc: Global) -> GivenNames
        ensures { result ≡ [] }
    {
        GivenNames {
            names: PolicyMap::new(alloc),
            ids: PolicyMap::new(alloc),
        }
    }

    /// The name that was given to what has this id, if one was.
    pub(crate) fn name(&self, id: &PolicyID) -> Option<&PolicyID>
        ensures { option_copied result ≡ given_to self.now id.now }
    {
        self.names.get(id)
    }

    /// The id of what was given this name, if anything was.
    pub(crate) fn id(&self, name: &PolicyID) -> Option<&PolicyID>
        ensures { option_copied result ≡ id_given self.now name.now }
    {
        self.ids.get(name)
    }

    /// The name of what has this id: the one that it was given, or the id.
    pub(crate) fn name_or_id<'n>(&'n self, id: &'n PolicyID) -> &'n PolicyID
        ensures { result.now ≡ name_of self.now id.now }
    {
        match self.name(id) {
            Some(name) => name,
            None => id,
        }
    }

    /// The id that a name stands for, if it stands for one.
    pub(crate) fn id_named<'n>(&'n self, name: &'n PolicyID) -> Option<&'n PolicyID>
        ensures { option_copied result ≡ id_of self.now name.now }
    {
        match self.id(name) {
            Some(id) => Some(id),
            None if self.name(name).is_some() => None,
            None => Some(name),
        }
    }

    /// Gives what has this id, and has no given name, a name that nothing else was given. Refused for memory alone; a
    /// refused call changes nothing.
    pub(crate) fn give(&mut self, id: &PolicyID, name: &PolicyID) -> Result<(), AllocError>
        requires unnamed { given_to self.old id.now ≡ None }
        requires free { id_given self.old name.now ≡ None }
        ensures given { OnOk result (self.new ≡ self.old ++ (id.now, name.now) ∷ []) }
        ensures err { OnErr result (self.new ≡ self.old) }
    {
        let (name_again, id_again) = (name.clone()?, id.clone()?);
        self.names.push(id.clone()?, name.clone()?)?;
        if let Err(error) = self.ids.push(name_again, id_again) {
            self.names.shift_remove(id);
            return Err(error);
        }
        Ok(())
    }

    /// What has this id has no given name any more.
    pub(crate) fn take_back(&mut self, id: &PolicyID)
        ensures { self.new ≡ without id.now self.old }
    {
        // The contract of `len` is what says that no name was given twice.
        let _count = self.ids.len();
        match self.names.shift_remove(id) {
            Some(name) => {
                self.ids.shift_remove(&name);
            }
            None => {}
        }
    }
}
