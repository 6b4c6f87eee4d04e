// Actions by their uids.
ghost use Rattle.std.specs.Prelude.{◌≡◌, [], map, IfOk, OnOk, option_map};
ghost use Rattle.std.specs.Option.{option_copied};
ghost use Rattle.cedar_schema_grammar.specs.Declared.{Library, Declared};
ghost use Rattle.cedar_schema_resolution.specs.Declarations.{action_view};
ghost use Rattle.cedar_validator_schema.specs.Applying.{application_view};
ghost use Rattle.cedar_validator_schema.specs.Actions.{application_at, HasActions, PutsAction, AreActions};

use crate::action_names::ActionNames;
use crate::applying::{ValidatorAction, application_of};
use crate::hierarchies::Hierarchy;
use cedar_schema::TypeTable;
use cedar_schema_resolution::{DeclaredAction, EntityNames, Uid};
use std::alloc::{AllocError, Global};
use std::collections::BTreeMap;

/// What the names in declarations stand for: entity types, actions, and types by a table in which common types are resolved.
#[derive(Clone, Copy)]
pub(crate) struct DeclaredNames<'n> {
    pub(crate) entities: &'n EntityNames,
    pub(crate) actions: &'n ActionNames,
    pub(crate) table: &'n TypeTable,
}

/// The actions that are declared, by their uids: of two of a uid the first.
#[derive(Drop)]
pub(crate) struct Actions {
    pub(crate) by_uid: BTreeMap<Uid, ValidatorAction>,
    /// The groups that they are in.
    pub(crate) groups: Hierarchy<Uid>,
}

impl Actions {
    /// Those that are declared. Refused for memory alone.
    pub(crate) fn of(
        alloc: Global,
        names: DeclaredNames<'_>,
        declared: &[DeclaredAction<'_>],
    ) -> Result<Actions, AllocError>
        ensures { IfOk result (AreActions names.entry (map action_view declared.now)) }
    {
        let mut actions = Actions::new(alloc);
        for number in (0..declared.len()).rev() {
            actions.put(alloc, names, &declared[number])?;
        }
        Ok(actions)
    }

    // No actions.
    fn new(alloc: Global) -> Actions
        ensures { (d : Declared) (l : Library) → HasActions d l [] result }
    {
        Actions {
            by_uid: BTreeMap::new(alloc),
            groups: Hierarchy::new(alloc),
        }
    }

    // Puts one, over another of its uid.
    fn put(
        &mut self,
        alloc: Global,
        names: DeclaredNames<'_>,
        action: &DeclaredAction<'_>,
    ) -> Result<(), AllocError>
        ensures { OnOk result (PutsAction names.entry (action_view action.now) self.old self.new) }
    {
        let uid = Uid::of(alloc, action)?;
        let copy = uid.clone()?;
        let groups = names.actions.groups_of(alloc, action)?;
        let application = application_of(alloc, names.entities, names.table, action)?;
        self.by_uid.insert(uid, application)?;
        self.groups.set(copy, groups)?;
        Ok(())
    }

    /// What an action applies to, if it is declared.
    pub(crate) fn get(&self, uid: &Uid) -> Option<&ValidatorAction>
        ensures { option_map application_view (option_copied result) ≡ application_at self.now uid.now }
    {
        self.by_uid.get(uid)
    }
}
