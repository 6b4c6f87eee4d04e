// The numbers of actions.
ghost use Rattle.std.specs.Prelude.{◌≡◌, [], ◌++◌, Some, None, cond, map, IfOk, OnOk, option_to_list};
ghost use Rattle.std.specs.Rc.{rc_str_bytes};
ghost use Rattle.std.specs.BTreeMap.{is_at};
ghost use Rattle.cedar_language.specs.Uid.{Uid};
ghost use Rattle.cedar_language.specs.Order.{uid_cmp};
ghost use Rattle.cedar_schema_syntax.specs.View.{path_view, ref_view};
ghost use Rattle.cedar_schema_resolution.specs.Declarations.{action_view};
ghost use Rattle.cedar_schema_faults.specs.Actions.{number_at, number_by_path, named_number, number_for, group_numbers, groups_in, HaveNumbers};

use crate::uids::{ActionUid, action_path};
use cedar_names::texts::SharedText;
use cedar_schema::TypeName;
use cedar_schema_resolution::DeclaredAction;
use cedar_schema_syntax::{ActionRef, Path};
use std::alloc::{AllocError, Global};
use std::collections::BTreeMap;
use std::rc::RcStr;

/// The numbers of the actions that are declared, by their uids: the first's where one is declared twice.
#[derive(Drop)]
pub struct ActionNumbers {
    by_uid: BTreeMap<ActionUid, usize>,
}

impl ActionNumbers {
    /// The numbers of these. Refused for memory alone.
    pub fn of(alloc: Global, actions: &[DeclaredAction<'_>]) -> Result<ActionNumbers, AllocError>
        ensures { IfOk result (HaveNumbers (map action_view actions.now)) }
    {
        let mut numbers = ActionNumbers::new(alloc);
        for number in (0..actions.len()).rev() {
            let uid = ActionUid::of(alloc, &actions[number])?;
            numbers.put(uid, number)?;
        }
        Ok(numbers)
    }

    // No numbers.
    fn new(alloc: Global) -> ActionNumbers
        ensures { (u : Uid) → number_at result u ≡ None }
    {
        ActionNumbers {
            by_uid: BTreeMap::new(alloc),
        }
    }

    // Puts the number of an action.
    fn put(&mut self, uid: ActionUid, number: usize) -> Result<(), AllocError>
        ensures { OnOk result ((u : Uid) → number_at self.new u
            ≡ cond (is_at (uid_cmp uid) u) (Some number) (number_at self.old u)) }
    {
        self.by_uid.insert(uid, number)?;
        Ok(())
    }

    /// The number of the action of this uid, if one is declared.
    pub fn number_of(&self, uid: &ActionUid) -> Option<usize>
        ensures { result ≡ number_at self.now uid.now }
    {
        match self.by_uid.get(uid) {
            Some(number) => Some(*number),
            None => None,
        }
    }

    // The number of the action of a type and an id.
    fn number_in(&self, type_name: TypeName, id: &RcStr) -> Result<Option<usize>, AllocError>
        ensures { IfOk result (λ number. number ≡ number_by_path self.now (rc_str_bytes id.now) type_name) }
    {
        let uid = ActionUid::new(type_name, SharedText::new(id.clone()?));
        Ok(self.number_of(&uid))
    }

    // The number of the action that an id stands for with the path of a type in a namespace.
    fn number_by(
        &self,
        alloc: Global,
        namespace: &[SharedText],
        path: &Path,
        id: &RcStr,
    ) -> Result<Option<usize>, AllocError>
        ensures { IfOk result (λ number. number ≡ named_number self.now namespace.now (path_view path.now) (rc_str_bytes id.now)) }
    {
        if path.words.len() != 1 {
            return self.number_in(TypeName::from_path(alloc, path)?, id);
        }
        match self.number_in(TypeName::within(alloc, namespace, path)?, id)? {
            Some(number) => Ok(Some(number)),
            None => self.number_in(TypeName::from_path(alloc, path)?, id),
        }
    }

    /// The number of the action that a reference stands for in a namespace, if one is declared. Refused for memory alone.
    /// (Cedar language reference, "Schema", actions.)
    pub fn named(
        &self,
        alloc: Global,
        namespace: &[SharedText],
        reference: &ActionRef,
    ) -> Result<Option<usize>, AllocError>
        ensures { IfOk result (λ number. number ≡ number_for self.now namespace.now (ref_view reference.now)) }
    {
        match &reference.type_name {
            Some(path) => self.number_by(alloc, namespace, path, &reference.name),
            None => {
                let path = action_path(alloc)?;
                self.number_by(alloc, namespace, &path, &reference.name)
            }
        }
    }

    // Puts the number of a group, if it is declared.
    fn add_group(
        &self,
        alloc: Global,
        namespace: &[SharedText],
        reference: &ActionRef,
        groups: &mut Vec<usize>,
    ) -> Result<(), AllocError>
        ensures { OnOk result (groups.new.items
            ≡ groups.old.items ++ option_to_list (number_for self.now namespace.now (ref_view reference.now))) }
    {
        if let Some(number) = self.named(alloc, namespace, reference)? {
            groups.push(number)?;
        }
        Ok(())
    }

    // The numbers of the groups that references stand for in a namespace, so far as they are declared.
    fn all_named(
        &self,
        alloc: Global,
        namespace: &[SharedText],
        references: &[ActionRef],
    ) -> Result<Vec<usize>, AllocError>
        ensures { IfOk result (λ groups. groups.items ≡ group_numbers self.now namespace.now (map ref_view references.now)) }
    {
        let mut groups = Vec::new(alloc);
        for reference in references {
            self.add_group(alloc, namespace, reference, &mut groups)?;
        }
        Ok(groups)
    }

    /// The numbers of the groups that an action is in, so far as they are declared. Refused for memory alone.
    pub fn groups(
        &self,
        alloc: Global,
        action: &DeclaredAction<'_>,
    ) -> Result<Vec<usize>, AllocError>
        ensures { IfOk result (λ groups. groups.items ≡ groups_in self.now (action_view action.now)) }
    {
        self.all_named(alloc, action.namespace.words(), &action.written.groups)
    }

    /// Of each action the numbers of the groups that it is in. Refused for memory alone.
    pub fn all_groups(
        &self,
        alloc: Global,
        actions: &[DeclaredAction<'_>],
    ) -> Result<Vec<Vec<usize>>, AllocError>
        ensures { IfOk result (λ all. map (λ row. row.items) all.items ≡ map (groups_in self.now) (map action_view actions.now)) }
    {
        let mut all = Vec::with_capacity(alloc, actions.len())?;
        for action in actions {
            all.push(self.groups(alloc, action)?)?;
        }
        Ok(all)
    }
}
