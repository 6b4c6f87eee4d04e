// The names of policies.
ghost use Rattle.std.specs.Prelude.{◌≡◌, ◌++◌, ◌∷◌, [], cond, map, string_bytes, IfOk, OnOk, IsTrue};
ghost use Rattle.cedar_language.specs.Order.{same_text};
ghost use Rattle.cedar_language.specs.Uid.{Text};
ghost use Rattle.cedar_authorization_calls.specs.Naming.{named, names_at};

use cedar_policy_parts::PolicyID;
use std::alloc::{AllocError, Global};
use std::collections::BTreeMap;

/// The names under which policies, templates and links are told, and the ids under which a session holds them. An id may have several
/// names, since a session holds the same policy once.
#[derive(Drop)]
pub struct Names {
    by_id: BTreeMap<PolicyID, Vec<String>>,
    by_name: BTreeMap<String, PolicyID>,
}

impl Names {
    /// No names; takes no memory.
    pub fn new(alloc: Global) -> Names
        ensures { (id : Text) → names_at result id ≡ [] }
    {
        Names {
            by_id: BTreeMap::new(alloc),
            by_name: BTreeMap::new(alloc),
        }
    }

    /// The id that has a name, if one has.
    pub fn id_of(&self, name: &str) -> Option<&PolicyID> {
        self.by_name.get(name)
    }

    /// The names of an id, in the order in which they were given.
    pub fn at(&self, id: &PolicyID) -> &[String]
        ensures { map string_bytes result.now ≡ names_at self.now id.now }
    {
        match self.by_id.get(id) {
            Some(names) => names,
            None => &[],
        }
    }

    /// Gives an id one more name, which no id has. Refused for memory alone.
    pub fn add(&mut self, alloc: Global, id: &PolicyID, name: &str) -> Result<(), AllocError>
        ensures { OnOk result ((q : Text) → names_at self.new q
            ≡ cond (same_text id.now q) (names_at self.old q ++ name.now ∷ []) (names_at self.old q)) }
    {
        let owned = String::from_str(alloc, name)?;
        self.by_name.insert(owned, id.clone()?)?;
        self.list(alloc, id, String::from_str(alloc, name)?)
    }

    fn list(&mut self, alloc: Global, id: &PolicyID, name: String) -> Result<(), AllocError>
        ensures { OnOk result ((q : Text) → names_at self.new q
            ≡ cond (same_text id.now q) (names_at self.old q ++ string_bytes name ∷ []) (names_at self.old q)) }
    {
        match self.by_id.get_mut(id) {
            Some(names) => Ok(names.push(name)?),
            None => self.list_first(alloc, id, name),
        }
    }

    /// The same where the id has no name yet.
    fn list_first(&mut self, alloc: Global, id: &PolicyID, name: String) -> Result<(), AllocError>
        requires { names_at self.old id.now ≡ [] }
        ensures { OnOk result ((q : Text) → names_at self.new q
            ≡ cond (same_text id.now q) (names_at self.old q ++ string_bytes name ∷ []) (names_at self.old q)) }
    {
        let key = PolicyID::from_string(alloc, id.as_str())?;
        let mut names = Vec::new(alloc);
        names.push(name)?;
        self.by_id.insert(key, names)?;
        Ok(())
    }

    /// Appends the names of an id.
    fn push_at<'n>(&'n self, told: &mut Vec<&'n str>, id: &PolicyID) -> Result<(), AllocError>
        ensures { OnOk result (map (λ n. n.now) told.new.items ≡ map (λ n. n.now) told.old.items ++ names_at self.now id.now) }
    {
        push_all(told, self.at(id))
    }

    /// The names of these ids, in their order.
    pub(crate) fn told<'n>(
        &'n self,
        alloc: Global,
        ids: &[PolicyID],
    ) -> Result<Vec<&'n str>, AllocError>
        ensures { IfOk result (λ told. map (λ n. n.now) told.items ≡ named self.now ids.now) }
    {
        let mut told = Vec::new(alloc);
        for id in ids {
            self.push_at(&mut told, id)?;
        }
        Ok(told)
    }
}

/// Appends these names.
fn push_all<'n>(told: &mut Vec<&'n str>, names: &'n [String]) -> Result<(), AllocError>
    ensures { OnOk result (map (λ n. n.now) told.new.items ≡ map (λ n. n.now) told.old.items ++ map string_bytes names.now) }
{
    for name in names {
        told.push(name.as_str())?;
    }
    Ok(())
}
