// The policies that a session holds.
ghost use Rattle.std.specs.Prelude.{◌≡◌, List, IfOk, OnErr};
ghost use Rattle.std.specs.FinMap as finite;
ghost use Rattle.std.specs.Rc.{rc_str_bytes};
ghost use Rattle.cedar_world.specs.PolicyEdits.{Loads};
ghost use Rattle.cedar_grammar.specs.Syntax.{PolicySyntax};
ghost use Rattle.cedar_policy_set.specs.Texts.{text_entries, AreToldBySlots, NameNoUnknown};
ghost use Rattle.cedar_held.specs.PolicyWorlds.{policies_in};
ghost use Rattle.cedar_held.specs.LinkBodies.{link_of};
ghost use Rattle.cedar_held.specs.PolicyEdits.{LinksBody, UnlinksId, RemovesStatic, RemovesTemplate};
ghost use Rattle.cedar_held.specs.HoldingPolicies.{IsHeld, IsText};

use crate::LinkBody;
use crate::linking::link;
use crate::loading::load;
use crate::removing::{remove_static, remove_template, unlink};
use cedar_policy_parts::PolicyID;
use cedar_policy_set::sets::PolicySet;
use cedar_replies::Refusal;
use std::alloc::{AllocError, Global};
use std::marker::Model;
use std::rc::RcStr;

/// The policies, templates and links that a session holds: no condition names an unknown, by a call or
/// else, each template has slots, and no static policy has any. Contracts see them as the world does: what
/// each id is bound to, in no order, and of a link the id of its template. (Cedar language reference,
/// "Policies" and "Policy templates".)
#[derive(Drop)]
pub struct HeldPolicies {
    set: PolicySet,
}

impl Model for HeldPolicies {
    ghost use Rattle.cedar_world.specs.World as world;
    ghost use Rattle.cedar_held.specs.PolicyWorlds.{policies_in};
    ghost use Rattle.cedar_held.specs.HoldingPolicies.{IsHeld, policies_code};

    ghost Value = { world.Policies };

    ghost coded = { policies_code };

    ghost view = { λ held. policies_in held.set };

    ghost invariant = { λ held. IsHeld held.set };
}

impl HeldPolicies {
    /// No policies; takes no memory.
    pub fn new(alloc: Global) -> HeldPolicies
        ensures { result ≡ finite.empty }
    {
        HeldPolicies {
            set: PolicySet::new(alloc),
        }
    }

    /// The set of these policies.
    pub fn set(&self) -> &PolicySet
        ensures policies { policies_in result.now ≡ self.now }
        ensures slots { AreToldBySlots result.now }
        ensures names { NameNoUnknown result.now }
    {
        &self.set
    }

    /// Sees to it that a question finds the policies by what their scopes name, in place of looking at each. What
    /// was found so before stays, and what came since is added. Refused for memory alone; no policy changes either
    /// way, which is all that the contract promises.
    pub fn index(&mut self, alloc: Global) -> Result<(), AllocError>
        ensures { self.new ≡ self.old }
    {
        self.set.index_scopes(alloc)
    }

    /// Puts the policies of a text, each under its own number, to those that are held; answers the ids
    /// under which they now stand, in the text's order. A policy whose number is bound here to something
    /// else gets the next number that is free here and in the text. What comes is found by its scopes at once, as far as
    /// memory allows. Refused for memory alone, and then nothing changes.
    pub fn load(&mut self, alloc: Global, policies: PolicySet) -> Result<Vec<PolicyID>, AllocError>
        requires { IsText policies }
        ensures loaded { IfOk result (λ ids. (ss : List PolicySyntax) → policies ≡ text_entries 0 ss → Loads self.old ss ids.items self.new) }
        ensures err { OnErr result (self.new ≡ self.old) }
    {
        let ids = load(alloc, &mut self.set, &policies)?;
        // Where memory lacks for it, the next question sees to the rest.
        let _indexed = self.set.index_scopes(alloc);
        Ok(ids)
    }

    /// Binds the id of a body to the link that it states.
    ///
    /// It is refused `NoSuchTemplate` where the template's id isn't bound, `NotTemplate` where it is
    /// bound to something else, `Arity` where the entities aren't for exactly the template's slots,
    /// `IdConflict` where the link's id is bound, and `Memory` where there was none. The first of these
    /// that stands is answered, but that `Memory` may stand in place of any. A refused link changes
    /// nothing. (Cedar language reference, "Policy templates".)
    pub fn link(&mut self, alloc: Global, body: &LinkBody<'_>) -> Result<(), Refusal>
        ensures { LinksBody (link_of body.now) self.old result self.new }
    {
        link(alloc, &mut self.set, body)
    }

    /// Takes a link away.
    ///
    /// It is refused `NoSuchPolicy` where the id isn't bound, `NotLink` where it is bound to something
    /// else, and `Memory` where there was none. A refused call changes nothing.
    pub fn unlink(&mut self, id: &RcStr) -> Result<(), Refusal>
        ensures { UnlinksId (rc_str_bytes id.now) self.old result self.new }
    {
        unlink(&mut self.set, id)
    }

    /// Takes a static policy away.
    ///
    /// It is refused `NoSuchPolicy` where the id isn't bound, `NotStatic` where it is bound to something
    /// else, and `Memory` where there was none. A refused call changes nothing.
    pub fn remove_static(&mut self, id: &RcStr) -> Result<(), Refusal>
        ensures { RemovesStatic (rc_str_bytes id.now) self.old result self.new }
    {
        remove_static(&mut self.set, id)
    }

    /// Takes a template away that no link names.
    ///
    /// It is refused `NoSuchTemplate` where the id isn't bound, `NotTemplate` where it is bound to
    /// something else, `HasLinks` where a link names it, and `Memory` where there was none. A refused call
    /// changes nothing.
    pub fn remove_template(&mut self, id: &RcStr) -> Result<(), Refusal>
        ensures { RemovesTemplate (rc_str_bytes id.now) self.old result self.new }
    {
        remove_template(&mut self.set, id)
    }
}
