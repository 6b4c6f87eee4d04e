// What a session holds, lent.
ghost use Rattle.std.specs.Prelude.{◌≡◌, false, None, Some, IfOk, IfSome, IfNone, map};
ghost use Rattle.cedar_telling.specs.AskedNames.{has_name};
ghost use Rattle.cedar_entities.specs.Store.{held_at, is_partial_store, IsClosed};
ghost use Rattle.cedar_held.specs.PolicyWorlds.{policies_in};
ghost use Rattle.cedar_held.specs.Shown.{Shows};
ghost use Rattle.cedar_language.specs.Uid.{Text};
ghost use Rattle.cedar_policy_set.specs.Texts.{AreToldBySlots};
ghost use Rattle.cedar_telling.specs.Tells.{told_in};
ghost use Rattle.cedar_session.specs.Lending.{is_untold, told_of, IsResponse};
ghost use Rattle.cedar_session.specs.Owning.{owned_setting, owned_world};
ghost use Rattle.cedar_session.specs.PolicyReading.{ReadsPolicies};
ghost use Rattle.cedar_session.specs.Sessions.{setting_of, world_of, response_of};
ghost use Rattle.std.specs.Option.{option_map};

use crate::open_question::untold_of;
use crate::owned::OwnedSession;
use crate::policy_reading::read_policies;
use crate::session::Session;
use cedar_entities::store::Entities;
use cedar_evaluator::partial_response::PartialResponse;
use cedar_extensions::extensions::Extensions;
use cedar_extensions::objects::ExtensionFunctionObject;
use cedar_policy_set::sets::PolicySet;
use cedar_replies::Refusal;
use cedar_values::values::Value;
use std::alloc::AllocError;
use std::collections::BTreeMap;
use std::rc::RcStr;

impl<F: ExtensionFunctionObject> Session<'_, '_, F> {
    /// The policies, templates and links that are held. Those in force are its [`policies`](PolicySet::policies), each
    /// with its id, and [`get`](PolicySet::get) finds one. Takes no memory.
    pub fn policies(&self) -> &PolicySet
        ensures policies { policies_in result.now ≡ (world_of self.now).policies }
        ensures slots { AreToldBySlots result.now }
    {
        self.policies.set()
    }

    /// The entities that are held, each with all the ancestors that its parents reach; their attributes and tags are
    /// values. Takes no memory.
    pub fn entities(&self) -> &Entities
        ensures shows { Shows (held_at result.now) (world_of self.now).entities }
        ensures closed { IsClosed result.now }
        ensures whole { is_partial_store result.now ≡ false }
    {
        self.entities.store()
    }

    /// How the policies in force stood when the open question was asked: of each effect those that are satisfied, and
    /// those that are open, with what is left of them; and the errors. A policy in force that isn't among these isn't
    /// satisfied. None where no question is open. Takes no memory.
    pub fn response(&self) -> Option<&PartialResponse>
        ensures first { option_map (λ response. response.now) result ≡ response_of self.now }
        ensures response { IfSome result (λ response. IsResponse (setting_of self.now) (world_of self.now) response.now) }
        ensures none { IfNone result ((world_of self.now).asked ≡ None) }
    {
        match &self.asked {
            None => None,
            Some(asked) => Some(&asked.first),
        }
    }

    /// The names for which the open question wants values that aren't told, lent, each once at least and in no order:
    /// those of its context's unknowns, and `principal`, `action`, `resource` and `context` where it leaves them out. None
    /// where no question is open. Refused for want of memory for their list alone.
    pub fn untold(&self) -> Result<Vec<&str>, AllocError>
        ensures { IfOk result (λ names. (n : Text) → has_name (map (λ n. n.now) names.items) n ≡ is_untold (world_of self.now).asked n) }
    {
        match &self.asked {
            None => Ok(Vec::new(self.allocator())),
            Some(asked) => untold_of(self.allocator(), asked),
        }
    }

    /// What the open question was told since it was asked, by names. None where no question is open. Takes no memory.
    pub fn told(&self) -> Option<&BTreeMap<RcStr, Value>>
        ensures { option_map (λ told. told_in told.now.entries) result ≡ option_map told_of (world_of self.now).asked }
    {
        match &self.asked {
            None => None,
            Some(asked) => Some(&asked.told),
        }
    }
}

impl<'f, F: ExtensionFunctionObject> OwnedSession<'f, F> {
    /// The functions that its texts may call.
    pub fn extensions(&self) -> &Extensions<'f, F>
        ensures { result.now ≡ self.now.extensions }
    {
        &self.extensions
    }

    /// Its limit of depth.
    pub fn depth(&self) -> u32
        ensures { result ≡ (owned_setting self.now).depth }
    {
        self.depth
    }

    /// The policies, templates and links that are held, as [`Session::policies`] lends them.
    pub fn policies(&self) -> &PolicySet
        ensures policies { policies_in result.now ≡ (owned_world self.now).policies }
        ensures slots { AreToldBySlots result.now }
    {
        self.held.policies.set()
    }

    /// The policies and templates of a text under `policy0`, `policy1`, .. in its order, as [`Session::load`] reads
    /// them; nothing changes. It is refused `Text`, `Depth` and `Memory` as that is.
    pub fn read_policies(&mut self, text: &str) -> Result<PolicySet, Refusal>
        ensures policies { ReadsPolicies (owned_setting self.old) text.now result }
        ensures world { owned_world self.new ≡ owned_world self.old }
        ensures setting { owned_setting self.new ≡ owned_setting self.old }
    {
        read_policies(
            self.allocator,
            text,
            &mut self.held.names,
            &self.extensions,
            self.depth,
        )
    }

    /// The entities that are held, as [`Session::entities`] lends them.
    pub fn entities(&self) -> &Entities
        ensures shows { Shows (held_at result.now) (owned_world self.now).entities }
        ensures closed { IsClosed result.now }
        ensures whole { is_partial_store result.now ≡ false }
    {
        self.held.entities.store()
    }

    /// The names for which the open question wants values that aren't told, as [`Session::untold`] lends them. Refused
    /// for want of memory for their list alone.
    pub fn untold(&self) -> Result<Vec<&str>, AllocError>
        ensures { IfOk result (λ names. (n : Text) → has_name (map (λ n. n.now) names.items) n ≡ is_untold (owned_world self.now).asked n) }
    {
        match &self.held.asked {
            None => Ok(Vec::new(self.allocator)),
            Some(asked) => untold_of(self.allocator, asked),
        }
    }

    /// What the open question was told, as [`Session::told`] lends it.
    pub fn told(&self) -> Option<&BTreeMap<RcStr, Value>>
        ensures { option_map (λ told. told_in told.now.entries) result ≡ option_map told_of (owned_world self.now).asked }
    {
        match &self.held.asked {
            None => None,
            Some(asked) => Some(&asked.told),
        }
    }
}
