// Which policies the questions of tests try.
ghost use Rattle.std.specs.Prelude.{◌≡◌, ◌||◌, ◌++◌, ◌∷◌, [], List, string_bytes, IfOk, OnOk};
ghost use Rattle.cedar_evaluator.specs.declared.partial_response.PartialResponse.{PartialResponse as Response};
ghost use Rattle.cedar_session.specs.Settings.{setting_with};
ghost use Rattle.cedar_messages.specs.Telling.{Adds, TellsEach};
ghost use Rattle.cedar_authoring.specs.Covering.{Keeps, TellsCovered, gap_of};
ghost use Rattle.cedar_authoring.specs.Scripts.{Went};

use crate::origins::Origin;
use crate::past::Past;
use crate::running::{Outcome, run_witnessed};
use crate::scopes::{Asker, is_in_scope};
use crate::standing::{Standing, Standings, is_satisfied};
use crate::witness::Witness;
use cedar_extensions::objects::ExtensionFunctionObject;
use cedar_messages::telling::heading;
use cedar_policies::policies::Policy;
use cedar_policy_set::policy_map::PolicyMap;
use cedar_refusals::checking::DEPTH;
use cedar_scripts::{Step, Test};
use cedar_session::{Extensions, PartialResponse, PolicyID, Reply, Session};
use std::alloc::{AllocError, Global};

/// How policies stood in the answers of tests: of each that was in force, a link as well as a static policy, whether it
/// was satisfied in some answer, and whether it wasn't in some whose question lay in its scope.
#[derive(Drop)]
pub struct Coverage {
    places: PolicyMap<()>,
    // as the places
    seen: Vec<Seen>,
}

/// How a policy stood.
#[derive(Debug, Drop)]
struct Seen {
    /// Where it stands, and its id.
    heading: String,
    satisfied: bool,
    /// Also where it has no condition that could be false.
    unsatisfied: bool,
}

impl Seen {
    /// Adds how the policy of this id stands.
    fn add(&mut self, response: &PartialResponse, id: &PolicyID, unsatisfied: bool)
        ensures satisfied { (responses : List Response) → Keeps responses id.now self.old → Keeps (responses ++ response.now ∷ []) id.now self.new }
        ensures heading { self.new.heading ≡ self.old.heading }
    {
        self.satisfied = either(self.satisfied, is_satisfied(response, id));
        self.unsatisfied = either(self.unsatisfied, unsatisfied);
    }

    /// What no answer showed of it.
    fn gap(&self) -> &'static str
        ensures { result.now ≡ gap_of self.now.satisfied self.now.unsatisfied }
    {
        gap_of(self.satisfied, self.unsatisfied)
    }

    fn tell(&self, told: &mut String) -> Result<(), AllocError>
        ensures { OnOk result (Adds (TellsCovered self.now) (string_bytes told.old) (string_bytes told.new)) }
    {
        let gap = self.gap();
        if gap.is_empty() {
            return Ok(());
        }
        told.push_str(self.heading.as_str())?;
        told.push_str(gap)?;
        told.push_str("\n")?;
        Ok(())
    }
}

fn either(a: bool, b: bool) -> bool
    ensures { result ≡ (a || b) }
{
    a || b
}

/// What no answer showed of a policy that was so.
fn gap_of(satisfied: bool, unsatisfied: bool) -> &'static str
    ensures { result.now ≡ gap_of satisfied unsatisfied }
{
    if satisfied {
        if unsatisfied {
            ""
        } else {
            " was never unsatisfied in its scope"
        }
    } else if unsatisfied {
        " was never satisfied"
    } else {
        " was never satisfied, and never unsatisfied in its scope"
    }
}

impl Coverage {
    /// That of no answer.
    pub fn new(alloc: Global) -> Coverage {
        Coverage {
            places: PolicyMap::new(alloc),
            seen: Vec::new(alloc),
        }
    }

    /// Runs a test as [`run_test`](crate::run_test) does, and adds what its commands are answered. Refused for memory
    /// alone; then some of it may be added.
    pub fn run_test<F: ExtensionFunctionObject>(
        &mut self,
        alloc: Global,
        extensions: &Extensions<'_, F>,
        name: &str,
        set_up: &[Step],
        test: &Test,
    ) -> Result<Outcome, AllocError>
        ensures { IfOk result (λ outcome. Went (setting_with F.answers extensions.now DEPTH) set_up.now test.now outcome.passed (string_bytes outcome.text)) }
    {
        let mut witness = Witness::of(alloc, name, Some(self))?;
        run_witnessed(alloc, extensions, &mut witness, set_up, test)
    }

    /// Tells of each policy that some answer didn't satisfy, or that none found unsatisfied in its scope, in the order in
    /// which they came to be held: a line with its place and its id. Refused for memory alone.
    pub fn tell(&self, alloc: Global) -> Result<String, AllocError>
        ensures { IfOk result (λ told. TellsEach TellsCovered self.now.seen.items (string_bytes told)) }
    {
        let mut told = String::new(alloc);
        for seen in &self.seen {
            seen.tell(&mut told)?;
        }
        Ok(told)
    }

    /// Adds what a command of a test is answered.
    pub(crate) fn add<'t, F: ExtensionFunctionObject>(
        &mut self,
        alloc: Global,
        extensions: &Extensions<'_, F>,
        session: &Session<'_, '_, F>,
        past: &mut Past<'t>,
        step: &'t Step,
        reply: &Reply,
    ) -> Result<(), AllocError> {
        past.add(alloc, step, reply)?;
        match reply {
            Reply::Answer(_) => self.add_answer(alloc, extensions, session, past),
            Reply::Ids(_) | Reply::Done => Ok(()),
        }
    }

    /// Adds how the policies in force stand to the open question.
    fn add_answer<F: ExtensionFunctionObject>(
        &mut self,
        alloc: Global,
        extensions: &Extensions<'_, F>,
        session: &Session<'_, '_, F>,
        past: &mut Past<'_>,
    ) -> Result<(), AllocError> {
        let asker = past.asker(alloc, extensions, session)?;
        let Some(first) = session.response() else {
            return Ok(());
        };
        match past.retold(alloc, extensions, session.entities(), first)? {
            Some(response) => self.add_response(alloc, session, past, &asker, &response),
            None => self.add_response(alloc, session, past, &asker, first),
        }
    }

    fn add_response<F: ExtensionFunctionObject>(
        &mut self,
        alloc: Global,
        session: &Session<'_, '_, F>,
        past: &Past<'_>,
        asker: &Asker<'_, '_, '_, F>,
        response: &PartialResponse,
    ) -> Result<(), AllocError> {
        let standings = Standings::of(alloc, response)?;
        for policy in session.policies().policies() {
            let unsatisfied = match standings.standing(policy.id()) {
                Standing::NotSatisfied => is_in_scope(alloc, asker, policy)?,
                _ => false,
            };
            let origin = past.origin_of(session.policies(), policy.id());
            let at = self.place_of(alloc, origin, policy)?;
            if let Some(seen) = self.seen.get_mut(at) {
                seen.add(response, policy.id(), unsatisfied);
            }
        }
        Ok(())
    }

    /// Adds the policies in force, where no answer had them.
    pub(crate) fn add_held<F: ExtensionFunctionObject>(
        &mut self,
        alloc: Global,
        session: &Session<'_, '_, F>,
        past: &Past<'_>,
    ) -> Result<(), AllocError> {
        for policy in session.policies().policies() {
            let origin = past.origin_of(session.policies(), policy.id());
            let _at = self.place_of(alloc, origin, policy)?;
        }
        Ok(())
    }

    /// Where what is seen of a policy is kept.
    fn place_of(
        &mut self,
        alloc: Global,
        origin: Origin<'_, '_>,
        policy: &Policy,
    ) -> Result<usize, AllocError> {
        let key = key_of(alloc, origin, policy)?;
        if let Some(at) = self.places.get_index_of(&key) {
            return Ok(at);
        }
        let heading = heading(alloc, origin.name, origin.place(policy.loc()))?;
        let at = self.seen.len();
        self.seen.push(Seen {
            heading: format!(in alloc; "{heading}{}", policy.id().as_str())?,
            satisfied: false,
            unsatisfied: policy.non_scope_constraints().is_none(),
        })?;
        self.places.insert(key, ())?;
        Ok(at)
    }
}

/// What tells a policy from others: its id, and the place of its text.
fn key_of(alloc: Global, origin: Origin<'_, '_>, policy: &Policy) -> Result<PolicyID, AllocError> {
    let start = match policy.loc() {
        Some(loc) => loc.start(),
        None => 0,
    };
    let key = format!(in alloc;
        "{} {} {start} {}",
        origin.name,
        origin.lines,
        policy.id().as_str()
    )?;
    PolicyID::from_string(alloc, key.as_str())
}
