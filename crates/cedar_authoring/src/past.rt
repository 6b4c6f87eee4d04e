// What the commands of a script did before a line.
ghost use Rattle.std.specs.Prelude.{◌≡◌, ◌++◌, ◌∷◌, [], false, is_some, map, IfOk, IfSome, OnOk};
ghost use Rattle.cedar_evaluator.specs.Holding.{error_seen};
ghost use Rattle.cedar_authoring.specs.Pasts.{IsNamed, IsOfText};
ghost use Rattle.cedar_authoring.specs.ScriptQuestions.{TakesUp};

use crate::origins::Origin;
use crate::scopes::Asker;
use cedar_evaluator::evaluator::evaluator_of;
use cedar_evaluator::{AuthorizationError, Authorizer};
use cedar_extensions::objects::ExtensionFunctionObject;
use cedar_messages::places::Places;
use cedar_parser::ExtStyles;
use cedar_parser::prelude::StylesOfExtensions;
use cedar_parser::strict::parse_restrictedexpr;
use cedar_policy_set::policy_map::PolicyMap;
use cedar_refusals::checking::DEPTH;
use cedar_restricted::restricted::RestrictedExpr;
use cedar_scripts::Step;
use cedar_session::{
    Entities, Extensions, PartialResponse, PolicyID, PolicySet, Reply, Session, Verb,
};
use cedar_telling::{request_of, told_by};
use cedar_values::values::Value;
use std::alloc::{AllocError, Global};
use std::collections::BTreeMap;
use std::rc::RcStr;

/// Of the commands that a session has accepted: which loaded the policy or the template of an id, which asked the open
/// question, and which told of it.
#[derive(Drop)]
pub(crate) struct Past<'t> {
    pub(crate) script: &'t str,
    loads: Vec<Load<'t>>,
    // Which of the loads it was.
    loaded: PolicyMap<usize>,
    // Of what no command loaded.
    text: Places<'t>,
    question: &'t str,
    // As it was read, where that was wanted.
    asked: Option<RestrictedExpr>,
    // What was told of it, but for the texts that are yet to be read.
    told: BTreeMap<RcStr, Value>,
    tells: Vec<&'t str>,
}

/// A command that loaded policies, and the places of their text.
#[derive(Drop)]
struct Load<'t> {
    step: &'t Step,
    places: Places<'t>,
}

impl<'t> Past<'t> {
    /// Nothing yet, of the script that is named so. Refused for memory alone.
    pub(crate) fn new(alloc: Global, script: &'t str) -> Result<Past<'t>, AllocError> {
        Past::of_text(alloc, script, "")
    }

    /// That all comes from one text, which is named so. Refused for memory alone.
    pub(crate) fn of_text(
        alloc: Global,
        name: &'t str,
        text: &'t str,
    ) -> Result<Past<'t>, AllocError>
        ensures alone { IfOk result (λ past. IsOfText past) }
        ensures name { IfOk result (λ past. past.script.now ≡ name.now) }
    {
        Ok(Past {
            script: name,
            loads: Vec::new(alloc),
            loaded: PolicyMap::new(alloc),
            text: Places::of(alloc, text)?,
            question: "",
            asked: None,
            told: BTreeMap::new(alloc),
            tells: Vec::new(alloc),
        })
    }

    /// Adds a command that is answered so.
    pub(crate) fn add(
        &mut self,
        alloc: Global,
        step: &'t Step,
        reply: &Reply,
    ) -> Result<(), AllocError> {
        match reply {
            Reply::Ids(ids) => self.add_load(alloc, step, ids.as_slice()),
            Reply::Answer(_) => self.add_question(alloc, step),
            Reply::Done => Ok(()),
        }
    }

    fn add_load(
        &mut self,
        alloc: Global,
        step: &'t Step,
        ids: &[PolicyID],
    ) -> Result<(), AllocError> {
        let number = self.loads.len();
        let places = Places::of(alloc, step.body.as_str())?;
        self.loads.push(Load { step, places })?;
        for id in ids {
            self.loaded.insert(id.clone()?, number)?;
        }
        Ok(())
    }

    /// Adds a command that asks or tells.
    pub(crate) fn add_question(&mut self, alloc: Global, step: &'t Step) -> Result<(), AllocError> {
        let text = step.body.as_str();
        if let Verb::Tell = step.verb {
            self.tells.push(text)?;
        } else {
            self.question = text;
            self.asked = None;
            self.told = BTreeMap::new(alloc);
            self.tells.clear();
        }
        Ok(())
    }

    /// Where the policy or the template of this id comes from; of a link, its template.
    pub(crate) fn origin_of(&self, policies: &PolicySet, id: &PolicyID) -> Origin<'_, 't>
        ensures { IsNamed self.now result.name.now }
    {
        let id = match policies.get(id) {
            Some(policy) => policy.template().id(),
            None => id,
        };
        match self.load_of(id) {
            Some(load) => Origin::of_step(self.script, load.step, &load.places),
            None => Origin::of(self.script, &self.text),
        }
    }

    /// The command that loaded what has this id.
    fn load_of(&self, id: &PolicyID) -> Option<&Load<'t>>
        ensures { IsOfText self.now → is_some result ≡ false }
    {
        self.loads.get(*self.loaded.get(id)?)
    }

    /// What evaluates expressions for the open question as it was asked. Refused for memory alone.
    pub(crate) fn asker<'s, 'e, 'f, F: ExtensionFunctionObject>(
        &mut self,
        alloc: Global,
        extensions: &'e Extensions<'f, F>,
        session: &'s Session<'_, '_, F>,
    ) -> Result<Asker<'s, 'e, 'f, F>, AllocError> {
        self.read_question(alloc, extensions)?;
        let Some(question) = &self.asked else {
            return Err(AllocError);
        };
        match request_of(alloc, question, extensions, DEPTH) {
            Ok(request) => evaluator_of(alloc, &request, session.entities(), extensions, DEPTH),
            Err(_) => Err(AllocError),
        }
    }

    /// Reads the open question, where that wasn't done.
    fn read_question<F: ExtensionFunctionObject>(
        &mut self,
        alloc: Global,
        extensions: &Extensions<'_, F>,
    ) -> Result<(), AllocError> {
        if self.asked.is_none() {
            self.asked = Some(body_of(alloc, extensions, self.question)?);
        }
        Ok(())
    }

    /// The response to the open question taken up again with all that was told since, its errors kept; None where nothing
    /// was. Reads each text that tells once. Refused for memory alone.
    pub(crate) fn retold<F: ExtensionFunctionObject>(
        &mut self,
        alloc: Global,
        extensions: &Extensions<'_, F>,
        entities: &Entities,
        first: &PartialResponse,
    ) -> Result<Option<PartialResponse>, AllocError>
        ensures { IfOk result (λ retold. IfSome retold (λ response. TakesUp first.now response)) }
    {
        self.read_tells(alloc, extensions)?;
        if self.told.is_empty() {
            return Ok(None);
        }
        let authorizer = Authorizer::new(extensions, DEPTH);
        match first.reauthorize(alloc, &self.told, &authorizer, entities) {
            Ok(again) => Ok(Some(with_errors(alloc, again, first.errors.as_slice())?)),
            Err(_) => Err(AllocError),
        }
    }

    /// Reads what was told of the open question since this was last done. Refused for memory alone.
    fn read_tells<F: ExtensionFunctionObject>(
        &mut self,
        alloc: Global,
        extensions: &Extensions<'_, F>,
    ) -> Result<(), AllocError> {
        if self.tells.is_empty() {
            return Ok(());
        }
        self.read_question(alloc, extensions)?;
        let Some(question) = &self.asked else {
            return Err(AllocError);
        };
        for text in &self.tells {
            self.told = told_besides(alloc, extensions, question, &self.told, text)?;
        }
        self.tells.clear();
        Ok(())
    }
}

/// What is told by this, and with a body that a session has accepted besides. Refused for memory alone.
fn told_besides<F: ExtensionFunctionObject>(
    alloc: Global,
    extensions: &Extensions<'_, F>,
    question: &RestrictedExpr,
    told: &BTreeMap<RcStr, Value>,
    text: &str,
) -> Result<BTreeMap<RcStr, Value>, AllocError> {
    let body = body_of(alloc, extensions, text)?;
    match told_by(alloc, &body, question, told, extensions, DEPTH) {
        Ok(more) => Ok(more),
        Err(_) => Err(AllocError),
    }
}

/// A body that a session has accepted. Refused for memory alone.
fn body_of<F: ExtensionFunctionObject>(
    alloc: Global,
    extensions: &Extensions<'_, F>,
    text: &str,
) -> Result<RestrictedExpr, AllocError> {
    let styles = ExtStyles::from_extensions(alloc, extensions)?;
    match parse_restrictedexpr(alloc, text, &styles, DEPTH) {
        Ok(body) => Ok(body),
        Err(_) => Err(AllocError),
    }
}

/// The response with these errors besides.
fn with_errors(
    alloc: Global,
    mut response: PartialResponse,
    errors: &[AuthorizationError],
) -> Result<PartialResponse, AllocError>
    ensures groups { IfOk result (λ made. made ≡ record response { errors = made.errors }) }
    ensures errors { IfOk result (λ made. map error_seen made.errors.items ≡ map error_seen response.errors.items ++ map error_seen errors.now) }
{
    for failed in errors {
        push_error(alloc, &mut response.errors, failed)?;
    }
    Ok(response)
}

fn push_error(
    alloc: Global,
    errors: &mut Vec<AuthorizationError>,
    failed: &AuthorizationError,
) -> Result<(), AllocError>
    ensures { OnOk result (map error_seen errors.new.items ≡ map error_seen errors.old.items ++ error_seen failed.now ∷ []) }
{
    let copy = failed.clone(alloc)?;
    errors.push(copy)?;
    Ok(())
}
