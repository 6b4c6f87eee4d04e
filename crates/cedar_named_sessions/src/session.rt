// A session whose policies have names.
ghost use Rattle.std.specs.Prelude.{◌≡◌, ◌≤◌, length, Ok};
ghost use Rattle.cedar_frames.specs.Heads.{body_limit};
ghost use Rattle.cedar_named_sessions.specs.Giving.{given_as, given_by};
ghost use Rattle.cedar_named_sessions.specs.Loading.{IsTold, LoadsPlaced, TakesAway, EditsEntities, Questions};
ghost use Rattle.cedar_named_sessions.specs.NameLists.{name_of};
ghost use Rattle.cedar_named_sessions.specs.Steps.{AnswerStep, EditStep, LinkStep, LoadAsStep, LoadStep, TakeAwayStep, refused_unnamed};
ghost use Rattle.cedar_replies.specs.Refusals.{refusal_of};
ghost use Rattle.cedar_replies.specs.Replies.{answer_of};
ghost use Rattle.cedar_session.specs.Owning.{owned_setting, owned_world};
ghost use Rattle.cedar_session.specs.PolicyReading.{ReadsPolicies};
ghost use Rattle.cedar_session.specs.Sessions.{edit_reply};
ghost use Rattle.cedar_session.specs.Settings.{setting_with};

use crate::answers::named_answer;
use crate::bodies::{id_body, link_text};
use crate::names::GivenNames;
use crate::naming::{Given, Naming};
use crate::placing::{Placed, give_all, is_taken, names_of, placed, take_back_all};
use crate::refusals::NamedRefusal;
use cedar_policy_parts::PolicyID;
use cedar_policy_set::sets::PolicySet;
use cedar_session::{
    Answer, BODY_LIMIT, ExtensionFunctionObject, Extensions, NoFunction, OwnedSession, Refusal,
    Reply, Verb,
};
use cedar_world::loads_are_one;
use std::alloc::Global;

/// An [`OwnedSession`] whose policies, templates and links are called by names: it is sent commands that name them so, and
/// answers by these names.
///
/// What is loaded has the name that its annotation `@id` says, or that the caller gives, and else its id, as what is
/// linked has. No two that are held have one name. (Cedar language reference, "Policies" and "Annotations".)
pub struct NamedSession<'f, F: ExtensionFunctionObject = NoFunction> {
    allocator: Global,
    session: OwnedSession<'f, F>,
    names: GivenNames,
}

impl<F: ExtensionFunctionObject> Drop for NamedSession<'_, F> {
    fn drop(self) {
        let NamedSession {
            allocator: _,
            session: _,
            names: _,
        } = self;
    }
}

impl<'f, F: ExtensionFunctionObject> NamedSession<'f, F> {
    ghost use Rattle.cedar_frames.specs.declared.verb.Verb.TheVariants.{Unlink as UnlinkVerb, RemoveStatic as RemoveStaticVerb, RemoveTemplate as RemoveTemplateVerb, Add as AddVerb, Put as PutVerb, Remove as RemoveVerb, Ask as AskVerb, Tell as TellVerb};
    ghost use Rattle.cedar_named_sessions.specs.Sessions.{setting_of, named_of, new_named, names_told, answer_told};

    /// A session without policies and entities, as [`OwnedSession::new`] makes it. It takes no memory.
    pub fn new(allocator: Global, extensions: Extensions<'f, F>, depth: u32) -> NamedSession<'f, F>
        ensures holds { named_of result ≡ new_named }
        ensures setting { setting_of result ≡ setting_with F.answers extensions.entry depth }
    {
        NamedSession {
            allocator,
            session: OwnedSession::new(allocator, extensions, depth),
            names: GivenNames::new(allocator),
        }
    }

    /// Loads the policies and templates of a text, as [`Session::load`](cedar_session::Session::load) does, and answers
    /// their names in the text's order. Each has the name that `naming` gives it, and else its id; what is held already
    /// keeps its name.
    ///
    /// It is refused `IdConflict` with the first name that can't be given: something is held under it, or was given it
    /// before in the text; it is in the shape of a number, `policy` and digits, that isn't the id of the policy; or the
    /// policy is held already. Else it is refused as by the session, and then nothing changes either.
    pub fn load(&mut self, text: &str, naming: Naming) -> Result<Vec<PolicyID>, NamedRefusal>
        requires { length text.now ≤ body_limit }
        ensures step { LoadStep (setting_of self.old) (named_of self.old) (given_as naming) text.now (names_told result) (named_of self.new) }
        ensures setting { setting_of self.new ≡ setting_of self.old }
    {
        let policies = self.session.read_policies(text)?;
        self.load_read(text, &policies, naming.given())
    }

    /// Loads the one policy or template of a text under a name.
    ///
    /// It is refused `NotOne` where the text isn't just one, and else as [`load`](NamedSession::load) with the
    /// annotation `@id` of this name; then nothing changes.
    pub fn load_as(&mut self, name: &str, text: &str) -> Result<(), NamedRefusal>
        requires { length text.now ≤ body_limit }
        ensures step { LoadAsStep (setting_of self.old) (named_of self.old) name.now text.now result (named_of self.new) }
        ensures setting { setting_of self.new ≡ setting_of self.old }
    {
        let name = PolicyID::from_string(self.allocator, name)?;
        let policies = self.session.read_policies(text)?;
        if policies.len() != 1 {
            return Err(NamedRefusal::NotOne);
        }
        self.load_read(text, &policies, Given::Name(&name))?;
        Ok(())
    }

    /// The same of a text that was read as these policies.
    fn load_read(
        &mut self,
        text: &str,
        policies: &PolicySet,
        given: Given<'_>,
    ) -> Result<Vec<PolicyID>, NamedRefusal>
        requires small { length text.now ≤ body_limit }
        requires read { ReadsPolicies (setting_of self.old) text.now (Ok policies.now) }
        ensures step { LoadStep (setting_of self.old) (named_of self.old) (given_by given.entry) text.now (names_told result) (named_of self.new) }
        ensures setting { setting_of self.new ≡ setting_of self.old }
    {
        loads_are_one();
        let held = self.session.policies();
        let placed = placed(self.allocator, held, policies, given)?;
        let placed = placed.as_slice();
        give_all(held, &mut self.names, placed)?;
        match self.load_placed(text, placed) {
            Ok(names) => Ok(names),
            Err(refusal) => {
                take_back_all(&mut self.names, placed);
                Err(NamedRefusal::Refused(refusal))
            }
        }
    }

    /// Loads a text whose policies have their names.
    fn load_placed(&mut self, text: &str, placed: &[Placed]) -> Result<Vec<PolicyID>, Refusal>
        requires { length text.now ≤ body_limit }
        ensures loaded { LoadsPlaced (setting_of self.old) (owned_world self.old.session) self.old.names text.now placed.now result (owned_world self.new.session) }
        ensures names { self.new.names ≡ self.old.names }
        ensures setting { setting_of self.new ≡ setting_of self.old }
    {
        let names = names_of(self.allocator, &self.names, placed)?;
        self.session.answer(Verb::Load, text.as_bytes())?;
        Ok(names)
    }

    /// Takes the link away that has this name.
    ///
    /// It is refused `NoSuchPolicy` where nothing has the name, and else as
    /// [`Session::unlink`](cedar_session::Session::unlink); then nothing changes.
    pub fn unlink(&mut self, name: &str) -> Result<(), NamedRefusal>
        ensures step { TakeAwayStep (setting_of self.old) (named_of self.old) UnlinkVerb name.now result (named_of self.new) }
        ensures setting { setting_of self.new ≡ setting_of self.old }
    {
        self.take_away(Verb::Unlink, name)
    }

    /// Takes the static policy away that has this name, which is free then.
    ///
    /// It is refused `NoSuchPolicy` where nothing has the name, and else as
    /// [`Session::remove_static`](cedar_session::Session::remove_static); then nothing changes.
    pub fn remove_static(&mut self, name: &str) -> Result<(), NamedRefusal>
        ensures step { TakeAwayStep (setting_of self.old) (named_of self.old) RemoveStaticVerb name.now result (named_of self.new) }
        ensures setting { setting_of self.new ≡ setting_of self.old }
    {
        self.take_away(Verb::RemoveStatic, name)
    }

    /// Takes the template away that has this name, which is free then.
    ///
    /// It is refused `NoSuchTemplate` where nothing has the name, and else as
    /// [`Session::remove_template`](cedar_session::Session::remove_template); then nothing changes.
    pub fn remove_template(&mut self, name: &str) -> Result<(), NamedRefusal>
        ensures step { TakeAwayStep (setting_of self.old) (named_of self.old) RemoveTemplateVerb name.now result (named_of self.new) }
        ensures setting { setting_of self.new ≡ setting_of self.old }
    {
        self.take_away(Verb::RemoveTemplate, name)
    }

    /// Takes away what has this name, by the command of a verb.
    fn take_away(&mut self, verb: Verb, name: &str) -> Result<(), NamedRefusal>
        requires { TakesAway verb }
        ensures step { TakeAwayStep (setting_of self.old) (named_of self.old) verb name.now result (named_of self.new) }
        ensures setting { setting_of self.new ≡ setting_of self.old }
    {
        let name = PolicyID::from_string(self.allocator, name)?;
        let Some(id) = self.names.id_named(&name) else {
            return Err(NamedRefusal::Refused(unnamed(verb)));
        };
        let id = id.clone()?;
        let text = id_body(self.allocator, id.as_str())?;
        if text.len() > BODY_LIMIT {
            return Err(NamedRefusal::Long);
        }
        self.session.answer(verb, text.as_str().as_bytes())?;
        self.names.take_back(&id);
        Ok(())
    }

    /// Links the template that has this name: the link stands under `id`, which is its name too, with the entities of its
    /// slots. These are JSON, an object with an entity under `?principal`, under `?resource` or under both.
    ///
    /// It is refused `IdConflict` where `id` is the name or the id of something that is held; `Unsaid` where the JSON says
    /// no slots; `NoSuchTemplate` where nothing has the template's name; and else as
    /// [`Session::link`](cedar_session::Session::link); then nothing changes.
    pub fn link(&mut self, template: &str, id: &str, slots: &str) -> Result<(), NamedRefusal>
        ensures step { LinkStep (setting_of self.old) (named_of self.old) template.now id.now slots.now result (named_of self.new) }
        ensures setting { setting_of self.new ≡ setting_of self.old }
    {
        let id = PolicyID::from_string(self.allocator, id)?;
        if is_taken(self.session.policies(), &self.names, &id) {
            return Err(NamedRefusal::IdConflict(id));
        }
        let name = PolicyID::from_string(self.allocator, template)?;
        let Some(template) = self.names.id_named(&name) else {
            return Err(NamedRefusal::Refused(Refusal::NoSuchTemplate));
        };
        let text = link_text(self.allocator, template.as_str(), id.as_str(), slots)?;
        if text.len() > BODY_LIMIT {
            return Err(NamedRefusal::Long);
        }
        self.session.answer(Verb::Link, text.as_str().as_bytes())?;
        Ok(())
    }

    /// Adds entities, as [`Session::add`](cedar_session::Session::add) does.
    pub fn add(&mut self, text: &str) -> Result<(), Refusal>
        requires { length text.now ≤ body_limit }
        ensures step { EditStep (setting_of self.old) (named_of self.old) AddVerb text.now (edit_reply result) (named_of self.new) }
        ensures setting { setting_of self.new ≡ setting_of self.old }
    {
        self.edit(Verb::Add, text)
    }

    /// Puts entities, as [`Session::put`](cedar_session::Session::put) does.
    pub fn put(&mut self, text: &str) -> Result<(), Refusal>
        requires { length text.now ≤ body_limit }
        ensures step { EditStep (setting_of self.old) (named_of self.old) PutVerb text.now (edit_reply result) (named_of self.new) }
        ensures setting { setting_of self.new ≡ setting_of self.old }
    {
        self.edit(Verb::Put, text)
    }

    /// Removes entities, as [`Session::remove`](cedar_session::Session::remove) does.
    pub fn remove(&mut self, text: &str) -> Result<(), Refusal>
        requires { length text.now ≤ body_limit }
        ensures step { EditStep (setting_of self.old) (named_of self.old) RemoveVerb text.now (edit_reply result) (named_of self.new) }
        ensures setting { setting_of self.new ≡ setting_of self.old }
    {
        self.edit(Verb::Remove, text)
    }

    /// Edits entities by the command of a verb.
    fn edit(&mut self, verb: Verb, text: &str) -> Result<(), Refusal>
        requires verb { EditsEntities verb }
        requires small { length text.now ≤ body_limit }
        ensures step { EditStep (setting_of self.old) (named_of self.old) verb text.now (edit_reply result) (named_of self.new) }
        ensures setting { setting_of self.new ≡ setting_of self.old }
    {
        self.session.answer(verb, text.as_bytes())?;
        Ok(())
    }

    /// Answers a question by names, as [`Session::ask`](cedar_session::Session::ask) does by ids.
    ///
    /// It is refused as that, and then nothing changes; or `Untold`, where it was answered and is open, but there was no
    /// memory to tell its answer by names: it can be asked again.
    pub fn ask(&mut self, text: &str) -> Result<Answer, NamedRefusal>
        requires { length text.now ≤ body_limit }
        ensures step { AnswerStep (setting_of self.old) (named_of self.old) AskVerb text.now (answer_told result) (named_of self.new) }
        ensures setting { setting_of self.new ≡ setting_of self.old }
    {
        self.question(Verb::Ask, text)
    }

    /// Answers the open question with more that is told, by names, as [`Session::tell`](cedar_session::Session::tell) does
    /// by ids.
    ///
    /// It is refused as that, and then nothing changes; or `Untold`, where what was told is kept, but there was no memory
    /// to tell the answer by names: it is answered again where nothing more is told, by `{}`.
    pub fn tell(&mut self, text: &str) -> Result<Answer, NamedRefusal>
        requires { length text.now ≤ body_limit }
        ensures step { AnswerStep (setting_of self.old) (named_of self.old) TellVerb text.now (answer_told result) (named_of self.new) }
        ensures setting { setting_of self.new ≡ setting_of self.old }
    {
        self.question(Verb::Tell, text)
    }

    /// Answers the command of a verb by names.
    fn question(&mut self, verb: Verb, text: &str) -> Result<Answer, NamedRefusal>
        requires verb { Questions verb }
        requires small { length text.now ≤ body_limit }
        ensures step { AnswerStep (setting_of self.old) (named_of self.old) verb text.now (answer_told result) (named_of self.new) }
        ensures setting { setting_of self.new ≡ setting_of self.old }
    {
        match self.session.answer(verb, text.as_bytes())? {
            Reply::Answer(answer) => self.told(&answer),
            Reply::Done => unreachable!(),
            Reply::Ids(_) => unreachable!(),
        }
    }

    /// An answer by names.
    fn told(&self, answer: &Answer) -> Result<Answer, NamedRefusal>
        ensures { IsTold self.now.names (answer_of answer.now) (answer_told result) }
    {
        match named_answer(self.allocator, &self.names, answer) {
            Ok(told) => Ok(told),
            Err(_) => Err(NamedRefusal::Untold),
        }
    }

    /// The name of what has this id: the one that it was given, or the id.
    pub fn name_of<'n>(&'n self, id: &'n PolicyID) -> &'n PolicyID
        ensures { result.now ≡ name_of (named_of self.now).names id.now }
    {
        self.names.name_or_id(id)
    }

    /// The session that answers, which lends what it holds.
    pub fn session(&self) -> &OwnedSession<'f, F>
        ensures world { owned_world result.now ≡ (named_of self.now).world }
        ensures setting { owned_setting result.now ≡ setting_of self.now }
    {
        &self.session
    }
}

/// How a command is refused that names nothing.
fn unnamed(verb: Verb) -> Refusal
    ensures { refusal_of result ≡ refused_unnamed verb }
{
    match verb {
        Verb::RemoveTemplate => Refusal::NoSuchTemplate,
        _ => Refusal::NoSuchPolicy,
    }
}
