// A session, and what it does at a command.
ghost use Rattle.std.specs.Prelude.{◌≡◌, ◌≤◌, length, IfOk, OnErr, IsErrOf, Ok, Err};
ghost use Rattle.cedar_frames.specs.Heads.{body_limit};
ghost use Rattle.cedar_world.specs.Found.{AnswersAsFound};
ghost use Rattle.cedar_world.specs.World.{new_world};
ghost use Rattle.cedar_replies.specs.Replies.{answer_of, reply_of};
ghost use Rattle.cedar_parser.specs.Settings.{functions_of};
ghost use Rattle.cedar_session.specs.Calling.{AreNamesOf};
ghost use Rattle.cedar_session.specs.Commands.{command_verb, command_text};
ghost use Rattle.cedar_session.specs.Open.{KeepsOpen};
ghost use Rattle.cedar_world.specs.OrdinaryReplies.{AnswersOrdinarily, AnswersToldOrdinarily, RepliesOrdinarily};
ghost use Rattle.cedar_session.specs.Settings.{setting_with};

use crate::asked::{Asked, close, go_on};
use crate::called_names::CalledNames;
use crate::command::Command;
use crate::held::Held;
use crate::naming::read_id;
use crate::open_question::told_besides;
use crate::policy_reading::read_policies;
use crate::questions::asked_question;
use crate::reading::read_body;
use cedar_asking::{answer, answer_told};
use cedar_extensions::extensions::Extensions;
use cedar_extensions::objects::{ExtensionFunctionObject, NoFunction};
use cedar_held::{HeldEntities, HeldPolicies, link_body};
use cedar_policy_parts::PolicyID;
use cedar_replies::{Answer, Refusal, Reply};
use std::alloc::Global;
use std::collections::BTreeMap;

/// Policies, templates and links, the entities that are held, and at most one open question.
///
/// Each command takes a text of at most 1,048,576 bytes, which is the caller's condition. The text of
/// [`load`](Session::load) holds policies; that of any other command is a body: one expression, built
/// of literals, sets, records and calls of the session's functions alone.
///
/// A refused command changes nothing. Where several reasons stand, the first in the order of [`Refusal`]
/// is answered, but that `Depth` and `Memory` may stand in place of what would be checked after the point
/// where they are met. Any body is refused `Text` where the text is no expression of the grammar or calls
/// a function that the session doesn't know, `Depth` where its nesting or the height of its tree is more
/// than the session's limit, and `NotRestricted` where it holds anything else than a body may, as a
/// variable or an operator; what else a command is refused is said there.
pub struct Session<'e, 'f, F: ExtensionFunctionObject = NoFunction> {
    allocator: Global,
    extensions: &'e Extensions<'f, F>,
    depth: u32,
    names: CalledNames,
    pub(crate) policies: HeldPolicies,
    pub(crate) entities: HeldEntities,
    pub(crate) asked: Option<Asked>,
    ghost called: { AreNamesOf (functions_of F.answers extensions.now) names },
    ghost steady: { ∥ KeepsOpen (setting_with F.answers extensions.now depth) policies entities asked ∥₁ },
}

impl<F: ExtensionFunctionObject> Drop for Session<'_, '_, F> {
    fn drop(self) {
        let Session {
            allocator: _,
            extensions: _,
            depth: _,
            names: _,
            policies: _,
            entities: _,
            asked: _,
        } = self;
    }
}

impl<'e, 'f, F: ExtensionFunctionObject> Session<'e, 'f, F> {
    ghost use Rattle.cedar_frames.specs.declared.verb.Verb.TheVariants.{Load as LoadVerb, Link as LinkVerb, Unlink as UnlinkVerb, RemoveStatic as RemoveStaticVerb, RemoveTemplate as RemoveTemplateVerb, Add as AddVerb, Put as PutVerb, Remove as RemoveVerb, Ask as AskVerb, Tell as TellVerb};
    ghost use Rattle.cedar_world.specs.Step.{Step};
    ghost use Rattle.cedar_session.specs.Lending.{WaitsForNames};
    ghost use Rattle.cedar_session.specs.Sessions.{world_of, world_holding, setting_of, response_of, load_reply, edit_reply, ask_reply};

    /// A session without policies and entities, in which no question is open.
    ///
    /// Its texts may call the functions of `extensions` and no others. `depth` is its limit, the same for
    /// each command: a text may nest so many levels and no more, the tree of a body may be so high, and an
    /// evaluation may go so deep; what exceeds it is refused [`Refusal::Depth`]. A text nests one level at
    /// least, so that a session with the limit 0 takes none. The program's limit is 256.
    ///
    /// It is refused [`Refusal::Memory`] alone.
    pub fn new(
        allocator: Global,
        extensions: &'e Extensions<'f, F>,
        depth: u32,
    ) -> Result<Session<'e, 'f, F>, Refusal>
        ensures world { IfOk result (λ session. world_of session ≡ new_world) }
        ensures setting { IfOk result (λ session. setting_of session ≡ setting_with F.answers extensions.now depth) }
        ensures err { OnErr result (IsErrOf result Refusal.Memory) }
    {
        Ok(Session {
            allocator,
            extensions,
            depth,
            names: CalledNames::new(),
            policies: HeldPolicies::new(allocator),
            entities: HeldEntities::new(allocator),
            asked: None,
        })
    }

    /// The session that holds these, which one with such a table and such a limit held before.
    pub(crate) fn resumed(
        allocator: Global,
        extensions: &'e Extensions<'f, F>,
        depth: u32,
        held: Held,
    ) -> Session<'e, 'f, F>
        requires called { AreNamesOf (functions_of F.answers extensions.now) held.names }
        requires steady { ∥ KeepsOpen (setting_with F.answers extensions.now depth) held.policies held.entities held.asked ∥₁ }
        ensures world { world_of result ≡ world_holding held.policies held.entities held.asked }
        ensures setting { setting_of result ≡ setting_with F.answers extensions.now depth }
    {
        let Held {
            names,
            policies,
            entities,
            asked,
        } = held;
        Session {
            allocator,
            extensions,
            depth,
            names,
            policies,
            entities,
            asked,
        }
    }

    /// What the session holds, without its table.
    pub(crate) fn into_held(self) -> Held
        ensures called { AreNamesOf (setting_of self.entry).functions result.names }
        ensures world { world_holding result.policies result.entities result.asked ≡ world_of self.entry }
        ensures steady { ∥ KeepsOpen (setting_of self.entry) result.policies result.entities result.asked ∥₁ }
    {
        let Session {
            allocator: _,
            extensions: _,
            depth: _,
            names,
            policies,
            entities,
            asked,
        } = self;
        Held {
            names,
            policies,
            entities,
            asked,
        }
    }

    /// What the session's parts are made with, as it was handed to [`new`](Session::new).
    pub fn allocator(&self) -> Global {
        self.allocator
    }

    /// Loads the policies and templates of a text and answers the ids under which they now stand, in the
    /// text's order: the i-th under `policy<i>` where that is free or bound to the same already, and else
    /// under the next of `policy0`, `policy1`, .. that is neither bound nor one of the text's own. What was
    /// bound before stays as it was, and an open question is closed.
    /// (Cedar language reference, "Policies".)
    ///
    /// It is refused `Text` where the text isn't policies and templates by the grammar or calls a function
    /// that the session doesn't know, `unknown` among them, `Depth` where it nests deeper than the limit, and
    /// `Memory`; then nothing changes.
    pub fn load(&mut self, text: &str) -> Result<Vec<PolicyID>, Refusal>
        requires { length text.now ≤ body_limit }
        ensures step { Step (setting_of self.old) (world_of self.old) LoadVerb text.now (load_reply result) (world_of self.new) }
        ensures setting { setting_of self.new ≡ setting_of self.old }
    {
        cedar_world::texts_are_one();
        let alloc = self.allocator;
        let policies = read_policies(alloc, text, &mut self.names, self.extensions, self.depth)?;
        let ids = self.policies.load(alloc, policies)?;
        close(&mut self.asked);
        Ok(ids)
    }

    /// Links a template: the link stands under its own id, with the entities of its slots. An open question
    /// is closed. (Cedar language reference, "Policy templates".)
    ///
    /// The body is a record: `template` and `id` are strings, and `principal` and `resource`, each where the
    /// template has that slot, are entities.
    ///
    /// It is refused as any body, then `Shape` where it isn't such a record, `NoSuchTemplate` where the
    /// template's id isn't bound, `NotTemplate` where it is bound to something else, `Arity` where the
    /// entities aren't for exactly its slots, `IdConflict` where the link's id is bound, and `Memory`; then
    /// nothing changes.
    pub fn link(&mut self, text: &str) -> Result<(), Refusal>
        requires { length text.now ≤ body_limit }
        ensures step { Step (setting_of self.old) (world_of self.old) LinkVerb text.now (edit_reply result) (world_of self.new) }
        ensures setting { setting_of self.new ≡ setting_of self.old }
    {
        cedar_world::texts_are_one();
        let alloc = self.allocator;
        let body = read_body(alloc, text, &mut self.names, self.extensions, self.depth)?;
        let Some(link) = link_body(body.as_ref()) else {
            return Err(Refusal::Shape);
        };
        self.policies.link(alloc, &link)?;
        close(&mut self.asked);
        Ok(())
    }

    /// Takes the link away whose id the body states, a string. Its template stays, and an open question is
    /// closed.
    ///
    /// It is refused as any body, then `Shape` where it is no string, `NotLink` where the id is bound to
    /// something else, `NoSuchPolicy` where it isn't bound, and `Memory`; then nothing changes.
    pub fn unlink(&mut self, text: &str) -> Result<(), Refusal>
        requires { length text.now ≤ body_limit }
        ensures step { Step (setting_of self.old) (world_of self.old) UnlinkVerb text.now (edit_reply result) (world_of self.new) }
        ensures setting { setting_of self.new ≡ setting_of self.old }
    {
        cedar_world::texts_are_one();
        let alloc = self.allocator;
        let id = read_id(alloc, text, &mut self.names, self.extensions, self.depth)?;
        self.policies.unlink(&id)?;
        close(&mut self.asked);
        Ok(())
    }

    /// Takes the static policy away whose id the body states, a string. An open question is closed.
    ///
    /// It is refused as any body, then `Shape` where it is no string, `NoSuchPolicy` where the id isn't
    /// bound, `NotStatic` where it is bound to a template or a link, and `Memory`; then nothing changes.
    pub fn remove_static(&mut self, text: &str) -> Result<(), Refusal>
        requires { length text.now ≤ body_limit }
        ensures step { Step (setting_of self.old) (world_of self.old) RemoveStaticVerb text.now (edit_reply result) (world_of self.new) }
        ensures setting { setting_of self.new ≡ setting_of self.old }
    {
        cedar_world::texts_are_one();
        let alloc = self.allocator;
        let id = read_id(alloc, text, &mut self.names, self.extensions, self.depth)?;
        self.policies.remove_static(&id)?;
        close(&mut self.asked);
        Ok(())
    }

    /// Takes the template away whose id the body states, a string. An open question is closed.
    ///
    /// It is refused as any body, then `Shape` where it is no string, `NoSuchTemplate` where the id isn't
    /// bound, `NotTemplate` where it is bound to something else, `HasLinks` where a link names the template,
    /// and `Memory`; then nothing changes.
    pub fn remove_template(&mut self, text: &str) -> Result<(), Refusal>
        requires { length text.now ≤ body_limit }
        ensures step { Step (setting_of self.old) (world_of self.old) RemoveTemplateVerb text.now (edit_reply result) (world_of self.new) }
        ensures setting { setting_of self.new ≡ setting_of self.old }
    {
        cedar_world::texts_are_one();
        let alloc = self.allocator;
        let id = read_id(alloc, text, &mut self.names, self.extensions, self.depth)?;
        self.policies.remove_template(&id)?;
        close(&mut self.asked);
        Ok(())
    }

    /// Adds the entities that a body lists. One that is held is taken without change where its attributes
    /// and tags are equal and the parents listed are all its ancestors; of the versions of one that isn't
    /// held each is equal to the first. An open question is closed.
    /// (Cedar language reference, "Entities".)
    ///
    /// The body is a list of records: `uid` is an entity, and `attrs`, `parents` and `tags`, each where it
    /// stands, are a record, a list of entities and a record.
    ///
    /// It is refused as any body, then `Shape` where it isn't such a list, `Evaluation` where an attribute
    /// or a tag errs, `NotAValue` where one holds an unknown, `Duplicate` for another version, `Cycle` where
    /// parents would lead back, and `Memory`; then nothing changes.
    pub fn add(&mut self, text: &str) -> Result<(), Refusal>
        requires { length text.now ≤ body_limit }
        ensures step { Step (setting_of self.old) (world_of self.old) AddVerb text.now (edit_reply result) (world_of self.new) }
        ensures setting { setting_of self.new ≡ setting_of self.old }
    {
        cedar_world::texts_are_one();
        self.extensions.names_are_defined();
        let alloc = self.allocator;
        let body = read_body(alloc, text, &mut self.names, self.extensions, self.depth)?;
        let listed = body.as_borrowed();
        self.entities
            .add(alloc, listed, self.extensions, self.depth)?;
        close(&mut self.asked);
        Ok(())
    }

    /// Puts the entities that a body lists in place of those held under the same uids; of several versions
    /// of one the last stays. An open question is closed.
    /// (Cedar language reference, "Entities".)
    ///
    /// The body is a list as [`add`](Session::add) takes it.
    ///
    /// It is refused as any body, then `Shape` where it isn't such a list, `Evaluation` where an attribute
    /// or a tag errs, `NotAValue` where one holds an unknown, `Cycle` where parents would lead back, and
    /// `Memory`; then nothing changes.
    pub fn put(&mut self, text: &str) -> Result<(), Refusal>
        requires { length text.now ≤ body_limit }
        ensures step { Step (setting_of self.old) (world_of self.old) PutVerb text.now (edit_reply result) (world_of self.new) }
        ensures setting { setting_of self.new ≡ setting_of self.old }
    {
        cedar_world::texts_are_one();
        self.extensions.names_are_defined();
        let alloc = self.allocator;
        let body = read_body(alloc, text, &mut self.names, self.extensions, self.depth)?;
        let listed = body.as_borrowed();
        self.entities
            .put(alloc, listed, self.extensions, self.depth)?;
        close(&mut self.asked);
        Ok(())
    }

    /// Removes the entities that a body lists, and every parent edge from them and to them. Of one that
    /// isn't held the edges to it go. An open question is closed.
    /// (Cedar language reference, "Entities".)
    ///
    /// It is refused as any body, then `Shape` where it is no list of entities, and `Memory`; then nothing
    /// changes.
    pub fn remove(&mut self, text: &str) -> Result<(), Refusal>
        requires { length text.now ≤ body_limit }
        ensures step { Step (setting_of self.old) (world_of self.old) RemoveVerb text.now (edit_reply result) (world_of self.new) }
        ensures setting { setting_of self.new ≡ setting_of self.old }
    {
        cedar_world::texts_are_one();
        let alloc = self.allocator;
        let body = read_body(alloc, text, &mut self.names, self.extensions, self.depth)?;
        self.entities.remove(alloc, body.as_borrowed())?;
        close(&mut self.asked);
        Ok(())
    }

    /// Answers the question of a body, which is then the open one in place of any before it. Policies and
    /// entities stay. (Cedar language reference, "Authorization".)
    ///
    /// The body is a record: `principal`, `action` and `resource`, each where it stands, are entities, and
    /// `context`, where it stands, is a record, in which `unknown("n")` names an unknown `n`. What is left
    /// out or named so is unknown. Where the principal or the resource is left out, `principal_type` or
    /// `resource_type` may stand there, a string that names its type as it is written in the policies, without
    /// white space. The answer holds whatever the unknowns are, of the types that are stated: a decision stands
    /// there only where all that they may be leads to it, an id is among `must` only where its policy is a reason
    /// in each case, and among `may` where it is one in some. No id errs by a failed look-up of a function, since
    /// a text calls functions of the session alone, or by a slot that isn't linked, since no policy in force has
    /// one.
    ///
    /// It is refused as any body, then `Shape` where it isn't such a record, where a type is stated of what is
    /// given, or where no type is so named; `Evaluation` where a part of the context without unknowns errs,
    /// `BadUnknown` where `unknown` is called there on anything but a string or names one of the four variables,
    /// `Depth` where the evaluation of some policy goes deeper than the limit, of a question without unknowns only
    /// where the condition of a policy in force is higher than that, and `Memory`; then nothing changes.
    pub fn ask(&mut self, text: &str) -> Result<Answer, Refusal>
        requires { length text.now ≤ body_limit }
        ensures step { Step (setting_of self.old) (world_of self.old) AskVerb text.now (ask_reply result) (world_of self.new) }
        ensures ordinary { IfOk result (λ answer. AnswersOrdinarily (setting_of self.old) (world_of self.old) (answer_of answer)) }
        ensures found { IfOk result (λ answer. AnswersAsFound (setting_of self.old) (world_of self.old) text.now (answer_of answer)) }
        ensures setting { setting_of self.new ≡ setting_of self.old }
    {
        self.policies.index(self.allocator)?;
        self.ask_indexed(text)
    }

    // The same by the policies as they are indexed.
    fn ask_indexed(&mut self, text: &str) -> Result<Answer, Refusal>
        requires { length text.now ≤ body_limit }
        ensures step { Step (setting_of self.old) (world_of self.old) AskVerb text.now (ask_reply result) (world_of self.new) }
        ensures ordinary { IfOk result (λ answer. AnswersOrdinarily (setting_of self.old) (world_of self.old) (answer_of answer)) }
        ensures found { IfOk result (λ answer. AnswersAsFound (setting_of self.old) (world_of self.old) text.now (answer_of answer)) }
        ensures setting { setting_of self.new ≡ setting_of self.old }
    {
        cedar_world::texts_are_one();
        cedar_world::calls_are_found();
        cedar_world::telling::answers_err_ordinarily();
        self.extensions.names_are_defined();
        let alloc = self.allocator;
        let (body, request) = asked_question(
            alloc,
            text,
            &mut self.names,
            self.extensions,
            self.depth,
        )?;
        let policies = self.policies.set();
        let entities = self.entities.store();
        let (first, answer) = answer(
            alloc,
            request,
            policies,
            entities,
            self.extensions,
            self.depth,
        )?;
        let kept = answer.clone()?;
        self.asked = Some(Asked {
            body,
            first,
            told: BTreeMap::new(alloc),
            answer: kept,
        });
        Ok(answer)
    }

    /// Answers the open question with the values that a body tells besides those told before. What was
    /// answered before stays: a decision that was given, the ids among `must` and those that err, each with
    /// the kind that it was shown with, and no id comes to `may`. Until a name is told that stands in what the
    /// [`response`](Session::response) leaves of a policy, it is the answer that was given last. Once all is told,
    /// decision, reasons and erring ids are those of the question asked with all known. Policies and entities stay.
    /// (Cedar language reference, "Partial evaluation".)
    ///
    /// The body is a record from names to values: the names of the context's unknowns, and `principal`,
    /// `action`, `resource` and `context` where the question leaves them out. An empty one is accepted. No id errs
    /// by a failed look-up of a function. One errs by a slot that isn't linked only where some clause has a slot:
    /// what was left of a link is evaluated again without the entities of its slots.
    ///
    /// It is refused `NoQuestion` where no question is open, which is checked first and takes no memory; then
    /// as any body; `Shape` where it is no record, `Evaluation` where a value errs, `NotAValue` where one holds
    /// an unknown, `NoSuchUnknown` for a name that is no unknown of the question, `AlreadyTold` for one told
    /// before, `WrongKind` where a principal, an action or a resource is told what is no entity, or one of
    /// another type than the question states, or a context what is no record, `Evaluation` where the context errs
    /// with all that is told, `Depth` where the evaluation of the context with all that is told, or of some
    /// policy, goes deeper than the limit, and `Memory`; then nothing changes.
    pub fn tell(&mut self, text: &str) -> Result<Answer, Refusal>
        requires { length text.now ≤ body_limit }
        ensures step { Step (setting_of self.old) (world_of self.old) TellVerb text.now (ask_reply result) (world_of self.new) }
        ensures ordinary { IfOk result (λ answer. AnswersToldOrdinarily (setting_of self.old) (world_of self.old) (answer_of answer)) }
        ensures waits { IfOk result (λ answer. WaitsForNames (response_of self.old) (world_of self.old).asked (world_of self.new).asked (answer_of answer)) }
        ensures setting { setting_of self.new ≡ setting_of self.old }
    {
        cedar_world::texts_are_one();
        cedar_world::answers_read_what_is_in_force();
        cedar_world::telling::answers_err_ordinarily();
        cedar_asking::more_is_told();
        self.extensions.names_are_defined();
        let Some(asked) = &self.asked else {
            return Err(Refusal::NoQuestion);
        };
        let alloc = self.allocator;
        let body = read_body(alloc, text, &mut self.names, self.extensions, self.depth)?;
        let told = told_besides(alloc, &body, asked, self.extensions, self.depth)?;
        let answer = answer_told(
            alloc,
            &asked.first,
            &told,
            &asked.answer,
            self.entities.store(),
            self.extensions,
            self.depth,
        )?;
        let kept = answer.clone()?;
        go_on(&mut self.asked, told, kept);
        Ok(answer)
    }

    /// Answers a command as the method of its verb does: `load` by the ids, `ask` and `tell` by the answer, and any
    /// other by [`Reply::Done`]. It is refused as that method, and a refused one changes nothing. No answer names a failed
    /// look-up of a function, and none a slot that isn't linked, but one to `tell` where some clause has a slot.
    pub fn apply(&mut self, command: &Command<'_>) -> Result<Reply, Refusal>
        requires { length (command_text command.now) ≤ body_limit }
        ensures step { Step (setting_of self.old) (world_of self.old) (command_verb command.now) (command_text command.now) (reply_of result) (world_of self.new) }
        ensures ordinary { RepliesOrdinarily (setting_of self.old) (world_of self.old) (reply_of result) (command_verb command.now) }
        ensures setting { setting_of self.new ≡ setting_of self.old }
    {
        match *command {
            Command::Load(text) => Ok(Reply::Ids(self.load(text)?)),
            Command::Link(text) => {
                self.link(text)?;
                Ok(Reply::Done)
            }
            Command::Unlink(text) => {
                self.unlink(text)?;
                Ok(Reply::Done)
            }
            Command::RemoveStatic(text) => {
                self.remove_static(text)?;
                Ok(Reply::Done)
            }
            Command::RemoveTemplate(text) => {
                self.remove_template(text)?;
                Ok(Reply::Done)
            }
            Command::Add(text) => {
                self.add(text)?;
                Ok(Reply::Done)
            }
            Command::Put(text) => {
                self.put(text)?;
                Ok(Reply::Done)
            }
            Command::Remove(text) => {
                self.remove(text)?;
                Ok(Reply::Done)
            }
            Command::Ask(text) => Ok(Reply::Answer(self.ask(text)?)),
            Command::Tell(text) => Ok(Reply::Answer(self.tell(text)?)),
        }
    }
}
