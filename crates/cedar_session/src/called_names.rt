// Names that are kept from one text to the next: those that texts may call, and those of types.
ghost use Rattle.std.specs.Prelude.{◌≡◌, None, Some, IsSome, IfOk, IfSome, OnOk};
ghost use Rattle.cedar_data.specs.Data.{IsDataText};
ghost use Rattle.cedar_data.specs.Questions.{IsQuestionText};
ghost use Rattle.cedar_grammar.specs.Functions.{Functions, body_names};
ghost use Rattle.cedar_grammar.specs.Names.{Names};
ghost use Rattle.cedar_parser.specs.Settings.{functions_of};
ghost use Rattle.cedar_session.specs.Calling.{AreNamesOf};

use cedar_data::{GivenQuestion, TypeNames, read_data, read_question};
use cedar_extensions::extensions::Extensions;
use cedar_extensions::objects::ExtensionFunctionObject;
use cedar_faults::ExtStyles;
use cedar_parser::prelude::StylesOfExtensions;
use cedar_restricted::restricted::RestrictedExpr;
use std::alloc::{AllocError, Global};

/// The names that texts may call by the table of a session: those of bodies are made where the first body is read,
/// and those of policies where the first policies are. Beside them stand names of types that bodies spelled.
pub(crate) struct CalledNames {
    bodies: Option<ExtStyles>,
    policies: Option<ExtStyles>,
    types: Option<TypeNames>,
}

impl Drop for CalledNames {
    fn drop(self) {
        let CalledNames {
            bodies: _,
            policies: _,
            types: _,
        } = self;
    }
}

impl CalledNames {
    /// None are made. Takes no memory.
    pub(crate) fn new() -> CalledNames
        ensures bodies { result.bodies ≡ None }
        ensures policies { result.policies ≡ None }
    {
        CalledNames {
            bodies: None,
            policies: None,
            types: None,
        }
    }

    /// Makes the names that bodies may call, where they aren't made yet. Refused for memory alone.
    pub(crate) fn make_for_bodies<F: ExtensionFunctionObject>(
        &mut self,
        alloc: Global,
        extensions: &Extensions<'_, F>,
    ) -> Result<(), AllocError>
        requires { AreNamesOf (functions_of F.answers extensions.now) self.old }
        ensures called { AreNamesOf (functions_of F.answers extensions.now) self.new }
        ensures made { OnOk result (IsSome self.new.bodies) }
    {
        if self.bodies.is_none() {
            self.bodies = Some(ExtStyles::from_extensions(alloc, extensions)?);
        }
        Ok(())
    }

    /// The same of the names that policies may call.
    pub(crate) fn make_for_policies<F: ExtensionFunctionObject>(
        &mut self,
        alloc: Global,
        extensions: &Extensions<'_, F>,
    ) -> Result<(), AllocError>
        requires { AreNamesOf (functions_of F.answers extensions.now) self.old }
        ensures called { AreNamesOf (functions_of F.answers extensions.now) self.new }
        ensures made { OnOk result (IsSome self.new.policies) }
    {
        if self.policies.is_none() {
            self.policies = Some(ExtStyles::for_policies(alloc, extensions)?);
        }
        Ok(())
    }

    /// The names that bodies may call, which are made.
    pub(crate) fn for_bodies(&self) -> &ExtStyles
        requires { IsSome self.now.bodies }
        ensures { self.now.bodies ≡ Some result.now }
    {
        self.bodies.as_ref().unwrap()
    }

    /// The data that a text is, where it may call the names for bodies, which are made; `None` says nothing of
    /// the text (`read_data`). The names of its types are shared with those of bodies before. Refused for
    /// memory alone.
    pub(crate) fn read_plain(
        &mut self,
        alloc: Global,
        text: &str,
        depth: u32,
    ) -> Result<Option<RestrictedExpr>, AllocError>
        requires { IsSome self.old.bodies }
        ensures called { (functions : Functions) → AreNamesOf functions self.old → AreNamesOf functions self.new }
        ensures made { IsSome self.new.bodies }
        ensures data { (functions : Functions) → AreNamesOf functions self.old →
            IfOk result (λ found. IfSome found (IsDataText (body_names functions) depth text.now)) }
    {
        let types = self.types.get_or_insert(TypeNames::new(alloc));
        let styles = self.bodies.as_ref().unwrap();
        read_data(alloc, text, styles, types, depth)
    }

    /// The question that a text states, where all of it is given; `None` says nothing of the text (`read_question`). The
    /// names of its types are shared with those of bodies before. Refused for memory alone.
    pub(crate) fn read_given(
        &mut self,
        alloc: Global,
        text: &str,
        depth: u32,
    ) -> Result<Option<GivenQuestion>, AllocError>
        ensures called { (functions : Functions) → AreNamesOf functions self.old → AreNamesOf functions self.new }
        ensures question { IfOk result (λ found. IfSome found (λ question. (names : Names) → IsQuestionText names depth text.now question)) }
    {
        let types = self.types.get_or_insert(TypeNames::new(alloc));
        read_question(alloc, text, types, depth)
    }

    /// The names that policies may call, which are made.
    pub(crate) fn for_policies(&self) -> &ExtStyles
        requires { IsSome self.now.policies }
        ensures { self.now.policies ≡ Some result.now }
    {
        self.policies.as_ref().unwrap()
    }
}
