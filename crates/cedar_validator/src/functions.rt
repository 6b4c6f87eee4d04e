// Extension functions, as typing asks for them.
ghost use Rattle.std.specs.Prelude.{◌≡◌, Option, IfOk};
ghost use Rattle.std.specs.Option.{option_map};
ghost use Rattle.std.specs.Rc.{rc_str_bytes};
ghost use Rattle.cedar_language.specs.Uid as language;
ghost use Rattle.cedar_typing.specs.Schema as typing;
ghost use Rattle.cedar_typechecker.specs.Environments.{signature_view, signature_head, accepts};

use cedar_names::names::Name;
use cedar_typechecker::Signature;
use std::alloc::AllocError;
use std::rc::RcStr;

/// The extension functions that policies may call, by their signatures. (Cedar language reference, "Extension functions".)
pub trait FunctionSignatures {
    // as the definition of typing has them
    ghost signatures: { Self → language.Name → Option typing.Signature };

    /// The function of this name, if there is one.
    fn signature(&self, function: &Name) -> Option<&Signature>
        ensures { option_map (λ signature. signature_view signature.now) result
            ≡ option_map signature_head (signatures self.now function.now) };

    /// Whether the function makes a value of this text, if it makes values of one text alone; else false. Refused for memory
    /// alone.
    fn accepts(&self, function: &Name, text: &RcStr) -> Result<bool, AllocError>
        ensures { IfOk result (λ is_accepted. is_accepted ≡ accepts (signatures self.now function.now) (rc_str_bytes text.now)) };
}

/// No extension functions.
#[derive(Clone, Copy, Debug)]
pub struct NoFunctions;

impl FunctionSignatures for NoFunctions {
    ghost use Rattle.std.specs.Prelude.{None};

    ghost signatures = { λ functions n. None };

    fn signature(&self, _function: &Name) -> Option<&Signature> {
        None
    }

    fn accepts(&self, _function: &Name, _text: &RcStr) -> Result<bool, AllocError> {
        Ok(false)
    }
}
