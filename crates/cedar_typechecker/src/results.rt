// What typing finds.
ghost use Rattle.std.specs.Prelude.{◌≡◌};
ghost use Rattle.cedar_typing.specs.Results.{plainly};
ghost use Rattle.cedar_typechecker.specs.Results.{typing_view};
ghost use Rattle.cedar_typechecker.specs.Types.{type_view};

use crate::capabilities::Capability;
use crate::types::ExprType;
use std::alloc::Global;

/// The type of an expression, and what an expression that stands behind it may read where its value is true.
#[derive(Drop)]
pub struct Typed {
    pub expr_type: ExprType,
    pub capabilities: Vec<Capability>,
}

impl Typed {
    /// This type, and no capability. Takes no memory.
    pub(crate) fn plainly(alloc: Global, expr_type: ExprType) -> Typed
        ensures { typing_view result ≡ plainly (type_view expr_type) }
    {
        Typed {
            expr_type,
            capabilities: Vec::new(alloc),
        }
    }
}
