// Names of functions and methods.
ghost use Rattle.std.specs.Prelude.{◌≡◌, [], ◌∷◌};
ghost use Rattle.std.specs.List.{list_any};
ghost use Rattle.cedar_grammar.specs.Names.{is_among, is_name, is_function, is_variable};

use cedar_names::identifiers::UnreservedId;
use cedar_names::names::Name;
use std::marker::Model;

/// The extension functions that a text may call: those that are called by their name before all their
/// arguments, and those that are called by their name behind the first one. Contracts see both lists.
/// (Cedar language reference, "Operators and functions".)
#[derive(Debug, Drop)]
pub struct ExtStyles {
    functions: Vec<Name>,
    methods: Vec<UnreservedId>,
}

impl Model for ExtStyles {
    ghost use Rattle.cedar_grammar.specs.Names.{Names};

    ghost Value = { Names };

    ghost view = { λ a. record { functions = a.functions.items; methods = a.methods.items } };
}

impl ExtStyles {
    /// These functions and methods.
    pub fn new(functions: Vec<Name>, methods: Vec<UnreservedId>) -> ExtStyles
        ensures { result ≡ record { functions = functions.items; methods = methods.items } }
    {
        ExtStyles { functions, methods }
    }

    /// Whether this name may be called before its arguments. A variable may not.
    pub fn is_function(&self, name: &Name) -> bool
        ensures { result ≡ is_function self.now name.now }
    {
        if is_variable(name) {
            return false;
        }
        self.lists_function(name)
    }

    // Whether this name is among the functions.
    fn lists_function(&self, name: &Name) -> bool
        ensures { result ≡ list_any (is_name name.now) self.now.functions }
    {
        self.functions.iter().any(|function| *name == *function)
    }

    /// Whether this name may be called behind a first argument; Cedar's own methods aside.
    pub fn is_method(&self, id: &UnreservedId) -> bool
        ensures { result ≡ is_among id.now self.now.methods }
    {
        self.methods.iter().any(|method| *id == *method)
    }
}

// Whether the name is a variable alone.
fn is_variable(name: &Name) -> bool
    ensures { result ≡ is_variable name.now }
{
    match name.as_ref().components() {
        [id] => is_variable_word(id.as_str()),
        _ => false,
    }
}

fn is_variable_word(text: &str) -> bool
    ensures { result ≡ is_variable (text.now ∷ []) }
{
    matches!(text, "principal" | "action" | "resource" | "context")
}
