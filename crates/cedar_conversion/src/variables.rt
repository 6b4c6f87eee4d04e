// Variables.
ghost use Rattle.std.specs.Prelude.{◌≡◌};
ghost use Rattle.std.specs.Option.{option_map};
ghost use Rattle.cedar_literals.specs.Variables.{variable_of};
ghost use Rattle.cedar_grammar.specs.Converting.{name_variable};
ghost use Rattle.cedar_cst.specs.LeafView.{shown_ident, shown_name, written_ident};
ghost use Rattle.cedar_conversion.specs.Words.{ident_variable};

use crate::names::spelling;
use cedar_cst::cst::{Ident, Name};
use cedar_cst::node::Node;
use cedar_literals::variables::Var;

// The variable that is so written.
fn variable_named(text: &str) -> Option<Var>
    ensures { option_map variable_of result ≡ ident_variable (written_ident text.now) }
{
    match text {
        "principal" => Some(Var::Principal),
        "action" => Some(Var::Action),
        "resource" => Some(Var::Resource),
        "context" => Some(Var::Context),
        _ => None,
    }
}

/// The variable that a word is, if it is one.
pub fn word_to_variable(node: &Node<Option<Ident>>) -> Option<Var>
    ensures { option_map variable_of result ≡ ident_variable (shown_ident node.now) }
{
    match &node.node {
        None => None,
        Some(ident) => match spelling(ident) {
            None => None,
            Some(text) => variable_named(text),
        },
    }
}

/// The variable that a name is, if it is one.
pub fn to_variable(node: &Node<Option<Name>>) -> Option<Var>
    ensures { option_map variable_of result ≡ name_variable (shown_name node.now) }
{
    match &node.node {
        None => None,
        Some(name) => {
            if name.path.is_empty() {
                word_to_variable(&name.name)
            } else {
                None
            }
        }
    }
}
