// What stands alone inside parentheses.
ghost use Rattle.std.specs.Prelude.{◌≡◌, Some, None, IfErr, MatchResult};
ghost use Rattle.std.specs.Option.{option_map};
ghost use Rattle.cedar_grammar.specs.Converting as converting;
ghost use Rattle.cedar_cst.specs.View.{shown_expr, shown_primary};
ghost use Rattle.cedar_policy_conversion.specs.Entities as entities;
ghost use Rattle.cedar_policy_conversion.specs.PartsShow.{is_empty_expr, is_empty_inside};

use cedar_conversion::alone;
use cedar_cst::cst::{Expr, Primary};
use cedar_cst::node::Node;

// The expression in parentheses that a primary is.
fn in_parens(node: &Node<Option<Primary>>) -> Option<&Node<Option<Expr>>>
    ensures { option_map (λ n. shown_expr n.now) result ≡ entities.in_parens (shown_primary node.now) }
{
    match &node.node {
        None => None,
        Some(primary) => match primary {
            Primary::Expr(expr) => Some(expr),
            Primary::Literal(_) => None,
            Primary::Ref(_) => None,
            Primary::Name(_) => None,
            Primary::Slot(_) => None,
            Primary::EList(_) => None,
            Primary::RInits(_) => None,
        },
    }
}

/// The primary that stands alone in any number of parentheses; or else the innermost expression, in which
/// none does.
pub(crate) fn inside_parens(
    node: &Node<Option<Expr>>,
) -> Result<&Node<Option<Primary>>, &Node<Option<Expr>>>
    ensures primary { MatchResult result (λ n. converting.inside_parens (shown_expr node.now) ≡ Some (shown_primary n.now))
        (λ _. converting.inside_parens (shown_expr node.now) ≡ None) }
    ensures empty { IfErr result (λ n. is_empty_inside (shown_expr node.now) ≡ is_empty_expr (shown_expr n.now)) }
{
    match alone(node) {
        None => Err(node),
        Some(primary) => match in_parens(primary) {
            None => Ok(primary),
            Some(inner) => inside_parens(inner),
        },
    }
}
