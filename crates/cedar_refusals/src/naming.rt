// Names, and whether they stand among others.
ghost use Rattle.std.specs.Prelude.{◌≡◌, ◌++◌, codes, string_bytes, IfOk, OnOk, map};
ghost use Rattle.std.specs.List.{list_any};
ghost use Rattle.cedar_language.specs.Uid.{Text};
ghost use Rattle.cedar_world.specs.Bodies.{is_one_of};
ghost use Rattle.cedar_world.specs.Lines.{further, listed};
ghost use Rattle.cedar_world.specs.Orders.{text_eq};
ghost use Rattle.cedar_world.specs.Values.{variable_names};
ghost use Rattle.cedar_refusals.specs.Naming.{in_quotes, stands};

use cedar_literals::escapes::Escaped;
use std::alloc::{AllocError, Global};

/// Whether a name stands among these.
pub fn stands(standing: &[&str], name: &str) -> bool
    ensures { result ≡ stands (map (λ n. n.now) standing.now) name.now }
{
    for other in standing {
        if is_same(other, name) {
            return true;
        }
    }
    false
}

fn is_same(text: &str, other: &str) -> bool
    ensures { result ≡ text_eq text.now other.now }
{
    text == other
}

/// Whether a name is that of one of the four variables.
pub fn is_variable(name: &str) -> bool
    ensures { result ≡ is_one_of variable_names name.now }
{
    is_same("principal", name)
        || is_same("action", name)
        || is_same("resource", name)
        || is_same("context", name)
}

/// These names, each once, in order.
pub fn once(mut names: Vec<&str>) -> Vec<&str>
    ensures { (n : Text) → list_any (text_eq n) (map (λ n. n.now) result.items) ≡ list_any (text_eq n) (map (λ n. n.now) names.entry.items) }
{
    names.sort_unstable();
    names.dedup();
    names
}

/// Names in brackets, with commas between, each in quotes as a body has them. Refused for memory alone.
pub fn listed(alloc: Global, names: &[&str]) -> Result<String, AllocError>
    ensures { IfOk result (λ told. string_bytes told ≡ listed (map in_quotes (map (λ n. n.now) names.now))) }
{
    let mut told = String::new(alloc);
    told.push_str("[")?;
    if let Some((first, others)) = names.split_first() {
        let quoted = quoted(alloc, first)?;
        told.push_str(quoted.as_str())?;
        push_further(alloc, &mut told, others)?;
    }
    told.push_str("]")?;
    Ok(told)
}

/// Appends each name behind a comma.
fn push_further(alloc: Global, told: &mut String, names: &[&str]) -> Result<(), AllocError>
    ensures { OnOk result (string_bytes told.new ≡ string_bytes told.old ++ further (map in_quotes (map (λ n. n.now) names.now))) }
{
    for name in names {
        push_behind_comma(alloc, told, name)?;
    }
    Ok(())
}

fn push_behind_comma(alloc: Global, told: &mut String, name: &str) -> Result<(), AllocError>
    ensures { OnOk result (string_bytes told.new ≡ string_bytes told.old ++ (codes "," ++ in_quotes name.now)) }
{
    let quoted = quoted(alloc, name)?;
    told.push_str(",")?;
    told.push_str(quoted.as_str())?;
    Ok(())
}

fn quoted(alloc: Global, name: &str) -> Result<String, AllocError>
    ensures { IfOk result (λ quoted. string_bytes quoted ≡ in_quotes name.now) }
{
    let name = Escaped::new(name);
    format!(in alloc; "\"{name}\"")
}
