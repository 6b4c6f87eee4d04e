// Which names policies are given.
ghost use Rattle.std.specs.Prelude.{◌≡◌, IfOk};
ghost use Rattle.std.specs.Char.{is_ascii_digit};
ghost use Rattle.std.specs.List.{list_all};
ghost use Rattle.std.specs.Option.{option_copied};
ghost use Rattle.cedar_json.specs.Values.{are_digits};
ghost use Rattle.cedar_named_sessions.specs.Named.{annotated, is_number};
ghost use Rattle.cedar_named_sessions.specs.Giving.{given_as, given_by};
ghost use Rattle.cedar_policy_set.specs.Bounds.{entry_of};
ghost use Rattle.cedar_policy_set.specs.Texts.{syntax_in};

use cedar_names::identifiers::AnyId;
use cedar_policy_parts::PolicyID;
use cedar_policy_parts::annotations::Annotation;
use cedar_policy_set::bounds::{Bound, BoundKind};
use std::alloc::{AllocError, Global};
use std::rc::RcStr;

/// How the policies and templates of a text are named.
#[derive(Clone, Copy, Debug, PartialEq, Eq)]
pub enum Naming {
    /// By their ids, `policy0`, `policy1`, ..
    Numbers,
    /// By their annotations `@id`, and by their ids where there is none. (Cedar language reference, "Annotations".)
    Ids,
}

/// The name that each policy is given.
#[derive(Clone, Copy)]
pub(crate) enum Given<'n> {
    /// None.
    Nothing,
    /// What its annotation `@id` says.
    Annotation,
    /// This one.
    Name(&'n PolicyID),
}

impl Naming {
    /// The names that it gives.
    pub(crate) fn given(self) -> Given<'static>
        ensures { given_by result ≡ given_as self }
    {
        match self {
            Naming::Numbers => Given::Nothing,
            Naming::Ids => Given::Annotation,
        }
    }
}

/// The annotation `@id` of a policy or template.
fn annotation<'b>(alloc: Global, bound: &'b Bound) -> Result<Option<&'b Annotation>, AllocError>
    ensures { IfOk result (λ found. option_copied found ≡ annotated (syntax_in (entry_of bound.now))) }
{
    let key = AnyId::new_unchecked(RcStr::from_str(alloc, "id")?);
    match bound.kind() {
        BoundKind::Policy(policy) => Ok(policy.annotation(&key)),
        BoundKind::Template(template) => Ok(template.annotation(&key)),
    }
}

/// The name that a policy or template is given, if it is. Refused for memory alone.
pub(crate) fn given_name(
    alloc: Global,
    given: Given<'_>,
    bound: &Bound,
) -> Result<Option<PolicyID>, AllocError>
    ensures { IfOk result (λ name. name ≡ given_by given.entry (syntax_in (entry_of bound.now))) }
{
    match given {
        Given::Nothing => Ok(None),
        Given::Annotation => match annotation(alloc, bound)? {
            Some(id) => Ok(Some(PolicyID::from_string(alloc, id.val())?)),
            None => Ok(None),
        },
        Given::Name(name) => Ok(Some(name.clone()?)),
    }
}

/// Whether a name is in the shape of a number: `policy` and digits.
pub(crate) fn is_number(name: &str) -> bool
    ensures { result ≡ is_number name.now }
{
    match name.as_bytes().strip_prefix(b"policy") {
        Some(digits) => are_digits(digits),
        None => false,
    }
}

/// Whether it is one digit or more, and nothing else.
fn are_digits(bytes: &[u8]) -> bool
    ensures { result ≡ are_digits bytes.now }
{
    match bytes.split_first() {
        None => false,
        Some((first, more)) => first.is_ascii_digit() && are_all_digits(more),
    }
}

fn are_all_digits(bytes: &[u8]) -> bool
    ensures { result ≡ list_all is_ascii_digit bytes.now }
{
    bytes.iter().all(|byte| byte.is_ascii_digit())
}
