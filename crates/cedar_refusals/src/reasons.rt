// Why a session refuses a command, as data.
ghost use Rattle.std.specs.Prelude.{◌≡◌, ◌∷◌, [], IfOk, IfErr};
ghost use Rattle.cedar_parser.specs.declared.restricted.RestrictedExpressionParseError.TheVariants.{InvalidRestrictedExpression};
ghost use Rattle.cedar_replies.specs.Refusals.{refusal_of};
ghost use Rattle.cedar_session.specs.Settings.{setting_with};
ghost use Rattle.cedar_refusals.specs.Reasons.{AreAtMostOne, AreOfBody, FindsBody, ShowsBody, ShowsNoText, ShowsPart, ShowsPolicies, ShowsText, ShowsUnread, ShowsWhy};
ghost use Rattle.cedar_refusals.specs.RefusedBodies.{is_for_a_part, IsBodyWithin};

use crate::body_faults::{BodyFault, record_fault, shape_fault, span_of};
use crate::edit_faults::{edit_fault, name_fault};
use crate::seen::Seen;
use crate::shapes::Shape;
use crate::value_faults::value_fault;
use cedar_extensions::objects::ExtensionFunctionObject;
use cedar_messages::places::{Extent, position_in};
use cedar_messages::{Fault, unread_faults};
use cedar_parser::ExtStyles;
use cedar_parser::err::RestrictedExpressionParseError;
use cedar_parser::prelude::StylesOfExtensions;
use cedar_parser::strict::{parse_policyset, parse_restrictedexpr};
use cedar_restricted::errors::RestrictedExpressionError;
use cedar_restricted::restricted::RestrictedExpr;
use cedar_session::{Extensions, Refusal, Verb};
use std::alloc::{AllocError, Global};

/// Why a session that holds what is seen refuses the command of a verb and a body, which it isn't given: that the body is
/// no UTF-8; each error by which it isn't read, in order; or the part for which it is refused. None where it isn't
/// refused, and where no place of the body shows the reason, as where an id is bound. Refused for memory alone.
pub fn why<F: ExtensionFunctionObject>(
    alloc: Global,
    seen: &Seen<'_, '_, F>,
    verb: Verb,
    body: &[u8],
) -> Result<Vec<Fault>, AllocError>
    ensures { IfOk result (λ faults. ShowsWhy (setting_with F.answers seen.now.extensions.now seen.now.depth) verb body.now faults.items) }
{
    match str::from_utf8(body) {
        Ok(text) => text_faults(alloc, seen, verb, text),
        Err(error) => no_text(alloc, body, error.valid_up_to()),
    }
}

/// The fault of bytes that are no text, at this byte, the first that shows it.
fn no_text(alloc: Global, bytes: &[u8], byte: usize) -> Result<Vec<Fault>, AllocError>
    ensures { IfOk result (λ faults. ShowsNoText bytes.now byte faults.items) }
{
    let place = position_in(bytes, byte);
    let extent = Extent {
        start: place,
        end: place,
    };
    let message = String::from_str(alloc, "the text is no UTF-8")?;
    one(
        alloc,
        Fault::unmarked(Some(extent), Refusal::NotUtf8.name(), message),
    )
}

fn one(alloc: Global, fault: Fault) -> Result<Vec<Fault>, AllocError>
    ensures { IfOk result (λ faults. faults.items ≡ fault ∷ []) }
{
    let mut faults = Vec::new(alloc);
    faults.push(fault)?;
    Ok(faults)
}

fn text_faults<F: ExtensionFunctionObject>(
    alloc: Global,
    seen: &Seen<'_, '_, F>,
    verb: Verb,
    text: &str,
) -> Result<Vec<Fault>, AllocError>
    ensures { IfOk result (λ faults. ShowsText (setting_with F.answers seen.now.extensions.now seen.now.depth) verb text.now faults.items) }
{
    match verb {
        Verb::Load => policy_faults(alloc, seen.extensions, seen.depth, text),
        Verb::Tell if seen.told.is_none() => Ok(Vec::new(alloc)),
        _ => found_faults(alloc, seen, verb, text),
    }
}

/// The errors by which a text isn't read as policies, where it may call the functions of this table and nest so deep.
pub(crate) fn policy_faults<F: ExtensionFunctionObject>(
    alloc: Global,
    extensions: &Extensions<'_, F>,
    depth: u32,
    text: &str,
) -> Result<Vec<Fault>, AllocError>
    ensures { IfOk result (λ faults. ShowsPolicies (setting_with F.answers extensions.now depth) text.now faults.items) }
{
    match parse_policyset(alloc, text, extensions, depth) {
        Ok(_) => Ok(Vec::new(alloc)),
        Err(errors) => unread_faults(alloc, text, &errors),
    }
}

/// The faults of a body that is refused so.
pub(crate) fn body_faults<F: ExtensionFunctionObject>(
    alloc: Global,
    seen: &Seen<'_, '_, F>,
    verb: Verb,
    text: &str,
    refusal: Refusal,
) -> Result<Vec<Fault>, AllocError>
    ensures { IfOk result (λ faults. ShowsBody (setting_with F.answers seen.now.extensions.now seen.now.depth) text.now (refusal_of refusal) faults.items) }
{
    match read(alloc, seen, text)? {
        Ok(body) => part_faults(alloc, seen, verb, text, refusal, &body),
        Err(faults) => Ok(faults),
    }
}

/// The faults of a body, by the first reason for which it is refused.
fn found_faults<F: ExtensionFunctionObject>(
    alloc: Global,
    seen: &Seen<'_, '_, F>,
    verb: Verb,
    text: &str,
) -> Result<Vec<Fault>, AllocError>
    ensures { IfOk result (λ faults. FindsBody (setting_with F.answers seen.now.extensions.now seen.now.depth) text.now faults.items) }
{
    match read(alloc, seen, text)? {
        Ok(body) => first_faults(alloc, seen, verb, text, &body),
        Err(faults) => Ok(faults),
    }
}

/// The body that a text is, or the faults by which it is none.
fn read<F: ExtensionFunctionObject>(
    alloc: Global,
    seen: &Seen<'_, '_, F>,
    text: &str,
) -> Result<Result<RestrictedExpr, Vec<Fault>>, AllocError>
    ensures body { IfOk result (λ read. IfOk read (λ body. IsBodyWithin (setting_with F.answers seen.now.extensions.now seen.now.depth) text.now)) }
    ensures unread { IfOk result (λ read. IfErr read (λ faults. ShowsUnread (setting_with F.answers seen.now.extensions.now seen.now.depth) text.now faults.items)) }
{
    let styles = ExtStyles::from_extensions(alloc, seen.extensions)?;
    match parse_restrictedexpr(alloc, text, &styles, seen.depth) {
        Ok(body) => Ok(Ok(body)),
        Err(error) => {
            let faults = faults_unread(alloc, text, &error)?;
            Ok(Err(faults))
        }
    }
}

fn faults_unread(
    alloc: Global,
    text: &str,
    error: &RestrictedExpressionParseError,
) -> Result<Vec<Fault>, AllocError>
    ensures { IfOk result (λ faults. AreOfBody text.now error.now faults.items) }
{
    match error {
        RestrictedExpressionParseError::Parse(errors) => unread_faults(alloc, text, errors),
        RestrictedExpressionParseError::InvalidRestrictedExpression(error) => {
            offence(alloc, text, error)
        }
    }
}

/// What may not stand in a body, and where it stands.
fn offence(
    alloc: Global,
    text: &str,
    error: &RestrictedExpressionError,
) -> Result<Vec<Fault>, AllocError>
    ensures { IfOk result (λ faults. AreOfBody text.now (InvalidRestrictedExpression error.now) faults.items) }
{
    match error {
        RestrictedExpressionError::Memory(_) => Err(AllocError),
        RestrictedExpressionError::InvalidRestrictedExpression(offence) => {
            let message = format!(in alloc; "{offence}")?;
            let span = span_of(offence.expr.source_loc());
            let kind = Refusal::NotRestricted.name();
            one(alloc, Fault::of_part(text, span, kind, message))
        }
    }
}

/// Refusals for what a part of a body is, in the order in which they are looked for.
const FOR_A_PART: [Refusal; 9] = [
    Refusal::Shape,
    Refusal::Evaluation,
    Refusal::NotAValue,
    Refusal::BadUnknown,
    Refusal::Duplicate,
    Refusal::Cycle,
    Refusal::NoSuchUnknown,
    Refusal::AlreadyTold,
    Refusal::WrongKind,
];

/// Whether a command of this verb may be so refused for a part of its body.
fn may_be(verb: Verb, refusal: Refusal) -> bool {
    match refusal {
        Refusal::Shape => verb != Verb::Load,
        Refusal::Evaluation => { matches!(verb, Verb::Add | Verb::Put | Verb::Ask | Verb::Tell) }
        Refusal::NotAValue => matches!(verb, Verb::Add | Verb::Put | Verb::Tell),
        Refusal::BadUnknown => verb == Verb::Ask,
        Refusal::Duplicate => verb == Verb::Add,
        Refusal::Cycle => matches!(verb, Verb::Add | Verb::Put),
        Refusal::NoSuchUnknown | Refusal::AlreadyTold | Refusal::WrongKind => verb == Verb::Tell,
        _ => false,
    }
}

/// The fault of the first refusal for a part of a body.
fn first_faults<F: ExtensionFunctionObject>(
    alloc: Global,
    seen: &Seen<'_, '_, F>,
    verb: Verb,
    text: &str,
    body: &RestrictedExpr,
) -> Result<Vec<Fault>, AllocError>
    ensures { IfOk result (λ faults. AreAtMostOne faults.items) }
{
    for refusal in &FOR_A_PART {
        if !may_be(verb, *refusal) {
            continue;
        }
        let faults = part_faults(alloc, seen, verb, text, *refusal, body)?;
        if !faults.is_empty() {
            return Ok(faults);
        }
    }
    Ok(Vec::new(alloc))
}

/// The fault of the part for which a body is so refused, where one is found.
fn part_faults<F: ExtensionFunctionObject>(
    alloc: Global,
    seen: &Seen<'_, '_, F>,
    verb: Verb,
    text: &str,
    refusal: Refusal,
    body: &RestrictedExpr,
) -> Result<Vec<Fault>, AllocError>
    ensures { IfOk result (λ faults. ShowsPart (refusal_of refusal) faults.items) }
{
    if !is_for_a_part(refusal) {
        return Ok(Vec::new(alloc));
    }
    match fault_of(alloc, seen, verb, refusal, body)? {
        None => Ok(Vec::new(alloc)),
        Some(fault) => {
            let BodyFault { span, message } = fault;
            one(alloc, Fault::of_part(text, span, refusal.name(), message))
        }
    }
}

/// Whether a body is so refused for what a part of it is.
fn is_for_a_part(refusal: Refusal) -> bool
    ensures { result ≡ is_for_a_part (refusal_of refusal) }
{
    match refusal {
        Refusal::Shape | Refusal::WrongKind => true,
        Refusal::Evaluation | Refusal::NotAValue | Refusal::BadUnknown => true,
        Refusal::Duplicate | Refusal::Cycle => true,
        Refusal::NoSuchUnknown | Refusal::AlreadyTold => true,
        _ => false,
    }
}

/// The fault of a body by which it is so refused, where one is found.
fn fault_of<F: ExtensionFunctionObject>(
    alloc: Global,
    seen: &Seen<'_, '_, F>,
    verb: Verb,
    refusal: Refusal,
    body: &RestrictedExpr,
) -> Result<Option<BodyFault>, AllocError> {
    let part = body.as_borrowed();
    match refusal {
        Refusal::Shape => shape_fault(alloc, seen, verb, body),
        Refusal::Evaluation | Refusal::NotAValue | Refusal::BadUnknown => {
            value_fault(alloc, seen, verb, refusal, part)
        }
        Refusal::Duplicate | Refusal::Cycle => edit_fault(alloc, seen, verb, refusal, part),
        Refusal::NoSuchUnknown | Refusal::AlreadyTold => name_fault(alloc, seen, refusal, part),
        Refusal::WrongKind => record_fault(alloc, "the body", Shape::Told, part),
        _ => Ok(None),
    }
}
