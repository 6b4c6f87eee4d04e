//! A function of the caller's own, which policies call: a table has `between` beside the built-in `unknown`,
//! and is lent to a session. A table has its caller's functions in one type: a caller with several makes an
//! enum of them.
ghost use Rattle.std.specs.Prelude.{◌≡◌, IfOk, true};
ghost use Rattle.cedar_language.specs.Order.{all_of};
ghost use Rattle.cedar_expressions.specs.Holding.{is_named};
ghost use Rattle.cedar_examples.specs.Between.{between};

use crate::DEPTH;
use crate::frames::print_answer;
use anyhow::Result;
use cedar_expressions::ast::{CallStyle, Extension, ExtensionFunction, Literal, Name, Value};
use cedar_expressions::entities::SchemaType;
use cedar_expressions::extensions::{CallError, ExtensionFunctionObject};
use cedar_session::{Extensions, Session};
use std::alloc::Global;

/// It stands under `policy0`.
const POLICY: &str = r#"
permit(principal, action, resource) when { between(9, context.hour, 17) };
"#;

const AT_TWELVE: &str = r#"
{principal: User::"alice", action: Action::"enter", resource: Door::"1", context: {hour: 12}}
"#;

const AT_TWENTY: &str = r#"
{principal: User::"alice", action: Action::"enter", resource: Door::"1", context: {hour: 20}}
"#;

/// The hour is no long, so that the function has no answer and the policy errs.
const AT_NOON: &str = r#"
{principal: User::"alice", action: Action::"enter", resource: Door::"1", context: {hour: "noon"}}
"#;

/// `between(low, x, high)`: of three longs, whether `x` is no less than `low` and no more than `high`.
#[derive(Drop)]
struct Between;

// `answers` is what it gives, as `specs/Between.antt` defines it, with a proof that this is a value whose
// sets rise and whose keys are bytes. That `call` gives it is proved.
impl ExtensionFunctionObject for Between {
    ghost use Rattle.cedar_examples.specs.Between.{between, boolean_answers};

    ghost answers = { λ function. boolean_answers between };

    fn call(&self, alloc: Global, args: &[Value]) -> Result<Value, CallError> {
        match is_between(args) {
            Some(answer) => Ok(Value::from(Literal::from(answer))),
            None => Err(CallError::NoAnswer(String::from_str(alloc, "between takes three longs")?)),
        }
    }
}

/// Whether the second long lies between the others. There is no answer but for three longs.
#[tactic(auto, using(crate::proofs::Between::other_count))]
fn is_between(args: &[Value]) -> Option<bool>
    ensures { result ≡ between (all_of args.now) }
{
    let [low, x, high] = args else {
        return None;
    };
    let low = low.as_long()?;
    let x = x.as_long()?;
    let high = high.as_long()?;
    Some(low <= x && x <= high)
}

/// Makes the table, and asks a session that knows it.
pub(crate) fn show(rt: &impl Print, alloc: Global) -> Result<()> {
    println!(rt; "functions")?;
    let extensions = make_table(alloc)?;
    by_a_session(rt, alloc, &extensions)
}

/// The table of one extension with two functions. It has to be shown that each is named `unknown` exactly
/// where it is the built-in one, which both makers ensure.
fn make_table<'a>(alloc: Global) -> Result<Extensions<'a, Between>> {
    let name = Name::parse_unqualified_name(alloc, "office")?;
    let functions = vec![in alloc; make_unknown(alloc)?, make_between(alloc)?]?;
    let office = Extension::new(name, functions, Vec::new(alloc));
    Ok(Extensions::specific_extensions(alloc, vec![in alloc; office]?)?)
}

/// The built-in function, by which bodies name unknowns.
fn make_unknown(alloc: Global) -> Result<ExtensionFunction<Between>>
    ensures { IfOk result (λ function. is_named function ≡ true) }
{
    let name = Name::parse_unqualified_name(alloc, "unknown")?;
    let style = CallStyle::FunctionStyle;
    Ok(ExtensionFunction::partial_eval_unknown(alloc, name, style, SchemaType::String)?)
}

fn make_between(alloc: Global) -> Result<ExtensionFunction<Between>>
    ensures { IfOk result (λ function. is_named function ≡ true) }
{
    let name = Name::parse_unqualified_name(alloc, "between")?;
    let style = CallStyle::FunctionStyle;
    let longs = (SchemaType::Long, SchemaType::Long, SchemaType::Long);
    Ok(ExtensionFunction::ternary(alloc, name, style, Between, SchemaType::Bool, longs)?)
}

fn by_a_session(
    rt: &impl Print,
    alloc: Global,
    extensions: &Extensions<'_, Between>,
) -> Result<()> {
    println!(rt; "  between(9, context.hour, 17)")?;
    let mut session = Session::new(alloc, extensions, DEPTH)?;
    ask_each(rt, &mut session)
}

fn ask_each(rt: &impl Print, session: &mut Session<'_, '_, Between>) -> Result<()> {
    session.load(POLICY)?;
    print_answer(rt, "at 12", session.ask(AT_TWELVE)?)?;
    print_answer(rt, "at 20", session.ask(AT_TWENTY)?)?;
    print_answer(rt, "at \"noon\"", session.ask(AT_NOON)?)?;
    Ok(())
}
