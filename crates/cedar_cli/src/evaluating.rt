// The word `evaluate`.

use crate::FINE;
use crate::arguments::Arguments;
use crate::files::say_fault;
use crate::json_files::{add_files, read_request, say_refused};
use crate::output::{Stop, print, say};
use cedar_authoring::{DEPTH, line_and_column};
use cedar_evaluator::evaluator::evaluator_of;
use cedar_messages::tell_unread;
use cedar_messages::telling::on_one_line;
use cedar_parser::ExtStyles;
use cedar_parser::prelude::StylesOfExtensions;
use cedar_parser::strict::{parse_expr_strict, parse_restrictedexpr};
use cedar_policy_parts::bindings::SlotEnv;
use cedar_session::{EvaluationError, ExtensionFunctionObject, Extensions, Refusal, Session, Verb};
use cedar_telling::request_of;

/// By what an expression is called.
const EXPRESSION: &str = "expression";

/// The body of a question of which nothing is known.
const NOTHING: &str = "{}";

/// Evaluates an expression over the entities and for the request of files, and tells its value.
pub(crate) fn evaluate<F: ExtensionFunctionObject>(
    rt: &HostRuntime,
    extensions: &Extensions<'_, F>,
    arguments: &Arguments<'_>,
) -> Result<u8, Stop> {
    let Ok(mut session) = Session::new(rt.alloc(), extensions, DEPTH) else {
        return Err(Stop::Memory);
    };
    let options = &arguments.options;
    add_files(rt, extensions, &mut session, options.entities.as_slice())?;
    let Some(text) = arguments.operands.first() else {
        return Err(Stop::Fault);
    };
    match options.asked.request {
        Some(file) => {
            let body = read_request(rt, file)?;
            evaluate_for(rt, extensions, &session, file, body.as_str(), *text)
        }
        None => evaluate_for(rt, extensions, &session, EXPRESSION, NOTHING, *text),
    }
}

/// Evaluates an expression for the request of a body, which was made of this file.
fn evaluate_for<F: ExtensionFunctionObject>(
    rt: &HostRuntime,
    extensions: &Extensions<'_, F>,
    session: &Session<'_, '_, F>,
    file: &str,
    body: &str,
    text: &str,
) -> Result<u8, Stop> {
    let alloc = rt.alloc();
    let styles = ExtStyles::from_extensions(alloc, extensions)?;
    let expr = match parse_expr_strict(alloc, text, &styles, DEPTH) {
        Ok(expr) => expr,
        Err(errors) => {
            let told = tell_unread(alloc, EXPRESSION, text, &errors)?;
            print(rt, told.as_str())?;
            return Err(Stop::Fault);
        }
    };
    let Ok(read) = parse_restrictedexpr(alloc, body, &styles, DEPTH) else {
        return say_refused(
            rt,
            extensions,
            session,
            file,
            Verb::Ask,
            body,
            Refusal::Text,
        );
    };
    let request = match request_of(alloc, &read, extensions, DEPTH) {
        Ok(request) => request,
        Err(refusal) => {
            return say_refused(rt, extensions, session, file, Verb::Ask, body, refusal);
        }
    };
    let evaluator = evaluator_of(alloc, &request, session.entities(), extensions, DEPTH)?;
    match evaluator.interpret(alloc, &expr, &SlotEnv::new()) {
        Ok(value) => {
            let line = format!(in alloc; "{value}")?;
            say(rt, line.as_str())?;
            Ok(FINE)
        }
        Err(error) => say_error(rt, text, &error),
    }
}

/// Says why an expression has no value, and where, if that is known.
fn say_error(rt: &HostRuntime, text: &str, error: &EvaluationError) -> Result<u8, Stop> {
    if let EvaluationError::Memory = error {
        return Err(Stop::Memory);
    }
    let message = format!(in rt.alloc(); "{error}")?;
    let message = on_one_line(rt.alloc(), message.as_str())?;
    match error.source_loc() {
        Some(loc) => {
            let at = line_and_column(text, loc.start());
            say_fault(
                rt,
                format!(in rt.alloc();
                    "{EXPRESSION}:{}:{}: {}",
                    at.line,
                    at.column,
                    message.as_str()
                ),
            )
        }
        None => say_fault(
            rt,
            format!(in rt.alloc(); "{EXPRESSION}: {}", message.as_str()),
        ),
    }
}
