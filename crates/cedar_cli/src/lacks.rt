// What the words of a command line lack, or have too much of, as a whole.

use crate::arguments::{AskedBy, Fault, Options, place_named};
use crate::words::{Task, Word};

/// What these options and operands of a word lack, or have too much of.
pub(crate) fn lack_of<'a>(
    word: &Word,
    options: &Options<'a>,
    operands: &[&'a str],
) -> Option<Fault<'a>> {
    if inputs(word.task, options, operands) > 1 {
        return Some(Fault::InputTwice);
    }
    match word.task {
        Task::Check => None,
        Task::Test => lack_of_test(options, operands),
        Task::Explain => lack_of_explain(operands),
        Task::Authorize => lack_of_authorize(options, operands),
        Task::Evaluate => match operands {
            [_] => None,
            _ => Some(Fault::NoExpression),
        },
        Task::Session => match operands.first() {
            Some(operand) => Some(Fault::FileOfSession(*operand)),
            None => None,
        },
    }
}

/// How often standard input is named.
fn inputs(task: Task, options: &Options<'_>, operands: &[&str]) -> usize {
    let asked = options.asked;
    // (an expression is no file)
    let mut inputs = match task {
        Task::Evaluate => 0,
        _ => count_inputs(operands),
    };
    inputs = inputs.saturating_add(count_inputs(options.policies.as_slice()));
    inputs = inputs.saturating_add(count_inputs(options.entities.as_slice()));
    for file in [options.links, asked.request, asked.context] {
        inputs = inputs.saturating_add(usize::from(file == Some("-")));
    }
    inputs
}

/// How many of these files are standard input.
fn count_inputs(files: &[&str]) -> usize {
    files.iter().filter(|it| **it == "-").count()
}

fn lack_of_test<'a>(options: &Options<'_>, operands: &[&'a str]) -> Option<Fault<'a>> {
    if operands.is_empty() {
        return Some(Fault::NoFile);
    }
    if options.json {
        return besides_json_of_test(options);
    }
    if !options.list {
        return None;
    }
    if options.junit.is_some() {
        return Some(Fault::ListWith("--junit"));
    }
    if options.coverage {
        return Some(Fault::ListWith("--coverage"));
    }
    None
}

/// What asks for another output than `--json` does.
fn besides_json_of_test<'a>(options: &Options<'_>) -> Option<Fault<'a>> {
    first_given(&[
        ("--list", options.list),
        ("--quiet", options.quiet),
        ("--junit", options.junit.is_some()),
        ("--coverage", options.coverage),
    ])
}

/// That `--json` excludes the first of these options that is given.
fn first_given<'a>(others: &[(&'static str, bool)]) -> Option<Fault<'a>> {
    for (name, is_given) in others {
        if *is_given {
            return Some(Fault::Both("--json", *name));
        }
    }
    None
}

fn lack_of_explain<'a>(operands: &[&'a str]) -> Option<Fault<'a>> {
    match operands {
        [_, _, _] => None,
        [operand] if place_named(*operand).is_none() => Some(Fault::NoLine(*operand)),
        [_] => None,
        _ => Some(Fault::NoQuestion),
    }
}

fn lack_of_authorize<'a>(options: &Options<'_>, operands: &[&'a str]) -> Option<Fault<'a>> {
    if let Some(operand) = operands.first() {
        return Some(Fault::FileAlone(*operand));
    }
    if options.json {
        return besides_call(options);
    }
    if options.policies.is_empty() {
        return Some(Fault::NoOption("--policies"));
    }
    lack_of_request(options.asked)
}

/// What stands beside `--json`, by which the whole call is on standard input.
fn besides_call<'a>(options: &Options<'_>) -> Option<Fault<'a>> {
    first_given(&[
        ("--policies", !options.policies.is_empty()),
        ("--links", options.links.is_some()),
        ("--entities", !options.entities.is_empty()),
        ("--request-json", options.asked.request.is_some()),
        ("--principal", options.asked.principal.is_some()),
        ("--action", options.asked.action.is_some()),
        ("--resource", options.asked.resource.is_some()),
        ("--context", options.asked.context.is_some()),
        ("--verbose", options.verbose),
    ])
}

/// What a request lacks: it stands in a file, or each of its parts is given.
fn lack_of_request<'a>(asked: AskedBy<'_>) -> Option<Fault<'a>> {
    let parts = [
        ("--principal", asked.principal.is_some()),
        ("--action", asked.action.is_some()),
        ("--resource", asked.resource.is_some()),
    ];
    for (name, is_given) in parts {
        if is_given && asked.request.is_some() {
            return Some(Fault::Both("--request-json", name));
        }
        if !is_given && asked.request.is_none() {
            return Some(Fault::NoOption(name));
        }
    }
    if asked.context.is_some() && asked.request.is_some() {
        return Some(Fault::Both("--request-json", "--context"));
    }
    None
}
