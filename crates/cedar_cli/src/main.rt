//! The program `cedar_cli`, for those who write policies: `check` says why a text is refused, and where; `test` runs
//! tests of policies; `explain` says what decides a question; `authorize` answers a request, and `evaluate` an expression, over
//! entities as JSON; `session` answers frames. Texts may call the functions of
//! Cedar's extension types, unless `--no-types` is given. The work is done by `cedar_authoring` and by `cedar_session`;
//! files and arguments are read here.
#![tactic(auto)]

mod answering;
mod arguments;
mod authorizing;
mod checking;
mod checking_json;
mod evaluating;
mod explaining;
mod explaining_json;
mod files;
mod giving;
mod json_files;
mod json_lines;
mod junit;
mod lacks;
mod machine;
mod nearest;
mod output;
mod pages;
mod testing;
mod testing_json;
mod words;

use crate::answering::answer_frames;
use crate::arguments::{Arguments, Asked, Fault, Refused, read};
use crate::authorizing::{answer_json_call, authorize};
use crate::checking::check;
use crate::checking_json::check_json;
use crate::evaluating::evaluate;
use crate::explaining::explain;
use crate::explaining_json::explain_json;
use crate::json_lines::answer_lines;
use crate::output::{Stop, say};
use crate::testing::test;
use crate::testing_json::test_json;
use crate::words::Task;
use cedar_extension_types::tables::standard_table;
use cedar_session::{ExtensionFunctionObject, Extensions, NoFunction, Watched};
use std::io::{BufReader, BufWriter};
use std::process::ExitCode;
use std::{env, io};

const VERSION: &str = "cedar_cli 0.2.0";

/// How a run went. Of several things the one with the greatest number is told.
const FINE: u8 = 0;

/// A text is refused; or a test failed, or there is none.
const REFUSED: u8 = 1;

const SCRIPT_FAULT: u8 = 2;

const DEVICE: u8 = 3;

const NO_MEMORY: u8 = 4;

/// A question is denied.
const DENIED: u8 = 2;

/// What decides a question is unknown.
const OPEN: u8 = 3;

/// The same as `DEVICE` where the status says what is decided.
const DEVICE_OF_EXPLAIN: u8 = 5;

/// The words ask for nothing: the number that `sysexits.h` has for it.
const USAGE_FAULT: u8 = 64;

fn main(rt: HostRuntime) -> ExitCode {
    let status = run_words(&rt);
    if status == NO_MEMORY {
        let _ = eprintln!(rt; "cedar_cli: out of memory");
    }
    ExitCode::from(status)
}

/// Does what the words behind the program's name say.
fn run_words(rt: &HostRuntime) -> u8 {
    let words = match env::args(rt) {
        Ok(words) => words,
        Err(error) => return refuse_words(rt, &error),
    };
    let Ok(words) = words.skip(1).collect::<Vec<String>>(rt.alloc()) else {
        return NO_MEMORY;
    };
    match read(rt.alloc(), words.as_slice()) {
        Ok(Asked::Page(page)) => shown(rt, page),
        Ok(Asked::Version) => shown(rt, VERSION),
        Ok(Asked::Run(arguments)) => run(rt, &arguments),
        Err(refused) => refuse(rt, &refused),
    }
}

/// The status where the words can't be read: one is no UTF-8, or there wasn't enough memory.
fn refuse_words(rt: &HostRuntime, error: &io::Error) -> u8 {
    if error.kind() == io::ErrorKind::OutOfMemory {
        return NO_MEMORY;
    }
    let _ = eprintln!(rt; "cedar_cli: a word is no UTF-8");
    USAGE_FAULT
}

/// Says why the words ask for nothing.
fn refuse(rt: &HostRuntime, refused: &Refused<'_>) -> u8 {
    if let Fault::Memory(_) = refused.fault {
        return NO_MEMORY;
    }
    let _ = eprintln!(rt; "cedar_cli: {}", refused.fault);
    let _ = eprintln!(rt; "{}", refused.usage);
    refused.status
}

fn shown(rt: &HostRuntime, page: &str) -> u8 {
    match say(rt, page) {
        Ok(()) => FINE,
        Err(stop) => stop.status(),
    }
}

/// Does what is asked for, over the table of the types or that without them.
fn run(rt: &HostRuntime, arguments: &Arguments<'_>) -> u8 {
    if arguments.options.no_types {
        return match Extensions::all_available(rt.alloc()) {
            Ok(extensions) => run_by(rt, extensions, arguments),
            Err(_) => NO_MEMORY,
        };
    }
    match standard_table::<NoFunction>(rt.alloc()) {
        Ok(extensions) => run_by(rt, extensions, arguments),
        Err(_) => NO_MEMORY,
    }
}

/// Does what is asked for, with this table.
fn run_by<F: ExtensionFunctionObject>(
    rt: &HostRuntime,
    extensions: Extensions<'_, F>,
    arguments: &Arguments<'_>,
) -> u8 {
    match arguments.task {
        Task::Session if arguments.options.json => answer_json_input(rt, extensions),
        _ => run_over(rt, &extensions, arguments),
    }
}

/// Does what is asked for with texts that may call the functions of this table.
fn run_over<F: ExtensionFunctionObject>(
    rt: &HostRuntime,
    extensions: &Extensions<'_, F>,
    arguments: &Arguments<'_>,
) -> u8 {
    match arguments.task {
        Task::Check if arguments.options.json => status_of(check_json(rt, extensions, arguments)),
        Task::Test if arguments.options.json => status_of(test_json(rt, extensions, arguments)),
        Task::Explain if arguments.options.json => {
            status_of_explain(explain_json(rt, extensions, arguments))
        }
        Task::Check => status_of(check(rt, extensions, arguments)),
        Task::Test => status_of(test(rt, extensions, arguments)),
        Task::Explain => status_of_explain(explain(rt, extensions, arguments)),
        Task::Authorize if arguments.options.json => {
            status_of_explain(answer_json_call(rt, extensions))
        }
        Task::Authorize => status_of_explain(authorize(rt, extensions, arguments)),
        Task::Evaluate => status_of_explain(evaluate(rt, extensions, arguments)),
        Task::Session => answer_input(rt, extensions),
    }
}

fn status_of(done: Result<u8, Stop>) -> u8 {
    match done {
        Ok(status) => status,
        Err(stop) => stop.status(),
    }
}

fn status_of_explain(done: Result<u8, Stop>) -> u8 {
    match done {
        Ok(status) => status,
        Err(Stop::Fault) => REFUSED,
        Err(Stop::Device) => DEVICE_OF_EXPLAIN,
        Err(Stop::Memory) => NO_MEMORY,
    }
}

/// Answers the lines of JSON that stand on standard input.
fn answer_json_input<F: ExtensionFunctionObject>(
    rt: &HostRuntime,
    extensions: Extensions<'_, F>,
) -> u8 {
    let Ok(mut input) = BufReader::new(rt.alloc(), rt.stdin()) else {
        return NO_MEMORY;
    };
    let Ok(mut output) = BufWriter::new(rt.alloc(), rt.stdout()) else {
        return NO_MEMORY;
    };
    warned(
        rt,
        answer_lines(rt.alloc(), extensions, &mut input, &mut output),
    )
}

/// A status of answered input; where a device failed, that is said.
fn warned(rt: &HostRuntime, status: u8) -> u8 {
    if status == DEVICE {
        let _ = eprintln!(rt;
            "cedar_cli: standard input couldn't be read, or standard output written"
        );
    }
    status
}

/// Answers the frames that stand on standard input.
fn answer_input<F: ExtensionFunctionObject>(
    rt: &HostRuntime,
    extensions: &Extensions<'_, F>,
) -> u8 {
    let Ok(input) = BufReader::new(rt.alloc(), rt.stdin()) else {
        return NO_MEMORY;
    };
    let Ok(output) = BufWriter::new(rt.alloc(), rt.stdout()) else {
        return NO_MEMORY;
    };
    let mut reader = Watched::new(input);
    let mut writer = Watched::new(output);
    warned(
        rt,
        answer_frames(rt.alloc(), extensions, &mut reader, &mut writer),
    )
}
