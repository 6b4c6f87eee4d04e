// The words and the options of the command line, as data.

use crate::{REFUSED, USAGE_FAULT, pages};

/// What a run does.
#[derive(Clone, Copy, Debug, PartialEq, Eq)]
pub(crate) enum Task {
    Check,
    Test,
    Explain,
    Session,
    Authorize,
    Evaluate,
}

/// What an option asks for.
#[derive(Clone, Copy, Debug, PartialEq, Eq)]
pub(crate) enum Choice {
    Help,
    Version,
    NoTypes,
    Each,
    Only,
    List,
    Quiet,
    Junit,
    Coverage,
    Json,
    Policies,
    Links,
    Entities,
    Request,
    Principal,
    Action,
    Resource,
    Context,
    Verbose,
}

/// An option: its names, and what stands behind it, if anything does.
#[derive(Clone, Copy, Debug)]
pub(crate) struct Flag {
    pub(crate) name: &'static str,
    pub(crate) short: Option<&'static str>,
    pub(crate) value: Option<&'static str>,
    pub(crate) choice: Choice,
}

impl Flag {
    pub(crate) fn is_named(&self, name: &str) -> bool {
        match self.short {
            Some(short) if short == name => true,
            _ => self.name == name,
        }
    }
}

/// A word that says what to do.
#[derive(Clone, Copy, Debug)]
pub(crate) struct Word {
    pub(crate) name: &'static str,
    pub(crate) task: Task,
    pub(crate) flags: &'static [Flag],
    pub(crate) usage: &'static str,
    /// How a run ends whose words ask for nothing.
    pub(crate) usage_status: u8,
    pub(crate) page: &'static str,
}

/// The options of each word, and of none.
pub(crate) const FLAGS: &[Flag] = &[
    Flag {
        name: "--help",
        short: Some("-h"),
        value: None,
        choice: Choice::Help,
    },
    Flag {
        name: "--version",
        short: Some("-V"),
        value: None,
        choice: Choice::Version,
    },
    Flag {
        name: "--no-types",
        short: None,
        value: None,
        choice: Choice::NoTypes,
    },
];

const FLAGS_OF_CHECK: &[Flag] = &[
    Flag {
        name: "--each",
        short: None,
        value: None,
        choice: Choice::Each,
    },
    Flag {
        name: "--json",
        short: None,
        value: None,
        choice: Choice::Json,
    },
];

const FLAGS_OF_TEST: &[Flag] = &[
    Flag {
        name: "--only",
        short: None,
        value: Some("NAME"),
        choice: Choice::Only,
    },
    Flag {
        name: "--list",
        short: None,
        value: None,
        choice: Choice::List,
    },
    Flag {
        name: "--quiet",
        short: Some("-q"),
        value: None,
        choice: Choice::Quiet,
    },
    Flag {
        name: "--junit",
        short: None,
        value: Some("FILE"),
        choice: Choice::Junit,
    },
    Flag {
        name: "--coverage",
        short: None,
        value: None,
        choice: Choice::Coverage,
    },
    Flag {
        name: "--json",
        short: None,
        value: None,
        choice: Choice::Json,
    },
];

/// The option of a word that has no other.
const FLAGS_OF_JSON: &[Flag] = &[Flag {
    name: "--json",
    short: None,
    value: None,
    choice: Choice::Json,
}];

const FLAGS_OF_AUTHORIZE: &[Flag] = &[
    Flag {
        name: "--policies",
        short: Some("-p"),
        value: Some("FILE"),
        choice: Choice::Policies,
    },
    Flag {
        name: "--links",
        short: Some("-k"),
        value: Some("FILE"),
        choice: Choice::Links,
    },
    Flag {
        name: "--entities",
        short: None,
        value: Some("FILE"),
        choice: Choice::Entities,
    },
    Flag {
        name: "--request-json",
        short: None,
        value: Some("FILE"),
        choice: Choice::Request,
    },
    Flag {
        name: "--principal",
        short: Some("-l"),
        value: Some("ENTITY"),
        choice: Choice::Principal,
    },
    Flag {
        name: "--action",
        short: Some("-a"),
        value: Some("ENTITY"),
        choice: Choice::Action,
    },
    Flag {
        name: "--resource",
        short: Some("-r"),
        value: Some("ENTITY"),
        choice: Choice::Resource,
    },
    Flag {
        name: "--context",
        short: Some("-c"),
        value: Some("FILE"),
        choice: Choice::Context,
    },
    Flag {
        name: "--verbose",
        short: Some("-v"),
        value: None,
        choice: Choice::Verbose,
    },
    Flag {
        name: "--json",
        short: None,
        value: None,
        choice: Choice::Json,
    },
];

const FLAGS_OF_EVALUATE: &[Flag] = &[
    Flag {
        name: "--entities",
        short: None,
        value: Some("FILE"),
        choice: Choice::Entities,
    },
    Flag {
        name: "--request-json",
        short: None,
        value: Some("FILE"),
        choice: Choice::Request,
    },
];

/// What the words are called, for who gave none.
pub(crate) const NAMES_OF_WORDS: &str = "check, test, explain, authorize, evaluate or session";

pub(crate) const WORDS: &[Word] = &[
    Word {
        name: "check",
        task: Task::Check,
        flags: FLAGS_OF_CHECK,
        usage: pages::USAGE_OF_CHECK,
        usage_status: USAGE_FAULT,
        page: pages::CHECK,
    },
    Word {
        name: "test",
        task: Task::Test,
        flags: FLAGS_OF_TEST,
        usage: pages::USAGE_OF_TEST,
        usage_status: USAGE_FAULT,
        page: pages::TEST,
    },
    Word {
        name: "explain",
        task: Task::Explain,
        flags: FLAGS_OF_JSON,
        usage: pages::USAGE_OF_EXPLAIN,
        usage_status: USAGE_FAULT,
        page: pages::EXPLAIN,
    },
    Word {
        name: "authorize",
        task: Task::Authorize,
        flags: FLAGS_OF_AUTHORIZE,
        usage: pages::USAGE_OF_AUTHORIZE,
        usage_status: REFUSED,
        page: pages::AUTHORIZE,
    },
    Word {
        name: "evaluate",
        task: Task::Evaluate,
        flags: FLAGS_OF_EVALUATE,
        usage: pages::USAGE_OF_EVALUATE,
        usage_status: REFUSED,
        page: pages::EVALUATE,
    },
    Word {
        name: "session",
        task: Task::Session,
        flags: FLAGS_OF_JSON,
        usage: pages::USAGE_OF_SESSION,
        usage_status: USAGE_FAULT,
        page: pages::SESSION,
    },
];

/// Words of the command lines of others, each with the one that does the same here.
pub(crate) const WORDS_OF_OTHERS: &[(&str, &str)] = &[
    ("check-parse", "check"),
    ("run-tests", "test"),
    ("version", "--version"),
];
