// The command line: the words behind the program's name, read by the table of `words`.

use crate::lacks::lack_of;
use crate::nearest::Nearest;
use crate::words::{Choice, FLAGS, Flag, NAMES_OF_WORDS, Task, WORDS, WORDS_OF_OTHERS, Word};
use crate::{USAGE_FAULT, pages};
use std::alloc::{AllocError, Global};
use std::fmt;
use thiserror::Error;

/// What the command line asks for.
#[derive(Debug, Drop)]
pub(crate) enum Asked<'a> {
    Page(&'static str),
    Version,
    Run(Arguments<'a>),
}

/// A word, its options, and the files that it is about.
#[derive(Debug, Drop)]
pub(crate) struct Arguments<'a> {
    pub(crate) task: Task,
    pub(crate) options: Options<'a>,
    pub(crate) operands: Vec<&'a str>,
}

#[derive(Debug, Drop)]
pub(crate) struct Options<'a> {
    pub(crate) no_types: bool,
    pub(crate) each: bool,
    pub(crate) list: bool,
    pub(crate) quiet: bool,
    pub(crate) coverage: bool,
    /// Whether what is told, or answered, is JSON.
    pub(crate) json: bool,
    /// The names of the tests to run, and all where there is none.
    pub(crate) only: Vec<&'a str>,
    pub(crate) junit: Option<&'a str>,
    /// The files of policies.
    pub(crate) policies: Vec<&'a str>,
    /// The files of entities, as JSON.
    pub(crate) entities: Vec<&'a str>,
    pub(crate) links: Option<&'a str>,
    pub(crate) verbose: bool,
    pub(crate) asked: AskedBy<'a>,
}

/// By what a request is given: by a file of it, or by its parts.
#[derive(Clone, Copy, Debug)]
pub(crate) struct AskedBy<'a> {
    pub(crate) request: Option<&'a str>,
    pub(crate) principal: Option<&'a str>,
    pub(crate) action: Option<&'a str>,
    pub(crate) resource: Option<&'a str>,
    /// The file of its context.
    pub(crate) context: Option<&'a str>,
}

/// Why a command line asks for nothing.
#[derive(Debug, Drop, Error)]
pub(crate) enum Fault<'a> {
    #[error("no word says what to do: {0}")]
    NoWord(&'static str),
    #[error("unknown word {0}{1}")]
    UnknownWord(&'a str, Meant),
    #[error("unknown option {0}{1}")]
    UnknownOption(&'a str, Meant),
    #[error("option {0} wants {1} behind it")]
    NoValue(&'static str, &'static str),
    #[error("option {0} takes no value")]
    Value(&'static str),
    #[error("option {0} stands twice")]
    Twice(&'static str),
    #[error("option --list runs no tests, so {0} has nothing to tell")]
    ListWith(&'static str),
    #[error("no file is named")]
    NoFile,
    #[error("three files, or SCRIPT:LINE, are to be named")]
    NoQuestion,
    #[error("{0} is no SCRIPT:LINE")]
    NoLine(&'a str),
    #[error("`-` stands twice, and standard input is read once")]
    InputTwice,
    #[error("session takes no file: {0}")]
    FileOfSession(&'a str),
    #[error("option {0} is missing")]
    NoOption(&'static str),
    #[error("options {0} and {1} exclude each other")]
    Both(&'static str, &'static str),
    #[error("each file stands behind an option: {0}")]
    FileAlone(&'a str),
    #[error("one expression is to be given")]
    NoExpression,
    #[error("{0}")]
    Memory(#[from(alloc)] AllocError),
}

/// The name that was meant, told behind the one that was given.
#[derive(Clone, Copy, Debug)]
pub(crate) struct Meant(Option<&'static str>);

impl fmt::Display for Meant {
    fn fmt<W: fmt::Write>(&self, f: &mut fmt::Formatter<W>) -> fmt::Result {
        match self.0 {
            Some(name) => write!(f, "; did you mean {name}?"),
            None => Ok(()),
        }
    }
}

/// Why a command line is refused, and how it might have been.
#[derive(Debug, Drop)]
pub(crate) struct Refused<'a> {
    pub(crate) fault: Fault<'a>,
    pub(crate) usage: &'static str,
    pub(crate) status: u8,
}

/// Reads the words behind the program's name. What shows a page ends the reading, as a fault does.
pub(crate) fn read<'a>(alloc: Global, words: &'a [String]) -> Result<Asked<'a>, Refused<'a>> {
    let mut reader = Reader::new(alloc);
    for word in words {
        if let Err(fault) = reader.take(alloc, word.as_str()) {
            return Err(reader.refuse(fault));
        }
    }
    reader.finish()
}

/// What was read so far.
#[derive(Debug, Drop)]
struct Reader<'a> {
    word: Option<&'static Word>,
    /// The option whose value comes next.
    waiting: Option<&'static Flag>,
    /// Whether `--` was read, behind which stand no options.
    ended: bool,
    /// Whether `help` was read, behind which the word stands of which it is told.
    helping: bool,
    shown: Option<&'static str>,
    version: bool,
    options: Options<'a>,
    operands: Vec<&'a str>,
}

impl<'a> Reader<'a> {
    fn new(alloc: Global) -> Reader<'a> {
        Reader {
            word: None,
            waiting: None,
            ended: false,
            helping: false,
            shown: None,
            version: false,
            options: Options {
                no_types: false,
                each: false,
                list: false,
                quiet: false,
                coverage: false,
                json: false,
                only: Vec::new(alloc),
                junit: None,
                policies: Vec::new(alloc),
                entities: Vec::new(alloc),
                links: None,
                verbose: false,
                asked: AskedBy {
                    request: None,
                    principal: None,
                    action: None,
                    resource: None,
                    context: None,
                },
            },
            operands: Vec::new(alloc),
        }
    }

    fn take(&mut self, alloc: Global, given: &'a str) -> Result<(), Fault<'a>> {
        if self.version || self.shown.is_some() {
            return Ok(());
        }
        if let Some(flag) = self.waiting.take() {
            return self.choose_value(flag, given);
        }
        if self.ended || !is_option(given) {
            return self.take_word(alloc, given);
        }
        if given == "--" {
            self.ended = true;
            return Ok(());
        }
        match given.split_once('=') {
            Some((name, value)) => self.take_option(alloc, name, Some(value)),
            None => self.take_option(alloc, given, None),
        }
    }

    fn take_word(&mut self, alloc: Global, given: &'a str) -> Result<(), Fault<'a>> {
        if self.word.is_some() {
            self.operands.push(given)?;
            return Ok(());
        }
        if given == "help" && !self.helping {
            self.helping = true;
            return Ok(());
        }
        let Some(word) = word_named(given) else {
            return Err(unknown_word(alloc, given)?);
        };
        self.word = Some(word);
        if self.helping {
            self.shown = Some(word.page);
        }
        Ok(())
    }

    fn take_option(
        &mut self,
        alloc: Global,
        name: &'a str,
        value: Option<&'a str>,
    ) -> Result<(), Fault<'a>> {
        let Some(flag) = flag_named(self.flags(), name).or_else(|| flag_named(FLAGS, name)) else {
            return Err(unknown_option(alloc, self.flags(), name)?);
        };
        match value {
            None if flag.value.is_some() => {
                self.waiting = Some(flag);
                Ok(())
            }
            None => self.choose(flag),
            Some(_) if flag.value.is_none() => Err(Fault::Value(flag.name)),
            Some(value) => self.choose_value(flag, value),
        }
    }

    /// The options of the word that was read.
    fn flags(&self) -> &'static [Flag] {
        match self.word {
            Some(word) => word.flags,
            None => &[],
        }
    }

    fn choose(&mut self, flag: &'static Flag) -> Result<(), Fault<'a>> {
        match flag.choice {
            Choice::Help => self.shown = Some(self.page()),
            Choice::Version => self.version = true,
            Choice::NoTypes => self.options.no_types = true,
            Choice::Each => self.options.each = true,
            Choice::List => self.options.list = true,
            Choice::Quiet => self.options.quiet = true,
            Choice::Coverage => self.options.coverage = true,
            Choice::Json => self.options.json = true,
            Choice::Verbose => self.options.verbose = true,
            // (the others have a value)
            _ => self.waiting = Some(flag),
        }
        Ok(())
    }

    fn choose_value(&mut self, flag: &'static Flag, value: &'a str) -> Result<(), Fault<'a>> {
        match flag.choice {
            Choice::Only => self.options.only.push(value)?,
            Choice::Policies => self.options.policies.push(value)?,
            Choice::Entities => self.options.entities.push(value)?,
            Choice::Links => set_once(&mut self.options.links, flag, value)?,
            Choice::Request => set_once(&mut self.options.asked.request, flag, value)?,
            Choice::Principal => set_once(&mut self.options.asked.principal, flag, value)?,
            Choice::Action => set_once(&mut self.options.asked.action, flag, value)?,
            Choice::Resource => set_once(&mut self.options.asked.resource, flag, value)?,
            Choice::Context => set_once(&mut self.options.asked.context, flag, value)?,
            _ => set_once(&mut self.options.junit, flag, value)?,
        }
        Ok(())
    }

    fn page(&self) -> &'static str {
        match self.word {
            Some(word) => word.page,
            None => pages::WHOLE,
        }
    }

    fn refuse(self, fault: Fault<'a>) -> Refused<'a> {
        let (usage, status) = match self.word {
            Some(word) => (word.usage, word.usage_status),
            None => (pages::USAGE, USAGE_FAULT),
        };
        Refused {
            fault,
            usage,
            status,
        }
    }

    fn finish(self) -> Result<Asked<'a>, Refused<'a>> {
        if self.version {
            return Ok(Asked::Version);
        }
        if let Some(page) = self.shown {
            return Ok(Asked::Page(page));
        }
        if let Some(fault) = self.lack() {
            return Err(self.refuse(fault));
        }
        match self.word {
            Some(word) => Ok(Asked::Run(Arguments {
                task: word.task,
                options: self.options,
                operands: self.operands,
            })),
            None if self.helping => Ok(Asked::Page(pages::WHOLE)),
            None => Err(self.refuse(Fault::NoWord(NAMES_OF_WORDS))),
        }
    }

    /// What the whole lacks, or has too much of.
    fn lack(&self) -> Option<Fault<'a>> {
        if let Some(flag) = self.waiting {
            return Some(Fault::NoValue(flag.name, flag.value.unwrap_or("")));
        }
        lack_of(self.word?, &self.options, self.operands.as_slice())
    }
}

/// Sets what an option gives, which may stand once.
fn set_once<'a>(
    place: &mut Option<&'a str>,
    flag: &'static Flag,
    value: &'a str,
) -> Result<(), Fault<'a>> {
    if place.is_some() {
        return Err(Fault::Twice(flag.name));
    }
    *place = Some(value);
    Ok(())
}

/// Whether a word is an option: `-` and `-:LINE` name standard input.
fn is_option(given: &str) -> bool {
    given.starts_with('-') && given != "-" && !given.starts_with("-:")
}

/// The script and the line, from 1, that an operand names.
pub(crate) fn place_named(operand: &str) -> Option<(&str, usize)> {
    let (script, line) = operand.rsplit_once(':')?;
    match line.parse::<usize>() {
        Ok(line) if line > 0 && !script.is_empty() => Some((script, line)),
        _ => None,
    }
}

fn word_named(name: &str) -> Option<&'static Word> {
    for word in WORDS {
        if word.name == name {
            return Some(word);
        }
    }
    None
}

fn flag_named(flags: &'static [Flag], name: &str) -> Option<&'static Flag> {
    for flag in flags {
        if flag.is_named(name) {
            return Some(flag);
        }
    }
    None
}

fn unknown_word<'a>(alloc: Global, given: &'a str) -> Result<Fault<'a>, AllocError> {
    for (name, meant) in WORDS_OF_OTHERS {
        if *name == given {
            return Ok(Fault::UnknownWord(given, Meant(Some(*meant))));
        }
    }
    let mut nearest = Nearest::of(given);
    for word in WORDS {
        nearest.try_name(alloc, word.name)?;
    }
    nearest.try_name(alloc, "help")?;
    Ok(Fault::UnknownWord(given, Meant(nearest.name())))
}

fn unknown_option<'a>(
    alloc: Global,
    flags: &'static [Flag],
    given: &'a str,
) -> Result<Fault<'a>, AllocError> {
    let mut nearest = Nearest::of(given);
    try_flags(alloc, &mut nearest, FLAGS)?;
    try_flags(alloc, &mut nearest, flags)?;
    Ok(Fault::UnknownOption(given, Meant(nearest.name())))
}

fn try_flags(
    alloc: Global,
    nearest: &mut Nearest<'_>,
    flags: &'static [Flag],
) -> Result<(), AllocError> {
    for flag in flags {
        nearest.try_name(alloc, flag.name)?;
    }
    Ok(())
}
