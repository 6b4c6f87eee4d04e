// Scripts: commands, and tests of what they are answered.
use cedar_frames::Verb;

/// A command, and what it must be answered.
#[derive(Debug, Drop)]
pub struct Step {
    /// The lines of the script on which it begins and ends, from 1.
    pub line: usize,
    pub last_line: usize,
    pub verb: Verb,
    /// The text that the command is about.
    pub body: String,
    /// The file that has this text, where the script names one.
    pub file: Option<String>,
    /// The line that must answer it, or its beginning up to a space; where there is none it must not be refused.
    pub expected: Option<String>,
}

/// Commands under a name, which a fresh session is given.
#[derive(Debug, Drop)]
pub struct Test {
    pub line: usize,
    pub name: String,
    pub steps: Vec<Step>,
}

/// Tests, and the commands that stand before the first of them: the session of each is given these first.
#[derive(Debug, Drop)]
pub struct Script {
    pub set_up: Vec<Step>,
    pub tests: Vec<Test>,
}
