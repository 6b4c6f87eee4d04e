// Tests as the XML that JUnit writes and builders read.

use std::alloc::{AllocError, Global};

/// The suites that are whole, and the cases of the next one.
#[derive(Debug, Drop)]
pub(crate) struct Junit {
    suites: String,
    cases: String,
    suite: Counts,
    whole: Counts,
}

#[derive(Clone, Copy, Debug)]
struct Counts {
    tests: usize,
    failures: usize,
    errors: usize,
}

impl Counts {
    fn none() -> Counts {
        Counts {
            tests: 0,
            failures: 0,
            errors: 0,
        }
    }

    fn and(self, others: Counts) -> Counts {
        Counts {
            tests: self.tests.saturating_add(others.tests),
            failures: self.failures.saturating_add(others.failures),
            errors: self.errors.saturating_add(others.errors),
        }
    }
}

impl Junit {
    pub(crate) fn new(alloc: Global) -> Junit {
        Junit {
            suites: String::new(alloc),
            cases: String::new(alloc),
            suite: Counts::none(),
            whole: Counts::none(),
        }
    }

    /// Adds a test of a script that passed.
    pub(crate) fn add_passed(&mut self, script: &str, test: &str) -> Result<(), AllocError> {
        self.begin_case(script, test)?;
        self.cases.push_str("/>\n")
    }

    /// Adds a test of a script that failed, with what is told of it.
    pub(crate) fn add_failed(
        &mut self,
        script: &str,
        test: &str,
        told: &str,
    ) -> Result<(), AllocError> {
        self.begin_case(script, test)?;
        self.suite.failures = self.suite.failures.saturating_add(1);
        self.cases.push_str(">\n      <failure>")?;
        push_escaped(&mut self.cases, told)?;
        self.cases.push_str("</failure>\n    </testcase>\n")
    }

    /// Adds that the tests of a script weren't run, as an error in the place of a test.
    pub(crate) fn add_unread(&mut self, script: &str) -> Result<(), AllocError> {
        self.begin_case(script, "the script")?;
        self.suite.errors = self.suite.errors.saturating_add(1);
        self.cases.push_str(">\n      <error>no test was run</error>\n    </testcase>\n")
    }

    fn begin_case(&mut self, script: &str, test: &str) -> Result<(), AllocError> {
        self.suite.tests = self.suite.tests.saturating_add(1);
        self.cases.push_str("    <testcase classname=\"")?;
        push_escaped(&mut self.cases, script)?;
        self.cases.push_str("\" name=\"")?;
        push_escaped(&mut self.cases, test)?;
        self.cases.push_str("\"")
    }

    /// Ends the suite of a script, whose tests were added.
    pub(crate) fn end_suite(&mut self, alloc: Global, script: &str) -> Result<(), AllocError> {
        self.suites.push_str("  <testsuite name=\"")?;
        push_escaped(&mut self.suites, script)?;
        push_counts(alloc, &mut self.suites, "\"", self.suite)?;
        self.suites.push_str(self.cases.as_str())?;
        self.suites.push_str("  </testsuite>\n")?;
        self.whole = self.whole.and(self.suite);
        self.suite = Counts::none();
        self.cases = String::new(alloc);
        Ok(())
    }

    /// The whole file.
    pub(crate) fn written(&self, alloc: Global) -> Result<String, AllocError> {
        let mut xml = String::from_str(alloc, "<?xml version=\"1.0\" encoding=\"UTF-8\"?>\n")?;
        push_counts(alloc, &mut xml, "<testsuites", self.whole)?;
        xml.push_str(self.suites.as_str())?;
        xml.push_str("</testsuites>\n")?;
        Ok(xml)
    }
}

fn push_counts(
    alloc: Global,
    xml: &mut String,
    before: &str,
    counts: Counts,
) -> Result<(), AllocError> {
    let Counts {
        tests,
        failures,
        errors,
    } = counts;
    let text = format!(in alloc;
        "{before} tests=\"{tests}\" failures=\"{failures}\" errors=\"{errors}\">\n"
    )?;
    xml.push_str(text.as_str())
}

fn push_escaped(xml: &mut String, text: &str) -> Result<(), AllocError> {
    for c in text.chars() {
        push_character(xml, c)?;
    }
    Ok(())
}

/// Adds a character, and of one that XML hasn't, or that can't be seen, its number.
fn push_character(xml: &mut String, c: char) -> Result<(), AllocError> {
    match c {
        '&' => xml.push_str("&amp;"),
        '<' => xml.push_str("&lt;"),
        '>' => xml.push_str("&gt;"),
        '"' => xml.push_str("&quot;"),
        '\n' => xml.push(c),
        '\u{0}'..='\u{1f}' | '\u{7f}'..='\u{9f}' | '\u{fffe}' | '\u{ffff}' => {
            write!(xml, "\\u{{{:x}}}", u32::from(c))
        }
        _ => xml.push(c),
    }
}
