//! `Suites`: the report on the expectations of all stories, as one file of JUnit's XML.
use am_console::console::shown;
use am_terms::clock::push_number;
use am_timeline::escape::push_escaped;
use am_yaml::locate::{Part, locate};
use std::alloc::{AllocError, Global};

/// How many bytes of text are gone over to find the lines of a story's expectations. The whole text is, for each.
const WALKED: usize = 8_388_608;

/// The front of a suite of `am_judge`.
const SUITE: &str = "<testsuite name=\"am-rehearse\"";

/// The front of a case of `am_judge`.
const CASE: &str = "<testcase classname=\"expect\"";

/// A report in the making: a suite for each story.
#[derive(Drop)]
pub struct Suites {
    alloc: Global,
    text: String,
}

impl Suites {
    /// Returns a report without suites.
    pub(crate) fn new(alloc: Global) -> Suites {
        Suites {
            alloc,
            text: String::new(alloc),
        }
    }

    /// Adds the suite of a story that ran, as `am_judge` makes it. A case gets the name of the story's file as its class,
    /// and the line of its expectation there.
    pub(crate) fn add(&mut self, path: &str, story: &[u8], suite: &str) -> Result<(), AllocError> {
        let mut number: usize = 0;
        for line in suite.lines() {
            if let Some(rest) = line.strip_prefix(CASE) {
                let at = line_of(self.alloc, story, number)?;
                push_case(shown(path), at, &mut self.text)?;
                push_line(rest, &mut self.text)?;
                number = number.saturating_add(1);
            } else if let Some(rest) = line.strip_prefix(SUITE) {
                push_suite(shown(path), &mut self.text)?;
                push_line(rest, &mut self.text)?;
            } else if !line.starts_with("<?xml") {
                push_line(line, &mut self.text)?;
            }
        }
        Ok(())
    }

    /// Adds the suite of a story that doesn't run: one case, with an error. These lines say why, the first as its message.
    pub(crate) fn add_error(&mut self, path: &str, lines: &str) -> Result<(), AllocError> {
        let plain = without_colors(self.alloc, lines)?;
        push_suite(shown(path), &mut self.text)?;
        push_line(" tests=\"1\" failures=\"0\" errors=\"1\">", &mut self.text)?;
        push_case(shown(path), None, &mut self.text)?;
        self.text.push_str(" name=\"story\"><error message=\"")?;
        push_escaped(plain.lines().next().unwrap_or(""), &mut self.text)?;
        self.text.push_str("\">")?;
        push_escaped(plain.as_str(), &mut self.text)?;
        self.text.push_str("</error></testcase>\n</testsuite>\n")
    }

    /// Returns the whole report.
    pub(crate) fn whole(&self) -> Result<String, AllocError> {
        let mut whole = String::new(self.alloc);
        whole.push_str("<?xml version=\"1.0\" encoding=\"UTF-8\"?>\n<testsuites>\n")?;
        whole.push_str(self.text.as_str())?;
        whole.push_str("</testsuites>\n")?;
        Ok(whole)
    }
}

/// Adds the front of the suite of a file.
fn push_suite(file: &str, out: &mut String) -> Result<(), AllocError> {
    out.push_str("<testsuite name=\"")?;
    push_escaped(file, out)?;
    out.push_str("\"")
}

/// Adds the front of a case of a file, with its line there, if that is known.
fn push_case(file: &str, line: Option<u64>, out: &mut String) -> Result<(), AllocError> {
    out.push_str("<testcase classname=\"")?;
    push_escaped(file, out)?;
    out.push_str("\" file=\"")?;
    push_escaped(file, out)?;
    if let Some(line) = line {
        out.push_str("\" line=\"")?;
        push_number(line, out)?;
    }
    out.push_str("\"")
}

/// Returns a text without the sequences that color it in a terminal, each from an escape to an `m`.
fn without_colors(alloc: Global, text: &str) -> Result<String, AllocError> {
    let mut plain = String::new(alloc);
    let mut is_color = false;
    for character in text.chars() {
        if character == '\u{1b}' {
            is_color = true;
        } else if !is_color {
            plain.push(character)?;
        } else if character == 'm' {
            is_color = false;
        }
    }
    Ok(plain)
}

fn push_line(line: &str, out: &mut String) -> Result<(), AllocError> {
    out.push_str(line)?;
    out.push_str("\n")
}

/// The line of an expectation in the text of its story. Of a long text only those of the first expectations are found.
fn line_of(alloc: Global, story: &[u8], number: usize) -> Result<Option<u64>, AllocError> {
    if number >= (WALKED / story.len().max(1)).max(1) {
        return Ok(None);
    }
    let Ok(text) = std::str::from_utf8(story) else {
        return Ok(None);
    };
    let pointer = format!(in alloc; "/expect/{number}")?;
    let location = locate(alloc, text, pointer.as_str(), Part::Value)?;
    Ok(Some(location.line as u64))
}
