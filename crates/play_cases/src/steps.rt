//! The steps of a case.
use crate::fault::CaseFault;
use crate::texts::{bytes_of, push_text};
use std::alloc::{AllocError, Global};

/// What stands in front of the words of a step.
const MARK: &[u8] = b"== ";

/// A step: its words, and the lines up to the next one.
#[derive(Drop)]
pub struct CaseStep<'a> {
    /// The number of its line, from 1.
    pub line: usize,
    pub words: Vec<&'a str>,
    /// Its text, as it is written.
    pub written: Vec<u8>,
}

/// A case: the lines in front, which say what it shows, and its steps.
#[derive(Drop)]
pub struct Case<'a> {
    /// How many lines it has.
    lines: usize,
    pub front: Vec<u8>,
    pub steps: Vec<CaseStep<'a>>,
}

impl<'a> CaseStep<'a> {
    fn new(alloc: Global, line: usize, words: &'a [u8]) -> Result<CaseStep<'a>, CaseFault> {
        let Ok(text) = std::str::from_utf8(words) else {
            return Err(CaseFault::Line(line));
        };
        let mut words = Vec::new(alloc);
        for word in text.split(' ') {
            words.push(word)?;
        }
        Ok(CaseStep {
            line,
            words,
            written: Vec::new(alloc),
        })
    }

    /// The bytes that its text writes.
    pub fn bytes(&self, alloc: Global) -> Result<Vec<u8>, AllocError> {
        bytes_of(alloc, &self.written)
    }

    /// That it cannot be read.
    pub fn unread(&self) -> CaseFault {
        CaseFault::Line(self.line)
    }

    /// That it does not come about.
    pub fn refused(&self) -> CaseFault {
        CaseFault::Step(self.line)
    }
}

/// Reads a case.
pub fn read_case<'a>(alloc: Global, text: &'a [u8]) -> Result<Case<'a>, CaseFault> {
    let mut case = Case {
        lines: 0,
        front: Vec::new(alloc),
        steps: Vec::new(alloc),
    };
    let text = text.strip_suffix(b"\n").unwrap_or(text);
    for line in text.split(|byte| *byte == b'\n') {
        case.take_line(alloc, line)?;
    }
    Ok(case)
}

impl<'a> Case<'a> {
    // Takes its next line.
    fn take_line(&mut self, alloc: Global, line: &'a [u8]) -> Result<(), CaseFault> {
        self.lines = self.lines.saturating_add(1);
        match line.strip_prefix(MARK) {
            Some(words) => {
                let step = CaseStep::new(alloc, self.lines, words)?;
                self.steps.push(step)?;
            }
            None => self.push_line(line)?,
        }
        Ok(())
    }

    fn push_line(&mut self, line: &[u8]) -> Result<(), AllocError> {
        match self.steps.last_mut() {
            None => push_whole(line, &mut self.front),
            Some(step) => push_whole(line, &mut step.written),
        }
    }

    /// The case, where the text of each step of which something came is what came.
    pub fn written(
        &self,
        alloc: Global,
        outcomes: &[Option<Vec<u8>>],
    ) -> Result<Vec<u8>, AllocError> {
        let mut out = Vec::from_slice(alloc, &self.front)?;
        for (number, step) in self.steps.iter().enumerate() {
            push_words(&step.words, &mut out)?;
            match outcomes.get(number) {
                Some(Some(bytes)) => push_text(bytes, &mut out)?,
                _ => out.extend_from_slice(&step.written)?,
            }
        }
        Ok(out)
    }
}

// A line, with its end.
fn push_whole(line: &[u8], text: &mut Vec<u8>) -> Result<(), AllocError> {
    text.extend_from_slice(line)?;
    text.push(b'\n')?;
    Ok(())
}

fn push_words(words: &[&str], out: &mut Vec<u8>) -> Result<(), AllocError> {
    out.extend_from_slice(b"==")?;
    for word in words {
        out.push(b' ')?;
        out.extend_from_slice(word.as_bytes())?;
    }
    out.push(b'\n')?;
    Ok(())
}
