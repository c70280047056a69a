ghost use Rattle.std.specs.Prelude.{◌≡◌, IfOk, length, replicate};
ghost use Rattle.agent_log.specs.Marks.{fresh_mark, mark_at, with_mark};

use agent_standing::Trouble;
use std::alloc::{AllocError, Global};

/// What was said last of an entry, so that it is said once.
#[derive(Clone, Copy, Debug, PartialEq, Eq)]
pub struct Mark {
    /// What is wrong with it, by the last answer about it.
    pub trouble: Option<Trouble>,
    /// Whether it has ended while it is needed.
    pub is_ended: bool,
    /// Whether the agent steps in for the one in front, by the last renewal or look of it.
    pub steps_in: bool,
}

/// What was said of a lack of memory that costs turns of the loop, so that it is said once as long as it goes on.
#[derive(Clone, Copy, Debug)]
pub enum Want {
    /// There is none.
    Over,
    /// There is, and memory was wanting for the line, too.
    Unsaid,
    /// There is, and that was said.
    Said,
    /// It was said, and the time was handed in since.
    Passing,
}

/// Nothing was said yet.
pub(crate) fn fresh_mark() -> Mark
    ensures { result ≡ fresh_mark }
{
    Mark {
        trouble: None,
        is_ended: false,
        steps_in: false,
    }
}

/// The marks of so many entries of which nothing was said yet. The only error is lack of memory.
pub fn fresh_marks(alloc: Global, count: u32) -> Result<Vec<Mark>, AllocError>
    ensures { IfOk result (λ marks. marks.items ≡ replicate count fresh_mark) }
{
    let mut marks = Vec::new(alloc);
    for _ in 0..count {
        marks.push(fresh_mark())?;
    }
    Ok(marks)
}

/// The mark of an entry, a fresh one where there is none.
pub(crate) fn mark_at(marks: &[Mark], entry: u32) -> Mark
    ensures { result ≡ mark_at marks.now entry }
{
    match marks.get(entry as usize) {
        None => fresh_mark(),
        Some(mark) => *mark,
    }
}

/// Sets the mark of an entry, where there is one.
pub(crate) fn set_mark(marks: &mut [Mark], entry: u32, mark: Mark)
    ensures { marks.new ≡ with_mark entry mark marks.old }
{
    let index = entry as usize;
    if index < marks.len() {
        marks[index] = mark;
    }
}
