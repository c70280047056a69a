use crate::play::outcomes_of;
use crate::sweeps::{Disturbance, swept};
use base_device::{Counted, read_all};
use play_cases::{Case, CaseFault, read_case};
use std::alloc::Global;
use std::io::{self, Read, Write as _};

/// The most bytes of a case.
const MOST_CASE: usize = 1 << 20;

/// Plays the case on standard input.
pub fn run<R: AllocGlobal + Print, I: Read + Drop>(rt: &R, input: I) -> Result<(), CaseFault> {
    let alloc = rt.alloc();
    let text = read_all(alloc, &mut Counted::new(input), MOST_CASE)?;
    let case = read_case(alloc, text.list())?;
    let outcomes = all_outcomes(alloc, &case)?;
    let written = case.written(alloc, &outcomes)?;
    io::writer(rt).write_all(&written)?;
    Ok(())
}

/// What came of each step, those that sweep included.
fn all_outcomes(alloc: Global, case: &Case<'_>) -> Result<Vec<Option<Vec<u8>>>, CaseFault> {
    let mut outcomes = outcomes_of(alloc, &case.steps, Disturbance::Nothing)?;
    let whole = case.written(alloc, &outcomes)?;
    for (number, step) in case.steps.iter().enumerate() {
        if let ["sweep", words @ ..] = step.words.as_slice() {
            let told = swept(alloc, case, &whole, words, step.unread())?;
            if let Some(outcome) = outcomes.get_mut(number) {
                *outcome = Some(told);
            }
        }
    }
    Ok(outcomes)
}
