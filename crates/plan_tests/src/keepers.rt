//! Plays of a keeper from 1000 on, where no line of a live run could say them: answers that nobody asked for, answers in another
//! order, and the forces of its plan.

use crate::rows::{LEASE, Row, TOKEN, WEB, each, forest_of, moment};
use plan_forest::Forest;
use std::alloc::{AllocError, Global};
use std::test::Fail;
use tick_keeper::{Event, Keeper, Output, StepFault};

// What is answered to an event.
#[derive(Clone, Copy)]
enum Said {
    Sleep(u64),
    Ask(&'static [u32]),
    Waiting,
    Round(u64),
    Fault(StepFault),
}

fn is_said(answer: &Result<Output, StepFault>, said: Said) -> bool {
    match (answer, said) {
        (Ok(Output::Sleep(at)), Said::Sleep(want)) => *at == want,
        (Ok(Output::Ask(asked)), Said::Ask(want)) => asked.list() == want,
        (Ok(Output::Waiting), Said::Waiting) => true,
        (Ok(Output::Round { next }), Said::Round(want)) => *next == Some(want),
        (Err(fault), Said::Fault(want)) => *fault == want,
        _ => false,
    }
}

// The token is renewed for so many seconds, and the lease for a minute.
const GRANT: Event = Event::Told {
    i: 0,
    seconds: 100,
    renewable: true,
};

const MINUTE: Event = Event::Told {
    i: 0,
    seconds: 60,
    renewable: true,
};

const LEASE_GRANT: Event = Event::Told {
    i: 1,
    seconds: 60,
    renewable: true,
};

const NEED: Event = Event::Need { i: 0, until: 1100 };

const TICKS_ANSWERS_AND_REFUSALS: [(Event, Said); 8] = [
    (Event::Tick(1000), Said::Sleep(1059)),
    (Event::Tick(1059), Said::Ask(&[0])),
    (Event::Tick(1059), Said::Fault(StepFault::RoundOpen)),
    (MINUTE, Said::Round(1118)),
    (MINUTE, Said::Fault(StepFault::NotAsked)),
    (Event::Refused(7), Said::Fault(StepFault::BadIndex)),
    (
        Event::Tick(253402300800),
        Said::Fault(StepFault::OutOfRange),
    ),
    (Event::Tick(1050), Said::Fault(StepFault::ClockBack)),
];

// While a round is open, an event is refused by the first refusal that applies. The lease answers first.
const LEASE_FIRST: [(Event, Said); 7] = [
    (Event::Tick(1059), Said::Ask(&[0, 1])),
    (Event::Lost(7), Said::Fault(StepFault::BadIndex)),
    (Event::Tick(1058), Said::Fault(StepFault::ClockBack)),
    (NEED, Said::Fault(StepFault::RoundOpen)),
    (LEASE_GRANT, Said::Waiting),
    (Event::Lost(1), Said::Fault(StepFault::NotAsked)),
    (GRANT, Said::Round(1118)),
];

const TOKEN_FIRST: [(Event, Said); 3] = [
    (Event::Tick(1059), Said::Ask(&[0, 1])),
    (GRANT, Said::Waiting),
    (LEASE_GRANT, Said::Round(1118)),
];

// Entries, the events with their answers, and the ends after them.
type Play = (&'static [Row], &'static [(Event, Said)], &'static [u64]);

const PLAYS: [Play; 3] = [
    (&[WEB], &TICKS_ANSWERS_AND_REFUSALS, &[1119]),
    (&[TOKEN, LEASE], &LEASE_FIRST, &[1159, 1119]),
    (&[TOKEN, LEASE], &TOKEN_FIRST, &[1159, 1119]),
];

fn ends_are(forest: &Forest, want: &[u64]) -> bool {
    let mut is_so = forest.len() as usize == want.len();
    for i in 0..forest.len() {
        is_so = Some(&forest.get(i).end) == want.get(i as usize) && is_so;
    }
    is_so
}

fn opened(alloc: Global, rows: &[Row]) -> Result<Keeper, Fail> {
    let start = moment(1000)?;
    Ok(Keeper::new(alloc, forest_of(alloc, 1, rows)?, start)?)
}

fn is_played(alloc: Global, row: &Play) -> Result<bool, Fail> {
    let mut keeper = opened(alloc, row.0)?;
    let mut is_so = true;
    for (event, said) in row.1 {
        is_so = is_said(&keeper.step(*event), *said) && is_so;
    }
    Ok(is_so && ends_are(keeper.forest(), row.2))
}

#[test]
fn ticks_answers_and_refusals(rt: HostRuntime) -> Result<(), Fail> {
    each(&rt, &PLAYS, &is_played)
}

// A token that lasts as long as its lease does once that is renewed.
const LASTING: Row = Row { end: 1119, ..TOKEN };

const LEASE_ALONE: [Event; 2] = [Event::Tick(1059), LEASE_GRANT];

// Whether two events are taken at once, and the plan goes on with its tail: its force names the lease twice, where planning
// anew from 1059 names the token.
fn keeps_the_tail(keeper: &mut Keeper) -> Result<bool, AllocError> {
    let answered = keeper.steps(&LEASE_ALONE)?;
    let is_closed = match answered.get(1) {
        Some(answer) => is_said(answer, Said::Round(1118)),
        None => false,
    };
    match keeper.plan().wakes().next() {
        Some(force) => Ok(
            is_closed && force.at.get() == 1118 && force.entry == 1 && force.needed == 1,
        ),
        None => Ok(false),
    }
}

#[test]
fn the_tail_of_a_plan_keeps_its_forces(rt: HostRuntime) -> Result<(), Fail> {
    let mut keeper = opened(rt.alloc(), &[LASTING, LEASE])?;
    assert!(rt; keeps_the_tail(&mut keeper)?);
    Ok(())
}
