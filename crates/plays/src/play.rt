//! A play, from its start on.
use crate::guests::{PlayedGuest, guests_of};
use crate::running::{MemoryLanes, Running};
use crate::starts::{MemoryDay, lanes_of};
use crate::sweeps::Disturbance;
use agent_behind::Behind;
use agent_house::{Desk, House};
use agent_pages::{FileReading, Standby};
use agent_turns::EarlyDay;
use base_clock::MemoryClock;
use base_log::MemoryLogSink;
use play_cases::{CaseFault, CaseStep, FILE, Setting};
use state_keeping::Paths;
use std::alloc::Global;
use std::mem;

/// The state folder.
const FOLDER: &str = "state";

/// The calls of its clock that a play keeps.
const CLOCK_CALLS: usize = 4096;

/// The inventory's file before a start.
const UNREAD: FileReading = FileReading {
    is_good: false,
    at: None,
    good_at: None,
};

/// An agent, and all that is around it.
#[derive(Drop)]
pub struct Play<'a> {
    pub alloc: Global,
    pub paths: &'a Paths,
    pub guests: &'a [PlayedGuest<'a>],
    pub clock: MemoryClock,
    pub running: Running,
    pub house: MemoryDay<'a>,
    pub told: PlayedText,
}

/// What was told of it so far.
#[derive(Drop)]
pub struct PlayedText {
    /// How many bytes of the log.
    pub log: usize,
    /// How many calls of the clock.
    pub clock: usize,
    /// The requests that were out after the last turn, a line each.
    pub out: Vec<Vec<u8>>,
    /// Those that are not told yet, a line each.
    pub requests: Vec<u8>,
}

/// Plays a case, where this goes wrong: what came of each of its steps of which something comes. A start that is refused is a fault of the
/// first step at which something happens.
pub fn outcomes_of(
    alloc: Global,
    steps: &[CaseStep<'_>],
    disturbance: Disturbance,
) -> Result<Vec<Option<Vec<u8>>>, CaseFault> {
    let mut setting = Setting::new(alloc);
    played(alloc, &mut setting, steps, disturbance)
}

/// The same, with a setting that says nothing yet.
fn played(
    alloc: Global,
    setting: &mut Setting,
    steps: &[CaseStep<'_>],
    disturbance: Disturbance,
) -> Result<Vec<Option<Vec<u8>>>, CaseFault> {
    let first = setting.take_first(steps)?;
    disturbance.disturb(setting)?;
    let guests = guests_of(alloc, steps, setting.guest_fails)?;
    match Paths::of(alloc, FILE, FOLDER) {
        Ok(paths) => played_among(alloc, setting, &paths, &guests, steps, first),
        Err(_) => Err(CaseFault::Memory),
    }
}

/// Where its broker is reached, as its log says it.
const PLACE: &[u8] = b"127.0.0.1:8200";

/// The same, with a setting that so many steps say.
fn played_among(
    alloc: Global,
    setting: &mut Setting,
    paths: &Paths,
    guests: &[PlayedGuest<'_>],
    steps: &[CaseStep<'_>],
    first: usize,
) -> Result<Vec<Option<Vec<u8>>>, CaseFault> {
    let refused = match steps.get(first) {
        None => CaseFault::Step(0),
        Some(step) => step.refused(),
    };
    let readings = mem::replace(&mut setting.readings, Vec::new(alloc));
    let clock = MemoryClock::new(alloc, readings, CLOCK_CALLS)?;
    let lanes = lanes_of(alloc, setting, &setting.broker, setting.width, refused)?;
    let desk = Desk::new(alloc, setting.form, Vec::from_slice(alloc, PLACE)?, 0)?;
    let house = house_of(alloc, setting, desk);
    let play = Play::new(alloc, paths, guests, clock, lanes, house);
    play.over(setting, steps, first, refused)
}

/// A house in which there is the log alone.
fn house_of<'a>(alloc: Global, setting: &mut Setting, desk: Desk) -> MemoryDay<'a> {
    let answers = mem::replace(&mut setting.answers, Vec::new(alloc));
    let sink = MemoryLogSink::new(alloc, answers);
    let house = House::new(desk, sink, UNREAD, Standby::new(false));
    EarlyDay::new(
        Behind::new(house, None),
        u64::from(setting.part).saturating_mul(1000),
    )
}

impl PlayedText {
    /// Nothing.
    fn new(alloc: Global) -> PlayedText {
        PlayedText {
            log: 0,
            clock: 0,
            out: Vec::new(alloc),
            requests: Vec::new(alloc),
        }
    }
}

impl<'a> Play<'a> {
    // One of which no agent is started.
    fn new(
        alloc: Global,
        paths: &'a Paths,
        guests: &'a [PlayedGuest<'a>],
        clock: MemoryClock,
        lanes: MemoryLanes,
        house: MemoryDay<'a>,
    ) -> Play<'a> {
        Play {
            alloc,
            paths,
            guests,
            clock,
            running: Running::new(lanes),
            house,
            told: PlayedText::new(alloc),
        }
    }

    // It is played, and over then; what came of each step, of which so many only say what the play begins with.
    fn over(
        self,
        setting: &mut Setting,
        steps: &[CaseStep<'_>],
        first: usize,
        refused: CaseFault,
    ) -> Result<Vec<Option<Vec<u8>>>, CaseFault> {
        let mut play = self;
        let outcomes = play.outcomes(setting, steps, first, refused);
        drop(play);
        outcomes
    }

    // What came of each step.
    fn outcomes(
        &mut self,
        setting: &mut Setting,
        steps: &[CaseStep<'_>],
        first: usize,
        refused: CaseFault,
    ) -> Result<Vec<Option<Vec<u8>>>, CaseFault> {
        self.start(setting, refused)?;
        let mut outcomes = Vec::new(self.alloc);
        for (number, step) in steps.iter().enumerate() {
            let outcome = if number < first {
                None
            } else {
                self.go_on(setting, step)?
            };
            outcomes.push(outcome)?;
        }
        Ok(outcomes)
    }
}
