//! Lanes over connections of a play: silent, slow, dripping and broken peers.
use crate::renewals::{Comes, is, send, token_of};
use crate::wires::{End, Part, Wired};
use std::alloc::{AllocError, Global};
use std::cell::Cell;
use std::process::Abort;
use std::test::Fail;
use vault_lanes::{Answered, ConnectReason, Lanes, LanesOver, Loss};

/// A peer that answers the renewal for the index 4 at once.
fn prompt() -> Part {
    Part {
        accepts: 0,
        takes: 65536,
        breaks: usize::MAX,
        request: token_of(4).request,
        first: 0,
        pause: 0,
        text: token_of(4).reply,
        piece: 65536,
        end: End::Stays,
    }
}

/// What a peer does otherwise.
#[derive(Clone, Copy)]
enum Does {
    /// It is there from then on, and takes so many bytes in each millisecond.
    Slow(u64, usize),
    /// Its first bytes come then, so many at a time, and the next ones so much later.
    Drips(u64, usize, u64),
    /// Its connection breaks after so many bytes.
    Breaks(usize),
    /// It says this.
    Says(&'static [u8], End),
}

fn part_of(does: Does) -> Part {
    match does {
        Does::Slow(accepts, takes) => Part {
            accepts,
            takes,
            ..prompt()
        },
        Does::Drips(first, piece, pause) => Part {
            first,
            piece,
            pause,
            ..prompt()
        },
        Does::Breaks(breaks) => Part { breaks, ..prompt() },
        Does::Says(text, end) => Part {
            text,
            end,
            ..prompt()
        },
    }
}

/// One that answers the renewal for the index 4 after so many milliseconds, and one that does so for the index 5.
fn after(first: u64) -> Part {
    part_of(Does::Drips(first, 65536, 0))
}

fn other_after(first: u64) -> Part {
    Part {
        request: token_of(5).request,
        text: token_of(5).reply,
        ..after(first)
    }
}

const NEVER: u64 = u64::MAX;

const SILENT: Does = Does::Drips(NEVER, 65536, 0);

const GRANTED: Comes = Comes::Granted;

const CONNECT: Comes = Comes::Lost(Loss::Connect(ConnectReason::Other));

const TIMEOUT: Comes = Comes::Lost(Loss::Timeout);

const CLOSED: Comes = Comes::Lost(Loss::Closed);

const UNREAD: Comes = Comes::Lost(Loss::Reply);

/// The front of a head.
const FRONT: &[u8] = b"HTTP/1.1 200 OK\r\n";

/// A peer, a patience, what comes of the renewal with time-outs of 5 seconds, and when. The request has 171 bytes, the reply
/// 137.
const PLAYS: [(Does, u64, Comes, u64); 28] = [
    (Does::Slow(0, 65536), 5000, GRANTED, 0),
    // Silence costs the patience, and the time-out at most.
    (SILENT, 250, TIMEOUT, 250),
    (SILENT, 1000, TIMEOUT, 1000),
    (SILENT, 5000, TIMEOUT, 5000),
    (SILENT, 60_000, TIMEOUT, 5000),
    // So do a connection that comes late, bytes that are taken late, and a first byte that comes late, all three together.
    (Does::Slow(249, 65536), 250, GRANTED, 249),
    (Does::Slow(251, 65536), 250, TIMEOUT, 250),
    (Does::Slow(NEVER, 65536), 1000, TIMEOUT, 1000),
    (Does::Slow(0, 1), 250, GRANTED, 170),
    (Does::Slow(0, 1), 169, TIMEOUT, 169),
    (Does::Slow(0, 40), 250, GRANTED, 4),
    (Does::Slow(100, 1), 269, TIMEOUT, 269),
    (Does::Slow(100, 1), 271, GRANTED, 270),
    (Does::Drips(899, 65536, 0), 900, GRANTED, 899),
    (Does::Drips(901, 65536, 0), 900, TIMEOUT, 900),
    // After its first bytes each read may take a quarter of a second, whatever the patience.
    (Does::Drips(0, 10, 200), 5000, GRANTED, 2600),
    (Does::Drips(0, 10, 251), 5000, TIMEOUT, 250),
    (Does::Drips(899, 100, 249), 900, GRANTED, 1148),
    // The reads are counted, 28 with time-outs of 5 seconds.
    (Does::Drips(0, 5, 10), 5000, GRANTED, 270),
    (Does::Drips(0, 4, 10), 5000, TIMEOUT, 270),
    // And all of it may take twice the patience.
    (Does::Drips(0, 10, 240), 300, TIMEOUT, 600),
    // A connection that fails before a byte is taken was none.
    (Does::Breaks(0), 5000, CONNECT, 0),
    (Does::Breaks(170), 5000, CLOSED, 0),
    // A reply that is not whole.
    (Does::Says(b"", End::Closes), 5000, CLOSED, 0),
    (Does::Says(FRONT, End::Closes), 5000, CLOSED, 0),
    (Does::Says(FRONT, End::Fails), 5000, CLOSED, 0),
    (Does::Says(FRONT, End::Stays), 5000, TIMEOUT, 250),
    // What is no reply.
    (Does::Says(b"hello\r\n\r\n", End::Stays), 5000, UNREAD, 0),
];

/// A step of a play, and what is to come of it. Moments are milliseconds of the elapsed clock, which is the play's, too.
#[derive(Clone, Copy)]
enum Step {
    /// At that moment the renewal for an index is sent, with so much patience.
    Sends(u64, u32, u64),
    /// At the first moment, and up to the second, the lanes are due at the third.
    Due(u64, u64, u64),
    /// They go on in each millisecond from the first moment to the second. By then this comes for each of these indices, and
    /// nothing before.
    Hands(u64, u64, &'static [u32], Comes),
}

/// Lanes over connections of a play, and its clock.
#[derive(Drop)]
struct Play<'a> {
    alloc: Global,
    lanes: LanesOver<Wired<'a>>,
    clock: &'a Cell<u64>,
}

impl<'a> Play<'a> {
    /// Whether what comes of a step is what is to come of it.
    fn goes_on(&mut self, step: &Step) -> Result<bool, AllocError> {
        match *step {
            Step::Sends(now, index, patience) => {
                self.clock.set(now);
                send(self.alloc, &mut self.lanes, now, index, patience)
            }
            Step::Due(now, by, then) => Ok(self.lanes.due(now, by) == then),
            Step::Hands(from, to, indices, comes) => self.hands(from, to, indices, comes),
        }
    }

    fn hands(
        &mut self,
        from: u64,
        to: u64,
        indices: &[u32],
        comes: Comes,
    ) -> Result<bool, AllocError> {
        for now in from..to {
            if !self.hear(now)?.is_empty() {
                return Ok(false);
            }
        }
        Ok(are(&self.hear(to)?, indices, comes))
    }

    /// The answers that are there when the lanes go on at this moment.
    fn hear(&mut self, now: u64) -> Result<Vec<Answered>, AllocError> {
        self.clock.set(now);
        self.lanes.go_on(self.alloc, now)
    }

    /// The number of the first step, counted from 0, of which something else comes than is to come; `None` where there is none.
    fn first_wrong(&mut self, steps: &[Step]) -> Result<Option<usize>, AllocError> {
        for (number, step) in steps.iter().enumerate() {
            if !self.goes_on(step)? {
                return Ok(Some(number));
            }
        }
        Ok(None)
    }
}

/// Whether these are the answers for these indices, in this order.
fn are(came: &[Answered], indices: &[u32], comes: Comes) -> bool {
    came.len() == indices.len()
        && came
            .iter()
            .zip(indices.iter())
            .all(|(answered, index)| is(answered, *index, comes))
}

/// The same of these steps with so many lanes to these peers, which have time-outs of 5 seconds.
fn first_wrong_of(
    alloc: Global,
    parts: &[Part],
    width: u32,
    steps: &[Step],
) -> Result<Option<usize>, AllocError> {
    let clock = Cell::new(0);
    let wires = Wired {
        alloc,
        parts,
        clock: &clock,
        otherwise: prompt(),
        dials: 0,
    };
    let mut play = Play {
        alloc,
        lanes: LanesOver::new(alloc, wires, 5, width),
        clock: &clock,
    };
    play.first_wrong(steps)
}

/// Takes the steps, and asserts that each comes out as it is to.
fn plays_with<R: AllocGlobal + Abort>(
    rt: &R,
    parts: &[Part],
    width: u32,
    steps: &[Step],
) -> Result<(), Fail> {
    assert_eq!(rt; first_wrong_of(rt.alloc(), parts, width, steps)?, None);
    Ok(())
}

#[test]
fn each_peer_costs_what_it_may(rt: HostRuntime) -> Result<(), Fail> {
    for (does, patience, comes, until) in &PLAYS {
        let steps = [
            Step::Sends(0, 4, *patience),
            Step::Hands(0, *until, &[4], *comes),
        ];
        plays_with(&rt, &[part_of(*does)], 1, &steps)?;
    }
    Ok(())
}

const SILENCE: [Step; 7] = [
    // It has to be looked at again when its patience is over.
    Step::Sends(0, 4, 400),
    Step::Due(0, 300, 300),
    Step::Due(0, 9000, 400),
    Step::Hands(0, 400, &[4], TIMEOUT),
    // Its times go by the clock that is handed in.
    Step::Sends(7000, 4, 5000),
    Step::Due(7000, 60_000, 12_000),
    Step::Hands(7000, 12_000, &[4], TIMEOUT),
];

#[test]
fn it_is_due_when_its_patience_is_over(rt: HostRuntime) -> Result<(), Fail> {
    plays_with(&rt, &[after(NEVER), after(NEVER)], 1, &SILENCE)
}

/// The renewals for 5 and 4, in this order, whose peers come in that order too.
const SENDS_5: Step = Step::Sends(0, 5, 5000);

const SENDS_4: Step = Step::Sends(0, 4, 5000);

const ONE_IS_SILENT: [Step; 4] = [
    SENDS_5,
    SENDS_4,
    Step::Hands(0, 100, &[5], GRANTED),
    Step::Hands(101, 5000, &[4], TIMEOUT),
];

#[test]
fn a_silent_peer_costs_its_neighbour_nothing(rt: HostRuntime) -> Result<(), Fail> {
    plays_with(&rt, &[other_after(100), after(NEVER)], 2, &ONE_IS_SILENT)
}

const TOGETHER: [Step; 4] = [
    SENDS_5,
    SENDS_4,
    Step::Hands(0, 50, &[4, 5], GRANTED),
    // Nothing is out.
    Step::Due(50, 60_000, 60_000),
];

#[test]
fn answers_that_are_there_come_by_index(rt: HostRuntime) -> Result<(), Fail> {
    plays_with(&rt, &[other_after(50), after(50)], 2, &TOGETHER)
}
