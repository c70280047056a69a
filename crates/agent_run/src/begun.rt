//! What is served from a start on, put together with its neighbours.
ghost use Rattle.std.specs.Prelude.{◌≡◌, ◌<◌, [], IfOk, is_some, min, option_map};
ghost use Rattle.agent_answers.specs.Controlling.{nobody_asks};
ghost use Rattle.agent_answers.specs.Onlooking.{nobody};
ghost use Rattle.agent_turns.specs.Held.{IsInStep};
ghost use Rattle.agent_run.specs.Begun.{BeginsLog, IsBegun, IsLateOf, IsReady, IsShutOf, LooksAhead, SaysIfBehind, beside, day_of, ends_folder, house_of, place_text, read_at, with_lanes};
ghost use Rattle.agent_run.specs.Waits.{IsResumedFrom, WaitsFor};

use crate::doors::{Doors, Guests, open_door};
use crate::wait::{Resumption, Spread, millis_of, resumed, wait_of};
use agent_answers::{Control, Onlookers};
use agent_behind::{Behind, Lookout};
use agent_house::House;
use agent_ledger::{Asker, Late, Ledger, Shut};
use agent_log::Desk;
use agent_pages::{FileReading, Standby};
use agent_start::Start;
use agent_system::{
    Inventories, Places, TakenOver, desk_of, folder_of, places_for, say_behind, take_over,
    warn_of_disks,
};
use agent_turns::{EarlyDay, Serving, Wait};
use agent_words::SaidLine;
use base_clients::{Door, Talk};
use base_clock::Reading;
use base_device::Place;
use base_disk::Disk;
use base_files::Inputs;
use base_log::LogSink;
use base_words::push_number;
use program_commands::ServeWords;
use state_changes::Rows;
use state_secrets::SecretFiles;
use std::alloc::{AllocError, Global};
use vault_inventory::Inventory;
use vault_lanes::{Lanes, MOST_WIDTH};
use vault_proving::Proving;
use watch_machine::WatchEvent;

/// What an agent begins with.
#[derive(Drop)]
pub struct Beginning<'a, K, G> {
    /// What the words of the command line ask.
    pub words: &'a ServeWords<'a>,
    /// What is served by them from the start on.
    pub start: Start<K>,
    /// What opens its state folder later, where it has one that cannot be used.
    pub later: Option<G>,
}

/// Where the ends are kept over a restart.
#[derive(Drop)]
pub struct EndsPlace<E> {
    /// The path of their file, if they are kept.
    pub path: Option<String>,
    /// Its disk.
    pub disk: E,
}

/// What an agent is put together from, besides what is served, its lanes to the broker and its doors.
#[derive(Drop)]
pub struct Parts<S, E, L: Lanes> {
    /// Who reads the log.
    pub log: S,
    pub ends: EndsPlace<E>,
    /// The lane over which the credential of a client's change is looked up before it is taken.
    pub lane: L,
    /// Those over whose lanes the credentials of files are.
    pub askers: Vec<Asker<L>>,
    /// The lanes over which entries are looked up ahead, where the agent stands behind another.
    pub ahead: L,
}

/// An agent that is to make its first turn, and its neighbours.
#[derive(Drop)]
pub struct Begun<S, T, D, K, E, L: Lanes> {
    pub serving: Serving,
    pub neighbours: EarlyDay<Behind<House<S, T, D, K, E>, L>>,
    /// Its wait before that, if it has one.
    pub wait: Option<Wait>,
}

/// The doors at which guests come in.
#[derive(Drop)]
pub struct Entrances<D> {
    /// How many of each kind are let in.
    pub places: Places,
    pub control: Option<D>,
    pub onlookers: Option<D>,
}

/// What neighbours are made of, with what was said by then.
#[derive(Drop)]
pub struct Ready<D, E> {
    pub desk: Desk,
    pub taken: TakenOver<E>,
    pub entrances: Entrances<D>,
}

/// On which terms an agent starts.
#[derive(Clone, Copy)]
struct StartTerms<'a> {
    /// When that is.
    now: Reading,
    /// What the words of the command line ask.
    words: &'a ServeWords<'a>,
    /// Where it stands behind another, the number of its name.
    behind: Option<u64>,
}

/// The agent, and its wait.
#[derive(Drop)]
struct AtFirst {
    serving: Serving,
    wait: Option<Wait>,
}

/// Puts an agent together of what it begins with and of its parts, over these lanes. The only error is lack of memory.
#[tactic(auto, using(crate::proofs::Putting::put_together))]
pub fn begin<'a, D, I, L, S, T, O, E, P, G>(
    alloc: Global,
    now: Reading,
    beginning: Beginning<'_, Ledger<'a, D, I, L>, G>,
    parts: Parts<S, E, L>,
    doors: &mut P,
    lanes: &L,
) -> Result<Begun<S, T, O, Late<'a, D, I, L, G>, E, L>, AllocError>
where
    D: Disk + Drop,
    I: Drop,
    L: Lanes + Drop,
    S: LogSink + Drop,
    T: Talk,
    O: Door<T> + Drop,
    E: Disk + Drop,
    P: Doors<T, O> + Inputs + SecretFiles,
    G: Drop,
    requires free { L.out lanes.now ≡ [] }
    requires lane_free { L.out parts.lane ≡ [] }
    requires lane_wide { 0 < L.width parts.lane }
    ensures begun { IfOk result (λ b. IsBegun P.calls P.asked E.is_known E.state now beginning.entry.words.now beginning.entry.start beginning.entry.later parts doors.old doors.new (L.width lanes.now) b) }
    ensures in_step { IfOk result (λ b. IsInStep (L.width lanes.now) (L.out lanes.now) b.serving) }
{
    let (words, later) = (beginning.words, beginning.later);
    let Start {
        part,
        behind,
        inventories,
        ledger,
        is_good,
        said,
    } = beginning.start;
    let Parts {
        log,
        ends,
        lane,
        askers,
        ahead,
    } = parts;
    let Inventories {
        served: inventory,
        again,
        named,
    } = inventories;
    let terms = StartTerms { now, words, behind };
    let mut ready = make_ready(alloc, terms, &inventory, said, ends, doors)?;
    let known = &ready.taken.known;
    let desk = &mut ready.desk;
    let with = Resumption { lanes, known };
    let spread = Spread { now, part };
    let AtFirst { serving, wait } = resume(alloc, inventory, again, &with, spread, desk)?;
    let state = late_of(alloc, ledger, later, named, lane, askers);
    let house = house_of(alloc, terms, is_good, state, log, ready);
    let lookout = lookout_of(alloc, behind, ahead);
    Ok(Begun {
        serving,
        neighbours: day_of(part, beside(house, lookout)),
        wait,
    })
}

/// A house of these parts, in which nobody has come, and nothing was given or said yet.
fn house_of<S, T: Talk, D: Door<T>, K, E>(
    alloc: Global,
    terms: StartTerms<'_>,
    is_good: bool,
    state: Option<K>,
    log: S,
    ready: Ready<D, E>,
) -> House<S, T, D, K, E>
    ensures { result ≡ house_of terms.entry.now is_good terms.entry.behind state log ready.desk ready.entrances ready.taken.file }
{
    let Ready {
        desk,
        taken,
        entrances,
    } = ready;
    House {
        desk,
        sink: log,
        control: control_at(alloc, entrances.control, entrances.places.clients),
        onlookers: onlookers_at(alloc, entrances.onlookers, entrances.places.onlookers),
        file: read_at(terms.now, is_good),
        standby: Standby::new(terms.behind.is_some()),
        state,
        given: None,
        awaited: None,
        next: None,
        ends: taken.file,
    }
}

/// The same, which has everything looked up before a day is over by this part of a spread.
fn day_of<N>(part: u32, house: N) -> EarlyDay<N>
    ensures { result ≡ day_of part house }
{
    EarlyDay::new(house, millis_of(part))
}

/// Begins the log, takes over the ends that were kept, and opens the doors. The only error is lack of memory.
#[tactic(auto, using(crate::proofs::Putting::is_ready))]
fn make_ready<T, O, E, P>(
    alloc: Global,
    terms: StartTerms<'_>,
    inventory: &Inventory,
    said: Vec<SaidLine>,
    ends: EndsPlace<E>,
    doors: &mut P,
) -> Result<Ready<O, E>, AllocError>
where
    O: Door<T> + Drop,
    E: Disk + Drop,
    P: Doors<T, O> + Inputs + SecretFiles,
    ensures { IfOk result (IsReady P.calls P.asked E.is_known E.state terms.entry.now terms.entry.words.now terms.entry.behind inventory.now said.items ends.path ends.disk doors.old doors.new) }
{
    let StartTerms { now, words, behind } = terms;
    let EndsPlace { path, disk } = ends;
    let count = inventory.forest().len();
    let mut desk = begin_log(alloc, terms, count, said, &path, doors)?;
    let taken = take_over(alloc, disk, path, inventory, now, &mut desk)?;
    say_if_behind(alloc, now, behind, inventory.forest().margin(), &mut desk);
    let places = places_for(
        alloc,
        doors,
        most_out(words),
        behind.is_some(),
        now,
        &mut desk,
    );
    let (control, listen) = (words.control, words.listen);
    let control = open_door(alloc, now, control, Guests::Clients, doors, &mut desk);
    let onlookers = open_door(alloc, now, listen, Guests::Onlookers, doors, &mut desk);
    Ok(Ready {
        desk,
        taken,
        entrances: Entrances {
            places,
            control,
            onlookers,
        },
    })
}

/// Says with which margin the agent stands behind another, where it does.
fn say_if_behind(alloc: Global, now: Reading, behind: Option<u64>, margin: u32, desk: &mut Desk)
    ensures { SaysIfBehind now behind margin desk.old desk.new }
{
    match behind {
        None => {}
        Some(_) => say_behind(alloc, desk, now, margin),
    }
}

/// Who looks ahead over these lanes, for an agent behind another whose name has that number.
#[tactic(auto, using(crate::proofs::Putting::is_lookout))]
fn lookout_of<L: Lanes + Drop>(alloc: Global, behind: Option<u64>, lanes: L) -> Option<Lookout<L>>
    ensures { LooksAhead behind lanes result }
{
    match behind {
        None => None,
        Some(number) => Some(Lookout::new(alloc, number, lanes)),
    }
}

/// Neighbours, and beside them who looks ahead.
fn beside<N, L: Lanes>(others: N, lookout: Option<Lookout<L>>) -> Behind<N, L>
    ensures { result ≡ beside others lookout }
{
    Behind::new(others, lookout)
}

/// Where the broker is reached, in words. The only error is lack of memory.
fn place_text(alloc: Global, place: Place<'_>) -> Result<Vec<u8>, AllocError>
    ensures { IfOk result (λ text. text.items ≡ place_text place.entry) }
{
    match place {
        Place::Port(port) => {
            let mut text = Vec::from_slice(alloc, b"127.0.0.1:")?;
            push_number(alloc, u64::from(port), &mut text)?;
            Ok(text)
        }
        Place::Path(path) => Vec::from_slice(alloc, path.as_bytes()),
    }
}

/// The log of an agent with so many entries, in which that was said, and where a disk may hold up its loop. The only error is lack of
/// memory.
#[tactic(auto, using(crate::proofs::Putting::begins_log))]
fn begin_log<P: SecretFiles>(
    alloc: Global,
    terms: StartTerms<'_>,
    count: u32,
    said: Vec<SaidLine>,
    ends: &Option<String>,
    files: &mut P,
) -> Result<Desk, AllocError>
    ensures { IfOk result (BeginsLog P.calls terms.entry.now terms.entry.words.now.form terms.entry.words.now.place count said.items ends.now files.old) }
{
    let mut said = said;
    warn_of_disks(alloc, files, ends_folder(ends), &mut said)?;
    let StartTerms { now, words, .. } = terms;
    let place = place_text(alloc, words.place)?;
    desk_of(alloc, words.form, place, count, now, &said)
}

/// The folder of the file of the ends, where there is one.
fn ends_folder(path: &Option<String>) -> Option<&str>
    ensures { option_map (λ folder. folder.now) result ≡ ends_folder path.now }
{
    match path {
        None => None,
        Some(path) => Some(folder_of(path)),
    }
}

/// The agent of this inventory, and its wait, of which the desk is told. The only error is lack of memory.
fn resume<L: Lanes>(
    alloc: Global,
    inventory: Inventory,
    again: Option<Inventory>,
    with: &Resumption<'_, L>,
    spread: Spread,
    desk: &mut Desk,
) -> Result<AtFirst, AllocError>
    requires free { L.out with.now.lanes.now ≡ [] }
    ensures resumed { IfOk result (λ r. IsResumedFrom with.now.known.now inventory (L.width with.now.lanes.now) r.serving) }
    ensures waits { IfOk result (λ r. WaitsFor with.now.known.now (L.width with.now.lanes.now) spread.now spread.part r.serving.agent again r.wait desk.old desk.new) }
    ensures in_step { IfOk result (λ r. IsInStep (L.width with.now.lanes.now) (L.out with.now.lanes.now) r.serving) }
{
    let serving = resumed(alloc, inventory, with)?;
    let wait = wait_of(alloc, &serving, again, with, spread, desk)?;
    Ok(AtFirst { serving, wait })
}

/// The clients at a door, where there is one, with room for so many: nobody has come yet.
fn control_at<T: Talk, D: Door<T>>(
    alloc: Global,
    door: Option<D>,
    room: usize,
) -> Option<Control<T, D>>
    ensures { result ≡ option_map (nobody_asks room) door }
{
    match door {
        None => None,
        Some(door) => Some(Control::new(alloc, door, room)),
    }
}

/// The onlookers at a door, where there is one, with room for so many: nobody has come yet.
fn onlookers_at<T: Talk, D: Door<T>>(
    alloc: Global,
    door: Option<D>,
    room: usize,
) -> Option<Onlookers<T, D>>
    ensures { result ≡ option_map (nobody room) door }
{
    match door {
        None => None,
        Some(door) => Some(Onlookers::new(alloc, door, room)),
    }
}

/// How many requests may be out at once at most, by the words.
pub fn most_out(served: &ServeWords<'_>) -> u32
    ensures { result ≡ min served.now.width 32 }
{
    served.width.min(u64::from(MOST_WIDTH)) as u32
}

/// What keeps changes, or comes to later: a ledger, where there is one; else what opens a state folder later, where something does, and
/// these entries are named meanwhile. It has the credential of a client's change looked up over this lane before it takes it, and those of
/// files by these askers.
fn late_of<'a, D: Disk + Drop, I: Drop, L: Lanes + Drop, G: Drop>(
    alloc: Global,
    ledger: Option<Ledger<'a, D, I, L>>,
    later: Option<G>,
    named: Option<Rows>,
    lane: L,
    askers: Vec<Asker<L>>,
) -> Option<Late<'a, D, I, L, G>>
    requires free { L.out lane ≡ [] }
    requires wide { 0 < L.width lane }
    ensures { IsLateOf lane askers named ledger.entry later result }
{
    match ledger {
        Some(ledger) => Some(Late::Open(with_lanes(ledger, lane, askers))),
        None => shut_of(alloc, later, named, lane, askers),
    }
}

/// The same without a ledger: the folder is tried in the first turn.
#[tactic(auto, using(crate::proofs::Putting::is_shut))]
fn shut_of<'a, D: Disk + Drop, I: Drop, L: Lanes + Drop, G: Drop>(
    alloc: Global,
    later: Option<G>,
    named: Option<Rows>,
    lane: L,
    askers: Vec<Asker<L>>,
) -> Option<Late<'a, D, I, L, G>>
    requires free { L.out lane ≡ [] }
    requires wide { 0 < L.width lane }
    ensures { IsShutOf lane askers named later result }
{
    match later {
        None => None,
        Some(opening) => Some(Late::NotYet(Shut {
            opening,
            proving: Some(Proving::new(lane)),
            askers,
            next: 0,
            needs: Vec::new(alloc),
            read: named,
        })),
    }
}

/// A ledger that has the credential of a client's change looked up over this lane before it takes it, and those of files by these askers.
fn with_lanes<'a, D: Disk + Drop, I: Drop, L: Lanes + Drop>(
    ledger: Ledger<'a, D, I, L>,
    lane: L,
    askers: Vec<Asker<L>>,
) -> Ledger<'a, D, I, L>
    requires free { L.out lane ≡ [] }
    requires wide { 0 < L.width lane }
    ensures { result ≡ with_lanes lane askers ledger.entry }
{
    let mut ledger = ledger;
    ledger.proving = Some(Proving::new(lane));
    ledger.askers = askers;
    ledger
}

/// The file was read at this moment, and was good or was not.
fn read_at(now: Reading, is_good: bool) -> FileReading
    ensures { result ≡ read_at now is_good }
{
    let seconds = Some(now.wall / 1000);
    FileReading {
        is_good,
        at: seconds,
        good_at: if is_good { seconds } else { None },
    }
}
