//! Laws of what a house says.
ghost use Rattle.agent_laws.specs.Acknowledged.{AcknowledgedLaw};
ghost use Rattle.agent_laws.specs.Alike.{AnsweredAlike, CarriedAlike, ClockedAlike, NeedAlike, NextAlike, ShortsAlike};
ghost use Rattle.agent_laws.specs.Alike.{EndAlike, KeepsAlike, RefusedAlike, ReplacedAlike, ReplacedOfAlike};
ghost use Rattle.agent_laws.specs.Alike.{FaultyAlike, JudgedAlike, NewsAlike, NotesAlike, StartAlike, UnfilledAlike, WhysAlike, WrittenAlike};
ghost use Rattle.agent_laws.specs.Decided.{AnothersBeside, ApartBeside, HandedBeside, HeldBeside, MadeBeside, RefusedBeside, ReplayedBeside, TakenBeside};
ghost use Rattle.agent_laws.specs.Disks.{AsksLittleLaw, EndsLaw, LedgerLaw, SparesLaw};
ghost use Rattle.agent_laws.specs.Heard.{AttendedAlike, GoesOnAlike, HeardAlike, NoneGivenAlike, SettledAlike, StretchAlike};
ghost use Rattle.agent_laws.specs.Keepers.{CallBeside, RunBeside};
ghost use Rattle.agent_laws.specs.Tried.{BehindTriesLaw, DayTriesLaw, TriesLaw};

use agent_ledger::Keeping;
use base_clients::{Door, Talk};
use base_disk::Disk;
use base_files::Inputs;
use base_log::LogSink;
use state_secrets::SecretFiles;
use vault_asking::SeenLanes;
use vault_lanes::Lanes;

/// The law that no credential is said: of two agents whose inventories differ in credentials alone the same lines are said, whatever
/// happens to them.
pub fn no_credential_is_said()
    ensures clocked { ClockedAlike }
    ensures next { NextAlike }
    ensures need { NeedAlike }
    ensures shorts { ShortsAlike }
    ensures answered { AnsweredAlike }
    ensures carried { CarriedAlike }
{}

/// The law that a client is told no credential: of two changes that differ in their credentials alone it is told the same, and so it is
/// beside two agents, or two lists of entries, that do.
pub fn no_credential_is_told()
    ensures refused { RefusedAlike }
    ensures replaced { ReplacedAlike }
    ensures replaced_of { ReplacedOfAlike }
    ensures keeps { KeepsAlike }
    ensures end { EndAlike }
{}

/// The law that no credential of a file is said: of two journals, two files of an inventory and two files of a credential that differ in
/// credentials alone the same is said, to the log, to clients and at a start.
pub fn no_credential_of_a_file_is_said()
    ensures notes { NotesAlike }
    ensures whys { WhysAlike }
    ensures faulty { FaultyAlike }
    ensures start { StartAlike }
    ensures written { WrittenAlike }
    ensures unfilled { UnfilledAlike }
    ensures news { NewsAlike }
    ensures judged { JudgedAlike }
{}

/// The law that no credential decides: where each credential has another in its place, two of which are equal exactly where the two were, a
/// ledger decides the same. A change is refused for the same reason, or makes the same but for credentials; an entry has what its file holds,
/// or another may have it, where it is so here; the same is held and served then, or may not go together; and a journal gives the same, with
/// the same notes, where the fingerprints in it are equal to those of its file exactly where they are here.
pub fn no_credential_decides()
    ensures refused { RefusedBeside }
    ensures made { MadeBeside }
    ensures held { HeldBeside }
    ensures anothers { AnothersBeside }
    ensures taken { TakenBeside }
    ensures handed { HandedBeside }
    ensures apart { ApartBeside }
    ensures replayed { ReplayedBeside }
{}

/// The law that a house shows no credential: beside two agents that differ in credentials alone it may do the same, so its log, those who
/// follow that, the onlookers and the clients are told the same, whatever is heard, while it goes on, where a change is settled and where
/// none is given, and so in each stretch of these. (The file of the ends has a fingerprint of each credential.)
pub fn a_house_shows_no_credential<S: LogSink, T: Talk, D: Door<T>, K: Keeping, E: Disk>()
    ensures heard { HeardAlike S.written S.failures S.tries S.tried T.remaining T.written T.calls D.log K.does K.rows K.keeps K.path K.reads K.gives E.is_known E.state }
    ensures attended { AttendedAlike S.written S.failures S.tries S.tried T.remaining T.written T.calls D.log K.does K.rows K.keeps K.path K.reads K.gives E.is_known E.state }
    ensures goes_on { GoesOnAlike S.written S.failures S.tries S.tried T.remaining T.written T.calls D.log K.does K.rows K.keeps K.path K.reads K.gives E.is_known E.state }
    ensures settled { SettledAlike S.written S.failures S.tries S.tried T.remaining T.written T.calls D.log K.does K.rows K.keeps K.path K.reads K.gives E.is_known E.state }
    ensures none_given { NoneGivenAlike S.written S.failures S.tries S.tried T.remaining T.written T.calls D.log K.does K.rows K.keeps K.path K.reads K.gives E.is_known E.state }
    ensures stretch { StretchAlike S.written S.failures S.tries S.tried T.remaining T.written T.calls D.log K.does K.rows K.keeps K.path K.reads K.gives E.is_known E.state }
{}

/// The law that no credential shows that is kept: of two runs of a house, beside two agents and two keepers of changes that differ in
/// credentials alone, where the keepers answer the same to all that they are asked. Whatever happens, and whatever clients ask for, the other
/// house may do the same at each call, and is the same after it but for its keeper: its log and those who follow that, its clients and its
/// onlookers are given the same, and the same change is given, with the other credentials. It speaks of houses without a file of the ends,
/// which has a fingerprint of each credential, and of clients that bring the same. That a ledger answers the same is no part of it: what it
/// decides is the same ([`no_credential_decides`]), but its disk may fail on the one side alone.
pub fn no_kept_credential_shows<S: LogSink, T: Talk, D: Door<T>, K: Keeping, E: Disk>()
    ensures call { CallBeside S.written S.failures S.tries S.tried T.remaining T.written T.calls D.log K.does K.rows K.keeps K.path K.reads K.gives E.is_known E.state }
    ensures run { RunBeside S.written S.failures S.tries S.tried T.remaining T.written T.calls D.log K.does K.rows K.keeps K.path K.reads K.gives E.is_known E.state }
{}

/// The law that in a turn of the loop the log's reader is tried 16 times at most, whether the loop calls a house, an
/// [`EarlyDay`](agent_turns::EarlyDay) before it, or one with a lookout between them ([`Behind`](agent_behind::Behind)).
pub fn a_turn_tries_the_reader_little<
    S: LogSink,
    T: Talk,
    D: Door<T>,
    K: Keeping,
    E: Disk,
    M: Lanes,
>()
    ensures house { TriesLaw S.written S.failures S.tries S.tried T.remaining T.written T.calls D.log K.does K.rows K.keeps K.path K.reads K.gives E.is_known E.state }
    ensures day { DayTriesLaw S.written S.failures S.tries S.tried T.remaining T.written T.calls D.log K.does K.rows K.keeps K.path K.reads K.gives E.is_known E.state }
    ensures behind { BehindTriesLaw S.written S.failures S.tries S.tried T.remaining T.written T.calls D.log K.does K.rows K.keeps K.path K.reads K.gives E.is_known E.state M.due_by }
{}

/// The law that a turn of the loop spares disks. What keeps the changes is asked to look at files of credentials once at most, to make no
/// more changes than the turn took, and once at most to try again to keep them; and the file of the ends is left alone, or was due, which it
/// is once a second at most, and is tried once.
pub fn a_turn_spares_disks<S: LogSink, T: Talk, D: Door<T>, K: Keeping, E: Disk, M: Lanes>()
    ensures asks { AsksLittleLaw S.written S.failures S.tries S.tried T.remaining T.written T.calls D.log K.does K.rows K.keeps K.path K.reads K.gives E.is_known E.state M.due_by }
    ensures ends { EndsLaw S.written S.failures S.tries S.tried T.remaining T.written T.calls D.log K.does K.rows K.keeps K.path K.reads K.gives E.is_known E.state M.due_by }
{}

/// The law that a look at files of credentials looks at 64 stamps and reads one file at most, and that no call but one that makes a change
/// calls the disk of a [`Ledger`](agent_ledger::Ledger).
pub fn a_look_spares_disks<D: Disk, I: Inputs + SecretFiles, L: Lanes>()
    ensures { LedgerLaw D.is_known D.state I.calls ⟦<L as SeenLanes>⟧.seen L.host_port }
{}

/// The law that in a turn in which no change is taken 64 stamps of files are looked at and one file is read at most, and the disk of a
/// [`Ledger`](agent_ledger::Ledger) is left alone, once that is there ([`Late`](agent_ledger::Late)).
pub fn a_turn_without_a_change_spares_disks<
    S: LogSink,
    T: Talk,
    O: Door<T>,
    D: Disk,
    I: Inputs + SecretFiles,
    L: Lanes,
    F,
    E: Disk,
    M: Lanes,
>()
    ensures { SparesLaw F S.written S.failures S.tries S.tried T.remaining T.written T.calls O.log D.is_known D.state I.calls ⟦<L as SeenLanes>⟧.seen L.host_port E.is_known E.state M.due_by }
{}

/// The law that in every run of turns whoever is told `ok` has asked for something before, and it is done; or it has asked for a page, which
/// is shown, or to follow the log, which it does from then on. The record of a change is among those of the journal then, and on the disk:
/// whatever a crash leaves has it. After `settle` FILE has all that is kept and is on the disk, as its copy is, and the journal has no record;
/// or FILE is seen with what was read of it last, which by its fingerprint had all that. After `reload` the text that FILE is seen with is
/// served, with every change of the journal. Where nothing keeps changes, or does not yet ([`Late`](agent_ledger::Late)), nothing is done but
/// for a need.
///
/// This is so at each call of the loop: by what is heard, and as it is asked for how long it may rest, a house tells nobody so; while it goes
/// on, it shows pages alone; and where a change is asked for, it tells nobody so but who follows the log from then on.
pub fn whoever_is_told_ok_has_it<
    S: LogSink,
    T: Talk,
    O: Door<T>,
    D: Disk,
    I: Inputs + SecretFiles,
    L: Lanes,
    F,
    E: Disk,
    M: Lanes,
>()
    ensures { AcknowledgedLaw F S.written S.failures S.tries S.tried T.remaining T.written T.calls O.log D.is_known D.state I.calls ⟦<L as SeenLanes>⟧.seen L.host_port E.is_known E.state M.due_by }
{}
