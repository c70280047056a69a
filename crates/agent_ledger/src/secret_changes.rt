//! What a file of a credential gives is taken into a state, and what came of it is kept and told.
ghost use Rattle.std.specs.Prelude.{◌≡◌, IfOk, OnErr};
ghost use Rattle.state_changes.specs.Rows.{named};
ghost use Rattle.state_keeping.specs.States.{book_in};
ghost use Rattle.state_secrets.specs.Outcomes.{is_own_file};
ghost use Rattle.agent_ledger.specs.Takings.{IsWhyNotTaken, TakesCredential, TakesHeld, TakesUpFile, brings_others, is_anothers, may_be_anothers, quiet, wanting};
ghost use Rattle.agent_ledger.specs.Untouched.{IsAsItWas};
ghost use Rattle.agent_ledger.specs.code.Holders.{is_for, is_for_another, is_other, is_others_by_file, is_others_own};

use base_disk::Disk;
use base_moment::Text;
use state_changes::{Row, Rows, Secret};
use state_file::SettleFault;
use state_keeping::State;
use state_secrets::{
    Became, DueFile, Looked, Looking, SecretTrouble, has_it, is_held, news_about, news_of,
    secrets_with, seen_after, seen_of,
};
use std::alloc::{AllocError, Global};

/// So many entries always fit into one inventory: what is written of one with its credential takes less than 1,024 bytes.
pub const ALWAYS_FIT: usize = 1024;

pub(crate) fn quiet(goes_on: bool) -> Looked
    ensures { result ≡ quiet goes_on }
{
    Looked {
        news: None,
        goes_on,
        is_enough: true,
    }
}

pub(crate) fn wanting() -> Looked
    ensures { result ≡ wanting }
{
    Looked {
        news: None,
        goes_on: false,
        is_enough: false,
    }
}

/// Takes what a file gives, and keeps what came of it. `now` is in milliseconds of the clock that never steps. Where memory is wanting for
/// that, all is as it was.
pub(crate) fn take_up<D: Disk>(
    alloc: Global,
    state: &mut State<'_, D>,
    looking: &mut Looking,
    now: u64,
    due: DueFile,
    held: Result<Text, SecretTrouble>,
) -> Looked
    ensures { TakesUpFile now due held looking.old state.old result looking.new state.new }
{
    let before = seen_of(&looking.marks, due.name.list(), due.file.list());
    let was_held = is_held(state.secrets(), due.name.list(), due.file.list());
    let Ok(name) = due.name.clone() else {
        return wanting();
    };
    let Ok(became) = take_held(alloc, state, now, &due, held) else {
        return wanting();
    };
    let what = news_of(before, was_held, became);
    let seen = seen_after(before, due.stamp, now, became);
    looking.note(due, seen);
    Looked {
        news: news_about(name, what),
        goes_on: true,
        is_enough: true,
    }
}

// Takes what a file gives. The only error is out of memory: nothing was taken.
fn take_held<D: Disk>(
    alloc: Global,
    state: &mut State<'_, D>,
    now: u64,
    due: &DueFile,
    held: Result<Text, SecretTrouble>,
) -> Result<Became, AllocError>
    ensures taken { IfOk result (λ became. TakesHeld now due.now held state.old became state.new) }
    ensures untouched { OnErr result (IsAsItWas state.old state.new) }
    ensures disk { state.new.disk ≡ state.old.disk }
{
    match held {
        Ok(credential) => take_credential(alloc, state, now, due, credential),
        Err(trouble) => Ok(Became::Troubled(trouble)),
    }
}

// The credential is the entry's from now on, where it is another than it was. The only error is out of memory: all is as it was.
fn take_credential<D: Disk>(
    alloc: Global,
    state: &mut State<'_, D>,
    now: u64,
    due: &DueFile,
    credential: Text,
) -> Result<Became, AllocError>
    ensures taken { IfOk result (λ became. TakesCredential now due.now credential state.old became state.new) }
    ensures untouched { OnErr result (IsAsItWas state.old state.new) }
    ensures disk { state.new.disk ≡ state.old.disk }
{
    if has_it(
        state.secrets(),
        due.name.list(),
        due.file.list(),
        credential.list(),
    ) {
        return Ok(Became::Same);
    }
    let secret = Secret {
        name: due.name.clone()?,
        file: due.file.clone()?,
        credential: credential.clone()?,
    };
    let secrets = secrets_with(alloc, state.rows(), state.secrets(), secret)?;
    match state.take_secrets(now, secrets) {
        Ok(()) => Ok(Became::Taken),
        Err(fault) => Ok(Became::Troubled(why_untaken(state, due, &credential, fault)?)),
    }
}

// Why a credential is not taken. The only error is out of memory, as which counts what else would keep it from being handed on: each
// entry by itself can be written, and as many as there may be.
fn why_untaken<D: Disk>(
    state: &State<'_, D>,
    due: &DueFile,
    credential: &Text,
    fault: SettleFault,
) -> Result<SecretTrouble, AllocError>
    ensures { IfOk result (IsWhyNotTaken (book_in state.now) due.now credential.now) }
{
    match fault {
        SettleFault::TooLong if state.rows().list().len() > ALWAYS_FIT => {
            Ok(SecretTrouble::TooLong)
        }
        SettleFault::Refused(_) | SettleFault::Differs
            if may_be_anothers(state.secrets(), state.rows(), due, credential.list()) => {
            Ok(SecretTrouble::Another)
        }
        _ => Err(AllocError),
    }
}

// Whether what is to be handed on may have a credential twice, once the entry has this one.
fn may_be_anothers(secrets: &[Secret], rows: &Rows, due: &DueFile, credential: &[u8]) -> bool
    ensures { result ≡ may_be_anothers secrets.now rows.now due.now credential.now (named rows.now due.now.name) }
{
    match rows.named(due.name.list()) {
        None => false,
        Some(own) => {
            is_anothers(secrets, rows.list(), credential, own) || brings_others(secrets, rows, due)
        }
    }
}

// Whether another entry of the kind has it. (It goes over the rows once, and once more for each secret that is this credential: a look-up
// among the secrets for each row would take 16 million steps in a turn with 4,096 of both.)
fn is_anothers(secrets: &[Secret], rows: &[Row], credential: &[u8], own: &Row) -> bool
    ensures { result ≡ is_anothers secrets.now rows.now credential.now own.now }
{
    is_others_own(rows, credential, own) || is_others_by_file(secrets, rows, credential, own)
}

// Whether another entry of the kind has it as its own.
fn is_others_own(rows: &[Row], credential: &[u8], own: &Row) -> bool
    ensures { result ≡ is_others_own rows.now credential.now own.now }
{
    rows.iter().any(|row| {
        is_other(own, row) && row.file.is_none() && row.credential.list() == credential
    })
}

// Whether it is what is held of the file of another entry of the kind.
fn is_others_by_file(secrets: &[Secret], rows: &[Row], credential: &[u8], own: &Row) -> bool
    ensures { result ≡ is_others_by_file secrets.now rows.now credential.now own.now }
{
    secrets.iter().any(|secret| {
        secret.credential.list() == credential
            && has_it(secrets, secret.name.list(), secret.file.list(), credential)
            && is_for_another(rows, own, secret)
    })
}

// Whether another entry of the kind names the file that this was taken from for it.
fn is_for_another(rows: &[Row], own: &Row, secret: &Secret) -> bool
    ensures { result ≡ is_for_another rows.now own.now secret.now }
{
    rows.iter()
        .any(|row| is_other(own, row) && is_for(secret, row))
}

// Whether it was taken for this entry from the file that the entry names.
fn is_for(secret: &Secret, row: &Row) -> bool
    ensures { result ≡ is_for secret.now row.now }
{
    row.name.list() == secret.name.list() && is_own_file(row, secret.file.list())
}

// Whether the entry's credential stands in that file.
fn is_own_file(row: &Row, file: &[u8]) -> bool
    ensures { result ≡ is_own_file row.now.file file.now }
{
    match &row.file {
        None => false,
        Some(own) => own.list() == file,
    }
}

// Whether it is another entry of the kind.
fn is_other(own: &Row, row: &Row) -> bool
    ensures { result ≡ is_other own.now row.now }
{
    row.name.list() != own.name.list() && row.kind.is_lease() == own.kind.is_lease()
}

// Whether entries under it come to be handed on with it.
fn brings_others(secrets: &[Secret], rows: &Rows, due: &DueFile) -> bool
    ensures { result ≡ brings_others secrets.now rows.now due.now }
{
    !is_held(secrets, due.name.list(), due.file.list()) && rows.has_under(due.name.list())
}
