//! The ends that `serve` takes over, and the file that keeps them.
ghost use Rattle.std.specs.Prelude.{◌≡◌, IfOk, IsTrue, OnOk, string_bytes};
ghost use Rattle.base_words.specs.Texts.{stripped};
ghost use Rattle.base_disk.specs.State.{LeavesAlone};
ghost use Rattle.agent_system.specs.TakingOver.{AsksForLock, FindsBoot, HandsIn, IsBootId, IsFileTaken, IsNothing, SaysHeld, TakesOver, boot_path, lock_of_ends};

use agent_ends::{EndsFile, known_events, load_ends};
use agent_log::Desk;
use base_clock::Reading;
use base_disk::{Disk, DiskFault, DiskTrouble};
use base_log::Level;
use base_moment::Text;
use std::alloc::{AllocError, Global};
use vault_inventory::Inventory;
use watch_machine::WatchEvent;

/// More than such an id has.
const MOST_ID: usize = 256;

/// What a start takes over of the ends that were kept.
#[derive(Drop)]
pub struct TakenOver<E> {
    /// The file that keeps them from now on, if there is one.
    pub file: Option<EndsFile<E>>,
    /// The events that hand in those that it kept.
    pub known: Vec<WatchEvent>,
}

impl<E> TakenOver<E> {
    /// Nothing.
    fn nothing(alloc: Global) -> TakenOver<E>
        ensures { IsNothing result }
    {
        TakenOver {
            file: None,
            known: Vec::new(alloc),
        }
    }
}

/// The file of the ends on this disk, where it has a path, and what hands in the ends that it keeps to an agent of this inventory. This
/// agent holds it from then on; `None` where another agent holds it or there is no id of this boot, which the desk is told. The only
/// error is lack of memory.
#[tactic(auto, using(crate::proofs::Taking::takes_none, crate::proofs::Taking::takes_some))]
pub fn take_over<E: Disk + Drop>(
    alloc: Global,
    disk: E,
    path: Option<String>,
    inventory: &Inventory,
    now: Reading,
    desk: &mut Desk,
) -> Result<TakenOver<E>, AllocError>
    ensures { IfOk result (λ t. TakesOver E.is_known E.state now inventory.now path disk t desk.old desk.new) }
{
    let Some(path) = path else {
        return Ok(TakenOver::nothing(alloc));
    };
    let mut disk = disk;
    let Some(boot) = own_boot(alloc, &mut disk, &path, now, desk)? else {
        return Ok(TakenOver::nothing(alloc));
    };
    take_file(alloc, EndsFile::new(path, boot, disk), inventory, now, desk)
}

/// What is taken over of a file that this agent holds.
#[tactic(auto, using(crate::proofs::Taking::file_taken))]
fn take_file<E: Disk + Drop>(
    alloc: Global,
    file: EndsFile<E>,
    inventory: &Inventory,
    now: Reading,
    desk: &mut Desk,
) -> Result<TakenOver<E>, AllocError>
    ensures { IfOk result (λ t. IsFileTaken E.is_known E.state now inventory.now file t desk.old desk.new) }
{
    let mut file = file;
    let known = events_in(alloc, &mut file, inventory, now, desk)?;
    Ok(TakenOver {
        file: Some(file),
        known,
    })
}

/// The id of this boot, where there is one and no other agent holds the file of the ends at a path. Otherwise the desk is told. The only
/// error is lack of memory.
#[tactic(auto, using(crate::proofs::Taking::own_so, crate::proofs::Taking::own_anothers, crate::proofs::Taking::own_unread))]
fn own_boot<E: Disk>(
    alloc: Global,
    disk: &mut E,
    path: &str,
    now: Reading,
    desk: &mut Desk,
) -> Result<Option<Text>, AllocError>
    ensures found { IfOk result (λ boot. FindsBoot E.is_known E.state now path.now disk.old boot disk.new desk.old desk.new) }
{
    match boot_id(alloc, disk) {
        Ok(boot) => {
            if !is_held(alloc, disk, path, now, desk)? {
                return Ok(None);
            }
            Ok(Some(boot))
        }
        Err(DiskFault::OutOfMemory) => Err(AllocError),
        Err(fault) => {
            desk.hear_unread(alloc, now, fault);
            Ok(None)
        }
    }
}

/// Whether no other agent holds the file of the ends at a path; then this one does, until it ends. Otherwise the desk is told. Where the
/// lock cannot be had for another reason, that shows once the file is written. The only error is lack of memory.
#[tactic(auto, using(crate::proofs::Taking::held_by))]
fn is_held<E: Disk>(
    alloc: Global,
    disk: &mut E,
    path: &str,
    now: Reading,
    desk: &mut Desk,
) -> Result<bool, AllocError>
    ensures asked { IfOk result (λ is_own. AsksForLock E.is_known E.state now path.now is_own disk.old desk.old desk.new) }
    ensures alone { IsTrue E.is_known → LeavesAlone (E.state disk.old) (E.state disk.new) }
{
    let lock = lock_of(alloc, path)?;
    match disk.lock(&lock) {
        Ok(Some(_)) => Ok(true),
        Ok(None) => {
            tell_held(alloc, path, now, desk)?;
            Ok(false)
        }
        Err(DiskFault::OutOfMemory) => Err(AllocError),
        Err(_) => Ok(true),
    }
}

/// The file beside that of the ends whose lock its agent holds.
fn lock_of(alloc: Global, path: &str) -> Result<String, AllocError>
    ensures { IfOk result (λ lock. string_bytes lock ≡ lock_of_ends path.now) }
{
    let mut lock = String::from_str(alloc, path)?;
    lock.push_str(".lock")?;
    Ok(lock)
}

/// Tells the desk that another agent holds the file at a path. The only error is lack of memory.
fn tell_held(alloc: Global, path: &str, now: Reading, desk: &mut Desk) -> Result<(), AllocError>
    ensures { OnOk result (SaysHeld now path.now desk.old desk.new) }
{
    let mut text = Vec::from_slice(alloc, path.as_bytes())?;
    text.extend_from_slice(b" is another agent's: give each a folder of its own")?;
    desk.hear_at_start(alloc, now, Level::Alert, "ends", &text);
    Ok(())
}

/// The id of this boot.
#[tactic(auto, using(crate::proofs::Taking::boot_is))]
fn boot_id<E: Disk>(alloc: Global, disk: &mut E) -> Result<Text, DiskFault>
    ensures found { IfOk result (IsBootId E.is_known (E.state disk.old)) }
    ensures alone { IsTrue E.is_known → LeavesAlone (E.state disk.old) (E.state disk.new) }
{
    let Some(text) = disk.read(alloc, boot_path(), MOST_ID)? else {
        return Err(DiskFault::Failed(DiskTrouble::Missing));
    };
    Ok(Text::of(alloc, stripped(text.list()))?)
}

/// Where the kernel says it.
fn boot_path() -> &'static str
    ensures { result.now ≡ boot_path }
{
    "/proc/sys/kernel/random/boot_id"
}

fn stripped(text: &[u8]) -> &[u8]
    ensures { result.now ≡ stripped text.now }
{
    text.trim_ascii()
}

/// The events that hand the ends of this boot that a file keeps to an agent of this inventory. Where they cannot be read the desk is
/// told, and there are none. The only error is lack of memory.
#[tactic(auto, using(crate::proofs::Taking::hands_in, crate::proofs::Taking::hands_none))]
fn events_in<E: Disk>(
    alloc: Global,
    file: &mut EndsFile<E>,
    inventory: &Inventory,
    now: Reading,
    desk: &mut Desk,
) -> Result<Vec<WatchEvent>, AllocError>
    ensures known { IfOk result (λ known. HandsIn E.is_known (E.state file.old.disk) now inventory.now (string_bytes file.old.path) file.old.boot known.items desk.old desk.new) }
    ensures alone { IsTrue E.is_known → LeavesAlone (E.state file.old.disk) (E.state file.new.disk) }
    ensures rest { file.new ≡ record file.old { disk = file.new.disk } }
{
    match load_ends(alloc, &mut file.disk, file.path.as_str(), file.boot.list()) {
        Ok(ends) => known_events(alloc, inventory, &ends),
        Err(DiskFault::OutOfMemory) => Err(AllocError),
        Err(fault) => {
            desk.hear_unread(alloc, now, fault);
            Ok(Vec::new(alloc))
        }
    }
}
