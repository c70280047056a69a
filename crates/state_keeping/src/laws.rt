ghost use Rattle.state_keeping.specs.Lives.{OverStarts};

use base_disk::Disk;
use base_journal::records_are_read_back;

/// The law that what was acknowledged is served. Once a change was acknowledged, any number of changes, compactions, reloads, settlings,
/// kills and losses of power may follow, at any moment and in any order, also while a settling or a start is under way: FILE and the rows
/// that are served then are what was done since has made of the first ones, in its order; and so are those that a start reads of whatever
/// a loss of power may leave. A change that was not acknowledged, refused or cut off, has been made or has not, and so has a settling that
/// failed or was cut off. A change that was acknowledged is made beside the very FILE that it was given beside.
///
/// It presupposes that no other program changes FILE, and that no FILE that a loss of power may bring back has the fingerprint of another
/// text to which FILE is settled.
pub fn what_was_acknowledged_is_served<D: Disk>()
    ensures { OverStarts D.state }
{
    // What a crash leaves of the journal means one thing.
    records_are_read_back();
}
