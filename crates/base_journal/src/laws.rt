ghost use Rattle.base_journal.specs.Laws.{OneReading, ReadBack};
ghost use Rattle.base_journal.specs.Lives.{OverStarts};

use base_disk::Disk;

/// The laws of a journal's file: it stands for one list of records and no other, so what a crash leaves means one thing; and
/// lines that are written, at rest, are read back.
pub fn records_are_read_back()
    ensures one { OneReading }
    ensures back { ReadBack }
{}

/// The law that every call that was acknowledged holds, in the order of these, after any number of calls of [`Journal`](crate::Journal),
/// of kills and of losses of power, at any moment and in any order, whichever processes have made the calls: the records that the
/// process at the end holds are what these calls have made of those that were there at first, and so are the records of each file that
/// a loss of power may leave. A call that was not acknowledged, refused or cut off, has been made or has not.
pub fn what_was_acknowledged_holds<D: Disk>()
    ensures { OverStarts D.state }
{}
