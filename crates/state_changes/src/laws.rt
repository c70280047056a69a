ghost use Rattle.state_changes.specs.Laws.{CompactedLaw, RecordLineLaw, RecordReadIsWritten, RecordWrittenIsRead, SettledLaw, UnsettledLaw};

/// The laws that join writing and reading: the text of a record that a command may have made is read as that record, no
/// other text is read as it, and it is one line.
pub fn records_are_read_back()
    ensures found { RecordWrittenIsRead }
    ensures only { RecordReadIsWritten }
    ensures line { RecordLineLaw }
{}

/// The laws of settling. Once a file with the fingerprint of the last record is in its place, a replay gives what that
/// file says, and no note; as long as another file is there, the record changes nothing.
pub fn settling_changes_nothing()
    ensures settled { SettledLaw }
    ensures unsettled { UnsettledLaw }
{}

/// The law that a journal without its void records gives the same inventory as the whole of it, whatever the file says.
pub fn compaction_changes_nothing()
    ensures { CompactedLaw }
{}
