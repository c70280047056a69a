ghost use Rattle.state_file.specs.Laws.{OneFileText, SettledRowsLaw};

/// The law that settling changes nothing: a journal over the file that was settled gives the rows that were settled, tokens before
/// leases, whether the journal has been emptied yet or not. Before that file is in its place, the mark at the journal's end changes
/// nothing ([`settling_changes_nothing`](state_changes::settling_changes_nothing)).
pub fn settled_rows_stay()
    ensures { SettledRowsLaw }
{}

/// The law that a file has one text: in words or in seconds, the same rows with the same margin and maximum TTL are written alike.
pub fn rows_have_one_text()
    ensures { OneFileText }
{}
