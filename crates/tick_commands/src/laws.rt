ghost use Rattle.tick_commands.specs.Secrecy.{RehearseSecrecy};

/// The law of secrecy over bytes, for `rehearse`. Of two good inventories whose documents differ in the keys `secret` and
/// `lease_id` and their values alone, with the same start and FAULT words, each rehearsal writes a front of one text on `out`,
/// whatever the FAULT words make the broker do; and where no device and no lack of memory cuts them short, both have one exit,
/// write that text, and report by one fault line, or none.
pub fn secrets_change_no_rehearsal()
    ensures { RehearseSecrecy }
{}
