ghost use Rattle.plan_commands.specs.EndsText.{OneEndsText};
ghost use Rattle.plan_commands.specs.Laws.{OneCheckText, OnePlanText, OwnCertificateLaw, OwnTextLaw};
ghost use Rattle.plan_commands.specs.MarginText.{OneMarginText};
ghost use Rattle.plan_commands.specs.PlanDates.{OnePlanInDates};
ghost use Rattle.plan_commands.specs.ReachLaws.{BoundLaw, ShortLaw, UntilLaw, WhateverIsNeeded};
ghost use Rattle.plan_commands.specs.ReachText.{OneReachText};
ghost use Rattle.plan_commands.specs.Secrecy.{CheckSecrecy, EndsSecrecy, MarginSecrecy, PlanDatesSecrecy, PlanSecrecy, ReachSecrecy};

/// The law that own certificates are accepted. What `print` writes of a decision as `plan` gave it, with the start it was
/// planned from, is read back over the same forest, and `plan_check::check` can answer nothing but Yes. And what the command
/// `plan` writes of the bytes of an inventory, of exit 0 or 3, is a certificate of which the command `check` with the same
/// bytes can say nothing but `yes`; it has at most [`MOST_CERTIFICATE`](plan_certificate::MOST_CERTIFICATE) bytes, so that a file of it
/// does not pass the limit.
pub fn own_certificates_are_accepted()
    ensures printed { OwnCertificateLaw }
    ensures written { OwnTextLaw }
{}

/// The law that what is written tells nothing but names, numbers and moments: of two inventories with one forest, as those
/// that differ in the tokens' values and the lease ids alone, `ends`, `plan`, in dates too, `margin`, `reach` and `check` each
/// write one text with one exit.
/// So `check` says `yes` exactly where the text is a certificate that gets Yes: for no text is there a right `yes` and a
/// right other line.
pub fn no_secret_shows()
    ensures ends { OneEndsText }
    ensures plan { OnePlanText }
    ensures plan_dates { OnePlanInDates }
    ensures margin { OneMarginText }
    ensures reach { OneReachText }
    ensures check { OneCheckText }
{}

/// The law of secrecy over bytes. Of two good inventories whose documents differ in the keys `secret` and `lease_id` and
/// their values alone, and with the same other arguments, each run writes a front of one text on `out`; and where no device
/// and no lack of memory cuts them short, the runs have one exit, write that text, and report by one fault line, or none.
pub fn secrets_change_no_run()
    ensures ends { EndsSecrecy }
    ensures plan { PlanSecrecy }
    ensures plan_dates { PlanDatesSecrecy }
    ensures margin { MarginSecrecy }
    ensures reach { ReachSecrecy }
    ensures check { CheckSecrecy }
{}

/// The law of whom `reach` names: BY is over the entry, its reach is UNTIL, which is the least reach over the entry, and no
/// entry nearer the root has that reach.
pub fn bound_law()
    ensures { BoundLaw }
{}

/// The law of what `reach` shows: an entry that alone is needed is kept by some plan until the moment that the line names,
/// and by none a second longer; and no need changes that moment, so it is the same where others are needed too.
pub fn until_law()
    ensures until { UntilLaw }
    ensures whatever { WhateverIsNeeded }
{}

/// The law of `SHORT`: `keeps no` is written exactly where some line has it, if there are dates.
pub fn short_law()
    ensures { ShortLaw }
{}
