ghost use Rattle.watch_laws.specs.Partial.{HungLaw, OnceInFrontLaw, PartialLaw};
ghost use Rattle.watch_laws.specs.Patience.{AloneLaw, PatienceLaw};

/// The law of partial outages: while the broker is there and a request of somebody had no answer while others were answered, an entry
/// whose own time has come, asked along before or not, goes out no later than the lanes have served what was out by then, for the time-out
/// at most, and those that stand before it or come to: each that never answers for the patience of its request, each other until its
/// answer. What is watched may change meanwhile: who stands before it after a change and did not has come to.
pub fn partial_law()
    ensures { PartialLaw }
{}

/// The law of one stand: while the broker is there, an entry that is wanted and of which nothing is told, since its requests are lost or
/// refused or find the broker busy, stands before another one once, at its first try. After that it is tried again only where nobody's
/// first try may go out. What is watched may change meanwhile: it stands there once more where a change brings it, turns the order of two
/// that end together, or puts off its time, which had come.
pub fn once_law()
    ensures { OnceInFrontLaw }
{}

/// The law of hung entries: however long nothing is told of some entries, since their requests are lost or refused or find the broker
/// busy, while the broker is there an entry whose own time has come goes out as soon as the lanes have served what was out by then, for
/// the time-out at most, each hung entry once, for its patience, and each other one that stands before it or comes to, for its answer.
/// What is watched may change meanwhile: a change lengthens the wait by whomever it puts before that entry, and by nothing else.
pub fn hung_law()
    ensures { HungLaw }
{}

/// The law of patience. The broker counts as silent in part just where somebody is alone: a request of an entry was lost though others
/// were answered, and its end is ahead or unknown. A request asks what the try of its entry asks, and may take a quarter of a second for
/// a first try while the broker is away; else, while somebody is alone, twice as long as answers take, but a second at least, doubled by
/// each failure after the first; else as long as its sender allows.
pub fn patience_law()
    ensures alone { AloneLaw }
    ensures patience { PatienceLaw }
{}
