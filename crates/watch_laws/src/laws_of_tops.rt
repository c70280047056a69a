ghost use Rattle.watch_laws.specs.AtTop.{TopLaw};
ghost use Rattle.watch_laws.specs.Tops.{CeilingLaw, LastTryLaw, ToppedLaw};

/// The law of the top: of an entry that is called topped, the last grant counts from a second that is two later, or more, than that
/// of the grant before, and led no further than that, but for one second.
pub fn topped_law()
    ensures { ToppedLaw }
{}

/// The law of the ceiling: if each grant of an entry is the lesser of some seconds and of what is left to a ceiling, both fixed, then
/// where it is called topped its last grant led to the ceiling, or to no more seconds before it than the broker may read a request after
/// the one from which its grant counts.
pub fn ceiling_law()
    ensures { CeilingLaw }
{}

/// The law of grants at the top: a grant leaves its entry at the top just where it and the one before it, which count from seconds two
/// apart or more, are both less than the step, and it leads more than a second further neither than that one nor than the believed end.
pub fn top_law()
    ensures { TopLaw }
{}

/// The law of the last try: an entry that a grant left at its top, for the first time since one led it further, is asked once more if it has to
/// be led past its end, whatever is fixed: from half its own margin before that end on, the first clock that finds it neither out nor pressed
/// presses it. No clock presses an entry at its top but such a one, when it is wanted and its time has come: so none after one grant more,
/// until one leads it further or everything is looked up anew.
pub fn last_try_law()
    ensures { LastTryLaw }
{}
