ghost use Rattle.watch_laws.specs.Needs.{CalledLaw, NeededLaw, NoneAddedLaw, NoneDroppedLaw, WantedLaw};

/// The law of needs: an entry that may be led on and is over one (itself too) whose need is ahead by the broker's clock or by the
/// wall's, and after its own end, is wanted, if nothing over that one is fixed before the need. It would hold of no machine that is as
/// this one but drops a need that is ahead, or shortens it. And only such an entry is wanted: that would hold of no machine that is as
/// this one but takes a need that is past as ahead, or lengthens one.
pub fn needed_law()
    ensures needed { NeededLaw }
    ensures none_dropped { NoneDroppedLaw }
    ensures only_needed { WantedLaw }
    ensures none_added { NoneAddedLaw }
{}

/// The law of who is looked up: a beginning takes an entry as needed just where it is over one (itself too) whose need is ahead by the
/// broker's clock or by the wall's, with nothing over that fixed before; or any need, as long as no reply has told the broker's clock.
pub fn called_law()
    ensures { CalledLaw }
{}
