//! Lanes as contracts see them, in one record.
ghost use Rattle.vault_asking.specs.Sending as sending;

use vault_lanes::Lanes;

/// What contracts see of lanes.
pub trait SeenLanes: Lanes {
    /// What is behind them, where it is known; the requests that are out; and their time-out.
    ghost seen: { Self → sending.Lanes };
}

impl<L: Lanes> SeenLanes for L {
    ghost seen = { λ lanes. sending.lanes_of (L.behind lanes) (L.out lanes) (L.seconds lanes) };
}
