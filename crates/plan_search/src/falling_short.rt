ghost use Rattle.std.specs.Prelude.{◌≡◌, ◌<◌, length, MatchOption};
ghost use Rattle.plan_forest.specs.Forest.{end_of};
ghost use Rattle.plan_rule.specs.Reach.{reach};
ghost use Rattle.plan_needs.specs.Carried.{IsCarried, load_at};
ghost use Rattle.plan_rule.specs.Unkeepable.{AllKeepable};
ghost use Rattle.plan_search.specs.Decides.{NoneKeeps, SomeKeeps};
ghost use Rattle.plan_search.specs.Shortfall.{IsShortfall};
ghost use Rattle.plan_search.specs.code.FallingShort.{falls_short};

use crate::pair::Shortfall;
use base_moment::Moment;
use plan_forest::Forest;
use plan_needs::Carried;
use plan_rule::reach;

/// The lowest entry that no renewal from `start` on leads to a need that it carries, with the entry that has its carried
/// need; `None` exactly where there is none. Where there is such a pair no plan keeps, and where there is none some plan
/// does. `carried` is what the entries of this forest carry from this start on.
///
/// Source: Vault, "Lease, renew, and revoke" (maximum TTL); Vault, "Tokens" (a token's end ends its children and leases).
pub fn shortfall(forest: &Forest, carried: &Carried, start: Moment) -> Option<Shortfall>
    requires { IsCarried forest.now start carried.now }
    ensures pair { MatchOption result (AllKeepable forest.now start (end_of forest.now.entries)) (λ pair. IsShortfall forest.now start pair.entry pair.needed) }
    ensures keeps { MatchOption result (SomeKeeps forest.now start) (λ _. NoneKeeps forest.now start) }
{
    for entry in 0..forest.len() {
        if falls_short(forest, carried, start, entry) {
            let needed = carried.from(entry)?;
            return Some(Shortfall { entry, needed });
        }
    }
    None
}

/// Whether the entry's reach, `None` for no limit, is less than the need that it carries.
fn falls_short(forest: &Forest, carried: &Carried, start: Moment, entry: u32) -> bool
    requires within { entry < length forest.now.entries }
    requires carried { length carried.now ≡ length forest.now.entries }
    ensures { result ≡ falls_short (reach forest.now.entries forest.now.margin start (end_of forest.now.entries) entry) (load_at carried.now entry).need }
{
    let need = carried.need(entry);
    match reach(forest, entry, start) {
        None => false,
        Some(most) => most < need,
    }
}
