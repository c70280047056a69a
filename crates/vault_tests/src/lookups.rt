//! What a lookup tells of an entry, applied to it or refused.
use base_moment::Moment;
use std::alloc::Global;
use std::test::Fail;
use vault_inventory::{Inventory, LookupFault, read};
use vault_json::Lookup;

const WEB: &str =
    "[[token]]\nname = \"web\"\nissued = 1000\nend = 1060\nincrement = 60\nmax_ttl = 9000\nneed = 1200\n";

/// The moment so many seconds after 1970-01-01T00:00:00Z.
pub(crate) fn moment(seconds: u64) -> Moment {
    Moment::new(seconds).unwrap_or(Moment::new(0).unwrap())
}

// A periodic token under an explicit max, with an increment beside its period.
const PAY: &str =
    "[[token]]\nname = \"pay\"\nissued = 900\nend = 1060\nperiod = 60\nincrement = 1\nexplicit_max_ttl = 200\n";

// A token and its child.
const CHILD: &str = "[[token]]\nname = \"base\"\nissued = 1000\nend = 1100\nincrement = 100\n\n\
    [[token]]\nname = \"child\"\nparent = \"base\"\nissued = 1000\nend = 1100\nincrement = 100\n";

// What a lookup says of an orphan that was issued at 900, under an explicit max of 200, with a minute left and this period.
fn lookup_of(period: u32) -> Lookup {
    Lookup::Token {
        ttl: 60,
        created: moment(900),
        explicit_max: 200,
        orphan: true,
        renewable: true,
        period,
    }
}

// The end, step, ceiling and issue of an entry.
type Shape = (u64, u32, Option<u64>, u64);

fn shape(inventory: &Inventory, index: u32) -> Shape {
    if index < inventory.forest().len() {
        let entry = inventory.forest().get(index);
        let terms = inventory.terms(index);
        (entry.end, entry.step, entry.ceiling, terms.issued.get())
    } else {
        (0, 0, None, 0)
    }
}

// Whether that is answered where the lookup is applied at 1000 to an entry, which then is so.
fn is_answered(
    inventory: &mut Inventory,
    index: u32,
    lookup: &Lookup,
    answer: Result<(), LookupFault>,
    then: Shape,
) -> bool {
    index < inventory.forest().len()
        && inventory.apply_lookup(index, lookup, moment(1000)) == answer
        && shape(inventory, index) == then
}

fn is_told(
    alloc: Global,
    text: &str,
    index: u32,
    period: u32,
    answer: Result<(), LookupFault>,
    then: Shape,
) -> Result<bool, Fail> {
    let mut inventory = read(alloc, text.as_bytes())?;
    Ok(is_answered(&mut inventory, index, &lookup_of(period), answer, then))
}

// Inventories, the index of the entry, its period as it is looked up, the answer, and what the entry is then.
type Row = (&'static str, u32, u32, Result<(), LookupFault>, Shape);

const NO_STEP: Result<(), LookupFault> = Err(LookupFault::NoStep);

const OTHER_TREE: Result<(), LookupFault> = Err(LookupFault::OtherTree);

const TOLD: [Row; 4] = [
    (WEB, 0, 60, Ok(()), (1060, 60, Some(1100), 900)),
    (WEB, 0, 1, NO_STEP, (1060, 60, Some(10000), 1000)),
    (PAY, 0, 0, NO_STEP, (1060, 60, Some(1100), 900)),
    (CHILD, 1, 60, OTHER_TREE, (1100, 100, Some(2765800), 1000)),
];

#[test]
fn lookups_are_applied_or_refused(rt: HostRuntime) -> Result<(), Fail> {
    for (text, index, period, answer, then) in &TOLD {
        let is_so = is_told(rt.alloc(), text, *index, *period, *answer, *then)?;
        assert!(rt; is_so, "{text}");
    }
    Ok(())
}
