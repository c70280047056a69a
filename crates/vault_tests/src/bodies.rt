//! JSON bodies: what replies are read as. (How deep one may be nested is tried in `tests/hostile-replies`.)
use base_moment::Moment;
use std::alloc::Global;
use std::test::Fail;
use vault_json::*;

const RENEWED: &str = "{\"auth\":{\"lease_duration\":60,\"renewable\":true}}";

// What a reply to a token's renewal is read as.
type Answer = Result<Renewed, ReplyFault>;

const RENEWABLE: Answer = Ok(Renewed {
    seconds: 60,
    renewable: true,
});

const FOR_60: Answer = Ok(Renewed {
    seconds: 60,
    renewable: false,
});

const BAD_DURATION: Answer = Err(ReplyFault::BadField(Field::LeaseDuration));

const NOT_JSON: Answer = Err(ReplyFault::NotJson);

// Bodies of replies.
const REPLIES: [(&str, Answer); 16] = [
    (RENEWED, RENEWABLE),
    ("{\"auth\":null}", Err(ReplyFault::Missing(Field::Auth))),
    ("{\"auth\":[]}", Err(ReplyFault::BadField(Field::Auth))),
    ("{\"auth\":{\"lease_duration\":\"0060s\"}}", FOR_60),
    (
        "{\"auth\":{\"lease_duration\":60,\"renewable\":null}}",
        FOR_60,
    ),
    ("{\"auth\":{\"lease_duration\":4294967296}}", BAD_DURATION),
    ("{\"auth\":{\"lease_duration\":-1}}", BAD_DURATION),
    ("{\"auth\":{\"lease_duration\":60.0}}", BAD_DURATION),
    ("{\"auth\":{\"lease_duration\":\"1m\"}}", BAD_DURATION),
    // wrapped before any field, and the first field at fault
    ("{\"wrap_info\":false}", Err(ReplyFault::Wrapped)),
    (
        "{\"auth\":{\"lease_duration\":60},\"wrap_info\":null}",
        FOR_60,
    ),
    (
        "{\"auth\":{\"renewable\":1}}",
        Err(ReplyFault::Missing(Field::LeaseDuration)),
    ),
    (
        "{\"auth\":{\"lease_duration\":1,\"renewable\":1}}",
        Err(ReplyFault::BadField(Field::Renewable)),
    ),
    // the last of repeated keys, and no JSON
    (
        "{\"auth\":{\"lease_duration\":1,\"lease_duration\":60}}",
        FOR_60,
    ),
    ("[]", NOT_JSON),
    (
        "{\"auth\":{\"lease_duration\":60},\"x\":\"\\ud800\"}",
        NOT_JSON,
    ),
];

fn is_read(alloc: Global, body: &[u8], answer: Answer) -> bool {
    read_renew_self(alloc, body) == answer
}

#[test]
fn replies_to_a_token_s_renewal(rt: HostRuntime) -> Result<(), Fail> {
    for (body, answer) in &REPLIES {
        assert!(rt; is_read(rt.alloc(), body.as_bytes(), *answer), "of {body}");
    }
    Ok(())
}

// Lookups of a token: the moment of creation, explicit max and period that they name, with a minute left and no more.
const LOOKED_UP: [(&str, u64, u32, u32); 2] = [
    (
        "{\"data\":{\"ttl\":\"60s\",\"creation_time\":253402300799,\"explicit_max_ttl\":null,\"orphan\":null,\"period\":null}}",
        253402300799,
        0,
        0,
    ),
    (
        "{\"data\":{\"ttl\":60,\"creation_time\":900,\"explicit_max_ttl\":\"200\",\"orphan\":false,\"period\":\"30s\"},\"x\":[]}",
        900,
        200,
        30,
    ),
];

fn is_looked_up(
    alloc: Global,
    body: &str,
    created: u64,
    explicit_max: u32,
    period: u32,
) -> Result<bool, Fail> {
    let looked = Lookup::Token {
        ttl: 60,
        created: Moment::new(created).ok_or("a moment")?,
        explicit_max,
        orphan: false,
        renewable: false,
        period,
    };
    Ok(read_lookup_self(alloc, body.as_bytes())? == looked)
}

// What a lookup of a token is refused for.
const NO_LOOKUPS: [(&str, ReplyFault); 4] = [
    ("{}", ReplyFault::Missing(Field::Data)),
    (
        "{\"data\":{\"creation_time\":900}}",
        ReplyFault::Missing(Field::Ttl),
    ),
    (
        "{\"data\":{\"ttl\":60,\"creation_time\":253402300800}}",
        ReplyFault::BadField(Field::CreationTime),
    ),
    (
        "{\"data\":{\"ttl\":60,\"creation_time\":900,\"orphan\":0}}",
        ReplyFault::BadField(Field::Orphan),
    ),
];

fn is_no_lookup(alloc: Global, body: &str, fault: ReplyFault) -> bool {
    read_lookup_self(alloc, body.as_bytes()).err() == Some(fault)
}

#[test]
fn replies_to_a_token_s_lookup(rt: HostRuntime) -> Result<(), Fail> {
    for (body, created, explicit_max, period) in &LOOKED_UP {
        let is_so = is_looked_up(rt.alloc(), body, *created, *explicit_max, *period)?;
        assert!(rt; is_so, "of {body}");
    }
    for (body, fault) in &NO_LOOKUPS {
        assert!(rt; is_no_lookup(rt.alloc(), body, *fault), "of {body}");
    }
    Ok(())
}
