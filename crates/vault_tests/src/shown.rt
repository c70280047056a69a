//! Tokens and ids of leases are secret: nothing that holds one shows it, neither as a text nor as the numbers of its bytes.
use crate::devices::source;
use crate::lookups::moment;
use agent_control::read_request;
use base_moment::Text;
use broker_memory::MemoryExchange;
use broker_table::Table;
use http::Method;
use state_changes::{ChangeKind, Record, Rows, read_record};
use std::alloc::{AllocError, Global};
use std::fmt::Debug;
use std::test::Fail;
use vault_exchange::{Exchange, can_carry};
use vault_http::{Request, Room};
use vault_inventory::read;
use vault_json::{Lookup, RenewedLease, renew_body};

/// Whether what is shown of a value holds this text, and no front of the secret `db/creds`.
fn hides<T: Debug>(alloc: Global, value: &T, text: &str) -> Result<bool, AllocError> {
    let shown = format!(in alloc; "{value:?}")?;
    Ok(shown.contains(text) && !shown.contains("db/creds") && !shown.contains("100, 98, 47"))
}

fn renewal_hides(alloc: Global) -> Result<bool, AllocError> {
    let renewed = RenewedLease {
        lease_id: Text::of(alloc, b"db/creds/1")?,
        seconds: 61,
        renewable: true,
    };
    hides(alloc, &renewed, "61")
}

fn lookup_hides(alloc: Global) -> Result<bool, AllocError> {
    let looked = Lookup::Lease {
        id: Text::of(alloc, b"db/creds/1")?,
        issued: moment(0),
        renewable: true,
        ttl: 61,
    };
    hides(alloc, &looked, "61")
}

#[test]
fn bodies_show_no_secret(rt: HostRuntime) -> Result<(), Fail> {
    assert!(rt; renewal_hides(rt.alloc())?);
    assert!(rt; lookup_hides(rt.alloc())?);
    Ok(())
}

// The request that asks with the secret, and its reply.
const ASKED: &[u8] =
    b"POST / HTTP/1.1\r\nX-Vault-Token: db/creds\r\nContent-Length: 8\r\n\r\ndb/creds";

const TOLD: &[u8] = b"HTTP/1.1 200 OK\r\nContent-Length: 8\r\n\r\ndb/creds";

fn request_hides(alloc: Global, room: &mut Room) -> Result<bool, Fail> {
    let mut asked = source(alloc, ASKED, &[])?;
    let request = room.read_request(alloc, &mut asked, 1048576)?;
    Ok(hides(alloc, &request, "POST")?)
}

fn reply_hides(alloc: Global, room: &mut Room) -> Result<bool, Fail> {
    let mut told = source(alloc, TOLD, &[])?;
    let reply = room.read_reply(alloc, &mut told, 1048576)?;
    Ok(hides(alloc, &reply, "200")?)
}

// Messages, and a room that has held them.
fn messages_hide(alloc: Global) -> Result<bool, Fail> {
    let mut room = Room::new();
    if !request_hides(alloc, &mut room)? {
        return Ok(false);
    }
    if !reply_hides(alloc, &mut room)? {
        return Ok(false);
    }
    Ok(hides(alloc, &room, "true")?)
}

#[test]
fn messages_show_no_secret(rt: HostRuntime) -> Result<(), Fail> {
    assert!(rt; messages_hide(rt.alloc())?);
    Ok(())
}

/// A token with a secret.
const SECRET: &str =
    "[[token]]\nname = \"T\"\nissued = 1000\nend = 1100\nincrement = 100\nmax_ttl = 150\nsecret = \"db/creds\"\n";

fn inventory_hides(alloc: Global) -> Result<bool, Fail> {
    let inventory = read(alloc, SECRET.as_bytes())?;
    Ok(hides(alloc, &inventory, "1150")?)
}

/// The broker's table of it.
fn table(alloc: Global) -> Result<Table, Fail> {
    let inventory = read(alloc, SECRET.as_bytes())?;
    Ok(Table::load(alloc, &inventory)?)
}

fn table_hides(alloc: Global) -> Result<bool, Fail> {
    let table = table(alloc)?;
    Ok(hides(alloc, &table, "1150")?)
}

#[test]
fn inventories_and_tables_show_no_secret(rt: HostRuntime) -> Result<(), Fail> {
    assert!(rt; inventory_hides(rt.alloc())?);
    assert!(rt; table_hides(rt.alloc())?);
    Ok(())
}

/// The renewal of the token with that secret.
fn renewal(alloc: Global) -> Result<Request, Fail> {
    let path = Text::of(alloc, b"/v1/auth/token/renew-self")?;
    let token = Text::of(alloc, b"db/creds")?;
    let body = renew_body(alloc, 60)?;
    Ok(Request {
        method: Method::POST,
        path,
        token: Some(token),
        body,
        port: 8200,
    })
}

// Whether the exchange has carried it.
fn is_carried(alloc: Global, exchange: &mut MemoryExchange, request: &Request) -> bool {
    if !can_carry(request) {
        return false;
    }
    match exchange.exchange(alloc, moment(1059), request) {
        Ok(reply) => reply.status == 200,
        Err(_) => false,
    }
}

fn exchange_hides(alloc: Global) -> Result<bool, Fail> {
    let request = renewal(alloc)?;
    let mut exchange = MemoryExchange::new(alloc, table(alloc)?);
    if !is_carried(alloc, &mut exchange, &request) {
        return Ok(false);
    }
    Ok(hides(alloc, &exchange, "MemoryExchange")?)
}

#[test]
fn exchanges_show_no_secret(rt: HostRuntime) -> Result<(), Fail> {
    assert!(rt; exchange_hides(rt.alloc())?);
    Ok(())
}

fn command_hides(alloc: Global, line: &str, text: &str) -> Result<bool, Fail> {
    let request = read_request(alloc, line.as_bytes())?;
    Ok(hides(alloc, &request, text)?)
}

#[test]
fn commands_show_no_secret(rt: HostRuntime) -> Result<(), Fail> {
    let alloc = rt.alloc();
    assert!(rt; command_hides(alloc, "[\"replace\",\"web\",\"db/creds\"]", "Replace")?);
    assert!(rt; command_hides(alloc, "[\"add\",\"secret = \\\"db/creds\\\"\"]", "Add")?);
    Ok(())
}

// Lines of a journal.
const REPLACES: &[u8] = b"replace web absent db/creds";

const ADDS: &[u8] = b"add absent token web * told 1000 2000 renewable 900 0 2764800 0 0 db/creds";

// The numbers of the name `web`.
const WEB: &str = "119, 101, 98";

// Whether the record of a line shows the name, and hides its credential; false where the line writes none.
fn record_hides(alloc: Global, line: &[u8]) -> Result<bool, AllocError> {
    match read_record(alloc, line)? {
        Some(record) => hides(alloc, &record, WEB),
        None => Ok(false),
    }
}

// The rows with the entry that a record adds, where it adds one.
fn rows_with(alloc: Global, record: &Record) -> Result<Rows, AllocError> {
    let mut items = Vec::new(alloc);
    if let Record::Made(change) = record {
        if let ChangeKind::Add(row) = &change.what {
            items.push(row.copy()?)?;
        }
    }
    Rows::of(alloc, items)
}

// Whether rows with the entry that a line adds do the same.
fn rows_hide(alloc: Global, line: &[u8]) -> Result<bool, AllocError> {
    match read_record(alloc, line)? {
        Some(record) => hides(alloc, &rows_with(alloc, &record)?, WEB),
        None => Ok(false),
    }
}

#[test]
fn records_and_rows_show_no_secret(rt: HostRuntime) -> Result<(), Fail> {
    assert!(rt; record_hides(rt.alloc(), REPLACES)?);
    assert!(rt; record_hides(rt.alloc(), ADDS)?);
    assert!(rt; rows_hide(rt.alloc(), ADDS)?);
    Ok(())
}
