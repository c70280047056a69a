ghost use Rattle.std.specs.Prelude.{◌≡◌, [], Some};
ghost use Rattle.base_device.specs.Seen.{outside_device};

use crate::texts::{Delivery, deliver, request_of_text, text_of_request};
use base_moment::Moment;
use broker_table::Table;
use std::alloc::Global;
use std::fmt;
use std::marker::Model;
use vault_exchange::{Exchange, ExchangeFault};
use vault_http::{Device, Reply, Request, Room};

/// An exchange with a broker's table in memory: each message is written as text and read of that text.
///
/// To contracts it is the table and the bytes that its last exchange has carried.
#[derive(Drop)]
pub struct MemoryExchange {
    table: Table,
    wire: Vec<u8>,
    room: Room,
}

impl Model for MemoryExchange {
    ghost use Rattle.vault_exchange.specs.Exchanges.{Behind};

    ghost Value = { Behind };

    ghost view = { λ e. record { table = e.table; wire = e.wire.items } };
}

impl fmt::Debug for MemoryExchange {
    /// Shows the table, and how many bytes the last exchange carried, but none of them: tokens and ids of leases stand in
    /// them, and they are secret.
    fn fmt<W: fmt::Write>(&self, f: &mut fmt::Formatter<W>) -> fmt::Result {
        f.debug_struct("MemoryExchange")
            .field("table", &self.table)
            .field("wire", &self.wire.len())
            .finish()
    }
}

impl MemoryExchange {
    /// The exchange with this table; nothing was carried yet. It takes no memory.
    pub fn new(alloc: Global, table: Table) -> MemoryExchange
        ensures { result ≡ record { table = table; wire = [] } }
    {
        MemoryExchange {
            table,
            wire: Vec::new(alloc),
            room: Room::new(),
        }
    }

    /// Puts another table behind it, as if nothing was carried yet. It takes no memory.
    pub fn give(&mut self, table: Table)
        ensures { self.new ≡ record { table = table; wire = [] } }
    {
        self.table = table;
        self.wire.clear();
    }

    /// The broker's table.
    pub fn table(&self) -> &Table
        ensures { result.now ≡ self.now.table }
    {
        &self.table
    }

    /// The bytes of the last request and of its reply, one after the other. There are none before the first exchange, and none
    /// where the last gave no reply.
    pub fn wire(&self) -> &[u8]
        ensures { result.now ≡ self.now.wire }
    {
        &self.wire
    }
}

impl Device for MemoryExchange {
    ghost seen = { λ _. outside_device 0 };

    fn failures(&self) -> u64 {
        0
    }
}

impl Exchange for MemoryExchange {
    ghost behind = { λ e. Some e };

    fn port(&self) -> u16 {
        8200
    }

    fn begin_line(&mut self) {}

    fn exchange(
        &mut self,
        alloc: Global,
        t: Moment,
        request: &Request,
    ) -> Result<Reply, ExchangeFault> {
        self.wire.clear();
        let mut wire = text_of_request(alloc, request)?;
        let heard = request_of_text(alloc, &mut self.room, &wire, request)?;
        let served = self.table.serve(t, &heard)?;
        let Delivery { text, reply } = deliver(alloc, &mut self.room, &served)?;
        match reply {
            Ok(reply) => {
                wire.extend_from_slice(&text)?;
                self.wire = wire;
                Ok(reply)
            }
            Err(fault) => Err(fault),
        }
    }
}
