ghost use Rattle.std.specs.Prelude.{◌≡◌, ◌*◌, ◌⊎◌, None, OnOk, false, true};
ghost use Rattle.std.specs.Result.{IfErr};
ghost use Rattle.std.specs.Duration.{as_nanos};
ghost use Rattle.base_device.specs.Seen.{outside_device};
ghost use Rattle.vault_exchange.specs.Sockets.{limit_of, port_of};
ghost use Rattle.vault_exchange.specs.declared.fault.ExchangeFault.TheVariants as faults;
ghost use Rattle.base_device.specs.declared.place.Place.TheVariants as places;

use crate::exchange::Exchange;
use crate::fault::ExchangeFault;
use crate::over::{count_after, exchange_over, here};
use crate::patience::{PATIENCE, Patience, Watched};
use base_moment::Moment;
use std::alloc::Global;
use std::marker::Model;
use std::net::{Net, OpenStream, TcpStream};
use std::time::Duration;
use vault_http::{Counted, Device, Reply, Request, Room};

/// An exchange with the broker that listens on 127.0.0.1 at a port: one connection for each request, over plain HTTP.
#[derive(Drop)]
pub struct TcpExchange<'a, R: Net> {
    rt: &'a R,
    port: u16,
    patience: Patience,
    room: Room,
    failures: u64,
}

impl<'a, R: Net> Model for TcpExchange<'a, R> {
    ghost use Rattle.std.specs.Duration.{as_nanos};
    ghost use Rattle.base_device.specs.declared.place.Place.TheVariants as places;
    ghost use Rattle.vault_exchange.specs.Sockets.{Socket};

    ghost Value = { Socket };

    ghost view = { λ e. record { place = places.Port e.port; longest = as_nanos e.patience.longest; is_short = e.patience.is_short; failures = e.failures } };
}

impl<'a, R: Net> TcpExchange<'a, R> {
    /// The exchange with the broker at that port. Each connect, read and write may take five seconds. It takes no memory, and
    /// connects to nothing yet.
    pub fn new(rt: &'a R, port: u16) -> TcpExchange<'a, R>
        ensures { result ≡ record { place = places.Port port; longest = 5 * 1_000_000_000; is_short = false; failures = 0 } }
    {
        TcpExchange::patient(rt, port, Duration::from_secs(PATIENCE))
    }

    /// The same where each connect, read and write may take so long. One that takes longer has failed; those that follow may
    /// take a quarter of a second, until an exchange has its reply, or the next event line begins.
    pub fn patient(rt: &'a R, port: u16, longest: Duration) -> TcpExchange<'a, R>
        ensures { result ≡ record { place = places.Port port; longest = as_nanos longest; is_short = false; failures = 0 } }
    {
        TcpExchange {
            rt,
            port,
            patience: Patience::new(longest),
            room: Room::new(),
            failures: 0,
        }
    }

    /// A connection whose reads and writes have a limit.
    fn connect(&mut self) -> Result<R::Stream, ExchangeFault>
        ensures connected { OnOk result (self.new ≡ self.old) }
        ensures fault { IfErr result (λ fault. fault ≡ faults.ConnectFailed) }
        ensures short { (self.new ≡ self.old) ⊎ (self.new ≡ record self.old { is_short = true }) }
    {
        let limit = self.patience.limit();
        let opened = TcpStream::connect_timeout(self.rt, &here(self.port), limit);
        let stream = self.patience.settle(opened)?;
        if stream.set_read_timeout(Some(limit)).is_err()
            || stream.set_write_timeout(Some(limit)).is_err()
        {
            return Err(ExchangeFault::ConnectFailed);
        }
        Ok(stream)
    }
}

impl<'a, R: Net> Device for TcpExchange<'a, R> {
    ghost seen = { λ e. outside_device e.failures };

    fn failures(&self) -> u64 {
        self.failures
    }
}

impl<'a, R: Net> Exchange for TcpExchange<'a, R> {
    ghost behind = { λ _. None };

    ghost host_port = { λ e. port_of e.place };

    ghost longest = { λ e. e.longest };

    ghost limit = { λ e. limit_of e.longest e.is_short };

    fn port(&self) -> u16 {
        self.port
    }

    fn begin_line(&mut self) {
        self.patience.restore();
    }

    fn exchange(
        &mut self,
        alloc: Global,
        _t: Moment,
        request: &Request,
    ) -> Result<Reply, ExchangeFault> {
        let before = self.failures;
        let result = match self.connect() {
            Ok(stream) => exchange_over(
                alloc,
                &mut Counted::new(Watched::new(stream)),
                &mut self.room,
                request,
                &mut self.patience,
            ),
            Err(fault) => Err(fault),
        };
        self.failures = count_after(before, &result);
        result
    }
}
