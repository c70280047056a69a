ghost use Rattle.std.specs.Prelude.{◌≡◌, ◌⊎◌, None, OnOk, IsOkUnless, false, true};
ghost use Rattle.std.specs.Result.{IfErr};
ghost use Rattle.std.specs.Duration.{as_nanos};
ghost use Rattle.base_device.specs.Seen.{outside_device};
ghost use Rattle.vault_exchange.specs.Sockets.{limit_of};
ghost use Rattle.vault_exchange.specs.declared.fault.ExchangeFault.TheVariants as faults;
ghost use Rattle.base_device.specs.declared.place.Place.TheVariants as places;

use crate::connecting::connect_within;
use crate::exchange::Exchange;
use crate::fault::ExchangeFault;
use crate::over::{count_after, exchange_over};
use crate::patience::{Patience, Watched};
use base_moment::Moment;
use std::alloc::Global;
use std::marker::Model;
use std::net::Net;
use std::os::unix::net::UnixStream;
use std::time::Duration;
use vault_http::{Counted, Device, Reply, Request, Room};

/// An exchange with the broker that listens on a UNIX socket: whoever may not enter the socket's folder can neither listen
/// in its place nor connect to it.
#[derive(Drop)]
pub struct UnixExchange<'a, R: Net> {
    rt: &'a R,
    path: &'a str,
    patience: Patience,
    room: Room,
    failures: u64,
}

impl<'a, R: Net> Model for UnixExchange<'a, R> {
    ghost use Rattle.std.specs.Duration.{as_nanos};
    ghost use Rattle.base_device.specs.declared.place.Place.TheVariants as places;
    ghost use Rattle.vault_exchange.specs.Sockets.{Socket};

    ghost Value = { Socket };

    ghost view = { λ e. record { place = places.Path e.path; longest = as_nanos e.patience.longest; is_short = e.patience.is_short; failures = e.failures } };
}

impl<'a, R: Net> UnixExchange<'a, R> {
    /// The exchange with the broker at that path, where each connect, read and write may take so long. One that takes longer
    /// has failed; those that follow may take a quarter of a second, until an exchange has its reply, or the next event line
    /// begins. It takes no memory, and connects to nothing yet.
    pub fn patient(rt: &'a R, path: &'a str, longest: Duration) -> UnixExchange<'a, R>
        ensures { result ≡ record { place = places.Path path.entry; longest = as_nanos longest; is_short = false; failures = 0 } }
    {
        UnixExchange {
            rt,
            path,
            patience: Patience::new(longest),
            room: Room::new(),
            failures: 0,
        }
    }

    /// A connection whose reads and writes have a limit. A socket whose queue stays full is given up like one that does not
    /// answer.
    fn connect(&mut self, alloc: Global) -> Result<UnixStream, ExchangeFault>
        ensures connected { OnOk result (self.new ≡ self.old) }
        ensures fault { IfErr result (λ fault. (fault ≡ faults.ConnectFailed) ⊎ (fault ≡ faults.OutOfMemory)) }
        ensures short { (self.new ≡ self.old) ⊎ (self.new ≡ record self.old { is_short = true }) }
    {
        let limit = self.patience.limit();
        let opened = connect_within(self.rt, alloc, self.path, limit)?;
        let stream = UnixStream::from(self.patience.settle(opened)?);
        if stream.set_nonblocking(false).is_err()
            || stream.set_read_timeout(Some(limit)).is_err()
            || stream.set_write_timeout(Some(limit)).is_err()
        {
            return Err(ExchangeFault::ConnectFailed);
        }
        Ok(stream)
    }
}

impl<'a, R: Net> Device for UnixExchange<'a, R> {
    ghost seen = { λ e. outside_device e.failures };

    fn failures(&self) -> u64 {
        self.failures
    }
}

impl<'a, R: Net> Exchange for UnixExchange<'a, R> {
    ghost behind = { λ _. None };

    ghost longest = { λ e. e.longest };

    ghost limit = { λ e. limit_of e.longest e.is_short };

    fn port(&self) -> u16 {
        8200
    }

    fn begin_line(&mut self) {
        self.patience.restore();
    }

    fn exchange(
        &mut self,
        alloc: Global,
        _t: Moment,
        request: &Request,
    ) -> Result<Reply, ExchangeFault> {
        let before = self.failures;
        let result = match self.connect(alloc) {
            Ok(stream) => exchange_over(
                alloc,
                &mut Counted::new(Watched::new(stream)),
                &mut self.room,
                request,
                &mut self.patience,
            ),
            Err(fault) => Err(fault),
        };
        self.failures = count_after(before, &result);
        result
    }
}
