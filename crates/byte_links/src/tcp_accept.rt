// The adapter over a TCP listener.
ghost use Rattle.std.specs.Prelude.{◌≡◌, None, IfOk, IsErrOf, IsOk, OnOk};
ghost use Rattle.byte_links.specs.Accept.{Accepts, TakesBack};

use crate::accepts::Accept;
use crate::links::LinkError;
use crate::tcp_link::TcpLink;
use std::marker::Model;
use std::net::TcpListener;

/// Accepts connections over TCP. It does not tell which links it has taken back.
#[derive(Drop)]
pub struct TcpAccept {
    listener: TcpListener,
    faults: u64,
}

impl Model for TcpAccept {
    ghost use Rattle.std.specs.Prelude.{None};
    ghost use Rattle.byte_links.specs.Accept.{AcceptState};

    ghost Value = { AcceptState };

    ghost view = { λ a. record { faults = a.faults; ended = None } };
}

impl TcpAccept {
    /// Accepts the connections that come to this listener.
    pub fn new(listener: TcpListener) -> TcpAccept
        ensures { result ≡ record { faults = 0; ended = None } }
    {
        TcpAccept {
            listener,
            faults: 0,
        }
    }
}

impl Accept<TcpLink> for TcpAccept {
    ghost shown = { λ a. a };

    /// Waits for a connection. One that can't be accepted is a fault.
    fn accept(&mut self) -> Result<TcpLink, LinkError>
        ensures accepts { Accepts (λ l. l) self.old self.new result }
        ensures ok { OnOk result (self.new ≡ self.old) }
        ensures no_memory { ¬ IsErrOf result LinkError.Memory }
    {
        match self.listener.accept() {
            Ok((stream, _)) => Ok(TcpLink::new(stream)),
            Err(_) => {
                self.faults = self.faults.saturating_add(1);
                Err(LinkError::Failed)
            }
        }
    }

    /// Closes the connection.
    fn done(&mut self, link: TcpLink) -> Result<(), LinkError>
        ensures takes { TakesBack link self.old self.new result }
        ensures ok { IsOk result }
        ensures same { self.new ≡ self.old }
    {
        drop(link);
        Ok(())
    }
}
