// The adapter over a TCP stream: no contract can say what bytes it gives or takes.
ghost use Rattle.std.specs.Prelude.{◌≡◌, ◌<◌, length, None, IsErrOf, OnOk};
ghost use Rattle.std.specs.Io.{ReadsAtMost};
ghost use Rattle.byte_links.specs.Link.{Receives, Sends};

use crate::links::{Link, LinkError};
use std::io;
use std::io::{ErrorKind, Read, Write};
use std::marker::Model;
use std::net::TcpStream;

/// A link over a TCP stream. It tells neither what it has received nor what it has sent.
#[derive(Drop)]
pub struct TcpLink {
    stream: TcpStream,
    faults: u64,
    ends: u64,
}

impl Model for TcpLink {
    ghost use Rattle.std.specs.Prelude.{None};
    ghost use Rattle.byte_links.specs.Link.{LinkState};

    ghost Value = { LinkState };

    ghost view = { λ l. record { received = None; sent = None; faults = l.faults; ends = l.ends; image = None; step = None } };
}

// Reads once, and again where a signal came between. 0 is the end of the stream.
fn read_some(stream: &mut TcpStream, into: &mut [u8]) -> io::Result<usize>
    ensures { ReadsAtMost result into.new }
{
    for _ in 0..u64::MAX {
        match stream.read(into) {
            Err(error) if error.kind() == ErrorKind::Interrupted => {}
            result => return result,
        }
    }
    Err(io::Error::from(ErrorKind::Interrupted))
}

impl TcpLink {
    /// A link over this stream.
    pub fn new(stream: TcpStream) -> TcpLink
        ensures { result ≡ record { received = None; sent = None; faults = 0; ends = 0; image = None; step = None } }
    {
        TcpLink {
            stream,
            faults: 0,
            ends: 0,
        }
    }
}

impl Link for TcpLink {
    ghost shown = { λ l. l };

    /// A read that fails is a fault, and one that meets the end of the stream is an end.
    fn read(&mut self, into: &mut [u8]) -> Result<usize, LinkError>
        requires not_empty { 0 < length into.old }
        ensures receives { Receives self.old self.new into.new result }
        ensures ok { OnOk result (self.new.faults ≡ self.old.faults) }
        ensures no_memory { ¬ IsErrOf result LinkError.Memory }
    {
        let Ok(count) = read_some(&mut self.stream, into) else {
            self.faults = self.faults.saturating_add(1);
            return Err(LinkError::Failed);
        };
        if count == 0 {
            self.ends = self.ends.saturating_add(1);
        }
        Ok(count)
    }

    /// A write that fails is a fault, and so is one at which the stream takes nothing of what is left.
    fn write(&mut self, bytes: &[u8]) -> Result<(), LinkError>
        ensures sends { Sends self.old self.new bytes.now result }
        ensures ok { OnOk result (self.new ≡ self.old) }
        ensures no_memory { ¬ IsErrOf result LinkError.Memory }
    {
        if self.stream.write_all(bytes).is_err() {
            self.faults = self.faults.saturating_add(1);
            return Err(LinkError::Failed);
        }
        Ok(())
    }
}
