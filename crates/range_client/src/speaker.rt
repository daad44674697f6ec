// One end of the talk: what it asks for, and the head of the last reply.
ghost use Rattle.std.specs.Prelude.{◌≡◌, ◌≤◌, ◌^◌, [], length, IfOk, IfErr};
ghost use Rattle.range_client.specs.Demands.{HasRoom, first_of, last_of};
ghost use Rattle.range_client.specs.Exchanges.{Broke, Exchanged};
ghost use Rattle.range_client.specs.Faults.{IsRefusal};
ghost use Rattle.range_client.specs.Requests.{request};

use crate::demands::Demand;
use crate::exchange::exchange;
use crate::faults::{ConnectError, Fault};
use crate::fronts::Front;
use crate::requests::write_request;
use byte_links::Link;
use std::alloc::{AllocError, Global};
use std::marker::Model;

/// Asks for parts of the file at one path.
#[derive(Drop)]
pub(crate) struct Speaker {
    path: Vec<u8>,
    request: Vec<u8>,
    front: Front,
}

impl Model for Speaker {
    ghost use Rattle.range_client.specs.Exchanges.{Spoken};

    ghost Value = { Spoken };

    ghost view = { λ s. record { path = s.path.items; head = s.front.head } };
}

impl Speaker {
    /// One that has asked for nothing.
    pub(crate) fn new(alloc: Global, path: &str) -> Result<Speaker, AllocError>
        ensures { IfOk result (λ s. s ≡ record { path = path.now; head = [] }) }
    {
        Ok(Speaker {
            path: path.as_bytes().to_vec(alloc)?,
            request: Vec::new(alloc),
            front: Front::new(alloc)?,
        })
    }

    /// The head of the last reply.
    pub(crate) fn head(&self) -> &[u8]
        ensures { result.now ≡ self.now.head }
    {
        self.front.head()
    }

    /// Asks over the link, and reads the body of the reply to the front of `into`. Answers the size of the file.
    pub(crate) fn ask<L: Link>(
        &mut self,
        link: &mut L,
        demand: Demand,
        into: &mut [u8],
    ) -> Result<u64, Fault>
        requires room { HasRoom demand (length into.old) }
        requires small { last_of demand ≤ 2 ^ 48 }
        ensures path { self.new.path ≡ self.old.path }
        ensures ok { IfOk result (Exchanged demand (request self.old.path (first_of demand) (last_of demand)) (L.shown link.old) (L.shown link.new) self.new.head into.new) }
        ensures err { IfErr result (Broke demand (request self.old.path (first_of demand) (last_of demand)) (L.shown link.old) (L.shown link.new) self.new.head) }
    {
        write_request(&mut self.request, &self.path, demand.first(), demand.last())?;
        exchange(link, &self.request, demand, &mut self.front, into)
    }

    /// Why there is no client.
    pub(crate) fn into_error(self, fault: Fault) -> ConnectError
        ensures { IsRefusal self.head fault result }
    {
        match fault {
            Fault::Memory => ConnectError::Memory,
            Fault::LinkFailed => ConnectError::LinkFailed,
            Fault::Bad(kind) => ConnectError::BadReply(kind, self.front.into_head()),
        }
    }
}
