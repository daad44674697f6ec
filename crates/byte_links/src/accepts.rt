// What hands out links, and takes them back.
ghost use Rattle.byte_links.specs.Accept.{AcceptState, Accepts, TakesBack};

use crate::links::{Link, LinkError};

/// Where links come from, as a listener that accepts connections.
pub trait Accept<L: Link> {
    /// Its count of faults, and, where they are told, the links that it has taken back.
    ghost shown: { Self → AcceptState };

    /// Hands out a new link.
    fn accept(&mut self) -> Result<L, LinkError>
        ensures { Accepts L.shown (shown self.old) (shown self.new) result };

    /// Takes back a link that was served.
    fn done(&mut self, link: L) -> Result<(), LinkError>
        ensures { TakesBack (L.shown link) (shown self.old) (shown self.new) result };
}
