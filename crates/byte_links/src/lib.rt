//! Links over which bytes go both ways, and what hands them out.
//!
//! A [`Link`] receives and sends bytes, as a connection does, and an [`Accept`] hands out links and takes them back. A
//! contract sees a link as the bytes received and sent and two counts, of faults and of ends of input. Whether bytes are
//! told is the implementor's choice: the forms in memory tell them, and the adapters over TCP do not. A link may besides
//! tell an image that its other end serves, and then says which reply comes to which request (`specs/Exchange.antt`).
#![tactic(auto)]

mod accepts;
mod links;
mod memory_accept;
mod memory_link;
mod tcp_accept;
mod tcp_link;
#[cfg(test)]
mod tests;

pub use accepts::Accept;
pub use links::{Link, LinkError};
pub use memory_accept::MemoryAccept;
pub use memory_link::MemoryLink;
pub use tcp_accept::TcpAccept;
pub use tcp_link::TcpLink;
