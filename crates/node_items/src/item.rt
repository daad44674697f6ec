// One node.
ghost use Rattle.std.specs.Prelude.{◌≡◌, ◌≤◌, length, take};

use byteorder::{ByteOrder, LittleEndian};
use order_keys::{Bounds, Coord};

/// The bytes of a node.
pub const NODE: usize = 40;

/// A node of the index: its box, and its offset, which is the number of an inner node's first child, or the place of
/// a leaf's feature from the first feature on.
#[derive(Clone, Copy, Debug, PartialEq, Eq)]
pub struct NodeItem {
    pub bounds: Bounds,
    pub offset: u64,
}

impl NodeItem {
    ghost use Rattle.node_items.specs.Nodes.{bytes_of, node_of};

    /// The node in these bytes.
    pub fn decode(bytes: &[u8; NODE]) -> NodeItem
        ensures value { result ≡ node_of bytes.now }
        ensures back { bytes_of result ≡ bytes.now }
    {
        NodeItem::read(bytes)
    }

    /// Its bytes.
    pub fn encode(&self) -> [u8; NODE]
        ensures bytes { result ≡ bytes_of self.now }
        ensures back { node_of result ≡ self.now }
    {
        let Bounds {
            min_x: Coord(min_x),
            min_y: Coord(min_y),
            max_x: Coord(max_x),
            max_y: Coord(max_y),
        } = self.bounds;
        let offset = self.offset;
        let mut bytes = [0; NODE];
        LittleEndian::write_u64(&mut bytes[..8], min_x);
        LittleEndian::write_u64(&mut bytes[8..16], min_y);
        LittleEndian::write_u64(&mut bytes[16..24], max_x);
        LittleEndian::write_u64(&mut bytes[24..32], max_y);
        LittleEndian::write_u64(&mut bytes[32..], offset);
        bytes
    }

    /// The node at the front of these bytes.
    pub fn read(bytes: &[u8]) -> NodeItem
        requires { 40 ≤ length bytes.now }
        ensures value { result ≡ node_of bytes.now }
        ensures front { result ≡ node_of (take 40 bytes.now) }
    {
        NodeItem {
            bounds: Bounds {
                min_x: Coord(LittleEndian::read_u64(bytes)),
                min_y: Coord(LittleEndian::read_u64(&bytes[8..])),
                max_x: Coord(LittleEndian::read_u64(&bytes[16..])),
                max_y: Coord(LittleEndian::read_u64(&bytes[24..])),
            },
            offset: LittleEndian::read_u64(&bytes[32..]),
        }
    }
}
