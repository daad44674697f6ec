// Files by hand, each as a reader of the format's document would lay it.
use std::alloc::{AllocError, Global};

/// A file of type Point without features: a start, and a header of 24 bytes.
pub const EMPTY: [u8; 36] = [
    102, 103, 98, 3, 102, 103, 98, 1, 24, 0, 0, 0, 16, 0, 0, 0, 10, 0, 5, 0, 0, 0, 0, 0, 4, 0, 0,
    0, 12, 0, 0, 0, 1, 0, 0, 0,
];

/// A feature with a point, up to the point's two patterns: the size prefix 84, the feature's table and vtable,
/// the geometry's, and the count of xy.
pub const FEATURE: [u8; 72] = [
    84, 0, 0, 0, 16, 0, 0, 0, 6, 0, 8, 0, 4, 0, 0, 0, 0, 0, 0, 0, 12, 0, 0, 0, 28, 0, 0, 0, 18, 0,
    9, 0, 0, 0, 4, 0, 0, 0, 0, 0, 0, 0, 0, 0, 8, 0, 0, 0, 0, 0, 0, 0, 24, 0, 0, 0, 12, 0, 0, 0, 1,
    0, 0, 0, 0, 0, 0, 0, 2, 0, 0, 0,
];

/// The same of a point with a time, up to the point's two patterns.
pub const TIMED: [u8; 72] = [
    96, 0, 0, 0, 16, 0, 0, 0, 6, 0, 8, 0, 4, 0, 0, 0, 0, 0, 0, 0, 12, 0, 0, 0, 28, 0, 0, 0, 18, 0,
    13, 0, 0, 0, 4, 0, 0, 0, 0, 0, 8, 0, 0, 0, 12, 0, 0, 0, 0, 0, 0, 0, 24, 0, 0, 0, 12, 0, 0, 0,
    28, 0, 0, 0, 1, 0, 0, 0, 2, 0, 0, 0,
];

/// The list of one time that stands behind its point.
pub const TIME: [u8; 12] = [1, 0, 0, 0, 0, 0, 0, 0, 0, 0, 0, 0];

/// A feature without a geometry.
pub const BARE: [u8; 16] = [12, 0, 0, 0, 8, 0, 0, 0, 4, 0, 4, 0, 4, 0, 0, 0];

/// The start and the header of a file of 179 Points, which has an index.
pub const INDEXED: [u8; 60] = [
    102, 103, 98, 3, 102, 103, 98, 1, 48, 0, 0, 0, 32, 0, 0, 0, 22, 0, 13, 0, 0, 0, 0, 0, 12, 0, 0,
    0, 0, 0, 0, 0, 0, 0, 0, 0, 4, 0, 0, 0, 0, 0, 0, 0, 28, 0, 0, 0, 179, 0, 0, 0, 0, 0, 0, 0, 1, 0,
    0, 0,
];

/// The start and the header of a file of type Point whose index has the node size 1.
pub const NARROW: [u8; 52] = [
    102, 103, 98, 3, 102, 103, 98, 1, 40, 0, 0, 0, 32, 0, 0, 0, 24, 0, 7, 0, 0, 0, 0, 0, 6, 0, 0,
    0, 0, 0, 0, 0, 0, 0, 0, 0, 0, 0, 4, 0, 0, 0, 0, 0, 28, 0, 0, 0, 1, 0, 1, 0,
];

/// The start and the header of a file of type Point that says two features, and has no index.
pub const COUNTED: [u8; 60] = [
    102, 103, 98, 3, 102, 103, 98, 1, 48, 0, 0, 0, 32, 0, 0, 0, 24, 0, 15, 0, 0, 0, 0, 0, 14, 0, 0,
    0, 0, 0, 0, 0, 0, 0, 0, 0, 4, 0, 12, 0, 0, 0, 0, 0, 28, 0, 0, 0, 2, 0, 0, 0, 0, 0, 0, 0, 0, 0,
    1, 0,
];

/// The IEEE 754 pattern of -0.
pub const NEG_ZERO: u64 = 0x8000_0000_0000_0000;

/// The IEEE 754 pattern of 0.
pub const ZERO: u64 = 0;

/// The IEEE 754 pattern of 1.
pub const ONE: u64 = 0x3FF0_0000_0000_0000;

/// The IEEE 754 pattern of 2.
pub const TWO: u64 = 0x4000_0000_0000_0000;

/// The IEEE 754 pattern of 5.
pub const FIVE: u64 = 0x4014_0000_0000_0000;

/// The IEEE 754 pattern of 10.
pub const TEN: u64 = 0x4024_0000_0000_0000;

/// The IEEE 754 pattern of 11.
pub const ELEVEN: u64 = 0x4026_0000_0000_0000;

/// Three points, of which the first two lie in the box of the query.
pub const THREE: [(u64, u64); 3] = [(ONE, TWO), (TEN, TEN), (ELEVEN, FIVE)];

/// Appends a feature for each of these points.
pub fn push_points(file: &mut Vec<u8>, points: &[(u64, u64)]) -> Result<(), AllocError> {
    for (x, y) in points {
        file.extend_from_slice(&FEATURE)?;
        file.extend_from_slice(&x.to_le_bytes())?;
        file.extend_from_slice(&y.to_le_bytes())?;
    }
    Ok(())
}

/// The file of type Point with these points.
pub fn file_of(alloc: Global, points: &[(u64, u64)]) -> Result<Vec<u8>, AllocError> {
    let mut file = Vec::from_slice(alloc, &EMPTY)?;
    push_points(&mut file, points)?;
    Ok(file)
}

/// The file of type Point with these points whose header says that there are two.
pub fn counted_file(alloc: Global, points: &[(u64, u64)]) -> Result<Vec<u8>, AllocError> {
    let mut file = Vec::from_slice(alloc, &COUNTED)?;
    push_points(&mut file, points)?;
    Ok(file)
}

/// The file of the three points with these bytes at these places.
pub fn changed(alloc: Global, changes: &[(usize, u8)]) -> Result<Vec<u8>, AllocError> {
    let mut file = file_of(alloc, &THREE)?;
    for (place, byte) in changes {
        if let Some(old) = file.get_mut(*place) {
            *old = *byte;
        }
    }
    Ok(file)
}
