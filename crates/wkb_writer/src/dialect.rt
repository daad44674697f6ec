// The dialects of WKB.

/// How the types of values say z and m.
#[derive(Clone, Copy, Debug, PartialEq, Eq)]
pub enum Dialect {
    /// WKB: z adds 1000 to a type, and m 2000. (OGC 06-103r4, section 8.2)
    Iso,
    /// EWKB: the three highest bits of a type say that there are z, m and the number of a reference system (SRID).
    /// (PostGIS, "Extended WKB")
    Extended,
}
