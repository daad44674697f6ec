// What a checker answers.
use flat_views::Broken;

/// What a checker found.
#[derive(Clone, Copy, Debug, PartialEq, Eq)]
pub enum Verdict {
    /// The file breaks no rule, and has so many features, and so many nodes in its index.
    Accepted { features: u64, nodes: u64 },
    /// The file breaks this rule at this place, and none in a unit in front of that.
    Refused(Broken),
}

/// Why a file was not judged.
#[derive(Clone, Copy, Debug, PartialEq, Eq)]
pub enum CheckError {
    /// There was no memory.
    Memory,
    /// The source failed, and has counted a fault.
    SourceFailed,
}
