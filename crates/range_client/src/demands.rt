// What a request asks for.
ghost use Rattle.std.specs.Prelude.{◌≡◌, ◌≤◌, ◌<◌, ◌^◌, ℕ, IsTrue, IfSome, IfNone};
ghost use Rattle.range_client.specs.Demands.{IsOrdered, first_of, is_size, is_status, last_of, least_of, length_wanted, range_wanted, size_in};

use range_text::ContentRange;

/// What a request asks for.
#[derive(Clone, Copy)]
pub(crate) enum Demand {
    /// The first byte of a file whose size is not known yet.
    FirstByte,
    /// The bytes from the first to the last place, both included, of a file of this size.
    Part { first: u64, last: u64, size: u64 },
}

impl Demand {
    /// The first place that it asks for.
    pub(crate) fn first(self) -> u64
        ensures { result ≡ first_of self }
    {
        match self {
            Demand::FirstByte => 0,
            Demand::Part { first, .. } => first,
        }
    }

    /// The last place that it asks for.
    pub(crate) fn last(self) -> u64
        ensures { result ≡ last_of self }
    {
        match self {
            Demand::FirstByte => 0,
            Demand::Part { last, .. } => last,
        }
    }

    /// The least bytes of the body of a reply.
    pub(crate) fn least(self) -> u64
        requires { IsOrdered self }
        ensures { result ≡ least_of self }
    {
        match self {
            Demand::FirstByte => 0,
            Demand::Part { first, last, .. } => last - first + 1,
        }
    }

    /// How many bytes the body of a reply with this status has.
    pub(crate) fn length_wanted(self, status: u16) -> u64
        requires { IsOrdered self }
        ensures { result ≡ length_wanted self status }
    {
        match self {
            Demand::FirstByte => u64::from(status == 206),
            Demand::Part { first, last, .. } => last - first + 1,
        }
    }

    /// Whether a reply may have this status.
    pub(crate) fn is_status(self, status: u16) -> bool
        ensures { result ≡ is_status self status }
    {
        match self {
            Demand::FirstByte => status == 206 || status == 416,
            Demand::Part { .. } => status == 206,
        }
    }

    /// What the Content-Range field of a reply with this status tells of a file of this size.
    fn range_wanted(self, status: u16, size: u64) -> ContentRange
        ensures { result ≡ range_wanted self status size }
    {
        match self {
            Demand::FirstByte if status == 206 => ContentRange::Part {
                first: 0,
                last: 0,
                size,
            },
            Demand::FirstByte => ContentRange::Unsatisfied { size },
            Demand::Part { first, last, .. } => ContentRange::Part { first, last, size },
        }
    }

    /// Whether a reply with this status may tell of a file of this size.
    fn is_size(self, status: u16, size: u64) -> bool
        ensures { result ≡ is_size self status size }
    {
        match self {
            Demand::FirstByte if status == 206 => size <= 281474976710656,
            Demand::FirstByte => size == 0,
            Demand::Part { size: known, .. } => size == known,
        }
    }

    /// The size of the file of which a reply with this status tells this, where it may.
    pub(crate) fn size_told(self, status: u16, told: ContentRange) -> Option<u64>
        ensures some { IfSome result (λ size. (told ≡ range_wanted self status size) × IsTrue (is_size self status size)) }
        ensures none { IfNone result ((size : ℕ) → told ≡ range_wanted self status size → ¬ IsTrue (is_size self status size)) }
    {
        let size = size_of(told);
        if told != self.range_wanted(status, size) {
            return None;
        }
        if !self.is_size(status, size) {
            return None;
        }
        Some(size)
    }
}

/// The size that is told.
fn size_of(told: ContentRange) -> u64
    ensures { result ≡ size_in told }
{
    match told {
        ContentRange::Part { size, .. } | ContentRange::Unsatisfied { size } => size,
    }
}
