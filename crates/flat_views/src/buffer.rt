ghost use Rattle.std.specs.Prelude.{◌≡◌, ◌+◌, ◌^◌, ◌≤◌, false, length, slice_range, MatchOption};
ghost use Rattle.std.specs.Int.{cast_signed, w32};
ghost use Rattle.flat_layout.specs.Layout.{is_offset, number_at, target};
ghost use Rattle.flat_layout.specs.Promises.{BreaksOffset, BreaksRoot, Judges};

use crate::tables::Table;
use byteorder::{ByteOrder, LittleEndian};
use flat_layout::{Broken, Rule};

/// The bytes of one buffer, and where they begin in the file.
#[derive(Clone, Copy)]
pub struct Buf<'a> {
    bytes: &'a [u8],
    base: u64,
    // the sums of places below then fit
    pub ghost small: { length bytes.now ≤ 268435456 },
    pub ghost near: { base ≤ 2 ^ 48 },
}

impl<'a> Buf<'a> {
    ghost use Rattle.flat_views.specs.Buffers.{LeadsTo, buf_base, buf_bytes};
    ghost use Rattle.flat_views.specs.Tables.{IsTableAt};

    /// A buffer of at most 268,435,456 bytes, the first of which stands at `base` in the file.
    pub fn new(bytes: &'a [u8], base: u64) -> Buf<'a>
        requires small { length bytes.now ≤ 268435456 }
        requires near { base ≤ 2 ^ 48 }
        ensures bytes { buf_bytes result ≡ bytes.now }
        ensures base { buf_base result ≡ base }
    {
        Buf { bytes, base }
    }

    /// The root table. Refuses Offset at the buffer's first byte, or Vtable at the table.
    /// (FlatBuffer Internals, "Offsets" and "Tables")
    pub fn root(self) -> Result<Table<'a>, Broken>
        ensures { let b = buf_bytes self.entry in
            Judges (buf_base self.entry) (BreaksRoot b) (IsTableAt b (buf_base self.entry) (target b 0)) result }
    {
        Table::behind(self, 0)
    }

    /// How many bytes there are.
    pub(crate) fn len(self) -> usize
        ensures { result ≡ length (buf_bytes self.entry) }
    {
        self.bytes.len()
    }

    /// Where the place `at` of the buffer stands in the file.
    pub(crate) fn place(self, at: usize) -> u64
        requires { at ≤ 2 ^ 32 }
        ensures { result ≡ buf_base self.entry + at }
    {
        self.base + at as u64
    }

    /// A refusal by a rule that is broken at the place `at` of the buffer.
    pub(crate) fn broken(self, at: usize, rule: Rule) -> Broken
        requires { at ≤ 2 ^ 32 }
        ensures place { result.place ≡ buf_base self.entry + at }
        ensures rule { result.rule ≡ rule }
    {
        Broken {
            place: self.place(at),
            rule,
        }
    }

    #[tactic(auto, unfolding(flat_layout::specs::Layout::number_at))]
    pub(crate) fn u8_at(self, at: usize) -> u8
        requires { at + 1 ≤ length (buf_bytes self) }
        ensures { result ≡ number_at 1 (buf_bytes self.entry) at }
    {
        self.bytes[at]
    }

    #[tactic(auto, unfolding(flat_layout::specs::Layout::number_at))]
    pub(crate) fn u16_at(self, at: usize) -> u16
        requires { at + 2 ≤ length (buf_bytes self) }
        ensures { result ≡ number_at 2 (buf_bytes self.entry) at }
    {
        LittleEndian::read_u16(&self.bytes[at..])
    }

    #[tactic(auto, unfolding(flat_layout::specs::Layout::number_at))]
    pub(crate) fn u32_at(self, at: usize) -> u32
        requires { at + 4 ≤ length (buf_bytes self) }
        ensures { result ≡ number_at 4 (buf_bytes self.entry) at }
    {
        LittleEndian::read_u32(&self.bytes[at..])
    }

    #[tactic(auto, unfolding(flat_layout::specs::Layout::number_at))]
    pub(crate) fn i32_at(self, at: usize) -> i32
        requires { at + 4 ≤ length (buf_bytes self) }
        ensures { result ≡ cast_signed w32 (number_at 4 (buf_bytes self.entry) at) }
    {
        LittleEndian::read_i32(&self.bytes[at..])
    }

    #[tactic(auto, unfolding(flat_layout::specs::Layout::number_at))]
    pub(crate) fn u64_at(self, at: usize) -> u64
        requires { at + 8 ≤ length (buf_bytes self) }
        ensures { result ≡ number_at 8 (buf_bytes self.entry) at }
    {
        LittleEndian::read_u64(&self.bytes[at..])
    }

    /// The bytes from `start` on.
    pub(crate) fn part(self, start: usize, len: usize) -> &'a [u8]
        requires { start + len ≤ length (buf_bytes self) }
        ensures { result.now ≡ slice_range (buf_bytes self.entry) start (start + len) }
    {
        &self.bytes[start..start + len]
    }

    /// Where the offset at the place `at` leads.
    #[tactic(auto, using(std::proofs::lemmas::Bool::Decides::nat_tests), unfolding(flat_layout::specs::Layout::is_offset, flat_layout::specs::Layout::target))]
    fn checked_target(self, at: usize) -> Option<usize>
        requires { at ≤ length (buf_bytes self) }
        ensures { let b = buf_bytes self.entry in
            MatchOption result (is_offset b at ≡ false) (LeadsTo b at) }
    {
        if at + 4 > self.len() {
            return None;
        }
        let offset = self.u32_at(at) as usize;
        if offset < 4 || at + offset + 4 > self.len() {
            return None;
        }
        Some(at + offset)
    }

    /// Follows the offset at the place `at`. Refuses Offset.
    #[tactic(auto, unfolding(flat_layout::specs::Promises::BreaksOffset))]
    pub(crate) fn follow(self, at: usize) -> Result<usize, Broken>
        requires { at ≤ length (buf_bytes self) }
        ensures { let b = buf_bytes self.entry in
            Judges (buf_base self.entry) (BreaksOffset b at) (LeadsTo b at) result }
    {
        match self.checked_target(at) {
            Some(target) => Ok(target),
            None => Err(self.broken(at, Rule::Offset)),
        }
    }
}
