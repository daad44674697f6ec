ghost use Rattle.std.specs.Prelude.{◌≡◌, ◌+◌, ◌<◌, ◌≤◌, length, IsTrue, slice_index};
ghost use Rattle.flat_layout.specs.Layout.{count, is_vector};
ghost use Rattle.flat_layout.specs.Promises.{BreaksThrough, BreaksVector, Judges};
ghost use Rattle.flat_views.specs.Buffers.{buf_base, buf_bytes};

use crate::buffer::Buf;
use crate::tables::Table;
use flat_layout::{Broken, Rule};

/// A vector of a buffer, whose elements end in the buffer.
#[derive(Clone, Copy)]
pub struct VecView<'a> {
    buf: Buf<'a>,
    place: usize,
    width: u8,
    len: usize,
    pub ghost narrow: { width ≤ 8 },
    pub ghost inside: { place + 4 ≤ length (buf_bytes buf) },
    pub ghost sound: { IsTrue (is_vector width (buf_bytes buf) place) },
    pub ghost counted: { len ≡ count (buf_bytes buf) place },
}

impl<'a> VecView<'a> {
    ghost use Rattle.flat_layout.specs.Layout.{elements, longs, target, words};
    ghost use Rattle.flat_views.specs.Vectors.{IsVectorAt, vector_base, vector_bytes, vector_place, vector_width};

    /// The vector at the place `at` of the buffer. Refuses Vector.
    #[tactic(auto, using(std::proofs::lemmas::Bool::Decides::nat_tests), unfolding(flat_layout::specs::Promises::BreaksVector, flat_layout::specs::Layout::is_vector, flat_layout::specs::Layout::count))]
    fn at(buf: Buf<'a>, at: usize, width: u8) -> Result<VecView<'a>, Broken>
        requires room { at + 4 ≤ length (buf_bytes buf) }
        requires narrow { width ≤ 8 }
        ensures { let b = buf_bytes buf.entry in let base = buf_base buf.entry in
            Judges base (BreaksVector width b at) (IsVectorAt b base at width) result }
    {
        let len = buf.u32_at(at) as usize;
        if at + 4 + width as usize * len > buf.len() {
            return Err(buf.broken(at, Rule::Vector));
        }
        Ok(VecView {
            buf,
            place: at,
            width,
            len,
        })
    }

    /// The vector that the offset at the place `at` leads to. Refuses Offset or Vector.
    #[tactic(auto, using(crate::proofs::Sound::through))]
    pub(crate) fn behind(buf: Buf<'a>, at: usize, width: u8) -> Result<VecView<'a>, Broken>
        requires room { at ≤ length (buf_bytes buf) }
        requires narrow { width ≤ 8 }
        ensures { let b = buf_bytes buf.entry in let base = buf_base buf.entry in
            Judges base (BreaksThrough (BreaksVector width) b at) (IsVectorAt b base (target b at) width) result }
    {
        let place = buf.follow(at)?;
        VecView::at(buf, place, width)
    }

    /// How many elements there are.
    pub fn len(self) -> usize
        ensures { result ≡ count (vector_bytes self.entry) (vector_place self.entry) }
    {
        self.len
    }

    /// Where the vector stands in the file: its count.
    pub fn place(self) -> u64
        ensures { result ≡ vector_base self.entry + vector_place self.entry }
    {
        self.buf.place(self.place)
    }

    /// The i-th number of 4 bytes.
    #[tactic(auto, using(crate::proofs::Sound::numbers), unfolding(flat_layout::specs::Layout::is_vector))]
    pub fn at_u32(self, i: usize) -> u32
        requires width { vector_width self ≡ 4 }
        requires index { i < count (vector_bytes self) (vector_place self) }
        ensures { result ≡ slice_index (words (vector_bytes self.entry) (vector_place self.entry)) i }
    {
        self.buf.u32_at(self.place + 4 + 4 * i)
    }

    /// The i-th number of 8 bytes.
    #[tactic(auto, using(crate::proofs::Sound::numbers), unfolding(flat_layout::specs::Layout::is_vector))]
    pub fn at_u64(self, i: usize) -> u64
        requires width { vector_width self ≡ 8 }
        requires index { i < count (vector_bytes self) (vector_place self) }
        ensures { result ≡ slice_index (longs (vector_bytes self.entry) (vector_place self.entry)) i }
    {
        self.buf.u64_at(self.place + 4 + 8 * i)
    }

    /// The bytes of the elements.
    #[tactic(auto, using(std::proofs::lemmas::Bool::Decides::nat_tests), unfolding(flat_layout::specs::Layout::is_vector, flat_layout::specs::Layout::elements))]
    pub fn bytes(self) -> &'a [u8]
        ensures { result.now ≡ elements (vector_width self.entry) (vector_bytes self.entry) (vector_place self.entry) }
    {
        self.buf
            .part(self.place + 4, self.width as usize * self.len)
    }
}

/// A vector of offsets to tables, which end in the buffer. What they lead to is looked at by `get`.
#[derive(Clone, Copy)]
pub struct TableVec<'a> {
    entries: VecView<'a>,
    pub ghost wide: { entries.width ≡ 4 },
}

impl<'a> TableVec<'a> {
    ghost use Rattle.flat_layout.specs.Layout.{entry_place, target};
    ghost use Rattle.flat_layout.specs.Promises.{BreaksTable};
    ghost use Rattle.flat_views.specs.TableVecs.{IsTableVecAt, tables_base, tables_bytes, tables_place};
    ghost use Rattle.flat_views.specs.Tables.{IsTableAt};

    /// The vector of tables that the offset at the place `at` leads to. Refuses Offset or Vector.
    #[tactic(auto, using(flat_layout::proofs::Judging::exit))]
    pub(crate) fn behind(buf: Buf<'a>, at: usize) -> Result<TableVec<'a>, Broken>
        requires { at ≤ length (buf_bytes buf) }
        ensures { let b = buf_bytes buf.entry in let base = buf_base buf.entry in
            Judges base (BreaksThrough (BreaksVector 4) b at) (IsTableVecAt b base (target b at)) result }
    {
        let entries = VecView::behind(buf, at, 4)?;
        Ok(TableVec { entries })
    }

    /// How many tables there are.
    pub fn len(self) -> usize
        ensures { result ≡ count (tables_bytes self.entry) (tables_place self.entry) }
    {
        self.entries.len()
    }

    /// Where the vector stands in the file: its count.
    pub fn place(self) -> u64
        ensures { result ≡ tables_base self.entry + tables_place self.entry }
    {
        self.entries.place()
    }

    /// The i-th table. Refuses Offset at its entry in the vector, or Vtable at the table.
    #[tactic(auto, using(std::proofs::lemmas::Bool::Decides::nat_tests), unfolding(flat_layout::specs::Layout::is_vector, flat_layout::specs::Layout::entry_place))]
    pub fn get(self, i: usize) -> Result<Table<'a>, Broken>
        requires { i < count (tables_bytes self) (tables_place self) }
        ensures { let b = tables_bytes self.entry in let base = tables_base self.entry in
            let entry = entry_place b (tables_place self.entry) i in
            Judges base (BreaksThrough BreaksTable b entry) (IsTableAt b base (target b entry)) result }
    {
        Table::behind(self.entries.buf, self.entries.place + 4 + 4 * i)
    }
}
