ghost use Rattle.std.specs.Prelude.{◌≡◌, ◌⊎◌, ◌+◌, ◌≤◌, true, false, length, IsTrue, MatchOption};
ghost use Rattle.flat_layout.specs.Layout.{is_table, number_in, signed_in, slot, vtable_place};
ghost use Rattle.flat_layout.specs.Promises.{BreaksField, BreaksTable, BreaksThrough, BreaksTo, BreaksVector, Judges};
ghost use Rattle.flat_views.specs.Buffers.{ShowsField, buf_base, buf_bytes};

use crate::buffer::Buf;
use crate::strings::text_behind;
use crate::vectors::{TableVec, VecView};
use flat_layout::{Broken, Rule};

/// A table of a buffer, whose vtable has been looked at and is sound.
#[derive(Clone, Copy)]
pub struct Table<'a> {
    buf: Buf<'a>,
    place: usize,
    // kept, so that each field costs one read of the vtable
    vtable: usize,
    pub ghost inside: { place + 4 ≤ length (buf_bytes buf) },
    pub ghost sound: { IsTrue (is_table (buf_bytes buf) place) },
    pub ghost kept: { vtable ≡ vtable_place (buf_bytes buf) place },
    pub ghost vtable_inside: { vtable + 4 ≤ length (buf_bytes buf) },
}

/// The vtable of the table at `place`, if the table is sound.
#[tactic(auto, using(std::proofs::lemmas::Bool::Decides::nat_tests), unfolding(flat_layout::specs::Layout::is_table, flat_layout::specs::Layout::is_vtable_inside, flat_layout::specs::Layout::vtable_place, flat_layout::specs::Layout::vtable_size, flat_layout::specs::Layout::table_size))]
fn sound_vtable(buf: Buf, place: usize) -> Option<usize>
    requires { place + 4 ≤ length (buf_bytes buf) }
    ensures { let b = buf_bytes buf.entry in
        MatchOption result (is_table b place ≡ false)
        (λ v. (is_table b place ≡ true) × (v ≡ vtable_place b place) × (v + 4 ≤ length b)) }
{
    let back = buf.u32_at(place) as usize;
    let vtable = if back < 1 << 31 {
        place.checked_sub(back)?
    } else {
        place + ((1 << 32) - back)
    };
    if vtable + 4 > buf.len() {
        return None;
    }
    let size = buf.u16_at(vtable) as usize;
    let table_size = buf.u16_at(vtable + 2) as usize;
    let vtable_fits = size % 2 == 0 && size >= 4 && vtable + size <= buf.len();
    let table_fits = table_size >= 4 && place + table_size <= buf.len();
    if vtable_fits && table_fits {
        Some(vtable)
    } else {
        None
    }
}

impl<'a> Table<'a> {
    ghost use Rattle.std.specs.Prelude.{option_map};
    ghost use Rattle.flat_layout.specs.Layout.{target, text_in};
    ghost use Rattle.flat_layout.specs.Promises.{BreaksText};
    ghost use Rattle.flat_views.specs.TableVecs.{ShowsTables};
    ghost use Rattle.flat_views.specs.Tables.{IsTableAt, ShowsTable, base_of, bytes_of, place_of};
    ghost use Rattle.flat_views.specs.Vectors.{ShowsVector};

    /// The table at the place `at` of the buffer. Refuses Vtable.
    #[tactic(auto, unfolding(flat_layout::specs::Promises::BreaksTable))]
    pub(crate) fn at(buf: Buf<'a>, at: usize) -> Result<Table<'a>, Broken>
        requires { at + 4 ≤ length (buf_bytes buf) }
        ensures { let b = buf_bytes buf.entry in let base = buf_base buf.entry in
            Judges base (BreaksTable b at) (IsTableAt b base at) result }
    {
        match sound_vtable(buf, at) {
            Some(vtable) => Ok(Table {
                buf,
                place: at,
                vtable,
            }),
            None => Err(buf.broken(at, Rule::Vtable)),
        }
    }

    /// The table that the offset at the place `at` leads to. Refuses Offset or Vtable.
    #[tactic(auto, using(crate::proofs::Sound::through))]
    pub(crate) fn behind(buf: Buf<'a>, at: usize) -> Result<Table<'a>, Broken>
        requires { at ≤ length (buf_bytes buf) }
        ensures { let b = buf_bytes buf.entry in let base = buf_base buf.entry in
            Judges base (BreaksThrough BreaksTable b at) (IsTableAt b base (target b at)) result }
    {
        let place = buf.follow(at)?;
        Table::at(buf, place)
    }

    /// Where the table stands in the file.
    pub fn place(self) -> u64
        ensures { result ≡ base_of self.entry + place_of self.entry }
    {
        self.buf.place(self.place)
    }

    /// The entry of the field in the vtable, or 0 past the vtable's end.
    #[tactic(auto, using(std::proofs::lemmas::Bool::Decides::nat_tests), unfolding(flat_layout::specs::Layout::is_table, flat_layout::specs::Layout::vtable_size, flat_layout::specs::Layout::slot, flat_layout::specs::Layout::entry))]
    fn slot_of(self, field: u16) -> u16
        ensures { result ≡ slot (bytes_of self.entry) (place_of self.entry) field }
    {
        let end = self.buf.u16_at(self.vtable) as usize;
        let from_vtable = 4 + 2 * field as usize;
        if from_vtable < end {
            self.buf.u16_at(self.vtable + from_vtable)
        } else {
            0
        }
    }

    /// The place of the field of `width` bytes, if it is there. Refuses Field at its entry in the
    /// vtable.
    #[tactic(auto, using(std::proofs::lemmas::Bool::Decides::nat_tests), unfolding(flat_layout::specs::Promises::BreaksField, flat_layout::specs::Layout::is_table, flat_layout::specs::Layout::is_absent, flat_layout::specs::Layout::is_field, flat_layout::specs::Layout::table_size, flat_layout::specs::Layout::field_place, flat_layout::specs::Layout::entry))]
    fn field(self, field: u16, width: usize) -> Result<Option<usize>, Broken>
        requires { width ≤ 8 }
        ensures { let b = bytes_of self.entry in let t = place_of self.entry in
            Judges (base_of self.entry) (BreaksField width b t field) (ShowsField width b t field) result }
    {
        let slot = self.slot_of(field) as usize;
        if slot == 0 {
            return Ok(None);
        }
        let size = self.buf.u16_at(self.vtable + 2) as usize;
        if slot < 4 || slot + width > size {
            let entry = self.vtable + 4 + 2 * field as usize;
            return Err(self.buf.broken(entry, Rule::Field));
        }
        Ok(Some(self.place + slot))
    }

    /// The byte of the field, or the default where the field is absent. Refuses Field.
    #[tactic(auto, unfolding(flat_layout::specs::Layout::number_in))]
    pub fn scalar_u8(self, field: u16, default: u8) -> Result<u8, Broken>
        ensures { let b = bytes_of self.entry in let t = place_of self.entry in
            Judges (base_of self.entry) (BreaksField 1 b t field) (λ x. x ≡ number_in 1 b t field default) result }
    {
        match self.field(field, 1)? {
            Some(at) => Ok(self.buf.u8_at(at)),
            None => Ok(default),
        }
    }

    /// The number of 2 bytes, or the default where the field is absent. Refuses Field.
    #[tactic(auto, unfolding(flat_layout::specs::Layout::number_in))]
    pub fn scalar_u16(self, field: u16, default: u16) -> Result<u16, Broken>
        ensures { let b = bytes_of self.entry in let t = place_of self.entry in
            Judges (base_of self.entry) (BreaksField 2 b t field) (λ x. x ≡ number_in 2 b t field default) result }
    {
        match self.field(field, 2)? {
            Some(at) => Ok(self.buf.u16_at(at)),
            None => Ok(default),
        }
    }

    /// The signed number of 4 bytes, or the default where the field is absent. Refuses Field.
    #[tactic(auto, unfolding(flat_layout::specs::Layout::signed_in))]
    pub fn scalar_i32(self, field: u16, default: i32) -> Result<i32, Broken>
        ensures { let b = bytes_of self.entry in let t = place_of self.entry in
            Judges (base_of self.entry) (BreaksField 4 b t field) (λ x. x ≡ signed_in b t field default) result }
    {
        match self.field(field, 4)? {
            Some(at) => Ok(self.buf.i32_at(at)),
            None => Ok(default),
        }
    }

    /// The number of 8 bytes, or the default where the field is absent. Refuses Field.
    #[tactic(auto, unfolding(flat_layout::specs::Layout::number_in))]
    pub fn scalar_u64(self, field: u16, default: u64) -> Result<u64, Broken>
        ensures { let b = bytes_of self.entry in let t = place_of self.entry in
            Judges (base_of self.entry) (BreaksField 8 b t field) (λ x. x ≡ number_in 8 b t field default) result }
    {
        match self.field(field, 8)? {
            Some(at) => Ok(self.buf.u64_at(at)),
            None => Ok(default),
        }
    }

    /// The vector of elements of `width` bytes each that the field leads to. Refuses Field, Offset or
    /// Vector.
    #[tactic(auto, using(flat_layout::proofs::Judging::exit), unfolding(flat_layout::specs::Promises::BreaksTo, flat_layout::specs::Layout::led_to))]
    pub fn vector(self, field: u16, width: u8) -> Result<Option<VecView<'a>>, Broken>
        requires { (width ≡ 1) ⊎ (width ≡ 4) ⊎ (width ≡ 8) }
        ensures { let b = bytes_of self.entry in let t = place_of self.entry in let base = base_of self.entry in
            Judges base (BreaksTo (BreaksVector width) b t field) (ShowsVector width b base t field) result }
    {
        match self.field(field, 4)? {
            Some(at) => Ok(Some(VecView::behind(self.buf, at, width)?)),
            None => Ok(None),
        }
    }

    /// The table that the field leads to. Refuses Field, Offset or Vtable.
    #[tactic(auto, using(flat_layout::proofs::Judging::exit), unfolding(flat_layout::specs::Promises::BreaksTo, flat_layout::specs::Layout::led_to))]
    pub fn table(self, field: u16) -> Result<Option<Table<'a>>, Broken>
        ensures { let b = bytes_of self.entry in let t = place_of self.entry in let base = base_of self.entry in
            Judges base (BreaksTo BreaksTable b t field) (ShowsTable b base t field) result }
    {
        match self.field(field, 4)? {
            Some(at) => Ok(Some(Table::behind(self.buf, at)?)),
            None => Ok(None),
        }
    }

    /// The vector of tables that the field leads to. Refuses Field, Offset or Vector.
    #[tactic(auto, using(flat_layout::proofs::Judging::exit), unfolding(flat_layout::specs::Promises::BreaksTo, flat_layout::specs::Layout::led_to))]
    pub fn tables(self, field: u16) -> Result<Option<TableVec<'a>>, Broken>
        ensures { let b = bytes_of self.entry in let t = place_of self.entry in let base = base_of self.entry in
            Judges base (BreaksTo (BreaksVector 4) b t field) (ShowsTables b base t field) result }
    {
        match self.field(field, 4)? {
            Some(at) => Ok(Some(TableVec::behind(self.buf, at)?)),
            None => Ok(None),
        }
    }

    /// The text of the string that the field leads to, without the zero byte behind it. Refuses Field,
    /// Offset, Vector, Zero or Utf8.
    #[tactic(auto, using(flat_layout::proofs::Judging::exit), unfolding(flat_layout::specs::Promises::BreaksTo, flat_layout::specs::Layout::led_to, flat_layout::specs::Layout::text_in))]
    pub fn string(self, field: u16) -> Result<Option<&'a str>, Broken>
        ensures { let b = bytes_of self.entry in let t = place_of self.entry in
            Judges (base_of self.entry) (BreaksTo BreaksText b t field)
            (λ o. option_map (λ s. s.now) o ≡ text_in b t field) result }
    {
        match self.field(field, 4)? {
            Some(at) => Ok(Some(text_behind(self.buf, at)?)),
            None => Ok(None),
        }
    }
}
