ghost use Rattle.std.specs.Prelude.{◌≡◌, ◌⊎◌, ◌+◌, ◌*◌, ◌/◌, ◌<◌, ◌≤◌, ◌^◌, true, Some, IsTrue, ⊤};
ghost use Rattle.std.specs.List.{All};
ghost use Rattle.std.specs.Option.{ForSome};
ghost use Rattle.flat_layout.specs.Layout.{count, longs};
ghost use Rattle.flat_layout.specs.Promises.{Judges};
ghost use Rattle.flat_views.specs.Tables.{base_of, bytes_of, place_of};
ghost use Rattle.flat_views.specs.Vectors.{vector_base, vector_bytes, vector_place, vector_width};
ghost use Rattle.order_keys.specs.Keys.{is_finite};
ghost use Rattle.fgb_schema.specs.Paths.{BreaksPairs};
ghost use Rattle.geometry_view.specs.Fits.{counted, tables_counted, BreaksCount, BreaksFinite, BreaksRead, BreaksRings, JudgesSome, ShowsRead, ShowsReadTables};
ghost use Rattle.geometry_view.specs.Kinds.{number_of};

use crate::kind::Kind;
use flat_views::{Broken, Rule, Table, TableVec, VecView};
use order_keys::Coord;

/// The fields of the schema (FlatGeobuf, feature.fbs, table Geometry).
pub(crate) const ENDS: u16 = 0;

pub(crate) const XY: u16 = 1;

pub(crate) const Z: u16 = 2;

pub(crate) const M: u16 = 3;

pub(crate) const T: u16 = 4;

pub(crate) const TM: u16 = 5;

/// Read only where it decides.
pub(crate) const TYPE: u16 = 6;

pub(crate) const PARTS: u16 = 7;

/// The vectors of a geometry and its list of parts, each absent where its type does not have it.
#[derive(Clone, Copy)]
pub(crate) struct Lists<'a> {
    pub(crate) ends: Option<VecView<'a>>,
    pub(crate) xy: Option<VecView<'a>>,
    pub(crate) z: Option<VecView<'a>>,
    pub(crate) m: Option<VecView<'a>>,
    pub(crate) t: Option<VecView<'a>>,
    pub(crate) tm: Option<VecView<'a>>,
    pub(crate) parts: Option<TableVec<'a>>,
    pub ghost ends_wide: { ForSome ends (λ v. vector_width v ≡ 4) },
    pub ghost xy_wide: { ForSome xy (λ v. vector_width v ≡ 8) },
    pub ghost z_wide: { ForSome z (λ v. vector_width v ≡ 8) },
    pub ghost m_wide: { ForSome m (λ v. vector_width v ≡ 8) },
    pub ghost t_wide: { ForSome t (λ v. vector_width v ≡ 8) },
    pub ghost tm_wide: { ForSome tm (λ v. vector_width v ≡ 8) },
}

// Much of what follows is inlined: handed from call to call, the lists of a small geometry cost as much as reading it.
impl<'a> Lists<'a> {
    ghost use Rattle.std.specs.Prelude.{IfOk};
    ghost use Rattle.flat_layout.specs.Promises.{IsClean};
    ghost use Rattle.geometry_view.specs.Lists.{AreFinite, BreaksFit, BreaksVectors, ShowsLists, weight_shown};

    /// The lists that the table of a geometry of this type leads to. Refuses Field, Offset or Vector.
    #[inline(always)]
    pub(crate) fn read(table: Table<'a>, kind: Kind) -> Result<Lists<'a>, Broken>
        ensures { let b = bytes_of table.entry in let t = place_of table.entry in
            Judges (base_of table.entry) (BreaksVectors (number_of kind) b t) (ShowsLists (number_of kind) b (base_of table.entry) t) result }
    {
        let has_points = kind.has_points();
        let ends = vector_if(kind.has_rings(), table, ENDS, 4)?;
        let xy = vector_if(has_points, table, XY, 8)?;
        let z = vector_if(has_points, table, Z, 8)?;
        let m = vector_if(has_points, table, M, 8)?;
        let t = vector_if(has_points, table, T, 8)?;
        let tm = vector_if(has_points, table, TM, 8)?;
        let parts = tables_if(kind.has_parts(), table, PARTS)?;
        Ok(Lists {
            ends,
            xy,
            z,
            m,
            t,
            tm,
            parts,
        })
    }

    /// How many points there are.
    fn points(self) -> usize
        ensures { result ≡ counted self.entry.xy / 2 }
    {
        match self.xy {
            Some(xy) => xy.len() / 2,
            None => 0,
        }
    }

    /// What the table and its vectors weigh, without the parts themselves.
    #[inline(always)]
    pub(crate) fn weight(self) -> u64
        ensures { result ≡ weight_shown self.entry }
    {
        let ordinates = size_of(self.z, 8)
            + size_of(self.m, 8)
            + size_of(self.t, 8)
            + size_of(self.tm, 8);
        4 + size_of(self.ends, 4) + size_of(self.xy, 8) + ordinates + size_of_tables(self.parts)
    }

    /// Judges the lists that were read of a table. Refuses PairCount, PointCount, NotFinite, Ends or
    /// Ordinates.
    #[inline(always)]
    pub(crate) fn judge(self, table: Table, kind: Kind) -> Result<(), Broken>
        requires shows { ShowsLists (number_of kind) (bytes_of table) (base_of table) (place_of table) self }
        requires clean { IsClean (BreaksVectors (number_of kind) (bytes_of table) (place_of table)) }
        ensures fit { Judges (base_of table.entry) (BreaksFit (number_of kind) (bytes_of table.entry) (place_of table.entry)) (λ _. ⊤) result }
        ensures finite { IfOk result (λ _. AreFinite self.entry.xy) }
    {
        let points = self.points();
        judge_pairs(self.xy, kind)?;
        judge_ends(self.ends, points)?;
        judge_count(self.z, points)?;
        judge_count(self.m, points)?;
        judge_count(self.t, points)?;
        judge_count(self.tm, points)
    }
}

/// The vector that a field leads to, where the field is read at all. Refuses Field, Offset or Vector.
#[inline(always)]
pub(crate) fn vector_if<'a>(
    is_read: bool,
    table: Table<'a>,
    field: u16,
    width: u8,
) -> Result<Option<VecView<'a>>, Broken>
    requires { (width ≡ 4) ⊎ (width ≡ 8) }
    ensures { let b = bytes_of table.entry in let t = place_of table.entry in let base = base_of table.entry in
        Judges base (BreaksRead is_read width b t field) (ShowsRead is_read width b base t field) result }
{
    if is_read {
        table.vector(field, width)
    } else {
        Ok(None)
    }
}

/// The vector of tables that a field leads to, where the field is read at all. Refuses Field, Offset or
/// Vector.
#[inline(always)]
pub(crate) fn tables_if<'a>(
    is_read: bool,
    table: Table<'a>,
    field: u16,
) -> Result<Option<TableVec<'a>>, Broken>
    ensures { let b = bytes_of table.entry in let t = place_of table.entry in let base = base_of table.entry in
        Judges base (BreaksRead is_read 4 b t field) (ShowsReadTables is_read b base t field) result }
{
    if is_read {
        table.tables(field)
    } else {
        Ok(None)
    }
}

/// The bytes of the elements of a vector, `width` bytes each, or 0 where there is none.
#[inline(always)]
fn size_of(vector: Option<VecView>, width: u8) -> u64
    requires wide { ForSome vector (λ v. vector_width v ≡ width) }
    ensures value { result ≡ width * counted vector.entry }
    ensures small { result ≤ 2 ^ 28 }
{
    match vector {
        Some(vector) => u64::from(width) * vector.len() as u64,
        None => 0,
    }
}

/// The bytes of the entries of a list of tables, or 0 where there is none.
#[inline(always)]
fn size_of_tables(tables: Option<TableVec>) -> u64
    ensures value { result ≡ 4 * tables_counted tables.entry }
    ensures small { result ≤ 2 ^ 28 }
{
    match tables {
        Some(tables) => 4 * tables.len() as u64,
        None => 0,
    }
}

/// Judges the points, where there are some. Refuses PairCount, PointCount or NotFinite.
#[inline(always)]
fn judge_pairs(xy: Option<VecView>, kind: Kind) -> Result<(), Broken>
    requires { ForSome xy (λ v. vector_width v ≡ 8) }
    ensures { JudgesSome (BreaksPairs (number_of kind)) (λ b v. All (λ x. IsTrue (is_finite x)) (longs b v)) xy.entry result }
{
    match xy {
        Some(xy) => pairs_fit(xy, kind),
        None => Ok(()),
    }
}

/// Judges the vector of points: its count is even, a Point has one point at most, and each number is
/// finite. Refuses PairCount, PointCount or NotFinite.
fn pairs_fit(xy: VecView, kind: Kind) -> Result<(), Broken>
    requires { vector_width xy ≡ 8 }
    ensures { let b = vector_bytes xy.entry in let v = vector_place xy.entry in
        Judges (vector_base xy.entry) (BreaksPairs (number_of kind) b v) (λ _. All (λ x. IsTrue (is_finite x)) (longs b v)) result }
{
    let count = xy.len();
    if count % 2 == 1 {
        return Err(Broken {
            place: xy.place(),
            rule: Rule::PairCount,
        });
    }
    if kind.is_point() && count > 2 {
        return Err(Broken {
            place: xy.place(),
            rule: Rule::PointCount,
        });
    }
    all_finite(xy)
}

/// Each number of a vector is finite. Refuses NotFinite at the first that is not.
fn all_finite(xy: VecView) -> Result<(), Broken>
    requires { vector_width xy ≡ 8 }
    ensures { let b = vector_bytes xy.entry in let v = vector_place xy.entry in
        Judges (vector_base xy.entry) (BreaksFinite b v) (λ _. All (λ x. IsTrue (is_finite x)) (longs b v)) result }
{
    for i in 0..xy.len() {
        if !Coord(xy.at_u64(i)).is_finite() {
            return Err(Broken {
                place: xy.place() + 4 + 8 * i as u64,
                rule: Rule::NotFinite,
            });
        }
    }
    Ok(())
}

/// Judges the ends of the rings, where there are some. Refuses Ends.
#[inline(always)]
fn judge_ends(ends: Option<VecView>, points: usize) -> Result<(), Broken>
    requires { ForSome ends (λ v. vector_width v ≡ 4) }
    ensures { JudgesSome (BreaksRings points) (λ _ _. ⊤) ends.entry result }
{
    match ends {
        Some(ends) => ends_fit(ends, points),
        None => Ok(()),
    }
}

/// Judges the vector of ends: it does not descend, and the last is the number of points. Refuses Ends.
fn ends_fit(ends: VecView, points: usize) -> Result<(), Broken>
    requires { vector_width ends ≡ 4 }
    ensures { let b = vector_bytes ends.entry in let v = vector_place ends.entry in
        Judges (vector_base ends.entry) (BreaksRings points b v) (λ _. ⊤) result }
{
    let refusal = Broken {
        place: ends.place(),
        rule: Rule::Ends,
    };
    let mut last = 0;
    for i in 0..ends.len() {
        let end = ends.at_u32(i) as usize;
        if end < last {
            return Err(refusal);
        }
        last = end;
    }
    if ends.len() > 0 && last != points {
        return Err(refusal);
    }
    Ok(())
}

/// Judges the count of some ordinates, where there are any. Refuses Ordinates.
#[inline(always)]
fn judge_count(ordinates: Option<VecView>, points: usize) -> Result<(), Broken>
    ensures { JudgesSome (BreaksCount points) (λ _ _. ⊤) ordinates.entry result }
{
    match ordinates {
        Some(ordinates) => count_fits(ordinates, points),
        None => Ok(()),
    }
}

/// A vector of ordinates is empty, or has one for each point. Refuses Ordinates.
#[inline(always)]
fn count_fits(ordinates: VecView, points: usize) -> Result<(), Broken>
    ensures { let b = vector_bytes ordinates.entry in let v = vector_place ordinates.entry in
        Judges (vector_base ordinates.entry) (BreaksCount points b v) (λ _. ⊤) result }
{
    let count = ordinates.len();
    if count == 0 || count == points {
        return Ok(());
    }
    Err(Broken {
        place: ordinates.place(),
        rule: Rule::Ordinates,
    })
}
