// The head of a value: its byte order, its type and the number of its reference system.
ghost use Rattle.std.specs.Prelude.{◌≡◌, ◌≢◌, ◌≤◌, ◌<◌, ◌+◌, ◌||◌, true, ℕ, IfErr, IfOk, IsTrue, MatchOption, OnOk, if◌then◌else◌};
ghost use Rattle.fgb_schema.specs.Tables.{is_kind};
ghost use Rattle.geometry_view.specs.Kinds.{number_of};
ghost use Rattle.wkb_writer.specs.Wkb.{type_number};
ghost use Rattle.wkb_writer.specs.declared.dimension.Dimension.{Dimension as Dimensions};
ghost use Rattle.wkb_reader.specs.Broken.{BreaksHead, IsNoType, Misfits, Suits, takes_kind};
ghost use Rattle.wkb_reader.specs.Heads.{Says, Splits, TakesHead, TakesSrid, order_of, standing_of};
ghost use Rattle.wkb_reader.specs.Refusals.{IsCut, Refuses};

use crate::cursor::{Cursor, Order, refused};
use flat_views::Rule;
use geometry_view::Kind;
use wkb_writer::{Dialect, Dimension, WkbError};

/// The deepest level of a geometry, where the outermost stands at 1.
const DEEPEST: usize = 16;

/// The bits of a type of EWKB that say that there are z, m and the number of a reference system. (PostGIS, "Extended WKB")
const Z_FLAG: u32 = 0x8000_0000;

const M_FLAG: u32 = 0x4000_0000;

const SRID_FLAG: u32 = 0x2000_0000;

/// What stands in front of a body.
#[derive(Clone, Copy)]
pub(crate) struct Head {
    pub(crate) order: Order,
    pub(crate) kind: Kind,
    pub(crate) dimension: Dimension,
}

/// What the number of a type says.
#[derive(Clone, Copy)]
struct TypeFound {
    kind: Kind,
    dimension: Dimension,
    has_srid: bool,
}

/// The flags of a type.
#[derive(Clone, Copy)]
struct Flags {
    z: bool,
    m: bool,
    srid: bool,
}

/// A value stands alone, or is a member of one of this kind and dimension.
#[derive(Clone, Copy)]
pub(crate) enum Standing {
    Alone,
    MemberOf(Kind, Dimension),
}

/// Takes the head of a value at this level. Refuses WkbEnd, WkbOrder, WkbDepth, WkbType, WkbMember, WkbDimension.
pub(crate) fn take_head(
    cursor: &mut Cursor,
    dialect: Dialect,
    level: usize,
    standing: Standing,
) -> Result<Head, WkbError>
    ensures ok { IfOk result (λ head. TakesHead dialect cursor.old cursor.new (order_of head.order) (number_of head.kind) head.dimension) }
    ensures suits { IfOk result (λ head. Suits (standing_of standing) (number_of head.kind) head.dimension) }
    ensures shallow { OnOk result (level ≤ 16) }
    ensures err { IfErr result (Refuses cursor.old.at (BreaksHead dialect level (standing_of standing) cursor.old.rest.now)) }
{
    let start = cursor.at;
    let order = cursor.order()?;
    if level > DEEPEST {
        return Err(refused(start, Rule::WkbDepth));
    }
    let place = cursor.at;
    let number = cursor.word(order)?;
    let Some(found) = type_of(dialect, number) else {
        return Err(refused(place, Rule::WkbType));
    };
    if let Some(rule) = misfit(standing, found.kind, found.dimension) {
        return Err(refused(start, rule));
    }
    pass_srid(cursor, order, found.has_srid)?;
    Ok(Head {
        order,
        kind: found.kind,
        dimension: found.dimension,
    })
}

/// Takes the number of a reference system, if there is one, which is not kept. Refuses WkbEnd.
fn pass_srid(cursor: &mut Cursor, order: Order, has_srid: bool) -> Result<(), WkbError>
    ensures ok { OnOk result (TakesSrid cursor.old cursor.new (order_of order) has_srid) }
    ensures there { IfErr result (λ _. has_srid ≡ true) }
    ensures err { IfErr result (Refuses cursor.old.at (IsCut 4 cursor.old.rest.now)) }
{
    if has_srid {
        let _srid = cursor.word(order)?;
    }
    Ok(())
}

/// What the number of a type says in a dialect.
fn type_of(dialect: Dialect, number: u32) -> Option<TypeFound>
    ensures { MatchOption result (IsNoType dialect number) (Says dialect number) }
{
    let (flags, low) = flags_of(dialect, number);
    let (kind, thousands) = without_flags(low)?;
    Some(TypeFound {
        kind,
        dimension: either(flags, thousands),
        has_srid: flags.srid,
    })
}

/// What flags or thousands say of z and m.
fn either(flags: Flags, thousands: Dimension) -> Dimension
    ensures { result ≡ record { z = flags.z || thousands.z; m = flags.m || thousands.m } }
{
    Dimension {
        z: flags.z || thousands.z,
        m: flags.m || thousands.m,
    }
}

/// The flags in the number of a type, and what is below them.
fn flags_of(dialect: Dialect, number: u32) -> (Flags, u32)
    ensures { Splits dialect number result.1 result.0 }
{
    match dialect {
        Dialect::Iso => {
            let (z, m, srid) = (false, false, false);
            (Flags { z, m, srid }, number)
        }
        Dialect::Extended => {
            let (z, rest) = highest(number, Z_FLAG);
            let (m, rest) = highest(rest, M_FLAG);
            let (srid, low) = highest(rest, SRID_FLAG);
            (Flags { z, m, srid }, low)
        }
    }
}

/// Whether a number has this flag, which is the highest that it can have, and the number without it.
fn highest(number: u32, flag: u32) -> (bool, u32)
    requires { number < flag + flag }
    ensures all { number ≡ result.1 + (if result.0 then flag else 0) }
    ensures low { result.1 < flag }
{
    if number < flag {
        (false, number)
    } else {
        (true, number - flag)
    }
}

/// The kind and the dimension that the number of a type says without flags.
fn without_flags(number: u32) -> Option<(Kind, Dimension)>
    ensures { MatchOption result ((kind : ℕ) (d : Dimensions) → IsTrue (is_kind kind) → number ≢ type_number kind d)
        (λ found. number ≡ type_number (number_of found.0) found.1) }
{
    let rest = number % 1000;
    let thousands = number / 1000;
    if rest > 7 || thousands > 3 {
        return None;
    }
    let kind = Kind::of(rest as u8)?;
    let dimension = Dimension {
        z: thousands % 2 == 1,
        m: thousands > 1,
    };
    Some((kind, dimension))
}

/// The rule that a value of this kind and dimension breaks where it stands, if there is one.
fn misfit(standing: Standing, kind: Kind, dimension: Dimension) -> Option<Rule>
    ensures { MatchOption result (Suits (standing_of standing) (number_of kind) dimension)
        (Misfits (standing_of standing) (number_of kind) dimension) }
{
    let Standing::MemberOf(outer, outer_dimension) = standing else {
        return None;
    };
    if !takes(outer, kind) {
        return Some(Rule::WkbMember);
    }
    if dimension != outer_dimension {
        return Some(Rule::WkbDimension);
    }
    None
}

/// Whether a value of the outer kind can have a member of this one.
fn takes(outer: Kind, kind: Kind) -> bool
    ensures { result ≡ takes_kind (number_of outer) (number_of kind) }
{
    match outer {
        Kind::GeometryCollection => true,
        Kind::MultiPoint => matches!(kind, Kind::Point),
        Kind::MultiLineString => matches!(kind, Kind::LineString),
        Kind::MultiPolygon => matches!(kind, Kind::Polygon),
        _ => false,
    }
}
