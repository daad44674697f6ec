// The public calls.
ghost use Rattle.std.specs.Prelude.{◌≡◌, ◌≤◌, ℕ, take, length, IfErr, IfOk};
ghost use Rattle.fgb_schema.specs.Shapes.{Shape as Tree};
ghost use Rattle.wkb_grammar.specs.Wkb.{Ewkb, IsValueOf, Wkb};
ghost use Rattle.wkb_writer.specs.declared.error.WkbError.TheVariants.{Memory};
ghost use Rattle.wkb_reader.specs.Broken.{BreaksEwkb, BreaksFront, BreaksWhole, BreaksWkb};
ghost use Rattle.wkb_reader.specs.Refusals.{Names, is_end, stopped};

use crate::cursor::{Cursor, refused};
use crate::head::Standing;
use crate::value::take_value;
use flat_views::Rule;
use owned_shape::Shape;
use std::alloc::Global;
use wkb_writer::{Dialect, WkbError};

/// The most bytes of a value.
const MOST: usize = 268_435_456;

/// Reads a WKB value, which is all of the bytes, as a shape. (OGC 06-103r4, section 8.2)
///
/// Where the bytes are no value it names what is broken: WkbSize, WkbEnd, WkbOrder, WkbType, WkbMember, WkbDimension,
/// WkbDepth, NotFinite or WkbRest.
pub fn read_wkb(alloc: Global, bytes: &[u8]) -> Result<Shape, WkbError>
    // What is read is a value of this shape.
    ensures value { IfOk result (λ shape. Wkb shape bytes.now) }
    // What is no value is refused by the first broken rule.
    ensures refused { IfErr result (Names (BreaksWkb bytes.now)) }
    // A value is read, unless memory runs out.
    ensures only_memory { (g : Tree) → Wkb g bytes.now → IfErr result (λ e. e ≡ Memory) }
{
    read(alloc, Dialect::Iso, bytes)
}

/// Reads an EWKB value, which is all of the bytes, as a shape. Numbers of reference systems are read and not kept. A WKB
/// value is one too. (PostGIS, "Extended WKB")
///
/// Where the bytes are no value it names what is broken: WkbSize, WkbEnd, WkbOrder, WkbType, WkbMember, WkbDimension,
/// WkbDepth, NotFinite or WkbRest.
pub fn read_ewkb(alloc: Global, bytes: &[u8]) -> Result<Shape, WkbError>
    // What is read is a value of this shape.
    ensures value { IfOk result (λ shape. Ewkb shape bytes.now) }
    // What is no value is refused by the first broken rule.
    ensures refused { IfErr result (Names (BreaksEwkb bytes.now)) }
    // A value is read, unless memory runs out.
    ensures only_memory { (g : Tree) → Ewkb g bytes.now → IfErr result (λ e. e ≡ Memory) }
{
    read(alloc, Dialect::Extended, bytes)
}

/// Reads a value of a dialect, which is all of the bytes, as a shape.
fn read(alloc: Global, dialect: Dialect, bytes: &[u8]) -> Result<Shape, WkbError>
    ensures value { IfOk result (λ shape. IsValueOf dialect shape bytes.now) }
    ensures refused { IfErr result (Names (BreaksWhole dialect bytes.now)) }
    ensures only_memory { (g : Tree) → IsValueOf dialect g bytes.now → IfErr result (λ e. e ≡ Memory) }
{
    if bytes.len() > MOST {
        return Err(refused(0, Rule::WkbSize));
    }
    let mut cursor = Cursor { rest: bytes, at: 0 };
    let shape = take_value(alloc, &mut cursor, dialect, 1, Standing::Alone)?;
    if !cursor.is_at_end() {
        return Err(refused(cursor.at, Rule::WkbRest));
    }
    Ok(shape)
}

/// Reads the WKB value at the front of the bytes as a shape, and says how many bytes it has.
///
/// Where no front of the bytes is a value it names what is broken: WkbSize, WkbEnd, WkbOrder, WkbType, WkbMember,
/// WkbDimension, WkbDepth or NotFinite.
pub fn read_wkb_front(alloc: Global, bytes: &[u8]) -> Result<(Shape, usize), WkbError>
    // So many bytes are a value of this shape.
    ensures inside { IfOk result (λ found. found.1 ≤ length bytes.now) }
    ensures value { IfOk result (λ found. Wkb found.0 (take found.1 bytes.now)) }
    // What begins with no value is refused by the first broken rule.
    ensures refused { IfErr result (Names (BreaksFront bytes.now)) }
    // What begins with a value is read, unless memory runs out.
    ensures only_memory { (g : Tree) (n : ℕ) → n ≤ length bytes.now → Wkb g (take n bytes.now) → IfErr result (λ e. e ≡ Memory) }
{
    let front = &bytes[..bytes.len().min(MOST)];
    let mut cursor = Cursor { rest: front, at: 0 };
    match take_value(alloc, &mut cursor, Dialect::Iso, 1, Standing::Alone) {
        Ok(shape) => Ok((shape, cursor.at)),
        Err(stop) => Err(stop_within(stop, bytes.len())),
    }
}

/// Why no value is read of so many bytes, where this is why none is read of the most that a value can have.
fn stop_within(stop: WkbError, size: usize) -> WkbError
    ensures { result ≡ stopped stop size }
{
    if size > MOST && is_end(stop) {
        refused(0, Rule::WkbSize)
    } else {
        stop
    }
}

/// Whether the bytes ended inside an item.
fn is_end(stop: WkbError) -> bool
    ensures { result ≡ is_end stop }
{
    match stop {
        WkbError::Refused(broken) => matches!(broken.rule, Rule::WkbEnd),
        WkbError::Memory => false,
    }
}
