// A WKB file read as shapes.
ghost use Rattle.std.specs.Prelude.{◌≡◌, ◌+◌, [], ◌∷◌, ◌++◌, ◌≤◌, ◌<◌, ℕ, List, take, length, Err, IfOk, IfErr, OnOk, IsErrOf};
ghost use Rattle.std.specs.List.{All};
ghost use Rattle.fgb_outside.specs.Source.{IfTold, Keeps, Rose};
ghost use Rattle.fgb_schema.specs.Shapes.{Shape as Tree};
ghost use Rattle.read_stop.specs.Stops.{IfRefused};
ghost use Rattle.read_stop.specs.declared.stop.ReadStop.TheVariants.{Refused};
ghost use Rattle.wkb_grammar.specs.Wkb.{Wkb};
ghost use Rattle.wkb_writer.specs.declared.error.WkbError.TheVariants.{Memory};
ghost use Rattle.wkb_reader.specs.Broken.{BreaksFront};
ghost use Rattle.wkb_reader.specs.Refusals.{Names, Refuses};
ghost use Rattle.wkb_file.specs.Broken.{BreaksWkbFile};
ghost use Rattle.wkb_file.specs.Reads.{IsFault, IsRead};
ghost use Rattle.wkb_file.specs.Spellings.{HasWkb};
ghost use Rattle.wkb_file.specs.Values.{IsWkbFile};

use fgb_outside::RangeSource;
use flat_views::{Broken, Rule};
use owned_shape::Shape;
use read_stop::ReadStop;
use section_window::Window;
use std::alloc::{AllocError, Global};
use wkb_reader::read_wkb_front;
use wkb_writer::WkbError;

/// The most bytes of a WKB file.
const MOST: u64 = 268_435_456;

/// Reads the shapes of the values of a WKB file, in order. All of it is read, in pieces of up to 1 MiB, and nothing where
/// it has too many bytes.
///
/// Bytes that are no such file are refused by what is broken: WkbSize, or a rule of the first bytes that begin with no
/// value, with its place in the file.
pub fn read_values<S: RangeSource>(alloc: Global, source: &mut S) -> Result<Vec<Shape>, ReadStop>
    // What is read is a WKB file of these shapes.
    ensures values { IfOk result (λ shapes. IfTold (S.seen source.old) (IsWkbFile shapes.items)) }
    // Each of them can be written.
    ensures spelled { IfOk result (λ shapes. All HasWkb shapes.items) }
    // What is none is refused by the rule that is broken.
    ensures refused { IfRefused result (λ broken. IfTold (S.seen source.old) (λ image. BreaksWkbFile image broken.place broken.rule)) }
    // Such a file is read, unless the source fails or memory runs out.
    ensures only_faults { IfTold (S.seen source.old) (λ image. (shapes : List Tree) → IsWkbFile shapes image → IfErr result IsFault) }
    // A source that is too long is refused, and nothing is read.
    ensures large { 268435456 < (S.seen source.old).size → result ≡ Err (Refused (record { place = 0; rule = Rule.WkbSize })) }
    ensures large_unread { 268435456 < (S.seen source.old).size → source.new ≡ source.old }
    ensures keeps { Keeps (S.seen source.old) (S.seen source.new) }
    ensures failed { IsErrOf result ReadStop.SourceFailed → Rose (S.seen source.old).faults (S.seen source.new).faults }
{
    let size = source.size();
    if size > MOST {
        return Err(ReadStop::Refused(Broken {
            place: 0,
            rule: Rule::WkbSize,
        }));
    }
    let mut window = Window::new(alloc, 0, size);
    window.fill(source, size as usize)?;
    stops_reading(values_in(alloc, window.bytes()))
}

/// What was read, or why reading stops where bytes are no file.
fn stops_reading(read: Result<Vec<Shape>, WkbError>) -> Result<Vec<Shape>, ReadStop>
    ensures { IsRead read result }
{
    match read {
        Ok(shapes) => Ok(shapes),
        Err(WkbError::Refused(broken)) => Err(ReadStop::Refused(broken)),
        Err(WkbError::Memory) => Err(ReadStop::Memory),
    }
}

/// The shapes of the values of a WKB file of these bytes, in order. Bytes that are no such file are refused by what is
/// broken.
pub fn values_in(alloc: Global, bytes: &[u8]) -> Result<Vec<Shape>, WkbError>
    ensures values { IfOk result (λ shapes. IsWkbFile shapes.items bytes.now) }
    ensures spelled { IfOk result (λ shapes. All HasWkb shapes.items) }
    ensures refused { IfErr result (Names (BreaksWkbFile bytes.now)) }
    ensures only_memory { (shapes : List Tree) → IsWkbFile shapes bytes.now → IfErr result (λ e. e ≡ Memory) }
{
    if bytes.len() as u64 > MOST {
        return Err(WkbError::Refused(Broken {
            place: 0,
            rule: Rule::WkbSize,
        }));
    }
    let mut shapes = Vec::new(alloc);
    let mut at = 0;
    while at < bytes.len() {
        let (shape, length) = read_front(alloc, &bytes[at..], at)?;
        add(&mut shapes, shape)?;
        at += length;
    }
    Ok(shapes)
}

/// One shape more.
fn add(shapes: &mut Vec<Shape>, shape: Shape) -> Result<(), AllocError>
    ensures { OnOk result (shapes.new.items ≡ shapes.old.items ++ shape ∷ []) }
{
    shapes.push(shape)?;
    Ok(())
}

/// The shape of the value that the bytes begin with, which stand at this place, and how many bytes it has.
fn read_front(alloc: Global, bytes: &[u8], at: usize) -> Result<(Shape, usize), WkbError>
    requires { at + length bytes.now ≤ 268435456 }
    ensures inside { IfOk result (λ found. found.1 ≤ length bytes.now) }
    ensures value { IfOk result (λ found. Wkb found.0 (take found.1 bytes.now)) }
    ensures some { IfOk result (λ found. 0 < found.1) }
    ensures refused { IfErr result (Refuses at (BreaksFront bytes.now)) }
    ensures only_memory { (g : Tree) (n : ℕ) → n ≤ length bytes.now → Wkb g (take n bytes.now) → IfErr result (λ e. e ≡ Memory) }
{
    match read_wkb_front(alloc, bytes) {
        Ok(found) => Ok(found),
        Err(WkbError::Refused(broken)) => Err(WkbError::Refused(Broken {
            place: at as u64 + broken.place,
            rule: broken.rule,
        })),
        Err(WkbError::Memory) => Err(WkbError::Memory),
    }
}
