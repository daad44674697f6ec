// A visitor that writes texts.
ghost use Rattle.std.specs.Prelude.{◌≡◌, ◌≤◌, ◌++◌, [], None, Some, false, length, OnOk, OnErr, IsErrOf, option_map};
ghost use Rattle.byteorder.specs.Endian.{little_bytes};
ghost use Rattle.fgb_outside.specs.Source.{Rose};
ghost use Rattle.fgb_schema.specs.Headers.{Header, header_of};
ghost use Rattle.fgb_header.specs.Views.{header_shown};
ghost use Rattle.geometry_view.specs.Views.{geometry_shown};
ghost use Rattle.found_features.specs.Entries.{IsSound};
ghost use Rattle.found_features.specs.Lent.{entry_of};
ghost use Rattle.text_query.specs.Pages.{Adds, AddsPart};
ghost use Rattle.text_query.specs.Steps.{FailsStart, FailsStep, Starts, Stays, Steps, piece_under, shape_under, state_of, told_of};

use crate::digits::lay_digits;
use crate::front::front_of;
use crate::lines::lay_line;
use crate::output::Output;
use crate::page::Page;
use fgb_feature::geometry_under;
use fgb_header::HeaderView;
use fgb_outside::Sink;
use flat_builder::BuildError;
use found_features::{Found, VisitError, Visitor};
use geometry_view::GeometryView;
use header_info::HeaderInfo;
use std::alloc::Global;

/// Writes the text of the features that it is handed, in pieces. What is left on its page at the end is written by
/// [`finish`](crate::finish).
pub struct Writer<'o, W: Sink> {
    /// The sink that it writes to.
    pub out: &'o mut W,
    /// What it writes of each feature.
    pub output: Output,
    /// What is not written yet.
    pub page: Page,
    /// A line, before it is put on the page. The buffer is reused.
    pub line: Vec<u8>,
    /// The header under which geometries are read again, of WKB alone.
    pub header: Option<HeaderInfo>,
    /// Whether the header of a file is larger than the format lets it be.
    pub too_wide: bool,
    /// How often it has stopped.
    pub stops: u64,
    /// Where its buffers are taken from.
    pub alloc: Global,
}

impl<'o, W: Sink> Writer<'o, W> {
    /// Nothing is written yet. It takes no memory.
    pub fn new(alloc: Global, output: Output, out: &'o mut W) -> Writer<'o, W>
        ensures same_reference { result.out.ghost_name ≡ out.entry.ghost_name }
        ensures empty { result.page.bytes.items ≡ [] }
        ensures out { W.shown result.out.now ≡ W.shown out.old }
        ensures output { result.output ≡ output }
        ensures fits { result.too_wide ≡ false }
        ensures starts { result.stops ≡ 0 }
    {
        Writer {
            out,
            output,
            page: Page::new(alloc),
            line: Vec::new(alloc),
            header: None,
            too_wide: false,
            stops: 0,
            alloc,
        }
    }

    /// Lays the start and the header of a file onto the page.
    fn begin_file(&mut self, header: &HeaderView) -> Result<(), VisitError>
        requires { self.old.output ≡ Output.Fgb }
        ensures same { self.new.out.ghost_name ≡ self.old.out.ghost_name }
        ensures started { OnOk result (Starts (state_of (W.shown self.old.out.now) self.old) (header_shown header.now) (state_of (W.shown self.new.out.now) self.new)) }
        ensures failed { OnErr result (FailsStart (state_of (W.shown self.old.out.now) self.old) (header_shown header.now) (state_of (W.shown self.new.out.now) self.new)) }
        ensures later { self.old.stops ≤ self.new.stops }
        ensures stopped { IsErrOf result VisitError.Stopped → Rose self.old.stops self.new.stops }
    {
        match front_of(self.alloc, header) {
            Ok(front) => {
                self.page.bytes = front;
                Ok(())
            }
            Err(BuildError::Memory) => Err(VisitError::Memory),
            Err(BuildError::TooLarge) => {
                self.too_wide = true;
                self.stops = self.stops.saturating_add(1);
                Err(VisitError::Stopped)
            }
        }
    }

    /// Writes the piece of a feature, or puts it on the page.
    fn put(&mut self, found: &Found) -> Result<(), VisitError>
        requires sound { (header : Header) → told_of self.old.output self.old.header ≡ Some header → IsSound header (entry_of found.now) }
        ensures same { self.new.out.ghost_name ≡ self.old.out.ghost_name }
        ensures stays { Stays (state_of (W.shown self.old.out.now) self.old) (state_of (W.shown self.new.out.now) self.new) }
        ensures stops { self.new.stops ≡ self.old.stops }
        ensures ok { OnOk result (Adds (W.shown self.old.out.now) (W.shown self.new.out.now) self.old.page.bytes.items self.new.page.bytes.items
            (piece_under self.old.output (told_of self.old.output self.old.header) (entry_of found.now))) }
        ensures err { OnErr result (AddsPart (W.shown self.old.out.now) (W.shown self.new.out.now) self.old.page.bytes.items self.new.page.bytes.items
            (piece_under self.old.output (told_of self.old.output self.old.header) (entry_of found.now))) }
        ensures stopped { IsErrOf result VisitError.Stopped → Rose (W.shown self.old.out.now).faults (W.shown self.new.out.now).faults }
    {
        match self.output {
            Output::Lines => {
                lay_line(&mut self.line, found)?;
                self.page.put(self.out, &self.line)
            }
            Output::Fgb => put_copy(&mut self.page, self.out, found.bytes),
            Output::Wkb => {
                let geometry = geometry_of(&self.header, found);
                lay_digits(&mut self.line, self.alloc, geometry)?;
                self.page.put(self.out, &self.line)
            }
        }
    }
}

/// Writes a feature's buffer with its size prefix, unchanged.
fn put_copy<W: Sink>(page: &mut Page, out: &mut W, buffer: &[u8]) -> Result<(), VisitError>
    ensures ok { OnOk result (Adds (W.shown out.old) (W.shown out.new) page.old.bytes.items page.new.bytes.items (little_bytes 4 (length buffer.now) ++ buffer.now)) }
    ensures err { OnErr result (AddsPart (W.shown out.old) (W.shown out.new) page.old.bytes.items page.new.bytes.items (little_bytes 4 (length buffer.now) ++ buffer.now)) }
    ensures stopped { IsErrOf result VisitError.Stopped → Rose (W.shown out.old).faults (W.shown out.new).faults }
{
    // a feature that was read has fewer than 2^28 bytes
    let size = (buffer.len() as u64).to_le_bytes();
    page.put(out, &size[..4])?;
    page.put(out, buffer)
}

/// The geometry of a feature that was read under the header, or none where no header was told.
fn geometry_of<'a>(header: &Option<HeaderInfo>, found: &Found<'a>) -> Option<GeometryView<'a>>
    requires { (h : Header) → header.now ≡ Some h → IsSound h (entry_of found.now) }
    ensures { option_map geometry_shown result ≡ shape_under header.now found.now.bytes.now }
{
    let Some(header) = header else {
        return None;
    };
    match geometry_under(found.bytes, 0, header.geometry_type()) {
        Ok(geometry) => geometry,
        Err(_) => unreachable!(),
    }
}

/// It stops where the sink fails, and where the header of a file is too wide.
impl<'o, W: Sink> Visitor for Writer<'o, W> {
    ghost start = { λ v h w. (w.out.ghost_name ≡ v.out.ghost_name) × Starts (state_of (W.shown v.out.now) v) h (state_of (W.shown w.out.now) w) };

    ghost failed_start = { λ v h w. (w.out.ghost_name ≡ v.out.ghost_name) × FailsStart (state_of (W.shown v.out.now) v) (header_of h.bytes) (state_of (W.shown w.out.now) w) };

    ghost step = { λ v e w. (w.out.ghost_name ≡ v.out.ghost_name) × Steps (state_of (W.shown v.out.now) v) e (state_of (W.shown w.out.now) w) };

    ghost failed_step = { λ v e w. (w.out.ghost_name ≡ v.out.ghost_name) × FailsStep (state_of (W.shown v.out.now) v) e (state_of (W.shown w.out.now) w) };

    ghost stops = { λ v. v.stops };

    ghost told = { λ v. told_of v.output v.header };

    fn begin(&mut self, header: &HeaderView) -> Result<(), VisitError> {
        match self.output {
            Output::Lines => Ok(()),
            Output::Fgb => self.begin_file(header),
            Output::Wkb => {
                self.header = Some(HeaderInfo::of(self.alloc, header)?);
                Ok(())
            }
        }
    }

    fn take(&mut self, found: &Found) -> Result<(), VisitError> {
        match self.put(found) {
            Ok(()) => Ok(()),
            Err(VisitError::Memory) => Err(VisitError::Memory),
            Err(VisitError::Stopped) => {
                self.stops = self.stops.saturating_add(1);
                Err(VisitError::Stopped)
            }
        }
    }
}
