// Writing what was planned.
ghost use Rattle.std.specs.Prelude.{◌≡◌, ◌≤◌, ◌++◌, OnOk, OnErr, IsErrOf};
ghost use Rattle.std.specs.List.{concat};
ghost use Rattle.fgb_outside.specs.Source.{Rose};
ghost use Rattle.fgb_outside.specs.Sink.{Appends, AppendsPart};
ghost use Rattle.sink_page.specs.Pages.{Adds, AddsPart};
ghost use Rattle.fgb_lay.specs.Plans.{framed_all, planned_bytes};

use crate::planning::Plan;
use fgb_outside::{Sink, SinkError};
use sink_page::Page;
use std::alloc::Global;

/// The magic bytes; this writer ends them in 1.
const MAGIC: [u8; 8] = [0x66, 0x67, 0x62, 3, 0x66, 0x67, 0x62, 1];

/// Writes what was planned, in pieces.
pub(crate) fn write_file<W: Sink>(alloc: Global, plan: &Plan, out: &mut W) -> Result<(), SinkError>
    ensures whole { OnOk result (Appends (W.shown out.old) (W.shown out.new) (planned_bytes plan.now)) }
    ensures part { AppendsPart (W.shown out.old) (W.shown out.new) (planned_bytes plan.now) }
    ensures failed { IsErrOf result SinkError.Failed → Rose (W.shown out.old).faults (W.shown out.new).faults }
    ensures later { (W.shown out.old).faults ≤ (W.shown out.new).faults }
{
    let mut page = Page::new(alloc);
    put_file(&mut page, plan, out)?;
    page.write(out)
}

/// Puts all of it on a page: the magic bytes, the header behind its size, and each feature behind its own.
fn put_file<W: Sink>(page: &mut Page, plan: &Plan, out: &mut W) -> Result<(), SinkError>
    ensures ok { OnOk result (Adds (W.shown out.old) (W.shown out.new) page.old page.new (planned_bytes plan.now)) }
    ensures err { OnErr result (AddsPart (W.shown out.old) (W.shown out.new) page.old page.new (planned_bytes plan.now)) }
    ensures failed { IsErrOf result SinkError.Failed → Rose (W.shown out.old).faults (W.shown out.new).faults }
{
    page.put(out, &MAGIC)?;
    page.put_framed(out, &plan.head)?;
    put_buffers(page, &plan.buffers, out)
}

/// Puts each of some buffers on a page, behind its size prefix.
fn put_buffers<W: Sink>(page: &mut Page, buffers: &[Vec<u8>], out: &mut W) -> Result<(), SinkError>
    ensures ok { OnOk result (Adds (W.shown out.old) (W.shown out.new) page.old page.new (concat (framed_all buffers.now))) }
    ensures err { OnErr result (AddsPart (W.shown out.old) (W.shown out.new) page.old page.new (concat (framed_all buffers.now))) }
    ensures failed { IsErrOf result SinkError.Failed → Rose (W.shown out.old).faults (W.shown out.new).faults }
{
    for buffer in buffers {
        page.put_framed(out, buffer)?;
    }
    Ok(())
}
