// The lines of reporters.
ghost use Rattle.std.specs.Prelude.{◌≡◌, ◌++◌, IfOk, OnOk, map};
ghost use Rattle.fgb_reports.specs.Texts.{text_of};
ghost use Rattle.report_command.specs.Writes.{WritesLines, lines_of};

use command_words::Stop;
use fgb_outside::Sink;
use fgb_reports::Reporter;
use std::alloc::{AllocError, Global};

/// Writes the lines of these reporters, in order.
pub(crate) fn write_lines<W: Sink>(
    alloc: Global,
    reports: &[Box<dyn Reporter>],
    out: &mut W,
) -> Result<(), Stop>
    ensures { WritesLines (W.shown out.old) (W.shown out.new) (map (λ r. (Reporter-box r).shown r.value) reports.now) result }
{
    let Ok(lines) = lines_of(alloc, reports) else {
        return Err(Stop::Memory);
    };
    out.write(&lines)?;
    Ok(())
}

/// The lines of these reporters, in order.
fn lines_of(alloc: Global, reports: &[Box<dyn Reporter>]) -> Result<Vec<u8>, AllocError>
    ensures { IfOk result (λ lines. lines.items ≡ lines_of (map (λ r. shown r) reports.now)) }
{
    let mut lines = Vec::new(alloc);
    for report in reports {
        push_line(alloc, report, &mut lines)?;
    }
    Ok(lines)
}

/// Appends the line of a reporter.
fn push_line(
    alloc: Global,
    report: &Box<dyn Reporter>,
    lines: &mut Vec<u8>,
) -> Result<(), AllocError>
    ensures { OnOk result (lines.new.items ≡ lines.old.items ++ text_of (shown report.now)) }
{
    report.text(alloc, lines)
}
