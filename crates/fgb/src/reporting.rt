// Reports.
use command_words::{Command, Plan, Stop, plan, status_of};
use fgb_outside::{RangeSource, StdSink};
use fgb_reports::{CountReport, ExtentReport, Reporter, SizeReport};
use report_command::report_run;
use std::alloc::AllocError;

/// Whether these words ask for a report.
pub(crate) fn is_report(words: &[&str]) -> bool {
    match plan(words) {
        Some(Plan { command, .. }) => command == Command::Report,
        None => false,
    }
}

/// Answers the words of a report over a source, on the process's two outputs, by a count, an extent and a size.
pub(crate) fn report_over<S: RangeSource>(rt: &HostRuntime, words: &[&str], file: &mut S) -> u8 {
    match report_by_three(rt, words, file) {
        Ok(status) => status,
        Err(_) => {
            let mut err = StdSink::new(rt.stderr());
            status_of(Err(Stop::Memory), &mut err)
        }
    }
}

/// The same, where there is memory for the three reporters.
fn report_by_three<S: RangeSource>(
    rt: &HostRuntime,
    words: &[&str],
    file: &mut S,
) -> Result<u8, AllocError> {
    let alloc = rt.alloc();
    let mut reports: Vec<Box<dyn Reporter>> = Vec::new(alloc);
    reports.push(Box::new(alloc, CountReport::new())?)?;
    reports.push(Box::new(alloc, ExtentReport::new())?)?;
    reports.push(Box::new(alloc, SizeReport::new())?)?;
    let mut out = StdSink::new(rt.stdout());
    let mut err = StdSink::new(rt.stderr());
    let status = report_run(alloc, words, file, &mut reports, &mut out, &mut err);
    Ok(status)
}
