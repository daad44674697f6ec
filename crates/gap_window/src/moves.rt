// The two ways in which a window goes on to a place.
ghost use Rattle.std.specs.Prelude.{◌≡◌, ◌+◌, ◌-◌, ◌<◌, ◌≤◌, [], length, OnOk, OnErr, IsErrOf};
ghost use Rattle.std.specs.List.{range_with_len};
ghost use Rattle.fgb_outside.specs.Source.{Keeps, Rose};
ghost use Rattle.fgb_outside.specs.Asked.{Reads, ReadsFront};
ghost use Rattle.section_window.specs.Window.{ahead, Shows, IsPiece};

use fgb_outside::{RangeSource, SourceError};
use section_window::Window;
use std::alloc::Global;

/// Reads on up to this place, and makes `want` bytes from there on lie in the window.
pub(crate) fn read_on<S: RangeSource>(
    window: &mut Window,
    source: &mut S,
    to: u64,
    want: usize,
    until: u64,
) -> Result<(), SourceError>
    requires shows { Shows window.old (S.seen source.old) }
    requires onward { window.old.at ≤ to }
    requires wanted { to + want ≤ until }
    requires within { until ≤ window.old.end }
    ensures at { OnOk result (window.new.at ≡ to) }
    ensures end { window.new.end ≡ window.old.end }
    ensures shows { Shows window.new (S.seen source.new) }
    ensures enough { OnOk result (want ≤ length window.new.bytes) }
    ensures on { OnOk result (ahead window.old ≤ ahead window.new) }
    ensures reads { OnOk result (Reads (IsPiece window.old.at until) (S.seen source.old) (S.seen source.new) (range_with_len (ahead window.old) (ahead window.new - ahead window.old))) }
    ensures idle { OnOk result (to + want ≤ ahead window.old → ahead window.new ≡ ahead window.old) }
    ensures before { OnOk result (ahead window.old < to + want → ahead window.new ≤ until) }
    ensures err { OnErr result (window.new ≡ window.old) }
    ensures front { OnErr result (ReadsFront (IsPiece window.old.at until) (S.seen source.old) (S.seen source.new) (range_with_len (ahead window.old) (until - ahead window.old))) }
    ensures keeps { Keeps (S.seen source.old) (S.seen source.new) }
    ensures failed { IsErrOf result SourceError.Failed → Rose (S.seen source.old).faults (S.seen source.new).faults }
{
    let skip = (to - window.at()) as usize;
    window.fill_until(source, skip + want, until)?;
    window.pass(skip);
    Ok(())
}

/// Goes on to this place without what lies between, and makes `want` bytes from there on lie in the window.
pub(crate) fn leap<S: RangeSource>(
    alloc: Global,
    window: &mut Window,
    source: &mut S,
    to: u64,
    want: usize,
    until: u64,
) -> Result<(), SourceError>
    requires shows { Shows window.old (S.seen source.old) }
    requires far { ahead window.old ≤ to }
    requires some { 0 < want }
    requires wanted { to + want ≤ until }
    requires within { until ≤ window.old.end }
    ensures at { OnOk result (window.new.at ≡ to) }
    ensures end { window.new.end ≡ window.old.end }
    ensures shows { Shows window.new (S.seen source.new) }
    ensures enough { OnOk result (want ≤ length window.new.bytes) }
    ensures reads { OnOk result (Reads (IsPiece to until) (S.seen source.old) (S.seen source.new) (range_with_len to (ahead window.new - to))) }
    ensures before { OnOk result (ahead window.new ≤ until) }
    ensures stays { OnErr result (window.new.at ≡ window.old.at) }
    ensures nothing { OnErr result (window.new.bytes ≡ []) }
    ensures front { OnErr result (ReadsFront (IsPiece to until) (S.seen source.old) (S.seen source.new) (range_with_len to (until - to))) }
    ensures keeps { Keeps (S.seen source.old) (S.seen source.new) }
    ensures failed { IsErrOf result SourceError.Failed → Rose (S.seen source.old).faults (S.seen source.new).faults }
{
    let at = window.at();
    let end = window.end();
    window.pass((to - at) as usize);
    if let Err(error) = window.fill_until(source, want, until) {
        *window = Window::new(alloc, at, end);
        return Err(error);
    }
    Ok(())
}
