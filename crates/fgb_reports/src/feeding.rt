// Several reporters.
ghost use Rattle.std.specs.Prelude.{◌≡◌, map};
ghost use Rattle.found_features.specs.Lent.{entry_of};
ghost use Rattle.fgb_reports.specs.States.{Hands, fed};

use crate::reporter::Reporter;
use found_features::Found;

/// Hands a feature to each reporter in order. One that refuses it is dropped, and the others keep their order. No
/// memory is taken.
pub fn feed_all(reports: &mut Vec<Box<dyn Reporter>>, found: &Found<'_>)
    ensures { map (λ r. shown r) reports.new.items ≡ fed (map (λ r. shown r) reports.old.items) (entry_of found.now) }
{
    retain_fed(reports, found);
}

/// Keeps the reporters that do not refuse the feature that they are handed.
fn retain_fed(reports: &mut Vec<Box<dyn Reporter>>, found: &Found<'_>)
    ensures { map (λ r. shown r) reports.new.items ≡ fed (map (λ r. shown r) reports.old.items) (entry_of found.now) }
{
    reports.retain_mut(
        |report: &mut Box<dyn Reporter>| -> bool
            ensures { Hands (λ r. shown r) (entry_of found.entry.now) report.entry.now result report.exit.now }
        { hand(report, found) },
    );
}

/// Hands a feature to a reporter. Whether the reporter stays.
fn hand(report: &mut Box<dyn Reporter>, found: &Found<'_>) -> bool
    ensures { Hands (λ r. shown r) (entry_of found.now) report.old result report.new }
{
    report.take(found).is_ok()
}
