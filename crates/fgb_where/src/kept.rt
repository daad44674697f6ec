// A header that is kept, and a condition that was bound under it.
ghost use Rattle.std.specs.Prelude.{◌≡◌, ◌≤◌, Some, IfOk, length};
ghost use Rattle.flat_layout.specs.Promises.{IsClean};
ghost use Rattle.fgb_schema.specs.Headers.{header_of};
ghost use Rattle.fgb_schema.specs.Paths.{header_root};
ghost use Rattle.fgb_schema.specs.Weights.{BreaksBuffer};
ghost use Rattle.fgb_header.specs.Views.{header_shown};
ghost use Rattle.found_features.specs.Entries.{IsSound};
ghost use Rattle.found_features.specs.Lent.{entry_of};
ghost use Rattle.fgb_where.specs.Filtering.{passes};

use crate::bound::Bound;
use fgb_feature::FeatureView;
use fgb_header::HeaderView;
use found_features::Found;
use std::alloc::{AllocError, Global};

/// A copy of a header's bytes, and a condition that was bound under it.
#[derive(Drop)]
pub(crate) struct Kept<'a> {
    bytes: Vec<u8>,
    bound: Bound<'a>,
    // so it can be read again
    pub ghost small: { length bytes.items ≤ 10485760 },
    pub ghost clean: { IsClean (BreaksBuffer bytes.items header_root) },
}

impl<'a> Kept<'a> {
    ghost use Rattle.fgb_where.specs.Keeping.{under_in};

    /// Keeps a header, and a condition that was bound under it.
    pub(crate) fn of(
        alloc: Global,
        header: &HeaderView,
        bound: Bound<'a>,
    ) -> Result<Kept<'a>, AllocError>
        ensures { IfOk result (λ kept. under_in kept ≡ record { header = header_shown header.now; bounded = bound.entry }) }
    {
        let (bytes, _) = header.source();
        let bytes = Vec::from_slice(alloc, bytes)?;
        Ok(Kept { bytes, bound })
    }

    /// Whether the condition holds for a feature that was read under the header.
    pub(crate) fn passes(&self, found: &Found) -> bool
        requires { IsSound (header_of self.now.bytes.items) (entry_of found.now) }
        ensures { result ≡ passes (Some (under_in self.now)) (entry_of found.now) }
    {
        let Ok(header) = HeaderView::read(&self.bytes, 0) else {
            unreachable!()
        };
        match FeatureView::read(found.bytes, 0, &header) {
            Ok(feature) => self.bound.holds(&feature),
            Err(_) => unreachable!(),
        }
    }
}
