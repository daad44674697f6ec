// The features of a file in memory.
ghost use Rattle.std.specs.Prelude.{◌≡◌, ◌+◌, ◌≤◌, ◌^◌, length, IfOk, MatchResult};
ghost use Rattle.fgb_header.specs.Views.{header_shown};
ghost use Rattle.fgb_file.specs.File.{BreaksFeature, header_in};

use fgb_feature::FeatureView;
use fgb_header::HeaderView;
use fgb_reader::{PREFIX, framed_size};
use flat_views::Broken;
use order_keys::Bounds;

/// The features of a file, under its header.
#[derive(Clone, Copy)]
pub(crate) struct Features<'a> {
    pub(crate) bytes: &'a [u8],
    pub(crate) header: HeaderView<'a>,
    /// Where the first one stands.
    pub(crate) first: usize,
    pub ghost small: { length bytes.now ≤ 2 ^ 48 },
    pub ghost inside: { first ≤ length bytes.now },
}

impl<'a> Features<'a> {
    ghost use Rattle.slice_hits.specs.Reading.{IsRead};

    /// The buffer and the own box of the feature whose size prefix stands here. Refuses FeaturePastEnd or FeatureSize at
    /// the prefix, or what the buffer breaks.
    pub(crate) fn read(&self, at: usize) -> Result<(&'a [u8], Bounds), Broken>
        requires { at ≤ length self.now.bytes.now }
        ensures judged { header_shown self.now.header ≡ header_in self.now.bytes.now
            → MatchResult result (λ read. IsRead self.now.bytes.now at read.0.now read.1) (λ broken. BreaksFeature self.now.bytes.now at broken.place broken.rule) }
        ensures within { IfOk result (λ read. at + 4 + length read.0.now ≤ length self.now.bytes.now) }
    {
        let rest = &self.bytes[at..];
        let size = framed_size(rest, rest.len() as u64, at as u64)?;
        let buffer = &rest[PREFIX..PREFIX + size];
        let feature = FeatureView::read(buffer, (at + PREFIX) as u64, &self.header)?;
        Ok((buffer, feature.bounds()))
    }
}
