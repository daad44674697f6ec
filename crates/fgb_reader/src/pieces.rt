// The features of a section, one after another.
ghost use Rattle.std.specs.Prelude.{◌≡◌, ◌+◌, ◌-◌, ◌<◌, ◌≤◌, ◌^◌, ℕ, List, length, take, slice_range, IfOk, OnOk, OnErr, IsErrOf, MatchResult};
ghost use Rattle.std.specs.Bool.{MatchBool};
ghost use Rattle.fgb_outside.specs.Source.{IfTold, Rose};
ghost use Rattle.section_window.specs.Window.{Shows as ShowsWindow};
ghost use Rattle.fgb_file.specs.File.{BreaksPrefix, IsFramed, size_at};
ghost use Rattle.fgb_reader.specs.Filling.{Fills, FillsPart};
ghost use Rattle.read_stop.specs.Stops.{IfRefused};

use byteorder::{ByteOrder, LittleEndian};
use fgb_outside::{RangeSource, SourceError};
use flat_views::{Broken, Rule};
use read_stop::ReadStop;
use section_window::Window;
use std::alloc::Global;

/// The bytes of a size prefix.
pub const PREFIX: usize = 4;

/// The largest buffer of a feature.
const MAX_FEATURE: usize = 268435456;

/// The size of the buffer whose size prefix is at the front of some bytes, which stand at `at` in a file with
/// `left` bytes from there on. Refuses FeaturePastEnd or FeatureSize at the prefix.
pub fn framed_size(front: &[u8], left: u64, at: u64) -> Result<usize, Broken>
    requires { 4 ≤ left → 4 ≤ length front.now }
    ensures judged { (image : List ℕ) → at + left ≡ length image → (4 ≤ left → take 4 front.now ≡ slice_range image at (at + 4))
        → MatchResult result (λ size. IsFramed image at × (size ≡ size_at image at)) (λ broken. (broken.place ≡ at) × BreaksPrefix image at broken.rule) }
    ensures sized { IfOk result (λ size. (size ≤ 268435456) × (4 + size ≤ left)) }
{
    if left < PREFIX as u64 {
        return Err(Broken {
            place: at,
            rule: Rule::FeaturePastEnd,
        });
    }
    let size = LittleEndian::read_u32(front) as usize;
    if PREFIX as u64 + size as u64 > left {
        return Err(Broken {
            place: at,
            rule: Rule::FeaturePastEnd,
        });
    }
    if size > MAX_FEATURE {
        return Err(Broken {
            place: at,
            rule: Rule::FeatureSize,
        });
    }
    Ok(size)
}

/// Goes through the features of a section of a source: lends the buffer of one after another. The section is read
/// in requests of up to 1 MiB, each byte once where no request fails, into a buffer that is reused.
#[derive(Drop)]
pub struct Pieces {
    window: Window,
    /// The first feature stands here in the source.
    first: u64,
    /// The bytes of the feature that is lent, with its size prefix; none before the first and at the end.
    len: usize,
    pub ghost held: { len ≤ length window.bytes },
    pub ghost small: { len ≤ 268435460 },
    pub ghost onward: { first ≤ window.at },
}

impl Pieces {
    ghost use Rattle.std.specs.Prelude.{◌≡◌};
    ghost use Rattle.fgb_outside.specs.Source.{Source};
    ghost use Rattle.fgb_reader.specs.Reading.{Fetches, FetchesPart, IsAtEnd, IsAtNext, RefusesNext, Shows, ahead_of, buffer_of, end_of, first_of, next_of, place_of};

    /// The features between two places of a source. It takes no memory, and asks for nothing.
    pub fn new(alloc: Global, first: u64, end: u64) -> Pieces
        requires order { first ≤ end }
        requires small { end ≤ 2 ^ 48 }
        ensures first { first_of result ≡ first }
        ensures end { end_of result ≡ end }
        ensures place { place_of result ≡ first }
        ensures next { next_of result ≡ first }
        ensures ahead { ahead_of result ≡ first }
        ensures shows { (source : Source) → end ≤ source.size → Shows result source }
    {
        Pieces {
            window: Window::new(alloc, first, end),
            first,
            len: 0,
        }
    }

    /// Goes on to the next feature, and says whether there is one. Refuses FeaturePastEnd or FeatureSize at its
    /// size prefix. After an error the next call goes on to the same feature again.
    pub fn advance<S: RangeSource>(&mut self, source: &mut S) -> Result<bool, ReadStop>
        requires { Shows self.old (S.seen source.old) }
        ensures goes { IfOk result (λ more. MatchBool more (IsAtNext self.old self.new (S.seen source.old)) (IsAtEnd self.old self.new)) }
        ensures refused { IfRefused result (λ broken. IfTold (S.seen source.old) (λ image. end_of self.old ≡ length image → RefusesNext self.old broken image)) }
        ensures fetches { OnOk result (Fetches self.old self.new (S.seen source.old) (S.seen source.new)) }
        ensures part { OnErr result (FetchesPart self.old self.new (S.seen source.old) (S.seen source.new)) }
        ensures again { OnErr result ((next_of self.new ≡ next_of self.old) × Shows self.new (S.seen source.new)) }
        ensures failed { IsErrOf result ReadStop.SourceFailed → Rose (S.seen source.old).faults (S.seen source.new).faults }
    {
        self.window.pass(self.len);
        self.len = 0;
        if self.window.at() == self.window.end() {
            return Ok(false);
        }
        self.len = next_piece(&mut self.window, source)?;
        Ok(true)
    }

    /// Where the first feature stands.
    pub fn first(&self) -> u64
        ensures first { result ≡ first_of self.now }
        ensures before { result ≤ place_of self.now }
    {
        self.first
    }

    /// Where the size prefix of the feature stands.
    pub fn place(&self) -> u64
        ensures place { result ≡ place_of self.now }
        ensures later { first_of self.now ≤ result }
        ensures within { next_of self.now ≤ end_of self.now }
        ensures near { next_of self.now ≤ 2 ^ 48 }
    {
        self.window.at()
    }

    /// Where the section ends.
    pub fn end(&self) -> u64
        ensures end { result ≡ end_of self.now }
        ensures near { result ≤ 2 ^ 48 }
    {
        self.window.end()
    }

    /// The buffer of the feature. There is none before the first call of `advance`, and at the end.
    pub fn buffer(&self) -> &[u8]
        requires { 4 ≤ self.now.len }
        ensures buffer { result.now ≡ buffer_of self.now }
        ensures small { length result.now ≤ 268435456 }
    {
        &self.window.bytes()[PREFIX..self.len]
    }
}

/// Makes the next feature lie in the window, with its size prefix, and gives the length of both. Refuses
/// FeaturePastEnd or FeatureSize at the prefix.
fn next_piece<S: RangeSource>(window: &mut Window, source: &mut S) -> Result<usize, ReadStop>
    requires { ShowsWindow window.old (S.seen source.old) }
    ensures lies { IfOk result (λ len. (4 ≤ len) × (len ≤ length window.new.bytes) × (len ≤ 268435460)) }
    ensures framed { IfOk result (λ len. IfTold (S.seen source.old) (λ image. window.old.end ≡ length image → IsFramed image window.old.at × (len ≡ 4 + size_at image window.old.at))) }
    ensures refused { IfRefused result (λ broken. IfTold (S.seen source.old) (λ image. window.old.end ≡ length image → (broken.place ≡ window.old.at) × BreaksPrefix image window.old.at broken.rule)) }
    ensures kept { (window.new.at ≡ window.old.at) × (window.new.end ≡ window.old.end) }
    ensures shows { ShowsWindow window.new (S.seen source.new) }
    ensures fills { OnOk result (Fills window.old window.new (S.seen source.old) (S.seen source.new)) }
    ensures part { OnErr result (FillsPart window.old (S.seen source.old) (S.seen source.new)) }
    ensures failed { IsErrOf result ReadStop.SourceFailed → Rose (S.seen source.old).faults (S.seen source.new).faults }
{
    fill_prefix(window, source)?;
    let at = window.at();
    let size = framed_size(window.bytes(), window.end() - at, at)?;
    window.fill(source, PREFIX + size)?;
    Ok(PREFIX + size)
}

/// Makes a size prefix lie in the window, where so many bytes are left.
fn fill_prefix<S: RangeSource>(window: &mut Window, source: &mut S) -> Result<(), SourceError>
    requires { ShowsWindow window.old (S.seen source.old) }
    ensures enough { OnOk result (4 ≤ window.old.end - window.old.at → 4 ≤ length window.new.bytes) }
    ensures kept { (window.new.at ≡ window.old.at) × (window.new.end ≡ window.old.end) }
    ensures shows { ShowsWindow window.new (S.seen source.new) }
    ensures fills { OnOk result (Fills window.old window.new (S.seen source.old) (S.seen source.new)) }
    ensures part { OnErr result (FillsPart window.old (S.seen source.old) (S.seen source.new)) }
    ensures failed { IsErrOf result SourceError.Failed → Rose (S.seen source.old).faults (S.seen source.new).faults }
{
    if window.end() - window.at() < PREFIX as u64 {
        return Ok(());
    }
    window.fill(source, PREFIX)
}
