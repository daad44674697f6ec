// The window.
ghost use Rattle.std.specs.Prelude.{◌≡◌, ◌+◌, ◌<◌, ◌≤◌, ◌^◌, [], false, length, OnOk, OnErr, IsErrOf};
ghost use Rattle.fgb_outside.specs.Source.{Keeps, Rose};
ghost use Rattle.section_window.specs.Window.{ahead, Shows};
ghost use Rattle.gap_window.specs.Bridging.{gone, is_near as near, Reaches, ReachesPart, Stays};

use crate::moves::{leap, read_on};
use fgb_outside::{RangeSource, SourceError};
use section_window::Window;
use std::alloc::Global;
use std::marker::Model;

/// A window over a section of a source. Its buffer is reused from piece to piece.
#[derive(Drop)]
pub struct GapWindow {
    window: Window,
    alloc: Global,
    /// Holes of so many bytes are not asked for.
    gap: u32,
    /// Whether a byte was asked for.
    begun: bool,
}

impl Model for GapWindow {
    ghost use Rattle.std.specs.Prelude.{◌≤◌};
    ghost use Rattle.section_window.specs.Window.{ahead};
    ghost use Rattle.gap_window.specs.Bridging.{Bridging};

    ghost Value = { Bridging };

    ghost view = { λ s. record { held = s.window; gap = s.gap; begun = s.begun } };

    ghost invariant = { λ s. ahead s.window ≤ s.window.end };
}

impl GapWindow {
    /// A window that holds nothing yet, over the section from `at` to `end`. It takes no memory.
    pub fn new(alloc: Global, at: u64, end: u64, gap: u32) -> GapWindow
        requires order { at ≤ end }
        requires small { end ≤ 2 ^ 48 }
        ensures { result ≡ record { held = record { at = at; bytes = []; end = end }; gap = gap; begun = false } }
    {
        GapWindow {
            window: Window::new(alloc, at, end),
            alloc,
            gap,
            begun: false,
        }
    }

    /// The place in the source of the first byte held.
    pub fn at(&self) -> u64
        ensures value { result ≡ self.now.held.at }
        ensures within { ahead self.now.held ≤ self.now.held.end }
        ensures small { self.now.held.end ≤ 2 ^ 48 }
    {
        self.window.at()
    }

    /// The place in the source where the section ends.
    pub fn end(&self) -> u64
        ensures value { result ≡ self.now.held.end }
        ensures within { ahead self.now.held ≤ self.now.held.end }
        ensures small { self.now.held.end ≤ 2 ^ 48 }
    {
        self.window.end()
    }

    /// The bytes held.
    pub fn bytes(&self) -> &[u8]
        ensures value { result.now ≡ self.now.held.bytes }
        ensures within { ahead self.now.held ≤ self.now.held.end }
        ensures small { self.now.held.end ≤ 2 ^ 48 }
    {
        self.window.bytes()
    }

    /// Goes on to this place, and makes at least `want` bytes lie here, by requests of 1 MiB or up to `until`, from
    /// which on it asks for nothing. It asks for each byte once, and for those between the last one that it asked for
    /// and this place only where they are fewer than the gap. After an error it stands where it stood.
    pub fn reach<S: RangeSource>(
        &mut self,
        source: &mut S,
        to: u64,
        want: usize,
        until: u64,
    ) -> Result<(), SourceError>
        requires shows { Shows self.old.held (S.seen source.old) }
        requires onward { self.old.held.at ≤ to }
        requires some { 0 < want }
        requires wanted { to + want ≤ until }
        requires within { until ≤ self.old.held.end }
        ensures shows { Shows self.new.held (S.seen source.new) }
        ensures reaches { OnOk result (Reaches self.old self.new (S.seen source.old) (S.seen source.new) to want until) }
        ensures stays { OnErr result (Stays self.old self.new) }
        ensures part { OnErr result (ReachesPart self.old (S.seen source.old) (S.seen source.new) to until) }
        ensures keeps { Keeps (S.seen source.old) (S.seen source.new) }
        ensures failed { IsErrOf result SourceError.Failed → Rose (S.seen source.old).faults (S.seen source.new).faults }
    {
        if self.is_near(to) {
            read_on(&mut self.window, source, to, want, until)?;
        } else {
            leap(self.alloc, &mut self.window, source, to, want, until)?;
        }
        self.begun = true;
        Ok(())
    }

    // Whether no hole that is to stay lies between what was asked for and this place.
    fn is_near(&self, to: u64) -> bool
        ensures { result ≡ near self.now to }
    {
        let ahead = self.window.at() + self.window.bytes().len() as u64;
        to <= ahead || (self.begun && to - ahead < self.gap as u64)
    }

    /// Goes on behind `n` of the bytes held.
    pub fn pass(&mut self, n: usize)
        requires { n ≤ length self.old.held.bytes }
        ensures { self.new ≡ gone self.old n }
    {
        self.window.pass(n);
    }
}
