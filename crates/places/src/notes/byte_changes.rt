//! Iterators over recorded bytes, one byte or one run at a time.
ghost use Rattle.std.specs.Prelude.{◌≡◌, ◌+◌, ◌<◌, ◌^◌, ◌∷◌, ◌++◌, ◌⊎◌, [], Some, None, is_some, false, ◌&&◌, unwrap_or, length, slice_get, MatchOption, IfSome};
ghost use Rattle.places.specs.Runs.{is_in, offset_in, old_bytes, run_changes, run_total, RunsFit};
ghost use Rattle.places.specs.Masked.{marks_from, masked, mark_at};
ghost use Rattle.places.specs.Stretched.{kept_of, CanCount};
ghost use Rattle.places.specs.View.{named};
ghost use Rattle.places.specs.Turns.{MatchTurn};

use crate::notes::marks::is_kept;
use crate::notes::runs::{Region, Run};
use crate::place::Place;
use crate::value::{Change, Value};
use std::marker::Model;

/// An iterator over the old bytes that are still recorded.
#[derive(Drop)]
pub struct ByteChanges<'a> {
    region: Region,
    /// The index of the next byte within its region.
    from: usize,
    /// How many bytes of the current run remain.
    left: usize,
    runs: &'a [Run],
    olds: &'a [u8],
    gone: &'a [u64],
    /// The number of the next byte's bit in `gone`.
    mark: usize,
}

impl<'a> Model for ByteChanges<'a> {
    ghost use Rattle.std.specs.Prelude.{◌≡◌, ◌+◌, ◌<◌, ◌≤◌, ◌^◌, ◌++◌, length, take, drop};
    ghost use Rattle.places.specs.Runs.{ByteRest, old_bytes, run_changes, run_total, RunsFit};

    ghost Value = { ByteRest };

    ghost use Rattle.places.specs.Masked.{marks_from, masked};

    ghost view = { λ a. record {
      left = old_bytes a.region a.from
          (take a.left
          (masked a.olds.now (marks_from a.gone.now a.mark (length a.olds.now))))
          ++ run_changes a.runs.now
          (drop a.left
          (masked a.olds.now (marks_from a.gone.now a.mark (length a.olds.now))));
      work = length a.runs.now + length a.olds.now;
    } };

    ghost invariant = { λ a. (a.from + a.left ≤ 2 ^ 32)
        × (a.left + run_total a.runs.now ≡ length a.olds.now) × RunsFit a.runs.now
        × (a.mark + length a.olds.now < 2 ^ 64) };
}

/// One run of old bytes: `olds` from index `start` of the region on. Bit `mark` + i of `gone` is
/// set if byte i was dropped.
#[derive(Clone, Copy)]
pub struct Stretch<'a> {
    pub region: Region,
    pub start: u32,
    pub olds: &'a [u8],
    pub gone: &'a [u64],
    /// The number of the first byte's bit in `gone`.
    pub mark: usize,
}

impl<'a> Stretch<'a> {
    /// Returns old byte i, or `None` if it was dropped.
    pub fn kept(&self, i: usize) -> Option<u8>
        requires within { i < length self.now.olds.now }
        requires count { CanCount self.now }
        ensures { slice_get (kept_of self.now) i ≡ Some result }
    {
        if is_kept(self.gone, self.mark + i) {
            Some(self.olds[i])
        } else {
            None
        }
    }

    /// Returns whether a place is a byte of the run that is still recorded.
    pub fn names(&self, place: Place) -> bool
        requires { CanCount self.now }
        ensures { result ≡ is_some
            (named (old_bytes self.now.region self.now.start (kept_of self.now)) place) }
    {
        self.has_mark(place)
    }

    fn has_mark(&self, place: Place) -> bool
        requires { CanCount self.now }
        ensures { result ≡ (is_in self.now.region place && unwrap_or (mark_at self.now.start
            (marks_from self.now.gone.now self.now.mark (length self.now.olds.now))
            (offset_in self.now.region place)) false) }
    {
        let offset = self.region.offset(place);
        let is_kept = self.mark_at(offset).unwrap_or(false);
        self.region.has(place) && is_kept
    }

    fn mark_at(&self, offset: u32) -> Option<bool>
        requires { CanCount self.now }
        ensures { result ≡ mark_at self.now.start
            (marks_from self.now.gone.now self.now.mark (length self.now.olds.now)) offset }
    {
        if offset < self.start {
            return None;
        }
        let index = (offset - self.start) as usize;
        if index < self.olds.len() {
            Some(is_kept(self.gone, self.mark + index))
        } else {
            None
        }
    }
}

/// An iterator over runs.
#[derive(Drop)]
pub struct Stretches<'a> {
    runs: &'a [Run],
    olds: &'a [u8],
    gone: &'a [u64],
    /// The number of the next byte's bit in `gone`.
    mark: usize,
}

impl<'a> Model for Stretches<'a> {
    ghost use Rattle.std.specs.Prelude.{◌≡◌, ◌+◌, ◌<◌, ◌^◌, length};
    ghost use Rattle.places.specs.Masked.{marks_from, masked};
    ghost use Rattle.places.specs.Runs.{ByteRest, run_changes, run_total, RunsFit};

    ghost Value = { ByteRest };

    ghost view = { λ a. record {
      left = run_changes a.runs.now
          (masked a.olds.now (marks_from a.gone.now a.mark (length a.olds.now)));
      work = length a.runs.now;
    } };

    ghost invariant = { λ a. (run_total a.runs.now ≡ length a.olds.now) × RunsFit a.runs.now
        × (a.mark + length a.olds.now < 2 ^ 64) };
}

impl<'a> Stretches<'a> {
    /// Returns an iterator over all runs. `olds` has their bytes in order.
    pub fn new(runs: &'a [Run], olds: &'a [u8], gone: &'a [u64]) -> Stretches<'a>
        requires fits { run_total runs.now ≡ length olds.now }
        requires within { RunsFit runs.now }
        ensures { result.left ≡ run_changes runs.now
            (masked olds.now (marks_from gone.now 0 (length olds.now))) }
    {
        Stretches {
            runs,
            olds,
            gone,
            mark: 0,
        }
    }

    /// Returns an iterator over no runs.
    pub fn none() -> Stretches<'a>
        ensures { result.left ≡ [] }
    {
        Stretches::new(&[], &[], &[])
    }

    /// Returns the next run.
    pub fn next(&mut self) -> Option<Stretch<'a>>
        ensures yields { MatchOption result (self.old.left ≡ []) (λ s. self.old.left
            ≡ old_bytes s.region s.start (kept_of s) ++ self.new.left) }
        ensures count { IfSome result CanCount }
        ensures less { (result ≡ None) ⊎ (self.new.work < self.old.work) }
    {
        let [run, rest @ ..] = self.runs else {
            return None;
        };
        let (olds, olds_left) = self.olds.split_at(run.len);
        let mark = self.mark;
        self.runs = rest;
        self.olds = olds_left;
        self.mark += run.len;
        Some(Stretch {
            region: run.region,
            start: run.start,
            olds,
            gone: self.gone,
            mark,
        })
    }

    /// Returns whether one of the remaining runs has this place. It consumes
    /// the runs that it looks at.
    pub fn names(&mut self, place: Place) -> bool
        ensures { result ≡ is_some (named self.old.left place) }
    {
        while let Some(stretch) = self.next() {
            if stretch.names(place) {
                return true;
            }
        }
        false
    }
}

/// The result of one step of the iterator over bytes.
pub enum Turn {
    End,
    /// No byte yet: the step began a run, or passed a dropped byte.
    Nothing,
    Found(Change),
}

impl<'a> ByteChanges<'a> {
    /// Returns an iterator over all old bytes of some runs. `olds` has their bytes in order.
    pub fn new(runs: &'a [Run], olds: &'a [u8], gone: &'a [u64]) -> ByteChanges<'a>
        requires fits { run_total runs.now ≡ length olds.now }
        requires within { RunsFit runs.now }
        ensures { result.left ≡ run_changes runs.now
            (masked olds.now (marks_from gone.now 0 (length olds.now))) }
    {
        ByteChanges {
            region: Region::Memory,
            from: 0,
            left: 0,
            runs,
            olds,
            gone,
            mark: 0,
        }
    }

    /// Returns an iterator over no bytes.
    pub fn none() -> ByteChanges<'a>
        ensures { result.left ≡ [] }
    {
        ByteChanges::new(&[], &[], &[])
    }

    /// Returns the next old byte as a change.
    pub fn next(&mut self) -> Option<Change>
        ensures { MatchOption result ((self.old.left ≡ [])
            × (self.new.left ≡ [])) (λ c. self.old.left ≡ c ∷ self.new.left) }
    {
        loop {
            match self.turn() {
                Turn::End => return None,
                Turn::Nothing => {}
                Turn::Found(change) => return Some(change),
            }
        }
    }

    // Does one step: begins the next run, or passes one byte.
    fn turn(&mut self) -> Turn
        ensures found { MatchTurn result self.old.left self.new.left }
        ensures less { (result ≡ Turn.End) ⊎ (self.new.work < self.old.work) }
    {
        if self.left == 0 {
            return match self.runs {
                [] => Turn::End,
                [run, rest @ ..] => {
                    self.region = run.region;
                    self.from = run.start as usize;
                    self.left = run.len;
                    self.runs = rest;
                    Turn::Nothing
                }
            };
        }
        let [old, olds @ ..] = self.olds else {
            return Turn::End;
        };
        let is_kept = is_kept(self.gone, self.mark);
        let place = self.region.place(self.from as u32);
        self.from += 1;
        self.left -= 1;
        self.olds = olds;
        self.mark += 1;
        if !is_kept {
            return Turn::Nothing;
        }
        Turn::Found(Change {
            place,
            old: Some(Value::Byte(*old)),
        })
    }
}
