//! How many more notes a recorder has reserved memory for.
ghost use Rattle.std.specs.Prelude.{◌≡◌, ◌+◌, ◌-◌, ◌<◌, ◌≤◌, if◌then◌else◌};
ghost use Rattle.places.specs.Places.{is_number, is_completion};
ghost use Rattle.places.specs.Notes.{one_if, neither};

use crate::place::Place;

/// How many notes of each kind may still be added without allocation. `held` is their sum.
#[derive(Clone, Copy)]
pub struct Room {
    pub numbers: usize,
    pub completions: usize,
    pub others: usize,
    pub held: usize,
}

/// Subtracts 1 from a count and from the sum, unless the count is 0.
fn take_one(count: &mut usize, held: &mut usize)
    requires { count.old ≤ held.old }
    ensures count { count.new ≡ count.old - 1 }
    ensures held { held.new + count.old ≡ held.old + count.new }
{
    if *count > 0 {
        *count -= 1;
        *held -= 1;
    }
}

impl Room {
    /// Returns room for no notes.
    pub fn new() -> Room
        ensures { result ≡ record { numbers = 0; completions = 0; others = 0; held = 0 } }
    {
        Room {
            numbers: 0,
            completions: 0,
            others: 0,
            held: 0,
        }
    }

    /// Accounts for one note of a number.
    pub fn spend_number(&mut self)
        requires { self.old.held ≡ self.old.numbers + (self.old.completions + self.old.others) }
        ensures numbers { self.new.numbers ≡ self.old.numbers - 1 }
        ensures completions { self.new.completions ≡ self.old.completions }
        ensures others { self.new.others ≡ self.old.others }
        ensures held { self.new.held ≡ self.new.numbers + (self.new.completions + self.new.others) }
    {
        take_one(&mut self.numbers, &mut self.held);
    }

    /// Accounts for one note of a completion.
    pub fn spend_completion(&mut self)
        requires { self.old.held ≡ self.old.numbers + (self.old.completions + self.old.others) }
        ensures numbers { self.new.numbers ≡ self.old.numbers }
        ensures completions { self.new.completions ≡ self.old.completions - 1 }
        ensures others { self.new.others ≡ self.old.others }
        ensures held { self.new.held ≡ self.new.numbers + (self.new.completions + self.new.others) }
    {
        take_one(&mut self.completions, &mut self.held);
    }

    /// Accounts for one note of another place.
    pub fn spend_other(&mut self)
        requires { self.old.held ≡ self.old.numbers + (self.old.completions + self.old.others) }
        ensures numbers { self.new.numbers ≡ self.old.numbers }
        ensures completions { self.new.completions ≡ self.old.completions }
        ensures others { self.new.others ≡ self.old.others - 1 }
        ensures held { self.new.held ≡ self.new.numbers + (self.new.completions + self.new.others) }
    {
        take_one(&mut self.others, &mut self.held);
    }

    /// Accounts for one note of a place, by its kind.
    pub fn spend(&mut self, place: Place)
        requires { self.old.held ≡ self.old.numbers + (self.old.completions + self.old.others) }
        ensures numbers { self.old.numbers ≤ self.new.numbers + one_if (is_number place) }
        ensures completions { self.old.completions
            ≤ self.new.completions + one_if (is_completion place) }
        ensures others { self.old.others
            ≤ self.new.others + neither (is_number place) (is_completion place) }
        ensures fewer_numbers { self.new.numbers ≤ self.old.numbers }
        ensures fewer_completions { self.new.completions ≤ self.old.completions }
        ensures fewer_others { self.new.others ≤ self.old.others }
        ensures held { self.new.held ≡ self.new.numbers + (self.new.completions + self.new.others) }
        ensures took { 0 < (if is_number place then self.old.numbers else
            (if is_completion place then self.old.completions else self.old.others))
            → self.new.held + 1 ≤ self.old.held }
    {
        if place.is_number() {
            self.spend_number();
        } else if matches!(place, Place::Completion(_)) {
            self.spend_completion();
        } else {
            self.spend_other();
        }
    }
}
