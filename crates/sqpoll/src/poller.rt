//! The submission queue poller.
ghost use Rattle.std.specs.Prelude.{◌≡◌, ◌+◌, ◌<◌, ◌≤◌, not, None};
ghost use Rattle.places.specs.View.{Keeps, named, put_at};
ghost use Rattle.places.specs.declared.place.Place.{Place};
ghost use Rattle.ring_words.specs.declared.flag.RingFlag.TheVariants.{NeedWakeup, CqOverflow};
ghost use Rattle.ring_words.specs.Rings.{has_flag};

use crate::noting::note_stage;
use places::{At, Part, Place, Recorder, Value};
use ring_words::{RingFlag, SubRing};

/// The submission queue poller, which takes entries while it is awake.
#[derive(Clone, Copy)]
pub enum Poller {
    Awake,
    /// It sleeps until an application wakes it.
    Asleep,
}

impl At for Poller {
    ghost use Rattle.sqpoll.specs.Pollers.{poller_seen};

    ghost seen = { poller_seen };

    fn at(&self, place: Place) -> Option<Value> {
        match place {
            Place::PollerStage => Some(Value::Awake(self.may_take())),
            _ => None,
        }
    }
}

impl Part for Poller {
    ghost use Rattle.sqpoll.specs.Pollers.{poller_seen, poller_owns, poller_can_put};

    ghost owns = { poller_owns };

    ghost can_put = { poller_can_put };

    fn put(&mut self, place: Place, value: Option<Value>)
        requires { poller_can_put self.old place value }
        ensures { (q : Place)
            → poller_seen self.new q ≡ put_at (poller_seen self.old) place value q }
    {
        match (place, value) {
            (Place::PollerStage, Some(Value::Awake(awake))) => *self = Poller::from_awake(awake),
            // `can_put` allows no other place, and any would be left alone.
            _ => {}
        }
    }
}

impl Poller {
    ghost use Rattle.sqpoll.specs.Pollers.{is_awake, polling_of, polling_owns, polling_seen, sleeping, woken};

    fn from_awake(awake: bool) -> Poller
        ensures { is_awake result ≡ awake }
    {
        if awake { Poller::Awake } else { Poller::Asleep }
    }

    /// Returns whether the poller is awake, so that it takes entries.
    pub fn may_take(&self) -> bool
        ensures { result ≡ is_awake self.now }
    {
        match self {
            Poller::Awake => true,
            Poller::Asleep => false,
        }
    }

    /// Puts the poller to sleep and sets IORING_SQ_NEED_WAKEUP.
    pub fn sleep(&mut self, submissions: &mut SubRing, notes: &mut Recorder)
        requires numbers { 0 < notes.old.numbers }
        requires others { 0 < notes.old.others }
        ensures next { polling_of self.new submissions.new
            ≡ sleeping (polling_of self.old submissions.old) }
        ensures flag { has_flag submissions.new.flags NeedWakeup ≡ not (is_awake self.new) }
        ensures overflow { has_flag submissions.new.flags CqOverflow
            ≡ has_flag submissions.old.flags CqOverflow }
        ensures keeps { Keeps polling_owns (polling_seen (polling_of self.old submissions.old))
            (polling_seen (polling_of self.new submissions.new)) notes.old.made notes.new.made }
        ensures named { (p : Place) → named notes.new.made p ≡ None
            → named notes.old.made p ≡ None }
        ensures spends_numbers { notes.old.numbers ≤ notes.new.numbers + 1 }
        ensures spends_completions { notes.old.completions ≤ notes.new.completions }
        ensures spends_others { notes.old.others ≤ notes.new.others + 1 }
    {
        note_stage(notes, self.may_take());
        *self = Poller::Asleep;
        submissions.set_flag(RingFlag::NeedWakeup, true, notes);
    }

    /// Wakes the poller and clears IORING_SQ_NEED_WAKEUP.
    pub fn wake(&mut self, submissions: &mut SubRing, notes: &mut Recorder)
        requires numbers { 0 < notes.old.numbers }
        requires others { 0 < notes.old.others }
        ensures next { polling_of self.new submissions.new
            ≡ woken (polling_of self.old submissions.old) }
        ensures flag { has_flag submissions.new.flags NeedWakeup ≡ not (is_awake self.new) }
        ensures overflow { has_flag submissions.new.flags CqOverflow
            ≡ has_flag submissions.old.flags CqOverflow }
        ensures keeps { Keeps polling_owns (polling_seen (polling_of self.old submissions.old))
            (polling_seen (polling_of self.new submissions.new)) notes.old.made notes.new.made }
        ensures named { (p : Place) → named notes.new.made p ≡ None
            → named notes.old.made p ≡ None }
        ensures spends_numbers { notes.old.numbers ≤ notes.new.numbers + 1 }
        ensures spends_completions { notes.old.completions ≤ notes.new.completions }
        ensures spends_others { notes.old.others ≤ notes.new.others + 1 }
    {
        note_stage(notes, self.may_take());
        *self = Poller::Awake;
        submissions.set_flag(RingFlag::NeedWakeup, false, notes);
    }
}
