//! The values of places.
ghost use Rattle.std.specs.Prelude.{◌≡◌, ◌↔◌, IsTrue};

use crate::place::Place;
use entries::{Cqe, Row, Sqe};

/// Whether a thread can do its next instruction or waits.
#[derive(Clone, Copy, PartialEq, Eq)]
pub enum Stage {
    Ready,
    /// The thread waits in an Enter: the number of entries submitted, and how many
    /// completions it waits for.
    Waiting(u32, u32),
}

/// The value of a place.
#[derive(Clone, Copy)]
pub enum Value {
    /// An unsigned number: a ring word, a counter, a length, a position or a mark.
    Number(u64),
    /// The result of an Enter or a Close.
    Signed(i64),
    Byte(u8),
    Entry(Sqe),
    Completed(Cqe),
    Requested(Row),
    /// Whether a thread waits in an Enter.
    Staged(Stage),
    /// The completion that a thread reaped last, if any.
    Reaped(Option<Cqe>),
    /// Whether the poller is awake.
    Awake(bool),
}

/// A place and its old value, or `None` if the place was absent.
#[derive(Clone, Copy)]
pub struct Change {
    pub place: Place,
    pub old: Option<Value>,
}

impl Stage {
    /// Returns whether two stages are equal.
    pub fn equals(&self, other: &Stage) -> bool
        ensures { IsTrue result ↔ (self.now ≡ other.now) }
    {
        self == other
    }
}

impl Value {
    /// Returns whether two values are equal.
    #[inline(always)]
    pub fn equals(&self, other: &Value) -> bool
        ensures { IsTrue result ↔ (self.now ≡ other.now) }
    {
        match (self, other) {
            (Value::Number(a), Value::Number(b)) => a == b,
            (Value::Signed(a), Value::Signed(b)) => a == b,
            (Value::Byte(a), Value::Byte(b)) => a == b,
            (Value::Entry(a), Value::Entry(b)) => a.equals(b),
            (Value::Completed(a), Value::Completed(b)) => a.equals(b),
            (Value::Requested(a), Value::Requested(b)) => a.equals(b),
            (Value::Staged(a), Value::Staged(b)) => a.equals(b),
            (Value::Reaped(a), Value::Reaped(b)) => is_same_completion(*a, *b),
            (Value::Awake(a), Value::Awake(b)) => a == b,
            _ => false,
        }
    }
}

fn is_same_completion(a: Option<Cqe>, b: Option<Cqe>) -> bool
    ensures { IsTrue result ↔ (a ≡ b) }
{
    match (a, b) {
        (None, None) => true,
        (Some(x), Some(y)) => x.equals(&y),
        _ => false,
    }
}

/// Returns whether two values are equal, or both absent.
pub fn is_same(a: Option<Value>, b: Option<Value>) -> bool
    ensures { IsTrue result ↔ (a ≡ b) }
{
    match (a, b) {
        (None, None) => true,
        (Some(x), Some(y)) => x.equals(&y),
        _ => false,
    }
}
