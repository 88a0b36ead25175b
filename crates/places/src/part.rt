//! Traits for reading and writing the places of a state or of one part of it.
ghost use Rattle.std.specs.Prelude.{◌≡◌, ℕ, Bool, Option, Some, IfSome, option_map, slice_get};
ghost use Rattle.places.specs.declared.place.Place.{Place};
ghost use Rattle.places.specs.declared.value.Value.{Value};
ghost use Rattle.places.specs.declared.place.Place.TheVariants.{Completion, Request};
ghost use Rattle.places.specs.declared.value.Value.TheVariants.{Byte, Completed, Number, Requested};
ghost use Rattle.places.specs.Runs.{place_in};
ghost use Rattle.places.specs.View.{View, put_at};

use crate::notes::runs::Region;
use crate::place::Place;
use crate::value::Value;
use entries::{Cqe, Row};

/// A state, or a part of one, whose places can be read.
pub trait At {
    /// The value of each place, or `None` where it is absent.
    ghost seen: { Self → View };

    /// Returns the value of a place, or `None` if the place is absent.
    fn at(&self, place: Place) -> Option<Value>
        ensures { result ≡ seen self.now place };

    /// Returns the bytes of a region as one slice, if they are stored that way. Like the methods
    /// below, it makes closing a recorder faster and may return `None`.
    fn bytes_in(&self, _region: Region) -> Option<&[u8]>
        ensures { IfSome result (λ bytes. (i : ℕ)
            → seen self.now (place_in _region i) ≡ option_map Byte (slice_get bytes.now i)) }
    {
        None
    }

    /// Returns the number in a place without building a `Value`.
    fn number_at(&self, _place: Place) -> Option<u64>
        ensures { IfSome result (λ n. seen self.now _place ≡ Some (Number n)) }
    {
        None
    }

    /// Returns a reference to the completion in a slot of the completion ring.
    fn completion_at(&self, _slot: u32) -> Option<&Cqe>
        ensures { IfSome result (λ c. seen self.now (Completion _slot) ≡ Some (Completed c.now)) }
    {
        None
    }

    /// Returns a reference to a request.
    fn row_at(&self, _row: u32) -> Option<&Row>
        ensures { IfSome result (λ r. seen self.now (Request _row) ≡ Some (Requested r.now)) }
    {
        None
    }
}

/// A part of a state whose places can be written one at a time. Undoing a record does
/// this; it allocates nothing.
pub trait Part: At {
    /// Whether a place belongs to this part.
    ghost owns: { Place → Bool };

    /// Whether the place can be given this value.
    ghost can_put: { Self → Place → Option Value → Type 0 };

    /// Sets the value of a place, and changes no other place.
    fn put(&mut self, place: Place, value: Option<Value>)
        requires { can_put self.old place value }
        ensures { (q : Place) → Self.seen self.new q ≡ put_at (Self.seen self.old) place value q };
}
