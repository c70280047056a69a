//! Where values are put.
ghost use Rattle.std.specs.Prelude.{◌≡◌};

/// Puts a value into a place. What was there is dropped here, in one call for who puts it, whatever its type holds.
pub fn put<T: Drop>(place: &mut T, value: T)
    ensures { place.new ≡ value }
{
    *place = value;
}
