// Calls that are named by their place.
ghost use Rattle.std.specs.Prelude.{◌≡◌};
ghost use Rattle.rack_outside.specs.Places.{is_named as is_named_in};

// Whether the call at this place is named. The first call has the place 1.
pub(crate) fn is_named(places: &[u8], place: u64) -> bool
    ensures { result ≡ is_named_in places.now place }
{
    places.iter().any(|named| u64::from(*named) == place)
}
