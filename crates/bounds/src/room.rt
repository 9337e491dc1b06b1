// The room that a call is lent for its results.
ghost use Rattle.std.specs.Prelude.{◌≡◌};
ghost use Rattle.bounds.specs.Refusals.{room_test};

use crate::refusal::Refusal;

// Refuses a result slice that has fewer places than there are words to write.
pub fn test_room(count: usize, places: usize) -> Result<(), Refusal>
    ensures { result ≡ room_test count places }
{
    if count <= places {
        return Ok(());
    }
    Err(Refusal::Room)
}
