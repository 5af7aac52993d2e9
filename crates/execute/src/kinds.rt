// What a slot holds, which selects the attributes of its words.
ghost use Rattle.std.specs.Prelude.{◌≡◌};
ghost use Rattle.records.specs.State.{kind_of_entry};

use readiness::Slot;
use registers::Kind;

// By its entry in the set-up.
pub fn kind_of_entry(entry: Slot) -> Kind
    ensures { result ≡ kind_of_entry entry }
{
    Kind::Endpoint
}
