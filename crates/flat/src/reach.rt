// What the strings of a patch tell, as plain numbers. Rests on the answers of rings in `util`, and on their record in `stages`.
ghost use Rattle.std.specs.Prelude.{◌≡◌};
ghost use Rattle.flat.specs.Reach.{reach_numbers};

use stages::reach::Reaches;

// By stage number.
pub fn reach_numbers(reaches: Reaches) -> [u8; 32]
    ensures { result ≡ reach_numbers reaches }
{
    reaches.stages.map(u8::from)
}
