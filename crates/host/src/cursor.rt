// The ring's cursor where the host lends it, as its record. Rests on `util` for the lent advance.
ghost use Rattle.std.specs.Prelude.{◌≡◌};
ghost use Rattle.numbers.specs.Outcome.{outcome};
ghost use Rattle.answers.specs.Refusal.{told_of};
ghost use Rattle.util.specs.DelayLine.{advanced_there};
ghost use Rattle.host.specs.Host.{crossed};

use answers::refusal::Told;
use util::delay_line::Cursor;
use util::lent::advance_lent;

// One slot round a ring of that length. A refusal leaves the cursor as it is.
#[unsafe(no_mangle)]
pub extern "C" fn grynnadot_advance(cursor: &mut Cursor, slots: usize) -> Told
    ensures { outcome result cursor.new ≡ crossed told_of (advanced_there cursor.old slots) }
{
    Told::of(advance_lent(cursor, slots))
}
