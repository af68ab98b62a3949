// The ring's cursor where the host lent it: a thin second form of the advance by value.
ghost use Rattle.std.specs.Prelude.{◌≡◌};
ghost use Rattle.numbers.specs.Outcome.{outcome};
ghost use Rattle.util.specs.DelayLine.{advanced_there};

use crate::delay_line::Cursor;
use answers::refusal::Verdict;

// Taken out, advanced by value, and put back.
pub fn advance_lent(c: &mut Cursor, slots: usize) -> Verdict
    ensures { outcome result c.new ≡ advanced_there c.old slots }
{
    *c = c.advance(slots)?;
    Ok(())
}
