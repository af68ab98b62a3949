// One window of a session: what the host does first, then prepare and the run, and the answer. Rests on magnetron's `prepare` and the
// engine's `run`, which refuse what is bad.
ghost use Rattle.std.specs.Prelude.{◌≤◌, length};

use crate::reaches::write_reaches;
use crate::session::Session;
use answers::refusal::{Answer, Refusal, Verdict, activity_of};
use engine::run::{Ran, run};
use loans::setting::set_all;
use loans::states::write_states;
use magnetron::lent::Lent;
use magnetron::prepare::Prepared;
use operations::outcome::write_outcome;
use operations::pools::write_marks;
use stages::reach::all_within;
use stream::place::Place;
use words::number::from_word;

// What a window begins with: whether prepare comes first and external buffers are set, its length, and the sample width.
#[derive(Clone, Copy)]
struct Opening {
    prepares: bool,
    sets: bool,
    n: usize,
    width: f64,
}

impl Session<'_> {
    // A window, from its first word on.
    pub(crate) fn answer_window(&mut self, place: &mut Place, values: &mut [f64]) {
        let mut numbers = [0; 64];
        let opening = read_opening(place);
        if opening.sets {
            set_all(place, &mut self.pools, opening.n, self.external);
        }
        place.read_samples(values);
        let order = read_order(place, &mut numbers);
        if place.is_over() {
            return;
        }
        let ran = self.render(opening, order, values);
        self.pools = ran.pools;
        self.states = ran.states;
        self.write_answer(place, ran);
    }

    // Prepare, where it is asked for, and the run, unless prepare is refused.
    fn render(&mut self, opening: Opening, order: &[u8], values: &[f64]) -> Ran {
        if let Err(refusal) = self.prepare(opening) {
            return self.not_run(refusal);
        }
        let Opening { n, width, .. } = opening;
        let zeros = self.zeros;
        let patch = self.patch;
        let pools = self.pools;
        let states = self.states;
        run(
            patch,
            order,
            pools,
            states,
            n,
            width,
            self.internal,
            self.external,
            zeros,
            self.rings,
            values,
        )
    }

    // The pools become as prepare leaves them; where it is not asked for, they stay.
    fn prepare(&mut self, opening: Opening) -> Verdict {
        if !opening.prepares {
            return Ok(());
        }
        let prepared = self.prepared(opening.n);
        self.pools = prepared.pools;
        prepared.verdict
    }

    // Stays: no plainer by `LentMut::shared`: these fields would first be lent mutably as a `LentMut`, which is one more record of the same five.
    fn prepared(&self, window: usize) -> Prepared {
        let lent = Lent {
            internal: &*self.internal,
            external: &*self.external,
            zeros: self.zeros,
            pools: self.pools,
            window,
        };
        lent.prepare()
    }

    // The answer to a window whose prepare was refused.
    fn not_run(&self, refusal: Refusal) -> Ran {
        Ran {
            answer: Err(refusal),
            pools: self.pools,
            states: self.states,
            reaches: all_within(),
        }
    }

    // The answer, all samples of both pools, and the marks; states and rings, and what each stage reached, where they are wanted.
    fn write_answer(&self, place: &mut Place, ran: Ran) {
        write_run(place, ran.answer);
        place.write_samples(self.internal);
        place.write_samples(self.external);
        write_marks(place, self.pools);
        if self.wanted.states {
            write_states(place, self.states);
            place.write_samples(self.rings);
        }
        if self.wanted.reaches {
            write_reaches(place, ran.reaches);
        }
    }
}

fn read_opening(place: &mut Place) -> Opening {
    let does = place.next_up_to(3);
    Opening {
        prepares: does % 2 == 1,
        sets: does > 1,
        n: place.next() as usize,
        width: from_word(place.next()),
    }
}

// At most 64 numbers, each of at most 255.
fn read_order<'a>(place: &mut Place, numbers: &'a mut [u8; 64]) -> &'a [u8]
    ensures { length result.now ≤ 64 }
{
    let count = place.next_up_to(64) as usize;
    for number in numbers.iter_mut().take(count) {
        *number = place.next_up_to(255) as u8;
    }
    &numbers[..count]
}

// The outcome and the activity.
fn write_run(place: &mut Place, answer: Answer) {
    write_outcome(place, answer);
    place.write(u8::from(activity_of(answer)) as u64);
}
