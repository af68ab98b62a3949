// For tests. Words in, words out: reads cases on standard input until it ends, and writes their answers on standard output. FORMAT.md beside this
// folder defines both. Rests on `stream` for the words; sorts 1 and 10 are answered here, the others by `operations`.
#![tactic(auto)]

mod patch_file;
mod reaches;
mod session;
mod sort;
mod window;

use crate::sort::Sort;
use operations::pools::{CELLS, Memory};
use stream::place::{Buffer, Place, ROOM, State};

// The word that ends the answers where a case is refused.
const REFUSED: u64 = 0xffff_ffff_ffff_ffff;

fn main(rt: HostRuntime) {
    let mut place = Place::start(rt.stdin(), rt.stdout());
    let mut memory = Memory {
        internal: [0.0; 65536],
        external: [0.0; 65536],
        zeros: [0.0; 8192],
        values: [0.0; 64],
        rings: [0.0; CELLS],
    };
    let mut file = [0; ROOM];
    answer_all(&mut place, &mut memory, &mut file);
    finish(&mut place);
}

// Answers case after case. What a case lends, and its file's bytes, lie where those of the case before lay. Nothing says that the input ends, and
// a proved loop has to: no run uses up so many turns.
fn answer_all(place: &mut Place, memory: &mut Memory, file: &mut Buffer) {
    for _ in 0..u64::MAX {
        answer_next(place, memory, file);
        if place.is_over() {
            return;
        }
    }
}

// Answers one case, by its sort.
fn answer_next(place: &mut Place, memory: &mut Memory, file: &mut Buffer) {
    let Some(number) = place.next_case() else {
        return;
    };
    match Sort::try_from(number) {
        Ok(Sort::Session) => session::answer(place, memory),
        Ok(Sort::Functions) => operations::functions::answer_case(place, &mut memory.internal),
        Ok(Sort::Device(sort)) => operations::device::answer(place, sort, &mut memory.rings),
        Ok(Sort::Pools(sort)) => operations::single::answer(place, sort, memory),
        Ok(Sort::PatchFile) => patch_file::answer(place, file),
        Err(_) => place.refuse(),
    }
}

// The last word, where there is one, and what is still to be sent.
fn finish(place: &mut Place) {
    if place.state == State::Refused {
        place.write(REFUSED);
    }
    place.send();
}
