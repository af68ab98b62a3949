// Sort 10: a patch file. Rests on `files` for what its bytes say, and on `loans` for the words of a patch.
use files::fault::Fault;
use files::patch::read_patch;
use flat::patch::FlatPatch;
use loans::flat_words::write_patch;
use stream::place::{Buffer, Place, ROOM};
use words::writer::put;

// A case, from the word after its sort on. A file has as many bytes as a buffer at the most.
pub(crate) fn answer(place: &mut Place, file: &mut Buffer) {
    let length = place.next_up_to(ROOM as u64) as usize;
    gather(place, file, length);
    if place.is_over() {
        return;
    }
    write_answer(place, read_patch(&file[..length]));
}

// The file's bytes, eight to a word. The buffer's length is a whole number of words, so none of them finds it full. What is left of the last
// word is gathered too; the reader is not lent it.
fn gather(place: &mut Place, file: &mut Buffer, length: usize) {
    for at in (0..length).step_by(8) {
        put(file, at, place.next());
    }
}

// Number and offset, and the patch where there is one.
fn write_answer(place: &mut Place, read: Result<FlatPatch, Fault>) {
    match read {
        Ok(patch) => {
            place.write(0);
            place.write(0);
            write_patch(place, patch);
        }
        Err(fault) => {
            place.write(usize::from(fault.reason) as u64);
            place.write(fault.offset as u64);
        }
    }
}
