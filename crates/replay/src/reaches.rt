// What the strings of a run tell, as words. Rests on `stream` for the words, and on `flat` for the numbers, as a host does.
use flat::reach::reach_numbers;
use stages::reach::Reaches;
use stream::place::Place;

// One word for each of the 32 stage numbers, in their order.
pub(crate) fn write_reaches(place: &mut Place, reaches: Reaches) {
    for number in reach_numbers(reaches) {
        place.write(number as u64);
    }
}
