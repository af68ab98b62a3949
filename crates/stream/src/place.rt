// The two streams of words. Standard input is read into one buffer, and what goes to standard output is gathered in another, so that one call
// moves many words. Rests on `words` for what a word is. No contract can say what is read, nor whether standard output takes what it is sent;
// of the functions that do not read, that answer is all that the contracts leave open.
ghost use Rattle.std.specs.Prelude.{◌≡◌, [], ◌∷◌, map, ◌-◌, ◌≤◌, length, take};
ghost use Rattle.words.specs.Number.{to_word};
ghost use Rattle.stream.specs.Place.{started, over_of, refused_at, refused_if, sent, cleared_by, flag_word, Kept, Told, Writes, WritesFirst};

use std::io::{Read, Stdin, Stdout};
use words::number::to_word;
use words::reader::Cursor;
use words::writer::put;

// How many bytes are read at once, and how many are gathered before they are sent.
pub const ROOM: usize = 65536;

pub type Buffer = [u8; ROOM];

// Whether cases still come. The input may have ended; or a case is refused, or a write failed, which counts as one. A refusal stays: what is
// left of the case is gone through, and who asks `is_over` stops there.
#[derive(Clone, Copy, PartialEq, Eq)]
pub enum State {
    Going,
    Ended,
    Refused,
}

// The place in both streams: what of the input's buffer is unread, how many bytes of the output's are to be sent, and whether all is over.
// With it go the streams themselves, which are nothing but the leave to read and to write.
// Stays: `filled` beside `output` and `unread` beside `input`, since there is no heap: each is a buffer of fixed size, filled and sent again and again.
#[derive(Clone, Copy)]
pub struct Place {
    pub input: Buffer,
    pub unread: Cursor,
    pub output: Buffer,
    pub filled: usize,
    pub state: State,
    pub stdin: Stdin,
    pub stdout: Stdout,
}

impl Place {
    // Nothing is read yet, and nothing is to be sent.
    pub fn start(stdin: Stdin, stdout: Stdout) -> Place
        ensures { result ≡ started stdin stdout }
    {
        Place {
            input: [0; ROOM],
            unread: Cursor { at: 0, end: 0 },
            output: [0; ROOM],
            filled: 0,
            state: State::Going,
            stdin,
            stdout,
        }
    }

    pub fn is_over(&self) -> bool
        ensures { result ≡ over_of self.now.state }
    {
        self.state != State::Going
    }

    // All is over, and a last word is to say that it ended amiss.
    pub fn refuse(&mut self)
        ensures { self.new ≡ refused_at self.old }
    {
        self.state = State::Refused;
    }

    pub fn refuse_if(&mut self, wrong: bool)
        ensures { self.new ≡ refused_if wrong self.old }
    {
        if wrong {
            self.refuse();
        }
    }

    // The word that a case begins with; None where all is over. The input may end before it.
    pub fn next_case(&mut self) -> Option<u64>
        ensures { self.new.output ≡ self.old.output }
    {
        self.clear(8);
        self.ready(8);
        if self.unread.left() == 0 {
            self.end();
            return None;
        }
        let sort = self.next();
        (!self.is_over()).then_some(sort)
    }

    // No case is left. What is refused stays so.
    fn end(&mut self)
        ensures { Kept self.old self.new }
    {
        if self.state == State::Going {
            self.state = State::Ended;
        }
    }

    // A word inside a case. Where there is none the case is refused, and the word is 0.
    // Stays: no `?` leaves a case early, since the program writes what it wrote on bad input too, and what it writes of the case at fault comes of
    // the words after the fault.
    pub fn next(&mut self) -> u64
        ensures { Kept self.old self.new }
    {
        let word = self.take_word();
        self.refuse_if(word.is_none());
        word.unwrap_or(0)
    }

    // A word of at most `most`. Any other has no meaning: the case is refused, and the word is 0.
    pub fn next_up_to(&mut self, most: u64) -> u64
        ensures bound { result ≤ most }
        ensures kept { Kept self.old self.new }
    {
        let word = self.next();
        if word <= most {
            return word;
        }
        self.refuse();
        0
    }

    // A word where one is wanted, else 0 with nothing read.
    pub fn next_if(&mut self, wanted: bool) -> u64
        ensures { Kept self.old self.new }
    {
        if wanted { self.next() } else { 0 }
    }

    // The next words, as many as are asked for of N; the others are 0.
    pub fn next_words<const N: usize>(&mut self, count: usize) -> [u64; N]
        ensures { Kept self.old self.new }
    {
        let mut words = [0; N];
        for word in words.iter_mut().take(count) {
            *word = self.next();
        }
        words
    }

    // So many parts of a case, each answered as it is read, so that the count may be any word. False where all was over before the last.
    pub fn each<F: FnMut(&mut Place)>(&mut self, count: u64, mut answer: F) -> bool
        requires { F.IsAlwaysCallable answer }
    {
        for _ in 0..count {
            if self.is_over() {
                return false;
            }
            answer(self);
        }
        true
    }

    // All the samples are read, as many at once as are unread. Where the input ends before the last, the case is refused and the others stay.
    pub fn read_samples(&mut self, samples: &mut [f64])
        ensures { Kept self.old self.new }
    {
        let mut count = 0;
        // Stays: `Cursor::fill` takes as many samples as are unread, by which no iterator counts.
        while count < samples.len() {
            self.ready(8);
            let filled = self.unread.fill(&self.input, samples, count);
            self.unread = filled.cursor;
            if filled.next <= count {
                return self.refuse();
            }
            count = filled.next;
        }
    }

    // The first samples are read; where there are not so many, the case is refused.
    pub fn read_first(&mut self, samples: &mut [f64], count: usize)
        ensures { Kept self.old self.new }
    {
        match samples.get_mut(..count) {
            Some(first) => self.read_samples(first),
            None => self.refuse(),
        }
    }

    // The next word, where the input has one.
    fn take_word(&mut self) -> Option<u64>
        ensures { Kept self.old self.new }
    {
        self.ready(8);
        let (word, rest) = self.unread.take(&self.input)?;
        self.unread = rest;
        Some(word)
    }

    // At least `want` bytes are unread, or the input has ended.
    pub fn ready(&mut self, want: usize)
        ensures { Kept self.old self.new }
    {
        if self.unread.left() < want && !self.is_over() {
            self.unread = refill(self.unread, self.stdin, &mut self.input, want);
        }
    }

    // One more word of answers.
    pub fn write(&mut self, word: u64)
        ensures { Writes (word ∷ []) self.old self.new }
    {
        self.clear(0);
        match put(&mut self.output, self.filled, word) {
            Some(next) => self.filled = next,
            None => self.refuse(),
        }
    }

    pub fn write_flag(&mut self, flag: bool)
        ensures { Writes (flag_word flag ∷ []) self.old self.new }
    {
        self.write(flag as u64);
    }

    // The words are written one after the other.
    pub fn write_words(&mut self, words: &[u64])
        ensures { Writes words.now self.old self.new }
    {
        for word in words {
            self.write(*word);
        }
    }

    // All the samples are written.
    pub fn write_samples(&mut self, samples: &[f64])
        ensures { Writes (map to_word samples.now) self.old self.new }
    {
        for sample in samples {
            self.write(to_word(*sample));
        }
    }

    // The first samples are written; where there are not so many, the case is refused.
    pub fn write_first(&mut self, samples: &[f64], count: usize)
        ensures { WritesFirst samples.now count self.old self.new }
    {
        match samples.get(..count) {
            Some(first) => self.write_samples(first),
            None => self.refuse(),
        }
    }

    // There is room for a word of answers, and none is held back while the program waits for `want` bytes.
    pub fn clear(&mut self, want: usize)
        ensures { Told (λ taken. cleared_by taken want self.old) self.new }
    {
        if self.unread.left() < want || ROOM - 8 < self.filled {
            self.send();
        }
    }

    // The answers that were gathered are written out.
    pub fn send(&mut self)
        ensures { Told (λ taken. sent taken self.old) self.new }
    {
        let filled = self.filled;
        self.filled = 0;
        if ROOM < filled {
            return self.refuse();
        }
        let written = self.stdout.write_all(&self.output[..filled]);
        self.refuse_if(written.is_err());
    }
}

// What is unread moves to the front, and more is read behind it, until `want` bytes are there or the input ends.
fn refill(unread: Cursor, stdin: Stdin, input: &mut [u8], want: usize) -> Cursor {
    let mut end = unread.front(input).end;
    // Stays: a read brings as many bytes as it likes, by which no iterator counts.
    while end < want {
        let more = read_behind(stdin, input, end);
        if more == 0 {
            break;
        }
        end += more;
    }
    Cursor { at: 0, end }
}

// Reads once, into the buffer from index `end` on, and answers how many bytes came: none at the input's end, nor where the read fails.
fn read_behind(mut stdin: Stdin, input: &mut [u8], end: usize) -> usize
    ensures { result ≤ length input.new - end }
{
    match input.get_mut(end..) {
        Some(behind) => stdin.read(behind).unwrap_or(0),
        None => 0,
    }
}
