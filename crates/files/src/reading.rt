// A reading of a file, part by part: numbers, choices, and eight bytes. The first fault ends it. Rests on `words` for eight bytes.
ghost use Rattle.std.specs.Prelude.{◌≡◌};
ghost use Rattle.files.specs.Reader.{if_there};
ghost use Rattle.files.specs.File.{number, one_of, choice, eight};
ghost use Rattle.files.specs.Inside.{told};

use crate::fault::{Fault, FaultReason, fault_unless};
use words::reader::Cursor;

const LARGEST: usize = 4_294_967_295;

// The file's bytes, and the offset of what is read next. After a fault the offset says nothing: no more is read.
// Stays: `kept` stands in each contract, not as an invariant, since it is said of a change: that a part leaves the same bytes for the next one.
#[derive(Clone, Copy)]
pub(crate) struct Reading<'a> {
    pub bytes: &'a [u8],
    pub offset: usize,
}

impl<'a> Reading<'a> {
    // In groups of seven bits, the lowest first: each time round a group.
    pub(crate) fn number(&mut self) -> Result<usize, Fault>
        ensures said { told result self.new.offset ≡ number self.old.bytes.now self.old.offset }
        ensures kept { self.new.bytes ≡ self.old.bytes }
    {
        let start = self.offset;
        let mut value = 0;
        let mut weight = 1;
        for _ in 0..5usize {
            let Some(byte) = self.bytes.get(self.offset).copied() else {
                return Err(FaultReason::EndsEarly.at(start));
            };
            self.offset += 1;
            value += usize::from(byte % 128) * weight;
            if byte < 128 {
                fault_unless(value <= LARGEST, FaultReason::TooLarge, start)?;
                return Ok(value);
            }
            weight *= 128;
        }
        Err(FaultReason::TooLarge.at(start))
    }

    // A kind, a choice or a mark: one of `limit`, from 0.
    pub(crate) fn one_of(&mut self, limit: usize) -> Result<usize, Fault>
        ensures said { told result self.new.offset ≡ one_of limit self.old.bytes.now self.old.offset }
        ensures kept { self.new.bytes ≡ self.old.bytes }
    {
        let start = self.offset;
        let value = self.number()?;
        fault_unless(value < limit, FaultReason::Unknown, start)?;
        Ok(value)
    }

    // Where there is something to choose from, which; else 0 with nothing read.
    pub(crate) fn choice(&mut self, limit: u8) -> Result<usize, Fault>
        ensures said { told result self.new.offset ≡ choice limit self.old.bytes.now self.old.offset }
        ensures kept { self.new.bytes ≡ self.old.bytes }
    {
        if limit > 0 {
            self.one_of(usize::from(limit))
        } else {
            Ok(0)
        }
    }

    // A number where there is one, else 0 with nothing read.
    // Stays: no plainer as one generic with `eight_if` and `parameter_if`: it would take a closure, and its contract would be about any part's definition.
    pub(crate) fn number_if(&mut self, there: bool) -> Result<usize, Fault>
        ensures said { told result self.new.offset ≡ if_there there 0 number self.old.bytes.now self.old.offset }
        ensures kept { self.new.bytes ≡ self.old.bytes }
    {
        if there { self.number() } else { Ok(0) }
    }

    // The bits that eight bytes make.
    fn eight(&mut self) -> Result<u64, Fault>
        ensures said { told result self.new.offset ≡ eight self.old.bytes.now self.old.offset }
        ensures kept { self.new.bytes ≡ self.old.bytes }
    {
        let here = Cursor {
            at: self.offset,
            end: self.bytes.len(),
        };
        let Some((bits, rest)) = here.take(self.bytes) else {
            return Err(FaultReason::EndsEarly.at(self.offset));
        };
        self.offset = rest.at;
        Ok(bits)
    }

    // Eight bytes where they are there, else no bits with nothing read.
    pub(crate) fn eight_if(&mut self, there: bool) -> Result<u64, Fault>
        ensures said { told result self.new.offset ≡ if_there there 0 eight self.old.bytes.now self.old.offset }
        ensures kept { self.new.bytes ≡ self.old.bytes }
    {
        if there { self.eight() } else { Ok(0) }
    }
}
