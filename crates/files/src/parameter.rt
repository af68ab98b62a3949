// A parameter of a patch file. Rests on `reading` for its numbers.
ghost use Rattle.std.specs.Prelude.{◌≡◌};
ghost use Rattle.flat.specs.Patch.{no_parameter};
ghost use Rattle.files.specs.Reader.{if_there};
ghost use Rattle.files.specs.File.{parameter};
ghost use Rattle.files.specs.Inside.{told};

use crate::fault::Fault;
use crate::reading::Reading;
use flat::patch::no_parameter;
use flat::stage::FlatParameter;

impl<'a> Reading<'a> {
    // Its mark, and what the mark says that there is: bits, or a slot. In line, as the one below, so that the offset need not lie in memory: a file of
    // 30 stages takes up to twice as long where it does.
    #[inline(always)]
    pub(crate) fn parameter(&mut self) -> Result<FlatParameter, Fault>
        ensures said { told result self.new.offset ≡ parameter self.old.bytes.now self.old.offset }
        ensures kept { self.new.bytes ≡ self.old.bytes }
    {
        let mark = self.one_of(4)?;
        let bits = self.eight_if(mark == 1)?;
        let slot = self.number_if(mark == 2)?;
        Ok(FlatParameter { mark, slot, bits })
    }

    // A parameter where the kind has it, else an absent one with nothing read.
    #[inline(always)]
    pub(crate) fn parameter_if(&mut self, there: bool) -> Result<FlatParameter, Fault>
        ensures said { told result self.new.offset ≡ if_there there no_parameter parameter self.old.bytes.now self.old.offset }
        ensures kept { self.new.bytes ≡ self.old.bytes }
    {
        if there {
            self.parameter()
        } else {
            Ok(no_parameter())
        }
    }
}
