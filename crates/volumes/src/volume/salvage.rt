// Salvage: mends a volume after a power cut, one write a call.
ghost use Rattle.std.specs.Prelude.{◌≡◌, length, replicate};
ghost use Rattle.model.specs.Calls as call;
ghost use Rattle.model.specs.Carried.{CarriesOut, replied};
ghost use Rattle.model.specs.Replies.{salvaged_reply};
ghost use Rattle.model.specs.Memory.{Memory};
ghost use Rattle.model.specs.Outcomes.{Rules};
ghost use Rattle.volumes.specs.Salvages.{salvage_from, next_or_refused};
ghost use Rattle.volumes.specs.Volumes.{volume_of, rules};

use crate::volume::Volume;
use drive::device::Drive;
use drive::fault::Fault;
use mending::next::next_mend;
use model::answers::Salvaged;
use model::memory::Phase;
use posting::asking::{ask_quiet, ask_tally};
use reading::shown::Records;
use reading::work::{Work, ask_page};
use record::control::RECORD;

impl<D: Drive> Volume<D> {
    // Posts the first of these that applies: the label as salvage begun, an entry in its mended form, a section of the
    // map as the entries leave it, the label as closed. The page and the tally, a byte for each record, come back zero.
    pub fn salvage(&mut self, page: &mut [u8], tally: &mut [u8]) -> Result<Salvaged, Fault>
        ensures carried { CarriesOut (rules D.Of.DEPTH D.Of.LIFE) (call.salvage (length page.old) (length tally.old)) (volume_of D.meaning self.old) (volume_of D.meaning self.new) (replied salvaged_reply result) }
        ensures zero { page.new ≡ replicate (length page.old) 0 }
        ensures zero_tally { tally.new ≡ replicate (length tally.old) 0 }
    {
        let work = Work(page);
        let marks = Work(tally);
        self.post_mend(&mut *work.0, &mut *marks.0)
    }

    fn post_mend(&mut self, page: &mut [u8], tally: &mut [u8]) -> Result<Salvaged, Fault>
        ensures { CarriesOut (rules D.Of.DEPTH D.Of.LIFE) (call.salvage (length page.old) (length tally.old)) (volume_of D.meaning self.old) (volume_of D.meaning self.new) (replied salvaged_reply result) }
    {
        let page = ask_page(page)?;
        self.memory.ask_phase(Phase::Shut)?;
        let (answer, address) = self.next_write(page, tally)?;
        self.drive.post(address, page)?;
        Ok(answer)
    }

    // What is posted next, with the questions that come before it: its answer and the record's address. The page then
    // holds the record's bytes.
    fn next_write(
        &self,
        page: &mut [u8; RECORD],
        tally: &mut [u8],
    ) -> Result<(Salvaged, u16), Fault>
        ensures { (g : Rules) (v : Memory) → salvage_from g (length tally.old) (D.meaning self.now.drive) v ≡ next_or_refused g (D.meaning self.now.drive) v result page.new }
    {
        let records = Records::believed(&self.drive, page)?;
        ask_tally(tally.len(), self.drive.size())?;
        ask_quiet(self.drive.owed())?;
        Ok(next_mend(&records, page, tally))
    }
}
