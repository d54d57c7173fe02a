// The calls on the slots of a file.
ghost use Rattle.std.specs.Prelude.{◌≡◌, length, replicate, OnErr, ◌==◌};
ghost use Rattle.model.specs.Calls as call;
ghost use Rattle.drive.specs.Faults.{said};
ghost use Rattle.model.specs.Carried.{asked, CarriesOut, ComesTo, HandsBack, replied, replied_with};
ghost use Rattle.model.specs.Outcomes.{page as page_reply};
ghost use Rattle.model.specs.Plans.{read_plan};
ghost use Rattle.model.specs.Replies.{done_reply};
ghost use Rattle.volumes.specs.Volumes.{volume_of, rules};

use crate::tokens::{Grant, WorkingPass};
use crate::volume::Volume;
use drive::device::Drive;
use drive::fault::{Fault, Question};
use memory::entries;
use model::memory::Phase;
use reading::work::Work;
use record::control::RECORD;

impl<D: Drive> Volume<D> {
    // Posts the page at the grant's address for an Empty slot, which is Nulled from now on, and spends the grant. A
    // refusal hands the grant back. The page comes back zero.
    pub fn place(
        &mut self,
        _pass: &WorkingPass,
        grant: Grant,
        file: usize,
        slot: usize,
        page: &mut [u8],
    ) -> Result<(), (Grant, Fault)>
        ensures carried { CarriesOut (rules D.Of.DEPTH D.Of.LIFE) (call.place page.old file slot grant.ticket grant.address) (volume_of D.meaning self.old) (volume_of D.meaning self.new) (replied_with done_reply result) }
        ensures back { HandsBack result grant }
        ensures zero { page.new ≡ replicate (length page.old) 0 }
    {
        let work = Work(page);
        match self.place_page(grant.ticket, grant.address, file, slot, &*work.0) {
            Ok(()) => {
                let Grant {
                    ticket: _,
                    address: _,
                } = grant;
                Ok(())
            }
            Err(fault) => Err((grant, fault)),
        }
    }

    fn place_page(
        &mut self,
        ticket: u8,
        address: u16,
        file: usize,
        slot: usize,
        page: &[u8],
    ) -> Result<(), Fault>
        ensures { CarriesOut (rules D.Of.DEPTH D.Of.LIFE) (call.place page.now file slot ticket address) (volume_of D.meaning self.old) (volume_of D.meaning self.new) (replied done_reply result) }
    {
        ask_record(page)?;
        self.memory.ask_phase(Phase::Open)?;
        let used = self.memory.used_file(file)?;
        entries::ask_empty(&used, slot)?;
        self.memory.ask_ticket(ticket, address)?;
        self.drive.post(address, page)?;
        self.memory.place(file, slot, ticket, address);
        Ok(())
    }

    // Fills the page with the page of a Nulled or Live slot; it comes back zero where that is refused.
    pub fn read(
        &mut self,
        _pass: &WorkingPass,
        file: usize,
        slot: usize,
        page: &mut [u8],
    ) -> Result<(), Fault>
        ensures carried { CarriesOut (rules D.Of.DEPTH D.Of.LIFE) (call.read (length page.old) file slot) (volume_of D.meaning self.old) (volume_of D.meaning self.new) (replied (λ _. page_reply page.new) result) }
        ensures zero { OnErr result (page.new ≡ replicate (length page.old) 0) }
    {
        match self.read_page(file, slot, page) {
            Ok(()) => Ok(()),
            Err(fault) => {
                page.fill(0);
                Err(fault)
            }
        }
    }

    fn read_page(&self, file: usize, slot: usize, page: &mut [u8]) -> Result<(), Fault>
        ensures { ComesTo (read_plan (length page.old) file slot (D.meaning self.now.drive) (volume_of D.meaning self.now).memory) (volume_of D.meaning self.now) (volume_of D.meaning self.now) (replied (λ _. page_reply page.new) result) }
    {
        ask_record(page)?;
        self.memory.ask_phase(Phase::Open)?;
        let used = self.memory.used_file(file)?;
        let address = entries::page_of(&used, slot)?;
        self.drive.read(address, page)?;
        Ok(())
    }

    // A Live page is Leaving from now on, a Nulled one has Left.
    pub fn clear(&mut self, _pass: &WorkingPass, file: usize, slot: usize) -> Result<(), Fault>
        ensures { CarriesOut (rules D.Of.DEPTH D.Of.LIFE) (call.clear file slot) (volume_of D.meaning self.old) (volume_of D.meaning self.new) (replied done_reply result) }
    {
        self.memory.clear(file, slot)
    }

    // The address that a slot has left goes to the end of those in service; the slot is Empty from now on.
    pub fn reclaim(&mut self, _pass: &WorkingPass, file: usize, slot: usize) -> Result<(), Fault>
        ensures { CarriesOut (rules D.Of.DEPTH D.Of.LIFE) (call.reclaim file slot) (volume_of D.meaning self.old) (volume_of D.meaning self.new) (replied done_reply result) }
    {
        self.memory.ask_phase(Phase::Open)?;
        let used = self.memory.used_file(file)?;
        let address = entries::left_address(&used, slot)?;
        self.memory.ask_room()?;
        self.ask_settled(used.entry)?;
        self.memory.reclaim(file, slot, address);
        Ok(())
    }
}

// Is the page 512 bytes? As `ask_page`, of a page that goes on as a slice: who placed it or reads it looks at that.
fn ask_record(page: &[u8]) -> Result<(), Fault>
    ensures { said result ≡ asked 1 (length page.now == 512) }
{
    Question::PageLength.ask(page.len() == RECORD)
}
