// The calls that take a volume from phase to phase.
ghost use Rattle.std.specs.Prelude.{◌≡◌, map, length, replicate};
ghost use Rattle.model.specs.Calls as call;
ghost use Rattle.model.specs.Carried.{CarriesOut, CarriesOutAttach, HandsBack, replied, replied_with};
ghost use Rattle.model.specs.Outcomes.{done};
ghost use Rattle.volumes.specs.Volumes.{volume_of, rules};

use crate::tokens::{ClosingPass, WorkingPass};
use crate::volume::Volume;
use drive::device::Drive;
use drive::fault::Fault;
use memory::state::Memory;
use model::memory::Phase;
use posting::labels::{ask_may_open, in_use};
use posting::sections::count_map;
use reading::layout::{LABEL, SUM_START};
use reading::shown::Records;
use reading::work::{Work, ask_page};
use record::label::LabelState;

impl<D: Drive> Volume<D> {
    // A volume on the drive: the phase is shut, the map idle, and nothing is held.
    pub fn attach(drive: D) -> Volume<D>
        ensures { CarriesOutAttach (rules D.Of.DEPTH D.Of.LIFE) (D.meaning drive) (volume_of D.meaning result) }
    {
        Volume {
            drive,
            memory: Memory::attached(),
        }
    }

    // The drive, for reading.
    pub fn drive(&self) -> &D
        ensures { result.now ≡ self.now.drive }
    {
        &self.drive
    }

    // Gives the drive back. What was kept in memory is lost, as by a power cut.
    pub fn detach(self) -> D
        ensures { result ≡ self.drive }
    {
        let Volume { drive, memory: _ } = self;
        drive
    }

    // Counts the map's free addresses and posts the label as in use; the phase is open from now on, and the caller may
    // work. The page comes back zero.
    pub fn open(&mut self, page: &mut [u8]) -> Result<WorkingPass, Fault>
        ensures carried { CarriesOut (rules D.Of.DEPTH D.Of.LIFE) (call.open' (length page.old)) (volume_of D.meaning self.old) (volume_of D.meaning self.new) (replied (λ _. done) result) }
        ensures zero { page.new ≡ replicate (length page.old) 0 }
    {
        let work = Work(page);
        self.post_in_use(&mut *work.0)
    }

    fn post_in_use(&mut self, page: &mut [u8]) -> Result<WorkingPass, Fault>
        ensures { CarriesOut (rules D.Of.DEPTH D.Of.LIFE) (call.open' (length page.old)) (volume_of D.meaning self.old) (volume_of D.meaning self.new) (replied (λ _. done) result) }
    {
        let page = ask_page(page)?;
        self.memory.ask_phase(Phase::Shut)?;
        let records = Records::believed(&self.drive, page)?;
        ask_may_open(records.label.state)?;
        let counts = count_map(&records, page);
        let opened = in_use(&records.label);
        opened.encode(SUM_START, page);
        self.drive.post(LABEL, page)?;
        self.memory.open(&opened, counts);
        Ok(WorkingPass { given: () })
    }

    // Changes the working pass for a closing pass; the phase is closing from now on. A refusal hands the pass back.
    pub fn close(&mut self, pass: WorkingPass) -> Result<ClosingPass, (WorkingPass, Fault)>
        ensures carried { CarriesOut (rules D.Of.DEPTH D.Of.LIFE) call.close (volume_of D.meaning self.old) (volume_of D.meaning self.new) (replied_with (λ _. done) result) }
        ensures back { HandsBack result pass }
    {
        match self.memory.close() {
            Ok(()) => {
                let WorkingPass { given } = pass;
                Ok(ClosingPass { given })
            }
            Err(fault) => Err((pass, fault)),
        }
    }

    // Posts the label as closed; the phase is shut from now on. A refusal hands the pass back. The page comes back zero.
    pub fn finish(&mut self, pass: ClosingPass, page: &mut [u8]) -> Result<(), (ClosingPass, Fault)>
        ensures carried { CarriesOut (rules D.Of.DEPTH D.Of.LIFE) (call.finish (length page.old)) (volume_of D.meaning self.old) (volume_of D.meaning self.new) (replied_with (λ _. done) result) }
        ensures back { HandsBack result pass }
        ensures zero { page.new ≡ replicate (length page.old) 0 }
    {
        let work = Work(page);
        match self.post_closed(&mut *work.0) {
            Ok(()) => {
                let ClosingPass { given: _ } = pass;
                Ok(())
            }
            Err(fault) => Err((pass, fault)),
        }
    }

    fn post_closed(&mut self, page: &mut [u8]) -> Result<(), Fault>
        ensures { CarriesOut (rules D.Of.DEPTH D.Of.LIFE) (call.finish (length page.old)) (volume_of D.meaning self.old) (volume_of D.meaning self.new) (replied (λ _. done) result) }
    {
        let page = ask_page(page)?;
        self.memory.ask_phase(Phase::Closing)?;
        self.memory.ask_settled(self.drive.owed())?;
        self.label(LabelState::Closed).encode(SUM_START, page);
        self.drive.post(LABEL, page)?;
        self.memory.shut();
        Ok(())
    }
}
