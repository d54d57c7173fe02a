// The calls on the map: addresses are taken from it and given back to it.
ghost use Rattle.std.specs.Prelude.{◌≡◌, ◌+◌, ◌-◌, ◌≤◌, [], length, replicate};
ghost use Rattle.drive.specs.Answers.{and_then, post_answer, PostLeaves};
ghost use Rattle.drive.specs.Faults.{said};
ghost use Rattle.drive.specs.Meaning.{size, owed};
ghost use Rattle.model.specs.Calls as call;
ghost use Rattle.model.specs.Calls.{Polls};
ghost use Rattle.model.specs.Carried.{CarriesOut, CarriesOutPoll, ComesTo, asked, replied};
ghost use Rattle.model.specs.Outcomes.{Reply, quiet, dry};
ghost use Rattle.model.specs.Plans.{is_closing, is_idle, take_from, give_oldest, joined};
ghost use Rattle.model.specs.Replies.{balanced_reply, drained_reply};
ghost use Rattle.model.specs.Stock.{counting_free, oldest};
ghost use Rattle.model.specs.Volume.{section_bytes};
ghost use Rattle.volumes.specs.Volumes.{volume_of, rules, section_or};

use crate::tokens::{ClosingPass, WorkingPass};
use crate::volume::Volume;
use drive::device::Drive;
use drive::fault::Fault;
use memory::map::{give_back, take_lowest};
use memory::numbers::{Parted, part};
use model::answers::{Balanced, Drained};
use model::memory::{MapState, Phase};
use posting::sections::{ENOUGH, covering, shown_section, wanted};
use reading::layout::{FIRST_SECTION, SUM_START};
use reading::work::{Work, ask_page};
use record::control::RECORD;
use record::section::Section;

// With fewer addresses in service, more are taken from the map.
const FEW: usize = 8;

// With more addresses in service, some are given back to the map.
const MANY: usize = 24;

impl<D: Drive> Volume<D> {
    // Takes addresses from the map where few are in service, gives some back where many are, and posts the section. The
    // page comes back zero.
    pub fn balance(&mut self, _pass: &WorkingPass, page: &mut [u8]) -> Result<Balanced, Fault>
        ensures carried { CarriesOut (rules D.Of.DEPTH D.Of.LIFE) (call.balance (length page.old)) (volume_of D.meaning self.old) (volume_of D.meaning self.new) (replied balanced_reply result) }
        ensures zero { page.new ≡ replicate (length page.old) 0 }
    {
        let work = Work(page);
        let page = ask_page(&mut *work.0)?;
        self.memory.ask_phase(Phase::Open)?;
        if !self.memory.is_idle() {
            return Ok(Balanced::Busy);
        }
        let in_service = self.memory.service().len();
        if in_service < FEW {
            let posted = self.take(page)?;
            return Ok(posted.map_or(Balanced::Quiet, Balanced::Section));
        }
        if in_service > MANY {
            let posted = self.give(ENOUGH, page)?;
            return Ok(posted.map_or(Balanced::Quiet, Balanced::Section));
        }
        Ok(Balanced::Quiet)
    }

    // Gives back every address in service of the oldest one's section, and posts the section. The page comes back zero.
    pub fn drain(&mut self, _pass: &ClosingPass, page: &mut [u8]) -> Result<Drained, Fault>
        ensures carried { CarriesOut (rules D.Of.DEPTH D.Of.LIFE) (call.drain (length page.old)) (volume_of D.meaning self.old) (volume_of D.meaning self.new) (replied drained_reply result) }
        ensures zero { page.new ≡ replicate (length page.old) 0 }
    {
        let work = Work(page);
        let page = ask_page(&mut *work.0)?;
        self.ask_drain()?;
        let posted = self.give(0, page)?;
        Ok(posted.map_or(Drained::Dry, Drained::Section))
    }

    // Is the volume closing, and its map idle?
    fn ask_drain(&self) -> Result<(), Fault>
        ensures { said result ≡ and_then (asked 2 (is_closing (volume_of D.meaning self.now).memory.phase)) (asked 15 (is_idle (volume_of D.meaning self.now).memory.chart)) }
    {
        self.memory.ask_phase(Phase::Closing)?;
        self.memory.ask_idle()
    }

    // Steps the drive; once the section that is being written has settled, the map is idle and the unsettled addresses
    // are in service. Answers how many writes are outstanding.
    pub fn poll(&mut self) -> usize
        ensures { CarriesOutPoll (rules D.Of.DEPTH D.Of.LIFE) (volume_of D.meaning self.old) (volume_of D.meaning self.new) result }
    {
        self.advance()
    }

    // What poll does and answers.
    fn advance(&mut self) -> usize
        ensures polls { Polls (volume_of D.meaning self.old) (volume_of D.meaning self.new) }
        ensures remain { result ≡ owed (D.meaning self.new.drive) }
    {
        let remain = self.drive.step();
        self.join_settled();
        remain
    }

    // The unsettled addresses join those in service once the section that is being written is settled.
    fn join_settled(&mut self)
        ensures joins { (volume_of D.meaning self.new).memory ≡ joined (D.meaning self.old.drive) (volume_of D.meaning self.old).memory (volume_of D.meaning self.old).memory.chart }
        ensures same { self.new.drive ≡ self.old.drive }
    {
        let MapState::Writing(k) = self.memory.chart() else {
            return;
        };
        if self.drive.pending(FIRST_SECTION + u16::from(k)) {
            return;
        }
        self.memory.settle();
    }

    // Takes the lowest free addresses of the lowest section that counts one, while the map is idle and few are in
    // service; answers the section.
    fn take(&mut self, page: &mut [u8; RECORD]) -> Result<Option<u8>, Fault>
        requires few { length (volume_of D.meaning self.old).memory.service ≤ 7 }
        requires settled { (volume_of D.meaning self.old).memory.unsettled ≡ [] }
        ensures { ComesTo (take_from (rules D.Of.DEPTH D.Of.LIFE) (D.meaning self.old.drive) (volume_of D.meaning self.old).memory (counting_free 0 (volume_of D.meaning self.old).memory.counts)) (volume_of D.meaning self.old) (volume_of D.meaning self.new) (replied (section_or quiet) result) }
    {
        let Some(k) = self.memory.section_with_free() else {
            return Ok(None);
        };
        let mut section = shown_section(&self.records(), k, page);
        let most = wanted(self.memory.service().len());
        let taken = take_lowest::<32>(&mut section, k, most);
        self.post_section(k, &section, page)?;
        self.memory.take(k, section.count(), &taken);
        Ok(Some(k))
    }

    // Gives back addresses of the oldest one's section, oldest first, until `left` are in service or that section has no
    // more there; answers the section, or none where nothing is in service.
    fn give(&mut self, left: usize, page: &mut [u8; RECORD]) -> Result<Option<u8>, Fault>
        ensures { (reply : Reply) → ComesTo (give_oldest (rules D.Of.DEPTH D.Of.LIFE) (D.meaning self.old.drive) (volume_of D.meaning self.old).memory left reply (oldest (volume_of D.meaning self.old).memory.service)) (volume_of D.meaning self.old) (volume_of D.meaning self.new) (replied (section_or reply) result) }
    {
        let Some(oldest) = self.memory.service().first().copied() else {
            return Ok(None);
        };
        let k = covering(oldest);
        let mut section = shown_section(&self.records(), k, page);
        let service = self.memory.service();
        let most = service.len().saturating_sub(left);
        let Parted { given, staying } = part(service, k, most);
        give_back(&mut section, k, &given);
        self.post_section(k, &section, page)?;
        self.memory.give(k, section.count(), staying);
        Ok(Some(k))
    }

    // Posts section `k` of the map.
    fn post_section(
        &mut self,
        k: u8,
        section: &Section,
        page: &mut [u8; RECORD],
    ) -> Result<(), Fault>
        requires { k ≤ 16 }
        ensures answer { said result ≡ post_answer D.Of.DEPTH D.Of.LIFE (D.meaning self.old.drive) (1 + k) (length (section_bytes (volume_of D.meaning self.old).memory.id (volume_of D.meaning self.old).memory.entries (size (D.meaning self.old.drive)) k section.now.bits)) }
        ensures after { PostLeaves result (D.meaning self.old.drive) (1 + k) (section_bytes (volume_of D.meaning self.old).memory.id (volume_of D.meaning self.old).memory.entries (size (D.meaning self.old.drive)) k section.now.bits) (D.meaning self.new.drive) }
        ensures same { self.new.memory ≡ self.old.memory }
    {
        let records = self.records();
        section.encode(SUM_START, records.label.id, &records.span(k), page);
        self.drive.post(FIRST_SECTION + u16::from(k), page)
    }
}
