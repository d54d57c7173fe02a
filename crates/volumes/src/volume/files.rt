// The calls on files and their entries.
ghost use Rattle.std.specs.Prelude.{◌≡◌, length, replicate};
ghost use Rattle.model.specs.Calls as call;
ghost use Rattle.model.specs.Carried.{CarriesOut, replied};
ghost use Rattle.model.specs.Replies.{done_reply};
ghost use Rattle.volumes.specs.Volumes.{volume_of, rules};

use crate::tokens::WorkingPass;
use crate::volume::Volume;
use drive::device::Drive;
use drive::fault::Fault;
use memory::entries;
use model::memory::{File, Phase, Slot};
use posting::entries::{moved_slots, post_entry};
use reading::work::{Work, ask_page};
use record::entry::Entry;

impl<D: Drive> Volume<D> {
    // Posts the entry with its meter and no pages; the file holds it from now on. The page comes back zero.
    pub fn create(
        &mut self,
        _pass: &WorkingPass,
        file: usize,
        number: u16,
        meter: u32,
        page: &mut [u8],
    ) -> Result<(), Fault>
        ensures carried { CarriesOut (rules D.Of.DEPTH D.Of.LIFE) (call.create (length page.old) file number meter) (volume_of D.meaning self.old) (volume_of D.meaning self.new) (replied done_reply result) }
        ensures zero { page.new ≡ replicate (length page.old) 0 }
    {
        let work = Work(page);
        self.create_entry(file, number, meter, &mut *work.0)
    }

    fn create_entry(
        &mut self,
        file: usize,
        number: u16,
        meter: u32,
        page: &mut [u8],
    ) -> Result<(), Fault>
        ensures { CarriesOut (rules D.Of.DEPTH D.Of.LIFE) (call.create (length page.old) file number meter) (volume_of D.meaning self.old) (volume_of D.meaning self.new) (replied done_reply result) }
    {
        let page = ask_page(page)?;
        self.memory.ask_phase(Phase::Open)?;
        self.memory.ask_unused(file)?;
        self.memory.ask_number(number)?;
        entries::ask_meter(meter)?;
        let shown = self.shown_entry(number, page);
        entries::ask_free(shown, number)?;
        let entry = Entry {
            meter,
            slots: [0; 64],
        };
        post_entry(&mut self.drive, self.memory.id(), number, &entry, page)?;
        let taken = File {
            entry: number,
            meter,
            slots: [Slot::Empty; 64],
        };
        self.memory.hold(file, taken);
        Ok(())
    }

    // The file holds the entry as it shows; its pages are Live. The page comes back zero.
    pub fn activate(
        &mut self,
        _pass: &WorkingPass,
        file: usize,
        number: u16,
        page: &mut [u8],
    ) -> Result<(), Fault>
        ensures carried { CarriesOut (rules D.Of.DEPTH D.Of.LIFE) (call.activate (length page.old) file number) (volume_of D.meaning self.old) (volume_of D.meaning self.new) (replied done_reply result) }
        ensures zero { page.new ≡ replicate (length page.old) 0 }
    {
        let work = Work(page);
        self.load_entry(file, number, &mut *work.0)
    }

    fn load_entry(&mut self, file: usize, number: u16, page: &mut [u8]) -> Result<(), Fault>
        ensures { CarriesOut (rules D.Of.DEPTH D.Of.LIFE) (call.activate (length page.old) file number) (volume_of D.meaning self.old) (volume_of D.meaning self.new) (replied done_reply result) }
    {
        let page = ask_page(page)?;
        self.memory.ask_phase(Phase::Open)?;
        self.memory.ask_unused(file)?;
        self.memory.ask_number(number)?;
        let shown = self.shown_entry(number, page);
        let entry = entries::ask_metered(shown, number)?;
        let taken = File {
            entry: number,
            meter: entry.meter,
            slots: entries::load(&entry),
        };
        self.memory.hold(file, taken);
        Ok(())
    }

    // Each Nulled page that has settled is Live from now on, each Leaving one has Left; posts the entry with its Live
    // pages. The page comes back zero.
    pub fn update(&mut self, _pass: &WorkingPass, file: usize, page: &mut [u8]) -> Result<(), Fault>
        ensures carried { CarriesOut (rules D.Of.DEPTH D.Of.LIFE) (call.update (length page.old) file) (volume_of D.meaning self.old) (volume_of D.meaning self.new) (replied done_reply result) }
        ensures zero { page.new ≡ replicate (length page.old) 0 }
    {
        let work = Work(page);
        self.update_entry(file, &mut *work.0)
    }

    fn update_entry(&mut self, file: usize, page: &mut [u8]) -> Result<(), Fault>
        ensures { CarriesOut (rules D.Of.DEPTH D.Of.LIFE) (call.update (length page.old) file) (volume_of D.meaning self.old) (volume_of D.meaning self.new) (replied done_reply result) }
    {
        let page = ask_page(page)?;
        self.memory.ask_phase(Phase::Open)?;
        let used = self.memory.used_file(file)?;
        self.ask_settled(used.entry)?;
        let moved = moved_slots(&self.drive, used.slots);
        let entry = entries::naming_live(used.meter, &moved);
        post_entry(&mut self.drive, self.memory.id(), used.entry, &entry, page)?;
        self.memory.move_slots(file, &moved);
        Ok(())
    }

    // The file is unused from now on.
    pub fn deactivate(&mut self, _pass: &WorkingPass, file: usize) -> Result<(), Fault>
        ensures { CarriesOut (rules D.Of.DEPTH D.Of.LIFE) (call.deactivate file) (volume_of D.meaning self.old) (volume_of D.meaning self.new) (replied done_reply result) }
    {
        self.memory.deactivate(file)
    }
}
