// What the records of an opened volume show.
ghost use Rattle.std.specs.Prelude.{◌≡◌, ◌+◌, ◌<◌, ◌≤◌, not, length};
ghost use Rattle.drive.specs.Faults.{said};
ghost use Rattle.drive.specs.Meaning.{size, pending};
ghost use Rattle.model.specs.Carried.{asked};
ghost use Rattle.model.specs.Plans.{kept_label};
ghost use Rattle.model.specs.Shown.{entry_shown};
ghost use Rattle.record.specs.declared.label.LabelState.TheVariants.{InUse};
ghost use Rattle.volumes.specs.Volumes.{volume_of};

use crate::volume::Volume;
use drive::device::Drive;
use drive::fault::{Fault, Question};
use reading::layout::FIRST_ENTRY;
use reading::shown::Records;
use record::control::RECORD;
use record::entry::Entry;
use record::label::{Label, LabelState};

impl<D: Drive> Volume<D> {
    // The opened volume's label, in some state.
    pub(crate) fn label(&self, state: LabelState) -> Label
        ensures kept { result ≡ kept_label (D.meaning self.now.drive) (volume_of D.meaning self.now).memory state }
        ensures few { result.entries ≤ 3968 }
    {
        self.memory.label(self.drive.size() as u16, state)
    }

    // The opened volume's control records.
    pub(crate) fn records(&self) -> Records<'_, D>
        ensures label { result.label ≡ kept_label (D.meaning self.now.drive) (volume_of D.meaning self.now).memory InUse }
        ensures same { result.drive.now ≡ self.now.drive }
    {
        Records {
            drive: &self.drive,
            label: self.label(LabelState::InUse),
        }
    }

    // The entry as it shows, where it is sound.
    pub(crate) fn shown_entry(&self, number: u16, page: &mut [u8; RECORD]) -> Option<Entry>
        requires { number < 3968 }
        ensures { result ≡ entry_shown (D.meaning self.now.drive) (volume_of D.meaning self.now).memory.id (volume_of D.meaning self.now).memory.entries number }
    {
        self.records().entry(number, page)
    }

    // Is the entry's record not pending?
    pub(crate) fn ask_settled(&self, number: u16) -> Result<(), Fault>
        requires { number < 3968 }
        ensures { said result ≡ asked 15 (not (pending (D.meaning self.now.drive) (8 + number))) }
    {
        Question::Settled.ask(!self.drive.pending(FIRST_ENTRY + number))
    }
}
