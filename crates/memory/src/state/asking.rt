// A volume's memory as it is attached, and the questions that it answers by itself.
ghost use Rattle.std.specs.Prelude.{◌≡◌, ◌<◌, not, ◌&&◌, IfOk, OnOk, nat_lt};
ghost use Rattle.drive.specs.Faults.{said};
ghost use Rattle.memory.specs.View.{is_phase};
ghost use Rattle.model.specs.Carried.{asked, or_refused};
ghost use Rattle.model.specs.Memory.{attached, file_of, in_some_file};
ghost use Rattle.model.specs.Plans.{is_idle, unused_file};

use crate::entries;
use crate::state::Memory;
use arrayvec::ArrayVec;
use drive::fault::{Fault, Question};
use model::memory::{File, MapState, Phase};

impl Memory {
    // The phase is shut, the map idle, and nothing is held.
    pub fn attached() -> Memory
        ensures { result ≡ attached }
    {
        Memory {
            phase: Phase::Shut,
            chart: MapState::Idle,
            counts: [0; 3],
            service: ArrayVec::new(),
            unsettled: ArrayVec::new(),
            tickets: [None; 4],
            files: [None; 8],
            id: 0,
            entries: 0,
            trouble: 0,
        }
    }

    // Is the volume in the phase that is wanted?
    pub fn ask_phase(&self, wanted: Phase) -> Result<(), Fault>
        ensures { said result ≡ asked 2 (is_phase wanted self.now.phase) }
    {
        Question::Phase.ask(self.phase == wanted)
    }

    pub fn is_idle(&self) -> bool
        ensures { result ≡ is_idle self.now.chart }
    {
        self.chart == MapState::Idle
    }

    // Is the file in the table and unused?
    pub fn ask_unused(&self, file: usize) -> Result<(), Fault>
        ensures unused { said result ≡ asked 6 (unused_file self.now file) }
        ensures filed { OnOk result (file < 8) }
    {
        match self.files.get(file) {
            Some(None) => Ok(()),
            _ => Err(Question::File.refused()),
        }
    }

    // Is the entry number in its limits, and in no file?
    pub fn ask_number(&self, number: u16) -> Result<(), Fault>
        ensures taken { said result ≡ asked 7 (nat_lt number self.now.entries && not (in_some_file self.now.files number)) }
        ensures bound { OnOk result (number < 3968) }
    {
        entries::ask_number(&self.files, self.entries, number)
    }

    // The file, where it is used.
    pub fn used_file(&self, file: usize) -> Result<File, Fault>
        ensures found { said result ≡ or_refused 6 (file_of self.now file) }
        ensures filed { OnOk result (file < 8) }
        ensures numbered { IfOk result (λ x. x.entry < 3968) }
    {
        match self.files.get(file) {
            Some(Some(used)) => Ok(*used),
            _ => Err(Question::File.refused()),
        }
    }
}
