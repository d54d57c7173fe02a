// The stock, what the map is doing, and the volume's label as it was opened.
ghost use Rattle.std.specs.Prelude.{◌≡◌, ◌+◌, ◌<◌, ◌≤◌, ◌&&◌, [], ◌∷◌, ◌++◌, length, IfSome, ◌==◌, nat_lt, slice_set, position};
ghost use Rattle.arrayvec.specs.ArrayVec.{array_vec_len};
ghost use Rattle.drive.specs.Faults.{said};
ghost use Rattle.memory.specs.Bounds.{Sound};
ghost use Rattle.memory.specs.View.{label_kept, opened_as};
ghost use Rattle.model.specs.Carried.{asked};
ghost use Rattle.model.specs.Memory.{with_phase, with_stock, held};
ghost use Rattle.model.specs.Plans.{is_idle};
ghost use Rattle.model.specs.Stock.{counting_free};
ghost use Rattle.model.specs.declared.memory.MapState.TheVariants.{Idle, Writing};
ghost use Rattle.model.specs.declared.memory.Phase.TheVariants.{Shut};

use crate::numbers::append;
use crate::state::Memory;
use arrayvec::ArrayVec;
use drive::fault::{Fault, Question};
use model::memory::{MapState, Phase};
use record::label::{Label, LabelState};

impl Memory {
    // The lowest section that counts a free address.
    #[tactic(auto, using(crate::proofs::StateLaws::first_counting))]
    pub fn section_with_free(&self) -> Option<u8>
        ensures lowest { result ≡ counting_free 0 self.now.counts }
        ensures bound { IfSome result (λ k. k < 3) }
    {
        let k = lowest_counting(&self.counts)?;
        Some(k as u8)
    }

    // The addresses in service.
    pub fn service(&self) -> &[u16]
        ensures value { result.now ≡ self.now.service }
        ensures few { length result.now ≤ 32 }
        ensures sound { Sound self.now }
    {
        &self.service
    }

    // The section that is being written.
    pub fn chart(&self) -> MapState
        ensures { result ≡ self.now.chart }
    {
        self.chart
    }

    // Section `k` is being written with so many free addresses; those taken are unsettled until it is.
    pub fn take(&mut self, k: u8, count: u32, taken: &[u16])
        requires { held self.old + length taken.now ≤ 32 }
        ensures { self.new ≡ with_stock self.old (Writing k) (slice_set self.old.counts k count) self.old.service (self.old.unsettled ++ taken.now) }
    {
        self.write(k, count);
        append(&mut self.unsettled, taken);
    }

    // Section `k` is being written with so many free addresses; those left are still in service.
    pub fn give(&mut self, k: u8, count: u32, left: ArrayVec<u16, 32>)
        requires { array_vec_len left ≤ length self.old.service }
        ensures { self.new ≡ with_stock self.old (Writing k) (slice_set self.old.counts k count) left.items self.old.unsettled }
    {
        self.service = left;
        self.write(k, count);
    }

    fn write(&mut self, k: u8, count: u32)
        ensures { self.new ≡ with_stock self.old (Writing k) (slice_set self.old.counts k count) self.old.service self.old.unsettled }
    {
        self.chart = MapState::Writing(k);
        let k = usize::from(k);
        // An index, as get_mut of an array leaves a proof nothing of its elements.
        if k < self.counts.len() {
            self.counts[k] = count;
        }
    }

    // The section is written: the unsettled addresses join those in service.
    pub fn settle(&mut self)
        ensures { self.new ≡ with_stock self.old Idle self.old.counts (self.old.service ++ self.old.unsettled) [] }
    {
        append(&mut self.service, &self.unsettled);
        self.unsettled.clear();
        self.chart = MapState::Idle;
    }

    // Is the map idle?
    pub fn ask_idle(&self) -> Result<(), Fault>
        ensures { said result ≡ asked 15 (is_idle self.now.chart) }
    {
        Question::Settled.ask(self.is_idle())
    }

    // Is the map idle, the stock empty, and nothing outstanding?
    pub fn ask_settled(&self, owed: usize) -> Result<(), Fault>
        ensures { said result ≡ asked 15 (is_idle self.now.chart && (length self.now.service + length self.now.unsettled == 0 && owed == 0)) }
    {
        self.ask_idle()?;
        Question::Settled.ask(self.service.len() + self.unsettled.len() == 0 && owed == 0)
    }

    // The volume is open, under this label and with these counts of free addresses.
    pub fn open(&mut self, label: &Label, counts: [u32; 3])
        requires { label.now.entries ≤ 3968 }
        ensures { self.new ≡ opened_as self.old label.now counts }
    {
        self.counts = counts;
        self.id = label.id;
        self.entries = label.entries;
        self.trouble = label.trouble;
        self.phase = Phase::Open;
    }

    // The volume is shut.
    pub fn shut(&mut self)
        ensures { self.new ≡ with_phase self.old Shut }
    {
        self.phase = Phase::Shut;
    }

    // The id of the opened volume.
    pub fn id(&self) -> u32
        ensures { result ≡ self.now.id }
    {
        self.id
    }

    // The label of the opened volume of so many records, in some state.
    pub fn label(&self, records: u16, state: LabelState) -> Label
        ensures kept { result ≡ label_kept self.now records state }
        ensures few { result.entries ≤ 3968 }
    {
        Label {
            id: self.id,
            records,
            entries: self.entries,
            state,
            trouble: self.trouble,
        }
    }
}

// The lowest section that counts a free address.
fn lowest_counting(counts: &[u32; 3]) -> Option<usize>
    ensures lowest { result ≡ position (λ n. nat_lt 0 n) counts.now }
    ensures bound { IfSome result (λ k. k < 3) }
{
    counts.iter().position(|count| *count > 0)
}
