// The files in memory, and their slots. A file and a slot go by their numbers, as in the plans; who calls has just put the
// question that bounds the number.
ghost use Rattle.std.specs.Prelude.{◌≡◌, ◌<◌, [], ◌∷◌, ◌++◌, Some, None, slice_set};
ghost use Rattle.memory.specs.View.{came_to, UnlessAcceptedSame};
ghost use Rattle.drive.specs.Faults.{said};
ghost use Rattle.model.specs.Carried.{asked, replied};
ghost use Rattle.model.specs.Memory.{with_file, with_tickets, with_service, file_of, held};
ghost use Rattle.model.specs.Plans.{deactivate_plan, clear_plan};
ghost use Rattle.model.specs.Replies.{done_reply};
ghost use Rattle.model.specs.Slots.{with_slot, with_slots, all_at_rest};
ghost use Rattle.model.specs.declared.memory.Slot.TheVariants.{Empty, Nulled};

use crate::entries;
use crate::state::Memory;
use drive::fault::{Fault, Question};
use model::memory::{File, Phase, Slot};

impl Memory {
    // The file holds the entry from now on.
    pub fn hold(&mut self, file: usize, taken: File)
        requires filed { file < 8 }
        requires numbered { taken.entry < 3968 }
        ensures { self.new ≡ with_file self.old file (Some taken) }
    {
        self.files[file] = Some(taken);
    }

    #[tactic(auto, unfolding(model::specs::Plans::deactivate_plan, model::specs::Outcomes::ask, model::specs::Outcomes::need))]
    pub fn deactivate(&mut self, file: usize) -> Result<(), Fault>
        ensures planned { deactivate_plan file self.old ≡ came_to (replied done_reply result) self.new }
        ensures same { UnlessAcceptedSame result self.old self.new }
    {
        self.ask_phase(Phase::Open)?;
        let used = self.used_file(file)?;
        ask_at_rest(&used)?;
        self.release(file);
        Ok(())
    }

    // The file is unused from now on.
    fn release(&mut self, file: usize)
        requires { file < 8 }
        ensures { self.new ≡ with_file self.old file None }
    {
        self.files[file] = None;
    }

    #[tactic(auto, unfolding(model::specs::Plans::clear_plan, model::specs::Outcomes::ask, model::specs::Outcomes::need))]
    pub fn clear(&mut self, file: usize, slot: usize) -> Result<(), Fault>
        ensures planned { clear_plan file slot self.old ≡ came_to (replied done_reply result) self.new }
        ensures same { UnlessAcceptedSame result self.old self.new }
    {
        self.ask_phase(Phase::Open)?;
        // An index, as get_mut of an array leaves a proof nothing of its elements.
        if file >= self.files.len() {
            return Err(Question::File.refused());
        }
        let Some(used) = &mut self.files[file] else {
            return Err(Question::File.refused());
        };
        entries::clear(used, slot)
    }

    // A page was posted for the slot of a used file; the ticket that held its address is unused from now on.
    pub fn place(&mut self, file: usize, slot: usize, ticket: u8, address: u16)
        requires filed { file < 8 }
        requires slotted { slot < 64 }
        requires ticketed { ticket < 4 }
        ensures { (x : File) → file_of self.old file ≡ Some x → self.new ≡ with_tickets (with_file self.old file (Some (with_slot x slot (Nulled address)))) (slice_set self.old.tickets ticket None) }
    {
        self.free_ticket(ticket);
        self.put_slot(file, slot, Slot::Nulled(address));
    }

    // The slot of a used file is in another case from now on. The file is named by its number, and lent to no caller for
    // writing: a write could break the bound on the number of its entry.
    fn put_slot(&mut self, file: usize, slot: usize, moved: Slot)
        requires filed { file < 8 }
        requires slotted { slot < 64 }
        ensures { (x : File) → file_of self.old file ≡ Some x → self.new ≡ with_file self.old file (Some (with_slot x slot moved)) }
    {
        let Some(used) = &mut self.files[file] else {
            return;
        };
        entries::put(used, slot, moved);
    }

    // The slots of a used file, as an update moves them.
    pub fn move_slots(&mut self, file: usize, moved: &[Slot; 64])
        requires { file < 8 }
        ensures { (x : File) → file_of self.old file ≡ Some x → self.new ≡ with_file self.old file (Some (with_slots x moved.now)) }
    {
        let Some(used) = &mut self.files[file] else {
            return;
        };
        used.slots = *moved;
    }

    // The address that a slot of a used file has left is in service from now on.
    pub fn reclaim(&mut self, file: usize, slot: usize, address: u16)
        requires filed { file < 8 }
        requires slotted { slot < 64 }
        requires room { held self.old < 32 }
        ensures { (x : File) → file_of self.old file ≡ Some x → self.new ≡ with_service (with_file self.old file (Some (with_slot x slot Empty))) (self.old.service ++ (address ∷ [])) }
    {
        self.service.push(address);
        self.put_slot(file, slot, Slot::Empty);
    }
}

// Is each slot Empty or Live?
fn ask_at_rest(file: &File) -> Result<(), Fault>
    ensures { said result ≡ asked 14 (all_at_rest file.now.slots) }
{
    Question::AtRest.ask(entries::are_at_rest(&file.slots))
}
