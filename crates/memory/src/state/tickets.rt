// The tickets, and the addresses that they hold.
ghost use Rattle.std.specs.Prelude.{◌≡◌, ℕ, ◌+◌, ◌<◌, ◌&&◌, Some, None, ◌==◌, nat_lt, OnOk, slice_set, position, count_by, is_some, is_none};
ghost use Rattle.drive.specs.Faults.{said};
ghost use Rattle.memory.specs.View.{came_to, UnlessAcceptedSame};
ghost use Rattle.model.specs.Carried.{asked, replied};
ghost use Rattle.model.specs.Memory.{used, held, unused_from, ticket_holds, with_tickets};
ghost use Rattle.model.specs.Plans.{withdraw_plan, deposit_plan, close_plan, shortage};
ghost use Rattle.model.specs.Replies.{done_reply, withdrawn_reply};

use crate::state::Memory;
use drive::fault::{Fault, Question};
use model::answers::Withdrawn;
use model::memory::{MapState, Phase};

// The most addresses that stock and tickets hold together.
const MOST_HELD: usize = 32;

// An address that was moved to a ticket.
#[derive(Clone, Copy)]
pub struct Ticketed {
    pub ticket: u8,
    pub address: u16,
}

// How many places of a table are used.
fn count_used<X>(places: &[Option<X>]) -> usize
    ensures { result ≡ count_by is_some places.now }
{
    places.iter().filter(|place| place.is_some()).count()
}

// The lowest unused ticket.
fn lowest_unused(tickets: &[Option<u16>]) -> Option<usize>
    ensures { result ≡ position is_none tickets.now }
{
    tickets.iter().position(|ticket| ticket.is_none())
}

impl Memory {
    // How many addresses the stock and the tickets hold.
    #[tactic(auto, using(crate::proofs::StateLaws::used_counts))]
    fn held(&self) -> usize
        ensures { result ≡ held self.now }
    {
        self.service.len() + self.unsettled.len() + count_used(&self.tickets)
    }

    // Is there room for one more address?
    pub fn ask_room(&self) -> Result<(), Fault>
        ensures { said result ≡ asked 13 (nat_lt (held self.now) 32) }
    {
        Question::Room.ask(self.held() < MOST_HELD)
    }

    // Does the ticket hold the address?
    pub fn ask_ticket(&self, ticket: u8, address: u16) -> Result<(), Fault>
        ensures held { said result ≡ asked 11 (ticket_holds self.now ticket address) }
        ensures ticketed { OnOk result (ticket < 4) }
    {
        match self.tickets.get(usize::from(ticket)) {
            Some(Some(held)) if *held == address => Ok(()),
            _ => Err(Question::Grant.refused()),
        }
    }

    #[tactic(auto, using(crate::proofs::StateLaws::first_unused, crate::proofs::StateLaws::withdrawing_some, crate::proofs::StateLaws::withdrawing_none), unfolding(model::specs::Plans::withdraw_plan, model::specs::Outcomes::ask, model::specs::Outcomes::need))]
    pub fn withdraw(&mut self) -> Result<Withdrawn<Ticketed>, Fault>
        ensures planned { withdraw_plan self.old ≡ came_to (replied (withdrawn_reply (λ h. h.ticket) (λ h. h.address)) result) self.new }
        ensures same { UnlessAcceptedSame result self.old self.new }
    {
        self.ask_phase(Phase::Open)?;
        let Some(ticket) = lowest_unused(&self.tickets) else {
            return Err(Question::Ticket.refused());
        };
        let Some(address) = self.service.pop_at(0) else {
            return Ok(self.shortage());
        };
        self.tickets[ticket] = Some(address);
        Ok(Withdrawn::Granted(Ticketed {
            ticket: ticket as u8,
            address,
        }))
    }

    // What a withdraw answers while nothing is in service.
    fn shortage(&self) -> Withdrawn<Ticketed>
        ensures { withdrawn_reply (λ h. h.ticket) (λ h. h.address) result ≡ shortage self.now }
    {
        if let MapState::Writing(_) = self.chart {
            return Withdrawn::Wait;
        }
        match self.section_with_free() {
            Some(_) => Withdrawn::Wait,
            None => Withdrawn::Full,
        }
    }

    #[tactic(auto, unfolding(model::specs::Plans::deposit_plan, model::specs::Outcomes::ask))]
    pub fn deposit(&mut self, ticket: u8, address: u16) -> Result<(), Fault>
        ensures planned { deposit_plan ticket address self.old ≡ came_to (replied done_reply result) self.new }
        ensures same { UnlessAcceptedSame result self.old self.new }
    {
        self.ask_ticket(ticket, address)?;
        // Not by `free_ticket`: ticket and stock change in one step.
        self.tickets[usize::from(ticket)] = None;
        self.service.push(address);
        Ok(())
    }

    // The ticket is unused from now on.
    pub(crate) fn free_ticket(&mut self, ticket: u8)
        requires { ticket < 4 }
        ensures { self.new ≡ with_tickets self.old (slice_set self.old.tickets ticket None) }
    {
        self.tickets[usize::from(ticket)] = None;
    }

    #[tactic(auto, unfolding(model::specs::Plans::close_plan, model::specs::Outcomes::ask))]
    pub fn close(&mut self) -> Result<(), Fault>
        ensures planned { close_plan self.old ≡ came_to (replied done_reply result) self.new }
        ensures same { UnlessAcceptedSame result self.old self.new }
    {
        self.ask_phase(Phase::Open)?;
        self.ask_unused_tables()?;
        self.phase = Phase::Closing;
        Ok(())
    }

    // Are all files and tickets unused?
    #[tactic(auto, using(crate::proofs::StateLaws::used_counts))]
    fn ask_unused_tables(&self) -> Result<(), Fault>
        ensures { said result ≡ asked 14 (used self.now.files == 0 && used self.now.tickets == 0) }
    {
        Question::AtRest.ask(count_used(&self.files) == 0 && count_used(&self.tickets) == 0)
    }
}
