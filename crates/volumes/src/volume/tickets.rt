// The calls on grants.
ghost use Rattle.std.specs.Prelude.{◌≡◌};
ghost use Rattle.model.specs.Calls as call;
ghost use Rattle.model.specs.Carried.{CarriesOut, replied};
ghost use Rattle.model.specs.Replies.{done_reply, withdrawn_reply};
ghost use Rattle.volumes.specs.Volumes.{volume_of, rules};

use crate::tokens::{Grant, WorkingPass};
use crate::volume::Volume;
use drive::device::Drive;
use drive::fault::Fault;
use memory::state::tickets::Ticketed;
use model::answers::Withdrawn;

impl<D: Drive> Volume<D> {
    // Moves the oldest address in service to the lowest unused ticket and grants it; or says that there is none yet, or
    // none at all.
    pub fn withdraw(&mut self, _pass: &WorkingPass) -> Result<Withdrawn<Grant>, Fault>
        ensures { CarriesOut (rules D.Of.DEPTH D.Of.LIFE) call.withdraw (volume_of D.meaning self.old) (volume_of D.meaning self.new) (replied (withdrawn_reply (λ h. h.ticket) (λ h. h.address)) result) }
    {
        let moved = self.memory.withdraw()?;
        Ok(granted(moved))
    }

    // Spends the grant; its address goes to the end of those in service.
    pub fn deposit(&mut self, grant: Grant) -> Result<(), Fault>
        ensures { CarriesOut (rules D.Of.DEPTH D.Of.LIFE) (call.deposit grant.ticket grant.address) (volume_of D.meaning self.old) (volume_of D.meaning self.new) (replied done_reply result) }
    {
        let Grant { ticket, address } = grant;
        self.memory.deposit(ticket, address)
    }
}

// The same answer, with the address as a token. No `From`: it becomes one only here, where the call grants it.
fn granted(moved: Withdrawn<Ticketed>) -> Withdrawn<Grant>
    ensures { withdrawn_reply (λ h. h.ticket) (λ h. h.address) result ≡ withdrawn_reply (λ h. h.ticket) (λ h. h.address) moved }
{
    match moved {
        Withdrawn::Granted(held) => Withdrawn::Granted(Grant {
            ticket: held.ticket,
            address: held.address,
        }),
        Withdrawn::Wait => Withdrawn::Wait,
        Withdrawn::Full => Withdrawn::Full,
    }
}
