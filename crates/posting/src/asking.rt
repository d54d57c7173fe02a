// Questions that need no volume.
ghost use Rattle.std.specs.Prelude.{◌≡◌, ◌==◌};
ghost use Rattle.drive.specs.Faults.{said};
ghost use Rattle.model.specs.Carried.{asked};

use drive::fault::{Fault, Question};

// Has the tally a byte for each record?
pub fn ask_tally(length: usize, records: usize) -> Result<(), Fault>
    ensures { said result ≡ asked 5 (length == records) }
{
    Question::TallyLength.ask(length == records)
}

// Is nothing outstanding?
pub fn ask_quiet(owed: usize) -> Result<(), Fault>
    ensures { said result ≡ asked 15 (owed == 0) }
{
    Question::Settled.ask(owed == 0)
}
