// The page that a caller hands in, as work memory: all zero again on every way out of a call.
ghost use Rattle.std.specs.Prelude.{◌≡◌, length, replicate, ◌==◌, IfOk};
ghost use Rattle.model.specs.Carried.{asked};
ghost use Rattle.reading.specs.Told.{told_with};

use drive::fault::{Fault, Question};
use record::control::RECORD;

pub struct Work<'a>(pub &'a mut [u8]);

impl Drop for Work<'_> {
    fn drop(self)
        ensures { self.exit.0.now ≡ replicate (length self.entry.0.now) 0 }
    {
        self.0.fill(0);
        let Work(_) = self;
    }
}

// Is the page 512 bytes? It is lent as an array.
pub fn ask_page(page: &mut [u8]) -> Result<&mut [u8; RECORD], Fault>
    ensures answer { told_with (λ _. tt) result ≡ asked 1 (length page.old == 512) }
    ensures bytes { IfOk result (λ lent. lent.now ≡ page.old) }
{
    match page.as_mut_array::<RECORD>() {
        Some(record) => Ok(record),
        None => Err(Question::PageLength.refused()),
    }
}
