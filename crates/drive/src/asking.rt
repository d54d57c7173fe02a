// The questions that every kind of drive puts, in their order.
ghost use Rattle.std.specs.Prelude.{◌≡◌, ◌<◌, IfOk, OnOk, length};
ghost use Rattle.drive.specs.Answers.{address_answer, room_answer};
ghost use Rattle.drive.specs.Faults.{said, answered};

use crate::device::{Kind, RECORD};
use crate::fault::{Fault, Question};

// Is the page a record's, and the address below `size`? If so, the page as a record's bytes.
pub fn ask_record(page: &[u8], at: u16, size: usize) -> Result<&[u8; RECORD], Fault>
    ensures answer { said (answered result) ≡ address_answer (length page.now) at size }
    ensures bytes { IfOk result (λ bytes. bytes.now ≡ page.now) }
{
    let bytes = page.as_array().ok_or(Question::RecordLength.at(at))?;
    if usize::from(at) >= size {
        return Err(Question::Address.at(at));
    }
    Ok(bytes)
}

// Has a drive of this kind room for one more write, and life for it?
pub fn ask_room<K: Kind>(owed: usize, wear: u32, at: u16) -> Result<(), Fault>
    ensures answer { said result ≡ room_answer K.DEPTH K.LIFE owed wear at }
    ensures counted { OnOk result (wear < 4294967295) }
{
    if owed >= K::DEPTH {
        return Err(Question::Depth.at(at));
    }
    if wear >= K::LIFE {
        return Err(Question::Life.at(at));
    }
    Ok(())
}
