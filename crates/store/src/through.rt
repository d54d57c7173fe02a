// Writes that are completed before the next is posted.
ghost use Rattle.std.specs.Prelude.{◌≡◌, ◌<◌, [], length, Ok};
ghost use Rattle.drive.specs.Answers.{post_answer};
ghost use Rattle.drive.specs.Faults.{said};
ghost use Rattle.drive.specs.Meaning.{size, posted, calm};
ghost use Rattle.store.specs.Through.{after_writing};

use drive::device::Drive;
use drive::fault::Fault;
use record::control::RECORD;

// Steps until nothing is outstanding.
pub(crate) fn complete_all<D: Drive>(drive: &mut D)
    ensures { D.meaning drive.new ≡ calm (D.meaning drive.old) }
{
    while drive.step() > 0 {}
}

// Posts a write and completes it.
fn write_through<D: Drive>(drive: &mut D, at: u16, page: &[u8; RECORD]) -> Result<(), Fault>
    ensures answer { said result ≡ post_answer D.Of.DEPTH D.Of.LIFE (D.meaning drive.old) at (length page.now) }
    ensures after { D.meaning drive.new ≡ after_writing result (D.meaning drive.old) at page.now }
{
    drive.post(at, page)?;
    complete_all(drive);
    Ok(())
}

// The same where nothing can be asked any more: nothing is outstanding, and there is life for the write.
pub(crate) fn write_next<D: Drive>(drive: &mut D, at: u16, page: &[u8; RECORD]) -> Result<(), Fault>
    requires inside { at < size (D.meaning drive.old) }
    requires quiet { (D.meaning drive.old).outstanding ≡ [] }
    requires alive { (D.meaning drive.old).wear < D.Of.LIFE }
    ensures accepted { result ≡ Ok tt }
    ensures after { D.meaning drive.new ≡ calm (posted (D.meaning drive.old) at page.now) }
{
    write_through(drive, at, page)
}
