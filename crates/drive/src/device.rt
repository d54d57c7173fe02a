// The interface of a drive.
ghost use Rattle.std.specs.Prelude.{◌≡◌, ℕ, ◌+◌, ◌-◌, ◌≤◌, length};
ghost use Rattle.drive.specs.Answers.{read_answer, read_page, post_answer, PostLeaves, Steps};
ghost use Rattle.drive.specs.Faults.{said};
ghost use Rattle.drive.specs.Meaning.{Meaning, WellFormed, size, owed, pending};

use crate::fault::Fault;

// How many bytes a record has.
pub const RECORD: usize = 512;

// A kind of drive: how many writes may be outstanding, and how many it ever accepts.
pub trait Kind {
    ghost DEPTH: { ℕ };

    ghost LIFE: { ℕ };

    const DEPTH: usize;

    const LIFE: u32;

    fn most_owed() -> usize
        ensures { result ≡ DEPTH }
    {
        Self::DEPTH
    }

    fn whole_life() -> u32
        ensures { result ≡ LIFE }
    {
        Self::LIFE
    }

    ghost deep: { 1 ≤ DEPTH };

    ghost lasting: { 1 ≤ LIFE };
}

pub trait Drive {
    type Of: Kind;

    ghost meaning: { Self → Meaning };

    // What each drive proves: its writes are to its records, and its records have their bytes.
    ghost formed: { (d : Self) → WellFormed (meaning d) };

    // Fills the page with what the address shows.
    fn read(&self, at: u16, page: &mut [u8]) -> Result<(), Fault>
        ensures answer { said result ≡ read_answer (meaning self.now) at (length page.old) }
        ensures filled { page.new ≡ read_page (meaning self.now) at page.old };

    // Accepts a write, and completes some of the oldest.
    fn post(&mut self, at: u16, page: &[u8]) -> Result<(), Fault>
        ensures answer { said result ≡ post_answer Self.Of.DEPTH Self.Of.LIFE (meaning self.old) at (length page.now) }
        ensures after { PostLeaves result (meaning self.old) at page.now (meaning self.new) };

    // Completes at least the oldest write, if there is one, and answers how many remain.
    fn step(&mut self) -> usize
        ensures after { Steps (meaning self.old) (meaning self.new) }
        ensures remain { result ≡ owed (meaning self.new) };

    // Whether a write to the address is outstanding.
    fn pending(&self, at: u16) -> bool
        ensures { result ≡ pending (meaning self.now) at };

    // How many writes are outstanding: at most the depth.
    fn owed(&self) -> usize
        ensures value { result ≡ owed (meaning self.now) }
        ensures bound { result ≤ Self.Of.DEPTH };

    // How many writes will still be accepted: the life less the wear, which never passes it.
    fn left(&self) -> u32
        ensures value { result + (meaning self.now).wear ≡ Self.Of.LIFE };

    // How many records there are.
    fn size(&self) -> usize
        ensures { result ≡ size (meaning self.now) };
}
