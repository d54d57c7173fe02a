// A surface, and up to four writes that wait to be settled on it, oldest first.
ghost use Rattle.std.specs.Prelude.{◌≡◌, ℕ, ◌+◌, ◌<◌, ◌≤◌, true, [], ◌∷◌, length, ◌==◌, reverse};
ghost use Rattle.std.specs.List.{find};
ghost use Rattle.std.specs.Option.{option_copied};
ghost use Rattle.drive.specs.Queues.{line};
ghost use Rattle.drive.specs.Each.{all_below};
ghost use Rattle.drive.specs.Meaning.{readable, size, owed, shown, pending, posted, complete};
ghost use Rattle.drive.specs.Disks.{disk, record_state, SameMemory, WorksIn};
ghost use Rattle.drive.specs.Surfaces.{states};

use crate::queued::Queued;
use crate::surface::Surface;
use arrayvec::ArrayVec;

#[derive(Drop)]
pub struct Backlog<'a> {
    surface: Surface<'a>,
    queue: ArrayVec<Queued, 4>,
    ghost inside: { all_below (length (disk surface)) (line queue.items) ≡ true },
}

impl<'a> Backlog<'a> {
    ghost use Rattle.drive.specs.Backlogs.{held};

    pub fn new(bytes: &'a mut [u8], marks: &'a mut [u8]) -> Self
        ensures settled { disk result.surface ≡ states bytes.old marks.old }
        ensures empty { line result.queue.items ≡ [] }
        ensures lent { WorksIn result.surface bytes.entry marks.entry }
    {
        Backlog {
            surface: Surface::new(bytes, marks),
            queue: ArrayVec::new(),
        }
    }

    pub fn size(&self) -> usize
        ensures { result ≡ size (held self.now 0) }
    {
        self.surface.size()
    }

    pub fn len(&self) -> usize
        ensures value { result ≡ owed (held self.now 0) }
        ensures bound { result ≤ 4 }
    {
        self.queue.len()
    }

    pub fn holds(&self, at: u16) -> bool
        ensures { result ≡ pending (held self.now 0) at }
    {
        self.queue.iter().any(|write| write.at == at)
    }

    // The youngest write to the address.
    fn youngest(&self, at: u16) -> Option<&Queued>
        ensures { option_copied result ≡ find (λ q. q.at == at) (reverse self.now.queue.items) }
    {
        self.queue.iter().rev().find(|write| write.at == at)
    }

    // The bytes that the address shows, unless it is spoiled.
    pub fn shown(&self, at: u16) -> Option<&[u8; 512]>
        requires { at < size (held self.now 0) }
        ensures { record_state result ≡ shown (held self.now 0) at }
    {
        match self.youngest(at) {
            Some(youngest) => Some(&youngest.bytes),
            None => self.surface.shown(at),
        }
    }

    // Lets one more write wait.
    pub fn push(&mut self, at: u16, bytes: &[u8; 512])
        requires room { owed (held self.old 0) < 4 }
        requires within { at < size (held self.old 0) }
        ensures waits { (w : ℕ) → held self.new (w + 1) ≡ posted (held self.old w) at bytes.now }
        ensures lent { SameMemory self.old.surface self.new.surface }
    {
        self.queue.push(Queued { at, bytes: *bytes });
    }

    // Settles the oldest `count` writes, or all where there are fewer.
    pub fn complete(&mut self, count: usize)
        ensures settled { (w : ℕ) → held self.new w ≡ complete count (held self.old w) }
        ensures lent { SameMemory self.old.surface self.new.surface }
    {
        let count = count.min(self.queue.len());
        for write in &self.queue[..count] {
            self.surface.settle(write.at, &write.bytes);
        }
        self.queue.drain(..count);
    }
}
