// A drive whose writes wait in memory, and complete at a pace.
ghost use Rattle.std.specs.Prelude.{◌≡◌, ◌≤◌, min, [], length};
ghost use Rattle.drive.specs.Queues.{line};

use crate::asking::{ask_record, ask_room};
use crate::backlog::Backlog;
use crate::device::{Drive, Kind};
use crate::fault::{Fault, Question};
use crate::pace::Pace;

#[derive(Drop)]
pub struct Buffered<'a, P: Pace> {
    backlog: Backlog<'a>,
    wear: u32,
    pace: P,
    ghost worn: { wear ≤ P.Of.LIFE },
    ghost few: { length (line backlog.queue.items) ≤ P.Of.DEPTH },
}

impl<'a, P: Pace> Buffered<'a, P> {
    ghost use Rattle.drive.specs.Disks.{WorksIn};
    ghost use Rattle.drive.specs.Kinds.{of_buffered};
    ghost use Rattle.drive.specs.Surfaces.{states};

    // A drive over these bytes and marks; a wear above the life counts as the life.
    pub(crate) fn over(bytes: &'a mut [u8], marks: &'a mut [u8], wear: u32, pace: P) -> Self
        ensures empty { of_buffered result ≡ record { settled = states bytes.old marks.old; outstanding = []; wear = min wear P.Of.LIFE } }
        ensures pace { result.pace ≡ pace }
        ensures lent { WorksIn result.backlog.surface bytes.entry marks.entry }
    {
        Buffered {
            backlog: Backlog::new(bytes, marks),
            wear: wear.min(P::Of::LIFE),
            pace,
        }
    }
}

impl<'a, P: Pace> Drive for Buffered<'a, P> {
    ghost use Rattle.drive.specs.Answers.{post_answer, PostLeaves, after_post, Steps};
    ghost use Rattle.drive.specs.Disks.{SameMemory};
    ghost use Rattle.drive.specs.Faults.{said};
    ghost use Rattle.drive.specs.Formed.{held_formed};
    ghost use Rattle.drive.specs.Kinds.{of_buffered};
    ghost use Rattle.drive.specs.Meaning.{owed, complete};
    ghost use Rattle.drive.specs.Pace.{after_accepted, after_finding};

    type Of = P::Of;

    ghost meaning = { of_buffered };

    ghost formed = { λ d. held_formed d.backlog d.wear };

    fn read(&self, at: u16, page: &mut [u8]) -> Result<(), Fault> {
        ask_record(page, at, self.size())?;
        let bytes = self.backlog.shown(at).ok_or(Question::Readable.at(at))?;
        page.copy_from_slice(bytes);
        Ok(())
    }

    fn post(&mut self, at: u16, page: &[u8]) -> Result<(), Fault>
        ensures answer { said result ≡ post_answer P.Of.DEPTH P.Of.LIFE (of_buffered self.old) at (length page.now) }
        ensures after { PostLeaves result (of_buffered self.old) at page.now (of_buffered self.new) }
        ensures pace { self.new.pace ≡ after_accepted P.next result self.old.pace }
        ensures completes { of_buffered self.new ≡ after_post (P.in_post self.old.pace) result (of_buffered self.old) at page.now }
        ensures lent { SameMemory self.old.backlog.surface self.new.backlog.surface }
    {
        let bytes = ask_record(page, at, self.size())?;
        ask_room::<P::Of>(self.backlog.len(), self.wear, at)?;
        self.backlog.push(at, bytes);
        self.wear += 1;
        let count = self.pace.post();
        self.backlog.complete(count);
        Ok(())
    }

    fn step(&mut self) -> usize
        ensures after { Steps (of_buffered self.old) (of_buffered self.new) }
        ensures remain { result ≡ owed (of_buffered self.new) }
        ensures pace { self.new.pace ≡ after_finding P.next (owed (of_buffered self.old)) self.old.pace }
        ensures completes { of_buffered self.new ≡ complete (P.in_step self.old.pace) (of_buffered self.old) }
        ensures lent { SameMemory self.old.backlog.surface self.new.backlog.surface }
    {
        if self.backlog.len() == 0 {
            return 0;
        }
        let count = self.pace.step();
        self.backlog.complete(count);
        self.backlog.len()
    }

    fn pending(&self, at: u16) -> bool {
        self.backlog.holds(at)
    }

    fn owed(&self) -> usize {
        self.backlog.len()
    }

    fn left(&self) -> u32 {
        P::Of::LIFE - self.wear
    }

    fn size(&self) -> usize {
        self.backlog.size()
    }
}
