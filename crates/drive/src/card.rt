// The card: it completes each write in its post, so it has no queue and is a type of its own.
ghost use Rattle.std.specs.Prelude.{◌≡◌, ◌≤◌, min, [], length};

use crate::asking::{ask_record, ask_room};
use crate::device::{Drive, Kind};
use crate::fault::{Fault, Question};
use crate::kinds::CardKind;
use crate::surface::Surface;

#[derive(Drop)]
pub struct Card<'a> {
    surface: Surface<'a>,
    wear: u32,
    ghost worn: { wear ≤ 4294967295 },
}

impl<'a> Card<'a> {
    ghost use Rattle.drive.specs.Disks.{WorksIn};
    ghost use Rattle.drive.specs.Kinds.{of_card};
    ghost use Rattle.drive.specs.Surfaces.{states};

    // A card over these bytes and marks; a wear above the life counts as the life.
    pub fn new(bytes: &'a mut [u8], marks: &'a mut [u8], wear: u32) -> Self
        ensures empty { of_card result ≡ record { settled = states bytes.old marks.old; outstanding = []; wear = min wear 4294967295 } }
        ensures lent { WorksIn result.surface bytes.entry marks.entry }
    {
        Card {
            surface: Surface::new(bytes, marks),
            wear: wear.min(CardKind::LIFE),
        }
    }
}

impl<'a> Drive for Card<'a> {
    ghost use Rattle.drive.specs.Answers.{post_answer, PostLeaves, after_post, Steps};
    ghost use Rattle.drive.specs.Disks.{SameMemory};
    ghost use Rattle.drive.specs.Faults.{said};
    ghost use Rattle.drive.specs.Formed.{card_formed};
    ghost use Rattle.drive.specs.Kinds.{of_card};
    ghost use Rattle.drive.specs.Meaning.{owed};

    type Of = CardKind;

    ghost meaning = { of_card };

    ghost formed = { card_formed };

    fn read(&self, at: u16, page: &mut [u8]) -> Result<(), Fault> {
        ask_record(page, at, self.size())?;
        let bytes = self.surface.shown(at).ok_or(Question::Readable.at(at))?;
        page.copy_from_slice(bytes);
        Ok(())
    }

    fn post(&mut self, at: u16, page: &[u8]) -> Result<(), Fault>
        ensures answer { said result ≡ post_answer 1 4294967295 (of_card self.old) at (length page.now) }
        ensures after { PostLeaves result (of_card self.old) at page.now (of_card self.new) }
        ensures at_once { of_card self.new ≡ after_post 1 result (of_card self.old) at page.now }
        ensures lent { SameMemory self.old.surface self.new.surface }
    {
        let bytes = ask_record(page, at, self.size())?;
        ask_room::<CardKind>(0, self.wear, at)?;
        self.surface.settle(at, bytes);
        self.wear += 1;
        Ok(())
    }

    fn step(&mut self) -> usize
        ensures after { Steps (of_card self.old) (of_card self.new) }
        ensures remain { result ≡ owed (of_card self.new) }
        ensures nothing { of_card self.new ≡ of_card self.old }
        ensures lent { SameMemory self.old.surface self.new.surface }
    {
        self.owed()
    }

    fn pending(&self, _at: u16) -> bool {
        false
    }

    fn owed(&self) -> usize {
        0
    }

    fn left(&self) -> u32 {
        CardKind::LIFE - self.wear
    }

    fn size(&self) -> usize {
        self.surface.size()
    }
}
