// What every control record has: the volume id in word 0, and the check word in word 1.
ghost use Rattle.std.specs.Prelude.{◌≡◌, ◌≤◌, length};
ghost use Rattle.record.specs.Control.{check, whole};
ghost use Rattle.record.specs.Words.{put, words};

use crate::words::{get_word, put_word};
pub use drive::device::RECORD;

// The place of the check word.
const CHECK: usize = 1;

// The sum over all words but the check word, from a starting number.
pub fn check_word(page: &[u8], start: u32) -> u32
    ensures { result ≡ check start (words page.now) }
{
    let (quads, _) = page.as_chunks::<4>();
    let mut sum = start;
    // The words are walked with their index, by a rule of the project.
    for (i, quad) in quads.iter().enumerate() {
        if i != CHECK {
            sum = sum.rotate_left(1).wrapping_add(u32::from_be_bytes(*quad));
        }
    }
    sum
}

// Writes the check word.
pub(crate) fn seal(page: &mut [u8; 512], start: u32)
    ensures { page.new ≡ put page.old 1 (check start (words page.old)) }
{
    let sum = check_word(page, start);
    put_word(page, CHECK, sum);
}

// The page is a record with this id and the right check word.
pub(crate) fn is_whole(page: &[u8; 512], start: u32, id: u32) -> bool
    ensures { result ≡ whole start id page.now }
{
    get_word(page, 0) == id && get_word(page, CHECK) == check_word(page, start)
}
