// Words of a page: four bytes each, highest first.
ghost use Rattle.std.specs.Prelude.{◌≡◌, ◌+◌, ◌*◌, ◌/◌, ◌%◌, ◌<◌, ◌≤◌, replicate};
ghost use Rattle.std.specs.List.{between};
ghost use Rattle.record.specs.Words.{word, put, words, zeros};

pub(crate) fn get_word(page: &[u8; 512], i: usize) -> u32
    requires { i < 128 }
    ensures { result ≡ word page.now i }
{
    let (quads, _) = page.as_chunks::<4>();
    u32::from_be_bytes(quads[i])
}

pub(crate) fn put_word(page: &mut [u8; 512], i: usize, w: u32)
    requires { i < 128 }
    ensures { page.new ≡ put page.old i w }
{
    let at = 4 * i;
    page[at..at + 4].copy_from_slice(&w.to_be_bytes());
}

// Sets each byte to 0.
pub(crate) fn clear(page: &mut [u8; 512])
    ensures { page.new ≡ replicate 512 0 }
{
    page.fill(0);
}

// Words `from` to `to` - 1 are zero.
pub(crate) fn zero_between(page: &[u8; 512], from: usize, to: usize) -> bool
    requires { to ≤ 128 }
    ensures { result ≡ zeros (between from to (words page.now)) }
{
    (from..to).all(|i| get_word(page, i) == 0)
}

// The word with these halves.
pub(crate) fn joined(high: u16, low: u16) -> u32
    ensures { result ≡ high * 65536 + low }
{
    (u32::from(high) << 16) + u32::from(low)
}

// The high and the low half of a word.
pub(crate) fn halves(w: u32) -> (u32, u32)
    ensures { result ≡ (w / 65536, w % 65536) }
{
    (w / 65536, w % 65536)
}
