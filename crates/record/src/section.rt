// A map section: a bit for each covered number, 32 to a word, the highest bit first. On means free.
ghost use Rattle.std.specs.Prelude.{◌≡◌, ◌+◌, ◌^◌, ◌<◌, drop};
ghost use Rattle.record.specs.Sections.{weight, bit, marked, free_count, lowest_free, none_free, all_free, figures_right, free_within, section_record, sound_section};
ghost use Rattle.record.specs.Regions.{within};
ghost use Rattle.record.specs.Words.{words};

use crate::control::{is_whole, seal};
use crate::region::{COVERED, Span};
use crate::words::{clear, get_word, halves, joined, put_word};
use std::array;

// How many words stand before the bits.
const HEAD: usize = 4;

// How many words the bits take.
const WORDS: usize = 124;

#[derive(Clone, Copy, PartialEq, Eq, Debug)]
pub struct Section {
    pub bits: [u32; 124],
}

impl Section {
    // No number is free.
    pub fn none() -> Section
        ensures { result.bits ≡ none_free }
    {
        Section { bits: [0; WORDS] }
    }

    // Every number that may be free is free.
    pub fn all_free(span: &Span) -> Section
        ensures { result.bits ≡ all_free span.now }
    {
        let mut section = Section::none();
        for r in 0..COVERED {
            if may_be_free(span, r) {
                section.give(r as usize);
            }
        }
        section
    }

    // The covered number `r` is free.
    pub fn is_free(&self, r: usize) -> bool
        ensures { result ≡ bit self.now.bits r }
    {
        r / 32 < WORDS && self.bits[r / 32] & mask(r) != 0
    }

    // The covered number `r` is no longer free.
    pub fn take(&mut self, r: usize)
        ensures { self.new.bits ≡ marked self.old.bits r 0 }
    {
        if r / 32 < WORDS {
            self.bits[r / 32] &= !mask(r);
        }
    }

    // The covered number `r` is free from now on.
    pub fn give(&mut self, r: usize)
        ensures { self.new.bits ≡ marked self.old.bits r 1 }
    {
        if r / 32 < WORDS {
            self.bits[r / 32] |= mask(r);
        }
    }

    // How many numbers are free.
    pub fn count(&self) -> u32
        ensures { result ≡ free_count self.now.bits }
    {
        // A loop: the proof of a chain lacks that each word of a field fits 32 bits.
        let mut n = 0;
        for w in &self.bits {
            n += w.count_ones();
        }
        n
    }

    // The lowest free number from `from` on.
    pub fn lowest_free(&self, from: usize) -> Option<usize>
        ensures { result ≡ lowest_free self.now.bits from }
    {
        (from..COVERED as usize).find(|&r| self.is_free(r))
    }

    // The words that stand in the places of a section's bits.
    fn read(page: &[u8; 512]) -> Section
        ensures { result.bits ≡ drop 4 (words page.now) }
    {
        Section {
            bits: array::from_fn(|k| get_word(page, HEAD + k)),
        }
    }

    // Words 2 and 3 of the page that the section was read from are right.
    fn has_figures(&self, page: &[u8; 512], span: &Span) -> bool
        requires { self.now.bits ≡ drop 4 (words page.now) }
        ensures { result ≡ figures_right span.now page.now }
    {
        halves(get_word(page, 2)) == (span.first, WORDS as u32)
            && halves(get_word(page, 3)) == (span.covered, self.count())
    }

    // No bit is on but for numbers that may be free.
    fn is_within(&self, span: &Span) -> bool
        ensures { result ≡ free_within span.now self.now.bits }
    {
        (0..COVERED).all(|r| !self.is_free(r as usize) || may_be_free(span, r))
    }

    // Writes the section over the whole page.
    pub fn encode(&self, start: u32, id: u32, span: &Span, page: &mut [u8; 512])
        requires first { span.now.first < 65536 }
        requires covered { span.now.covered < 65536 }
        ensures { page.new ≡ section_record start id span.now self.now.bits }
    {
        clear(page);
        put_word(page, 0, id);
        put_word(page, 2, joined(span.first as u16, WORDS as u16));
        put_word(page, 3, joined(span.covered as u16, self.count() as u16));
        for (k, w) in self.bits.iter().enumerate() {
            put_word(page, HEAD + k, *w);
        }
        seal(page, start);
    }

    // The section in a page, where it is sound.
    pub fn decode(page: &[u8], start: u32, id: u32, span: &Span) -> Option<Section>
        ensures { result ≡ sound_section start id span.now page.now }
    {
        let page = page.as_array::<512>()?;
        if !is_whole(page, start, id) {
            return None;
        }
        let section = Section::read(page);
        if !section.has_figures(page, span) || !section.is_within(span) {
            return None;
        }
        Some(section)
    }
}

// The bit of the covered number `r` in its word.
fn mask(r: usize) -> u32
    ensures { result ≡ 2 ^ weight r }
{
    1 << (31 - r % 32)
}

// The covered number `r` may be free.
fn may_be_free(span: &Span, r: u32) -> bool
    ensures { result ≡ within span.now.free (span.now.first + r) }
{
    span.free.from.saturating_sub(span.first) <= r && r < span.free.to.saturating_sub(span.first)
}
