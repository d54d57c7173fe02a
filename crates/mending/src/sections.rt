// The map: the lowest section that does not show exactly what the entries leave free.
ghost use Rattle.std.specs.Prelude.{◌≡◌, ◌<◌, ◌≤◌, length};
ghost use Rattle.drive.specs.Meaning.{shown};
ghost use Rattle.mending.specs.Leftovers.{left_over, left_over_bits};
ghost use Rattle.mending.specs.Sought.{pages_of, named_in, inexact_in};
ghost use Rattle.mending.specs.Tallies.{Tallies};
ghost use Rattle.model.specs.Volume.{section_bytes};
ghost use Rattle.record.specs.Regions.{map_span};

use crate::shows::shows;
use drive::device::Drive;
use reading::layout::{FIRST_SECTION, SECTIONS, SUM_START};
use reading::shown::{Records, read_shown};
use record::control::RECORD;
use record::region::{COVERED, Region, Span};
use record::section::Section;

// The lowest section that does not show exactly the addresses that the entries leave free. The tally has those that they name.
pub(crate) fn first_inexact<D: Drive>(
    records: &Records<D>,
    page: &mut [u8; RECORD],
    tally: &[u8],
) -> Option<u8>
    requires inside { records.now.label.records ≤ length tally.now }
    requires named { Tallies (pages_of records.now.label) tally.now (named_in records.now.label (shown (D.meaning records.now.drive.now))) }
    ensures { result ≡ inexact_in records.now.label (shown (D.meaning records.now.drive.now)) }
{
    // A loop: each turn encodes a section and reads a record, more than a closure of `find` reads well with.
    for k in 0..SECTIONS {
        let mut bytes = [0; RECORD];
        encode_exact(records, k, tally, &mut bytes);
        if !shows(
            read_shown(records.drive, FIRST_SECTION + u16::from(k), page),
            &bytes,
        ) {
            return Some(k);
        }
    }
    None
}

// Writes section `k` over the whole page, with exactly the region's addresses free that are not noted.
pub(crate) fn encode_exact<D: Drive>(
    records: &Records<D>,
    k: u8,
    tally: &[u8],
    page: &mut [u8; RECORD],
)
    requires numbered { k < 3 }
    requires inside { records.now.label.records ≤ length tally.now }
    ensures { page.new ≡ section_bytes records.now.label.id records.now.label.entries records.now.label.records k (left_over_bits (map_span k records.now.label.entries records.now.label.records) tally.now) }
{
    let span = records.span(k);
    exact_section(&span, tally).encode(SUM_START, records.label.id, &span, page);
}

// The section with exactly those numbers free that may be free and are not noted.
fn exact_section(span: &Span, tally: &[u8]) -> Section
    requires inside { span.now.free.to ≤ length tally.now }
    requires small { span.now.first < 65536 }
    ensures { result.bits ≡ left_over_bits span.now tally.now }
{
    // Not one with `Section::all_free`: what a closure answers of each number would have to be said of its calls.
    let mut section = Section::none();
    for r in 0..COVERED {
        if is_left(span.first + r, &span.free, tally) {
            section.give(r as usize);
        }
    }
    section
}

// The address lies in the region and is not noted.
fn is_left(a: u32, region: &Region, tally: &[u8]) -> bool
    requires { region.now.to ≤ length tally.now }
    ensures { result ≡ left_over region.now tally.now a }
{
    region.contains(a) && tally[a as usize] == 0
}
