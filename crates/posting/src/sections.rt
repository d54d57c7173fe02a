// Sections of the map, as they show.
ghost use Rattle.std.specs.Prelude.{◌≡◌, ◌-◌, ◌≤◌, [], ◌∷◌, map};
ghost use Rattle.model.specs.Shown.{bits_shown};
ghost use Rattle.model.specs.Stock.{cover};
ghost use Rattle.record.specs.Sections.{free_count};

use drive::device::Drive;
use reading::shown::Records;
use record::control::RECORD;
use record::region::COVERED;
use record::section::Section;

// How many addresses are in service once some were taken, or given back.
pub const ENOUGH: usize = 16;

// Section `k` as it shows; an unsound one has none free.
pub fn shown_section<D: Drive>(records: &Records<D>, k: u8, page: &mut [u8; RECORD]) -> Section
    ensures { result.bits ≡ bits_shown (D.meaning records.now.drive.now) records.now.label.id records.now.label.entries k }
{
    records.section(k, page).unwrap_or(Section::none())
}

// How many addresses each section shows as free.
pub fn count_map<D: Drive>(records: &Records<D>, page: &mut [u8; RECORD]) -> [u32; 3]
    ensures { result ≡ map (λ k. free_count (bits_shown (D.meaning records.now.drive.now) records.now.label.id records.now.label.entries k)) (0 ∷ 1 ∷ 2 ∷ []) }
{
    [0, 1, 2].map(|k| shown_section(records, k, page).count())
}

// The section that covers an address.
pub fn covering(a: u16) -> u8
    ensures value { result ≡ cover a }
    ensures bound { result ≤ 16 }
{
    (u32::from(a) / COVERED) as u8
}

// How many addresses are taken where so many are in service.
pub fn wanted(in_service: usize) -> usize
    ensures { result ≡ 16 - in_service }
{
    ENOUGH.saturating_sub(in_service)
}
