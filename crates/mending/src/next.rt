// What a salvage posts next.
ghost use Rattle.std.specs.Prelude.{◌≡◌, length, Some};
ghost use Rattle.drive.specs.Meaning.{size, shown};
ghost use Rattle.model.specs.Memory.{Memory};
ghost use Rattle.model.specs.Mending.{is_salvage, salvaging};
ghost use Rattle.model.specs.Outcomes.{Rules, post};
ghost use Rattle.model.specs.Replies.{salvaged_reply};
ghost use Rattle.model.specs.Shown.{label_in_state, label_shown};

use crate::entries::first_unmended;
use crate::sections::{encode_exact, first_inexact};
use crate::tally::tally_named;
use drive::device::Drive;
use model::answers::Salvaged;
use reading::layout::{FIRST_ENTRY, FIRST_SECTION, LABEL, SUM_START};
use reading::shown::{Records, label_at};
use record::control::RECORD;
use record::label::{Label, LabelState};

// What a salvage posts next: its answer and the record's address. The page then holds the record's bytes.
pub fn next_mend<D: Drive>(
    records: &Records<D>,
    page: &mut [u8; RECORD],
    tally: &mut [u8],
) -> (Salvaged, u16)
    requires tallied { length tally.old ≡ size (D.meaning records.now.drive.now) }
    requires believed { label_shown (D.meaning records.now.drive.now) ≡ Some records.now.label }
    ensures { (g : Rules) (v : Memory) → salvaging g (D.meaning records.now.drive.now) v records.now.label ≡ post g (D.meaning records.now.drive.now) (salvaged_reply result.0) v (record { at = result.1; bytes = page.new }) }
{
    if !has_begun(records.drive, page) {
        let begun = Label {
            state: LabelState::Salvage,
            ..records.label
        };
        begun.encode(SUM_START, page);
        return (Salvaged::Begun, LABEL);
    }
    if let Some(unmended) = first_unmended(records, page, tally) {
        unmended.form.encode(SUM_START, records.label.id, page);
        return (
            Salvaged::Entry(unmended.number),
            FIRST_ENTRY + unmended.number,
        );
    }
    tally_named(records, page, tally);
    if let Some(k) = first_inexact(records, page, tally) {
        encode_exact(records, k, tally, page);
        return (Salvaged::Section(k), FIRST_SECTION + u16::from(k));
    }
    let ended = Label {
        state: LabelState::Closed,
        trouble: 0,
        ..records.label
    };
    ended.encode(SUM_START, page);
    (Salvaged::Ended, LABEL)
}

// Record 0 is believed, with the state of a salvage.
fn has_begun<D: Drive>(drive: &D, page: &mut [u8; RECORD]) -> bool
    ensures { result ≡ is_salvage (label_in_state (size (D.meaning drive.now)) (shown (D.meaning drive.now) 0)) }
{
    label_at(drive, LABEL, page).is_some_and(|label| label.state == LabelState::Salvage)
}
