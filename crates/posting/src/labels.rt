// The label of a volume as it is opened.
ghost use Rattle.std.specs.Prelude.{◌≡◌};
ghost use Rattle.drive.specs.Faults.{said};
ghost use Rattle.model.specs.Carried.{asked};
ghost use Rattle.model.specs.Plans.{may_open, next_trouble};
ghost use Rattle.model.specs.Shown.{with_state};
ghost use Rattle.record.specs.declared.label.LabelState.TheVariants.{InUse};

use drive::fault::{Fault, Question};
use record::label::{Label, LabelState};

// Is the label's state closed or in use?
pub fn ask_may_open(state: LabelState) -> Result<(), Fault>
    ensures { said result ≡ asked 4 (may_open state) }
{
    Question::LabelState.ask(state != LabelState::Salvage)
}

// The label of a volume that is opened: one more trouble where it was left in use.
pub fn in_use(label: &Label) -> Label
    ensures { result ≡ with_state label.now InUse (next_trouble label.now.state label.now.trouble) }
{
    let trouble = match label.state {
        LabelState::InUse => label.trouble.saturating_add(1),
        _ => label.trouble,
    };
    Label {
        state: LabelState::InUse,
        trouble,
        ..*label
    }
}
