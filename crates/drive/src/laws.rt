// Laws of a drive's meaning, each on the contract of a function.
ghost use Rattle.drive.specs.Laws.{CompletingChangesNothingShown, CompletingAddsNoImage, ACutKeepsWhatHasNothingOutstanding, APostedWriteIsShownAndNoOtherAddressChanges, WritesCompleteOldestFirst};

pub fn completing_changes_nothing_shown()
    ensures { CompletingChangesNothingShown }
{}

pub fn completing_adds_no_image()
    ensures { CompletingAddsNoImage }
{}

pub fn a_cut_keeps_what_has_nothing_outstanding()
    ensures { ACutKeepsWhatHasNothingOutstanding }
{}

pub fn a_posted_write_is_shown_and_no_other_address_changes()
    ensures { APostedWriteIsShownAndNoOtherAddressChanges }
{}

pub fn writes_complete_oldest_first()
    ensures { WritesCompleteOldestFirst }
{}
