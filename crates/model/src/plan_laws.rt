// Laws of the plans.
ghost use Rattle.model.specs.PlanLaws.{ARefusedCallChangesNothing, WithdrawSaysFullExactlyWhenThereIsNone, ATakeIsOfTheLowestFree, AfterAnUpdateTheEntryShowsExactlyTheLiveSlots, AMendedEntryIsSoundAndKeepsOnlyWhatItHeld, PollNeitherAddsNorLosesAnAddress};

pub fn a_refused_call_changes_nothing()
    ensures { ARefusedCallChangesNothing }
{}

pub fn withdraw_says_full_exactly_when_there_is_none()
    ensures { WithdrawSaysFullExactlyWhenThereIsNone }
{}

pub fn a_take_is_of_the_lowest_free()
    ensures { ATakeIsOfTheLowestFree }
{}

pub fn after_an_update_the_entry_shows_exactly_the_live_slots()
    ensures { AfterAnUpdateTheEntryShowsExactlyTheLiveSlots }
{}

pub fn a_mended_entry_is_sound_and_keeps_only_what_it_held()
    ensures { AMendedEntryIsSoundAndKeepsOnlyWhatItHeld }
{}

pub fn poll_neither_adds_nor_loses_an_address()
    ensures { PollNeitherAddsNorLosesAnAddress }
{}
