// Laws of the layouts, each on the contract of a function.
ghost use Rattle.record.specs.Laws.{AWrittenLabelIsBelieved, AWrittenEntryIsReadBack, ABelievedLabelIsTheRecordOfWhatIsRead, ASoundEntryIsTheRecordOfWhatIsRead, SoundAddressesNameEachPageOnce, AWrittenSectionIsReadBack, ASoundSectionIsTheRecordOfWhatIsRead, EveryFreeBitLiesInTheRegion, AChangedBitChangesNoOther, AChangedBitMovesTheCountByOne, BitsAreToldByTheFreeNumbers, TheLowestFreeNumberIsLowest};

pub fn a_written_label_is_believed()
    ensures { AWrittenLabelIsBelieved }
{}

pub fn a_written_entry_is_read_back()
    ensures { AWrittenEntryIsReadBack }
{}

pub fn a_believed_label_is_the_record_of_what_is_read()
    ensures { ABelievedLabelIsTheRecordOfWhatIsRead }
{}

pub fn a_sound_entry_is_the_record_of_what_is_read()
    ensures { ASoundEntryIsTheRecordOfWhatIsRead }
{}

pub fn sound_addresses_name_each_page_once()
    ensures { SoundAddressesNameEachPageOnce }
{}

pub fn a_written_section_is_read_back()
    ensures { AWrittenSectionIsReadBack }
{}

pub fn a_sound_section_is_the_record_of_what_is_read()
    ensures { ASoundSectionIsTheRecordOfWhatIsRead }
{}

pub fn every_free_bit_lies_in_the_region()
    ensures { EveryFreeBitLiesInTheRegion }
{}

pub fn a_changed_bit_changes_no_other()
    ensures { AChangedBitChangesNoOther }
{}

pub fn a_changed_bit_moves_the_count_by_one()
    ensures { AChangedBitMovesTheCountByOne }
{}

pub fn bits_are_told_by_the_free_numbers()
    ensures { BitsAreToldByTheFreeNumbers }
{}

pub fn the_lowest_free_number_is_lowest()
    ensures { TheLowestFreeNumberIsLowest }
{}
