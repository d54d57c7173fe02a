// What a volume keeps in memory is right at all times.
ghost use Rattle.model.specs.MemoryLaw.{MemoryCountsWhatTheMapShows, AtMost32AddressesAreHeld, NoAddressIsHeldTwice};

pub fn memory_counts_what_the_map_shows()
    ensures { MemoryCountsWhatTheMapShows }
{}

pub fn at_most_32_addresses_are_held()
    ensures { AtMost32AddressesAreHeld }
{}

pub fn no_address_is_held_twice()
    ensures { NoAddressIsHeldTwice }
{}
