// What no power cut does to the names of records.
ghost use Rattle.model.specs.NamesLaw.{PowerCutsNeverMixNames};

pub fn power_cuts_never_mix_names()
    ensures { PowerCutsNeverMixNames }
{}
