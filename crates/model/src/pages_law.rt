// What no power cut does to the pages that are named.
ghost use Rattle.model.specs.PagesLaw.{PowerCutsLoseNoNamedPage};

pub fn power_cuts_lose_no_named_page()
    ensures { PowerCutsLoseNoNamedPage }
{}
