// All that no power cut breaks.
ghost use Rattle.model.specs.PowerCuts.{NoPowerCutHarmsAVolume};

pub fn no_power_cut_harms_a_volume()
    ensures { NoPowerCutHarmsAVolume }
{}
