// Polling ends, and salvage mends every image that a power cut leaves.
ghost use Rattle.model.specs.SalvageLaw.{PollingEndsForEveryVolume, SalvageMendsEveryImage};

pub fn polling_ends_for_every_volume()
    ensures { PollingEndsForEveryVolume }
{}

pub fn salvage_mends_every_image()
    ensures { SalvageMendsEveryImage }
{}
