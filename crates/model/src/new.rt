// What the writes of make leave.
ghost use Rattle.model.specs.New.{MakeWritesLeaveTheNewVolume};

pub fn make_writes_leave_the_new_volume()
    ensures { MakeWritesLeaveTheNewVolume }
{}
