// Worked examples and runs on a volume made new, and that every run is a history.
ghost use Rattle.model.specs.Runs.{AllWorkedExamplesComeOut, EveryRunIsAHistory, TheWorkedRunIsAHistory};

pub fn all_worked_examples_come_out()
    ensures { AllWorkedExamplesComeOut }
{}

pub fn every_run_is_a_history()
    ensures { EveryRunIsAHistory }
{}

pub fn the_worked_run_is_a_history()
    ensures { TheWorkedRunIsAHistory }
{}
