// Runs of a volume on every kind of drive.
#![tactic(auto)]

#[cfg(test)]
mod runs;
