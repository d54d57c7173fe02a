// The lab drive, for tests: its pace decides how many writes it completes.
ghost use Rattle.std.specs.Prelude.{◌≡◌, ℕ, min, [], Result};
ghost use Rattle.std.proofs.Common.{rules};
ghost use Rattle.drive.specs.declared.fault.Fault.{Fault};
ghost use Rattle.drive.specs.Pace.{next_pace, paced, paced_post, paced_step, after_accepted, after_finding, pace_after_post, pace_after_step};

use crate::buffered::Buffered;
use crate::device::Kind;
use crate::kinds::LabKind;
use crate::pace::Pace;

// The paces are a linear congruential sequence modulo 2^32.
const MULTIPLIER: u32 = 1664525;

const INCREMENT: u32 = 1013904223;

fn next_pace(pace: u32) -> u32
    ensures { result ≡ next_pace pace }
{
    pace.wrapping_mul(MULTIPLIER).wrapping_add(INCREMENT)
}

// How many writes a pace lets through.
fn paced(pace: u32) -> usize
    ensures { result ≡ paced pace }
{
    (pace / 65536 % 4) as usize
}

#[derive(Drop)]
pub struct LabPace {
    number: u32,
}

impl Pace for LabPace {
    type Of = LabKind;

    ghost in_post = { λ p. paced_post p.number };

    ghost in_step = { λ p. paced_step p.number };

    ghost next = { λ p. record { number = next_pace p.number } };

    fn post(&mut self) -> usize {
        self.number = next_pace(self.number);
        paced(self.number)
    }

    fn step(&mut self) -> usize {
        self.number = next_pace(self.number);
        paced(self.number).max(1)
    }

    ghost fits = { Prim.search rules };

    ghost completes = { λ p. Prim.search rules };
}

pub type Lab<'a> = Buffered<'a, LabPace>;

impl<'a> Buffered<'a, LabPace> {
    ghost use Rattle.drive.specs.Disks.{WorksIn};
    ghost use Rattle.drive.specs.Kinds.{of_lab};
    ghost use Rattle.drive.specs.Surfaces.{states};

    // A lab drive over these bytes and marks; a wear above the life counts as the life.
    pub fn new(bytes: &'a mut [u8], marks: &'a mut [u8], wear: u32, pace: u32) -> Self
        ensures empty { of_lab result ≡ record { settled = states bytes.old marks.old; outstanding = []; wear = min wear 5000 } }
        ensures pace { result.pace.number ≡ pace }
        ensures lent { WorksIn result.backlog.surface bytes.entry marks.entry }
    {
        Buffered::over(bytes, marks, wear, LabPace { number: pace })
    }
}

// What the clauses of a drive whose writes wait say of the lab drive.
pub fn a_lab_drive_follows_its_pace()
    ensures depth { ⟦<LabKind as Kind>⟧.DEPTH ≡ 3 }
    ensures life { ⟦<LabKind as Kind>⟧.LIFE ≡ 5000 }
    ensures drive_depth { ⟦<<LabPace as Pace>::Of as Kind>⟧.DEPTH ≡ 3 }
    ensures drive_life { ⟦<<LabPace as Pace>::Of as Kind>⟧.LIFE ≡ 5000 }
    ensures in_post { (x : ℕ) → ⟦<LabPace as Pace>⟧.in_post (record { number = x }) ≡ paced_post x }
    ensures in_step { (x : ℕ) → ⟦<LabPace as Pace>⟧.in_step (record { number = x }) ≡ paced_step x }
    ensures after_post { (r : Result (Unit {0}) Fault) (x : ℕ) → (after_accepted ⟦<LabPace as Pace>⟧.next r (record { number = x })).number ≡ pace_after_post r x }
    ensures after_step { (n x : ℕ) → (after_finding ⟦<LabPace as Pace>⟧.next n (record { number = x })).number ≡ pace_after_step n x }
{}
