// The cabinet: it completes nothing in a post, and one write in a step.
ghost use Rattle.std.specs.Prelude.{◌≡◌, min, []};
ghost use Rattle.std.proofs.Common.{rules};

use crate::buffered::Buffered;
use crate::device::Kind;
use crate::kinds::CabinetKind;
use crate::pace::Pace;

#[derive(Drop)]
pub struct Steady {}

impl Pace for Steady {
    type Of = CabinetKind;

    ghost in_post = { λ _. 0 };

    ghost in_step = { λ _. 1 };

    ghost next = { λ p. p };

    fn post(&mut self) -> usize {
        0
    }

    fn step(&mut self) -> usize {
        1
    }

    ghost fits = { Prim.search rules };

    ghost completes = { λ _. Prim.search rules };
}

pub type Cabinet<'a> = Buffered<'a, Steady>;

impl<'a> Buffered<'a, Steady> {
    ghost use Rattle.drive.specs.Disks.{WorksIn};
    ghost use Rattle.drive.specs.Kinds.{of_cabinet};
    ghost use Rattle.drive.specs.Surfaces.{states};

    // A cabinet over these bytes and marks; a wear above the life counts as the life.
    pub fn new(bytes: &'a mut [u8], marks: &'a mut [u8], wear: u32) -> Self
        ensures empty { of_cabinet result ≡ record { settled = states bytes.old marks.old; outstanding = []; wear = min wear 1000000 } }
        ensures lent { WorksIn result.backlog.surface bytes.entry marks.entry }
    {
        Buffered::over(bytes, marks, wear, Steady {})
    }
}

// What the clauses of a drive whose writes wait say of the cabinet.
pub fn a_cabinet_completes_nothing_in_a_post_and_one_write_in_a_step()
    ensures depth { ⟦<CabinetKind as Kind>⟧.DEPTH ≡ 4 }
    ensures life { ⟦<CabinetKind as Kind>⟧.LIFE ≡ 1000000 }
    ensures drive_depth { ⟦<<Steady as Pace>::Of as Kind>⟧.DEPTH ≡ 4 }
    ensures drive_life { ⟦<<Steady as Pace>::Of as Kind>⟧.LIFE ≡ 1000000 }
    ensures in_post { ⟦<Steady as Pace>⟧.in_post (record {}) ≡ 0 }
    ensures in_step { ⟦<Steady as Pace>⟧.in_step (record {}) ≡ 1 }
{}
