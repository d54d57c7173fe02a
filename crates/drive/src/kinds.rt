// The depth and the life of each kind of drive. No one type over two numbers: the laws do not hold of every two.
ghost use Rattle.std.proofs.Common.{rules};

use crate::device::Kind;

#[derive(Drop)]
pub struct CardKind {}

impl Kind for CardKind {
    ghost DEPTH = { 1 };

    ghost LIFE = { 4294967295 };

    const DEPTH: usize = 1;

    const LIFE: u32 = 4294967295;

    ghost deep = { Prim.search rules };

    ghost lasting = { Prim.search rules };
}

#[derive(Drop)]
pub struct CabinetKind {}

impl Kind for CabinetKind {
    ghost DEPTH = { 4 };

    ghost LIFE = { 1000000 };

    const DEPTH: usize = 4;

    const LIFE: u32 = 1000000;

    ghost deep = { Prim.search rules };

    ghost lasting = { Prim.search rules };
}

#[derive(Drop)]
pub struct LabKind {}

impl Kind for LabKind {
    ghost DEPTH = { 3 };

    ghost LIFE = { 5000 };

    const DEPTH: usize = 3;

    const LIFE: u32 = 5000;

    ghost deep = { Prim.search rules };

    ghost lasting = { Prim.search rules };
}
