// A write that waits in memory.
ghost use Rattle.std.specs.Prelude.{◌≡◌, true, length};
ghost use Rattle.drive.specs.Each.{all_bytes};

#[derive(Clone, Copy)]
pub struct Queued {
    pub at: u16,
    pub bytes: [u8; 512],
    ghost full: { length bytes ≡ 512 },
    ghost sized: { all_bytes bytes ≡ true },
}

// A place of a queue that holds no write. A derive makes no default of a struct with ghost fields.
impl Default for Queued {
    fn default() -> Self {
        Queued {
            at: 0,
            bytes: [0; 512],
        }
    }
}
