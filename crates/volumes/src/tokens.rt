// The tokens that a caller holds beside a volume. They can be made by its calls alone.
ghost use Rattle.std.specs.Prelude.{◌≡◌};

// The right to work on an open volume. Close changes it for a closing pass; a power cut makes it worthless.
#[derive(Drop)]
pub struct WorkingPass {
    pub(crate) given: (),
}

// The right to drain a volume and to finish it.
#[derive(Drop)]
pub struct ClosingPass {
    pub(crate) given: (),
}

// An address that was withdrawn, and the ticket that holds it. It cannot be let go: place and deposit spend it.
pub struct Grant {
    pub(crate) ticket: u8,
    pub(crate) address: u16,
}

impl Grant {
    pub fn ticket(&self) -> u8
        ensures { result ≡ self.now.ticket }
    {
        self.ticket
    }

    pub fn address(&self) -> u16
        ensures { result ≡ self.now.address }
    {
        self.address
    }
}
