// A drive that notes the addresses it was posted to, over any other drive.
use drive::device::Drive;
use drive::fault::Fault;
use store::making::make;

// The addresses of up to sixteen posts, in their order. An array with its count: a list of the kit's is no `Copy`.
#[derive(Clone, Copy)]
pub struct Notes {
    pub addresses: [u16; 16],
    pub count: usize,
}

#[derive(Drop)]
struct Noting<D: Drive> {
    inner: D,
    notes: Notes,
}

impl Notes {
    fn add(&mut self, at: u16) {
        let i = self.count;
        if i < 16 {
            self.addresses[i] = at;
            self.count = i + 1;
        }
    }
}

// Makes a volume, and gives the addresses that were posted to.
pub fn noted_make<D: Drive + Drop>(
    drive: D,
    id: u32,
    entries: u16,
    page: &mut [u8],
) -> Result<Notes, Fault> {
    let notes = Notes {
        addresses: [0; 16],
        count: 0,
    };
    let mut noting = Noting {
        inner: drive,
        notes,
    };
    make(&mut noting, id, entries, page)?;
    Ok(noting.notes)
}

impl<D: Drive> Drive for Noting<D> {
    type Of = D::Of;

    ghost meaning = { λ n. D.Drive.meaning n.inner };

    ghost formed = { λ n. D.Drive.formed n.inner };

    fn read(&self, at: u16, page: &mut [u8]) -> Result<(), Fault> {
        self.inner.read(at, page)
    }

    fn post(&mut self, at: u16, page: &[u8]) -> Result<(), Fault> {
        self.inner.post(at, page)?;
        self.notes.add(at);
        Ok(())
    }

    fn step(&mut self) -> usize {
        self.inner.step()
    }

    fn pending(&self, at: u16) -> bool {
        self.inner.pending(at)
    }

    fn owed(&self) -> usize {
        self.inner.owed()
    }

    fn left(&self) -> u32 {
        self.inner.left()
    }

    fn size(&self) -> usize {
        self.inner.size()
    }
}
