// Why a call is refused: the first question that was answered no, and the record it concerns.
ghost use Rattle.std.specs.Prelude.{◌≡◌, Ok, Err, if◌then◌else◌};
ghost use Rattle.drive.specs.Faults.{number_of, layer_of, layer_number, no_record, refusal, said};

use std::error::Error;
use std::fmt;

// Every question that a call of a drive or of a volume can put, under its number.
#[derive(Clone, Copy, PartialEq, Eq, Debug)]
pub enum Question {
    // Is the page handed in 512 bytes?
    PageLength = 1,
    // Is the volume in the phase that the call wants?
    Phase = 2,
    // Is a label believed?
    Believed = 3,
    // Is the label's state closed or in use?
    LabelState = 4,
    // Has the tally a byte for each record?
    TallyLength = 5,
    // Is the file in the table, and used or unused as the call wants?
    File = 6,
    // Is the entry number in its limits, and in no file?
    EntryNumber = 7,
    // Is the meter number not 0?
    Meter = 8,
    // Does the entry show sound, and free or not as the call wants?
    EntryShown = 9,
    // Is the slot in the file, and in the case that the call wants?
    Slot = 10,
    // Does the ticket hold the grant's address?
    Grant = 11,
    // Is a ticket unused?
    Ticket = 12,
    // Is there room for one more address?
    Room = 13,
    // Is nothing left to be finished first?
    AtRest = 14,
    // Is everything that the call waits for settled?
    Settled = 15,
    // Are id, entries and records in their limits?
    Limits = 16,
    // Is the page handed to the drive 512 bytes?
    RecordLength = 21,
    // Is the address below the drive's size?
    Address = 22,
    // Is the record readable?
    Readable = 23,
    // Are fewer writes outstanding than the drive's depth?
    Depth = 24,
    // Is enough of the drive's life left?
    Life = 25,
}

// The layers that put the questions, each under its number.
#[derive(Clone, Copy, PartialEq, Eq, Debug)]
pub enum Layer {
    Drive = 1,
    Entries = 2,
    Volume = 3,
}

#[derive(Clone, Copy, PartialEq, Eq, Debug)]
pub struct Fault {
    pub question: Question,
    pub address: u16,
}

// The address of a fault that concerns no record. A number and no `Option`: the rules of a refusal name it.
pub const NO_RECORD: u16 = 65535;

impl Question {
    // The question's number.
    pub fn number(self) -> u8
        ensures { result ≡ number_of self }
    {
        self as u8
    }

    // The layer that puts the question.
    pub fn layer(self) -> Layer
        ensures { layer_number result ≡ layer_of (number_of self) }
    {
        match self {
            Question::RecordLength
            | Question::Address
            | Question::Readable
            | Question::Depth
            | Question::Life => Layer::Drive,
            Question::EntryNumber | Question::Meter | Question::EntryShown | Question::Slot =>
                Layer::Entries,
            Question::PageLength
            | Question::Phase
            | Question::Believed
            | Question::LabelState
            | Question::TallyLength
            | Question::File
            | Question::Grant
            | Question::Ticket
            | Question::Room
            | Question::AtRest
            | Question::Settled
            | Question::Limits => Layer::Volume,
        }
    }

    // A refusal that names the record at an address.
    pub fn at(self, address: u16) -> Fault
        ensures { result ≡ record { question = self; address = address } }
    {
        Fault {
            question: self,
            address,
        }
    }

    // A refusal that names no record.
    pub fn refused(self) -> Fault
        ensures { result ≡ record { question = self; address = no_record } }
    {
        self.at(NO_RECORD)
    }

    // Puts the question, of no record: a no is a refusal.
    pub fn ask(self, yes: bool) -> Result<(), Fault>
        ensures { said result ≡ (if yes then Ok tt else Err (refusal (number_of self) no_record)) }
    {
        if !yes {
            return Err(self.refused());
        }
        Ok(())
    }
}

impl Fault {
    pub fn number(&self) -> u8
        ensures { result ≡ number_of self.now.question }
    {
        self.question.number()
    }

    // The number of the layer that put the question: 1 for the drive, 2 for the entries, 3 for the volume.
    pub fn layer(&self) -> u8
        ensures { result ≡ layer_of (number_of self.now.question) }
    {
        self.question.layer() as u8
    }
}

// For a person: the number, the layer, and the record where there is one.
impl fmt::Display for Fault {
    fn fmt<W: fmt::Write>(&self, f: &mut fmt::Formatter<W>) -> fmt::Result {
        let number = self.number();
        let layer = self.layer();
        let address = self.address;
        if address == NO_RECORD {
            return write!(f, "refused by question {number} of layer {layer}");
        }
        write!(
            f,
            "refused by question {number} of layer {layer}, record {address}"
        )
    }
}

impl Error for Fault {}
