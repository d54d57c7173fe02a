// A technician's bench: a volume, a page, and steps of work, most of which print a line with their answer.
use crate::meters::{Meter, PAGES};
use crate::report::Glance;
use anyhow::anyhow;
use drive::device::{Drive, Kind};
use drive::fault::Fault;
use figures::writes_spent;
use model::answers::{Balanced, Drained, Withdrawn};
use std::fmt;
use surveys::survey::{Survey, look};
use volumes::tokens::{ClosingPass, Grant, WorkingPass};
use volumes::volume::Volume;

// After so many polls a drive that still owes a write is given up.
const MOST_POLLS: u32 = 64;

// After so many turns a map that does not come to rest is given up.
const MOST_TURNS: u32 = 16;

#[derive(Drop)]
pub struct Bench<'r, D: Drive> {
    pub rt: &'r HostRuntime,
    pub volume: Volume<D>,
    pub page: [u8; 512],
}

impl<'r, D: Drive> Bench<'r, D> {
    pub fn new(rt: &'r HostRuntime, drive: D) -> Bench<'r, D> {
        Bench {
            rt,
            volume: Volume::attach(drive),
            page: [0; 512],
        }
    }

    // Prints a step and its answer.
    pub fn say(&self, step: &str, answer: impl fmt::Display + Drop) -> anyhow::Result<()> {
        println!(self.rt; "{step:<16}{answer}")?;
        Ok(())
    }

    // Prints a step that was done, and what it was about; a refusal is printed and handed on.
    pub fn tell(
        &self,
        step: &str,
        about: impl fmt::Display + Drop,
        answer: Result<(), Fault>,
    ) -> anyhow::Result<()> {
        match answer {
            Ok(()) => {
                println!(self.rt; "{step:<16}{about}: done")?;
                Ok(())
            }
            Err(fault) => {
                println!(self.rt; "{step:<16}{about}: {fault}")?;
                Err(fault.into())
            }
        }
    }

    // Looks at the volume. Nothing is printed.
    pub fn look(&mut self) -> anyhow::Result<Survey> {
        Ok(look(self.volume.drive(), &mut self.page)?)
    }

    // Looks at the volume, and prints in short how it shows.
    pub fn glance(&mut self) -> anyhow::Result<Survey> {
        let survey = self.look()?;
        self.rt.print(Glance { survey: &survey })?;
        Ok(survey)
    }

    // The drive's wear.
    pub fn wear(&self) -> u32 {
        writes_spent(D::Of::whole_life(), self.volume.drive().left())
    }

    // Polls until nothing is outstanding.
    pub fn settle(&mut self) -> anyhow::Result<()> {
        for polls in 1..=MOST_POLLS {
            if self.volume.poll() == 0 {
                println!(self.rt; "polls           {polls}, nothing outstanding")?;
                return Ok(());
            }
        }
        Err(anyhow!("writes are outstanding after 64 polls"))
    }

    // Opens the volume, and lets the label settle.
    pub fn open(&mut self) -> anyhow::Result<WorkingPass> {
        let pass = self.volume.open(&mut self.page)?;
        self.say("open", "done")?;
        self.settle()?;
        Ok(pass)
    }

    // Balances until the map is at rest.
    pub fn balance(&mut self, pass: &WorkingPass) -> anyhow::Result<()> {
        for _ in 0..MOST_TURNS {
            match self.volume.balance(pass, &mut self.page)? {
                Balanced::Section(k) => println!(self.rt; "balance         section {k} posted")?,
                Balanced::Busy => self.say("balance", "busy")?,
                Balanced::Quiet => return self.say("balance", "quiet"),
            }
            self.settle()?;
        }
        Err(anyhow!("the map does not come to rest"))
    }

    // Creates a meter's file.
    pub fn create(&mut self, pass: &WorkingPass, meter: Meter) -> anyhow::Result<()> {
        let Meter {
            number,
            entry,
            file,
        } = meter;
        let made = self
            .volume
            .create(pass, file, entry, number, &mut self.page);
        self.tell(
            "create",
            format_args!("meter {number}, entry {entry}"),
            made,
        )
    }

    // Takes up a meter's entry in its file.
    pub fn activate(&mut self, pass: &WorkingPass, meter: Meter) -> anyhow::Result<()> {
        let active = self
            .volume
            .activate(pass, meter.file, meter.entry, &mut self.page);
        self.tell("activate", meter, active)
    }

    // Names the pages that a meter's file holds in its entry.
    pub fn update(&mut self, pass: &WorkingPass, meter: Meter) -> anyhow::Result<()> {
        let updated = self.volume.update(pass, meter.file, &mut self.page);
        self.tell("update", meter, updated)
    }

    // Leaves a meter's file.
    pub fn deactivate(&mut self, pass: &WorkingPass, meter: Meter) -> anyhow::Result<()> {
        let left = self.volume.deactivate(pass, meter.file);
        self.tell("deactivate", meter, left)
    }

    // Withdraws a grant.
    fn withdraw(&mut self, pass: &WorkingPass) -> anyhow::Result<Grant> {
        match self.volume.withdraw(pass)? {
            Withdrawn::Granted(grant) => Ok(grant),
            Withdrawn::Wait => Err(anyhow!("no address is in service yet")),
            Withdrawn::Full => Err(anyhow!("the volume is full")),
        }
    }

    // Stores one page of a meter: withdraws a grant, and places the page. Where that is refused, the grant is put back.
    pub fn store_page(
        &mut self,
        pass: &WorkingPass,
        meter: Meter,
        slot: usize,
    ) -> anyhow::Result<()> {
        let grant = self.withdraw(pass)?;
        let ticket = grant.ticket();
        let address = grant.address();
        self.page = meter.readings(slot);
        let placed = match self
            .volume
            .place(pass, grant, meter.file, slot, &mut self.page)
        {
            Ok(()) => Ok(()),
            Err((grant, fault)) => {
                self.volume.deposit(grant)?;
                Err(fault)
            }
        };
        println!(self.rt; "withdraw        ticket {ticket}, record {address}")?;
        self.tell("place", format_args!("{meter}, slot {slot}"), placed)
    }

    // Reads the evening's pages of a meter.
    pub fn read_pages(&mut self, pass: &WorkingPass, meter: Meter) -> anyhow::Result<()> {
        for slot in 0..PAGES {
            self.read_page(pass, meter, slot)?;
        }
        Ok(())
    }

    // Reads a page of a meter, and compares it with what was placed.
    fn read_page(&mut self, pass: &WorkingPass, meter: Meter, slot: usize) -> anyhow::Result<()> {
        self.volume.read(pass, meter.file, slot, &mut self.page)?;
        if self.page != meter.readings(slot) {
            return Err(anyhow!("a page is not as it was placed"));
        }
        println!(self.rt; "read            {meter}, slot {slot}: as placed")?;
        Ok(())
    }

    // Closes the volume, drains it until it is dry, and finishes.
    pub fn close(&mut self, pass: WorkingPass) -> anyhow::Result<()> {
        let closing = match self.volume.close(pass) {
            Ok(closing) => closing,
            Err((_, fault)) => return Err(fault.into()),
        };
        self.say("close", "done")?;
        self.drain(&closing)?;
        if let Err((_, fault)) = self.volume.finish(closing, &mut self.page) {
            return Err(fault.into());
        }
        self.say("finish", "done")?;
        self.settle()
    }

    fn drain(&mut self, closing: &ClosingPass) -> anyhow::Result<()> {
        for _ in 0..MOST_TURNS {
            match self.volume.drain(closing, &mut self.page)? {
                Drained::Section(k) => println!(self.rt; "drain           section {k} posted")?,
                Drained::Dry => return self.say("drain", "dry"),
            }
            self.settle()?;
        }
        Err(anyhow!("addresses are still in service"))
    }
}
