// Makes a new volume on a card, looks at it, and reports to the technician.
#![tactic(auto)]

mod report;

use crate::report::Report;
use drive::card::Card;
use drive::device::Drive;
use figures::report::Wear;
use store::making::make;
use surveys::survey::look;

const RECORDS: usize = 400;

const ENTRIES: u16 = 48;

const VOLUME: u32 = 20261117;

fn run(rt: &HostRuntime) -> anyhow::Result<()> {
    let mut bytes = vec![in rt.alloc(); 0u8; 512 * RECORDS]?;
    let mut marks = vec![in rt.alloc(); 0u8; RECORDS]?;
    let mut page = [0u8; 512];
    let mut card = Card::new(&mut bytes, &mut marks, 0);
    let before = card.left();
    make(&mut card, VOLUME, ENTRIES, &mut page)?;
    let survey = look(&card, &mut page)?;
    rt.print(Report {
        survey: &survey,
        wear: Wear::between(before, card.left()),
    })?;
    Ok(())
}

fn main(rt: HostRuntime) -> anyhow::Result<()> {
    run(&rt)
}
