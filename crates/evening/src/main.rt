// The evening run of a technician: a cabinet volume takes the readings of three meters, its van is cut off twice, and the
// volume is salvaged. The parts work on one memory, that of the cabinet's drive.
#![tactic(auto)]

mod bench;
mod cut;
mod evening;
mod mend;
mod meters;
mod report;

use crate::meters::METERS;
use anyhow::anyhow;
use drive::cabinet::Cabinet;

const RECORDS: usize = 40;

fn run(rt: &HostRuntime) -> anyhow::Result<()> {
    let mut bytes = vec![in rt.alloc(); 0u8; 512 * RECORDS]?;
    let mut marks = vec![in rt.alloc(); 0u8; RECORDS]?;
    let mut tally = vec![in rt.alloc(); 0u8; RECORDS]?;
    println!(rt; "EVENING RUN")?;
    let wear = evening::run(rt, Cabinet::new(&mut bytes, &mut marks, 0))?;
    let wear = cut_and_back(rt, &mut bytes, &mut marks, wear)?;
    let wear = cut_and_spoiled(rt, &mut bytes, &mut marks, wear)?;
    println!(rt; "\nSALVAGE")?;
    let cabinet = Cabinet::new(&mut bytes, &mut marks, wear);
    mend::run(rt, cabinet, &mut tally)
}

// The van is cut off while it updates the first meter; then the supply is back. Gives the drive's wear.
fn cut_and_back(
    rt: &HostRuntime,
    bytes: &mut [u8],
    marks: &mut [u8],
    wear: u32,
) -> anyhow::Result<u32> {
    let [meter, ..] = METERS;
    println!(rt; "\nCUT OFF IN AN UPDATE")?;
    let wear = cut::cut_off(rt, Cabinet::new(&mut *bytes, &mut *marks, wear), meter)?;
    println!(rt; "\nSUPPLY IS BACK")?;
    cut::work_on(rt, Cabinet::new(bytes, marks, wear), meter)
}

// The van is cut off while it updates the second meter, and the record of that entry is spoiled. Gives the drive's wear.
fn cut_and_spoiled(
    rt: &HostRuntime,
    bytes: &mut [u8],
    marks: &mut [u8],
    wear: u32,
) -> anyhow::Result<u32> {
    let [_, meter, _] = METERS;
    println!(rt; "\nCUT OFF AGAIN, AND A RECORD IS SPOILED")?;
    let wear = cut::cut_off(rt, Cabinet::new(bytes, &mut *marks, wear), meter)?;
    let record = meter.record();
    let Some(mark) = marks.get_mut(record) else {
        return Err(anyhow!("the drive has no such record"));
    };
    *mark = 1;
    println!(rt; "spoiled         record {record}")?;
    Ok(wear)
}

fn main(rt: HostRuntime) -> anyhow::Result<()> {
    run(&rt)
}
