// A salvage of a volume that lost a record, from what is found to the closed volume.
use crate::bench::Bench;
use anyhow::anyhow;
use drive::device::Drive;
use figures::pages_adrift;
use model::answers::Salvaged;

// A volume of this size is salvaged in fewer calls.
const MOST_CALLS: u32 = 64;

// Looks, salvages up to the end, and looks again.
pub fn run<D: Drive + Drop>(rt: &HostRuntime, drive: D, tally: &mut [u8]) -> anyhow::Result<()> {
    let mut bench = Bench::new(rt, drive);
    bench.glance()?;
    salvage(&mut bench, tally)?;
    let mended = bench.glance()?;
    if pages_adrift(&mended) != 0 {
        return Err(anyhow!("a page record is neither named nor free"));
    }
    bench.say("salvaged", "every page record is named or free")
}

// Calls salvage until it has ended, each write settled before the next call.
fn salvage<D: Drive>(bench: &mut Bench<D>, tally: &mut [u8]) -> anyhow::Result<()> {
    for _ in 0..MOST_CALLS {
        let answer = bench.volume.salvage(&mut bench.page, tally)?;
        match answer {
            Salvaged::Begun => bench.say("salvage", "begun")?,
            Salvaged::Entry(i) => println!(bench.rt; "salvage         entry {i} mended")?,
            Salvaged::Section(k) => println!(bench.rt; "salvage         section {k} mended")?,
            Salvaged::Ended => bench.say("salvage", "ended")?,
        }
        bench.settle()?;
        match answer {
            Salvaged::Begun => open_too_soon(bench)?,
            Salvaged::Ended => return Ok(()),
            Salvaged::Entry(_) | Salvaged::Section(_) => {}
        }
    }
    Err(anyhow!("the salvage does not end"))
}

// A volume whose salvage has begun cannot be opened.
fn open_too_soon<D: Drive>(bench: &mut Bench<D>) -> anyhow::Result<()> {
    let Err(fault) = bench.volume.open(&mut bench.page) else {
        return Err(anyhow!("a volume was opened in the middle of its salvage"));
    };
    println!(bench.rt; "open            salvage begun: {fault}")?;
    Ok(())
}
