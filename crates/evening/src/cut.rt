// A van that is cut off in the middle of an update, and what is found when the supply is back.
use crate::bench::Bench;
use crate::meters::{Meter, PAGES};
use anyhow::anyhow;
use drive::device::Drive;
use record::label::LabelState;
use volumes::tokens::WorkingPass;

// Stores one more page of the meter and updates its entry; the supply drops before the update has settled: drive and
// volume are let go. Gives the drive's wear.
pub fn cut_off<D: Drive + Drop>(rt: &HostRuntime, drive: D, meter: Meter) -> anyhow::Result<u32> {
    let mut bench = Bench::new(rt, drive);
    let pass = bench.open()?;
    bench.activate(&pass, meter)?;
    bench.balance(&pass)?;
    bench.store_page(&pass, meter, PAGES)?;
    bench.settle()?;
    bench.update(&pass, meter)?;
    let owed = bench.volume.drive().owed();
    println!(rt; "supply drops    writes outstanding: {owed}")?;
    Ok(bench.wear())
}

// Opens the volume after the cut, works on it, and closes it. Gives the drive's wear.
pub fn work_on<D: Drive + Drop>(rt: &HostRuntime, drive: D, meter: Meter) -> anyhow::Result<u32> {
    let mut bench = Bench::new(rt, drive);
    let found = bench.glance()?;
    let LabelState::InUse = found.label.state else {
        return Err(anyhow!("the volume was not left in use"));
    };
    bench.say("found", "the volume was left in use")?;
    let pass = bench.open()?;
    bench.glance()?;
    read_entry(&mut bench, &pass, meter)?;
    bench.close(pass)?;
    Ok(bench.wear())
}

// The meter's entry is as it was before the update: it has the evening's pages and no other.
fn read_entry<D: Drive>(
    bench: &mut Bench<D>,
    pass: &WorkingPass,
    meter: Meter,
) -> anyhow::Result<()> {
    bench.activate(pass, meter)?;
    bench.read_pages(pass, meter)?;
    let Err(fault) = bench.volume.read(pass, meter.file, PAGES, &mut bench.page) else {
        return Err(anyhow!("a step was accepted that has to be refused"));
    };
    println!(bench.rt; "read            {meter}, slot {PAGES}: {fault}")?;
    bench.deactivate(pass, meter)
}
