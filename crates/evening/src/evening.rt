// The evening run: a new volume takes two pages of each meter and is closed.
use crate::bench::Bench;
use crate::meters::{METERS, Meter, PAGES};
use crate::report::{Evening, Report};
use anyhow::anyhow;
use drive::device::Drive;
use figures::report::Wear;
use figures::writes_spent;
use store::making::make;
use surveys::survey::Survey;
use volumes::tokens::WorkingPass;

const ENTRIES: u16 = 4;

const VOLUME: u32 = 20261117;

// Makes the volume and works on it; gives the drive's wear.
pub fn run<D: Drive + Drop>(rt: &HostRuntime, mut drive: D) -> anyhow::Result<u32> {
    let mut page = [0u8; 512];
    let new = drive.left();
    make(&mut drive, VOLUME, ENTRIES, &mut page)?;
    let before = drive.left();
    let made = writes_spent(new, before);
    println!(rt; "make            done, {made} writes")?;
    let mut bench = Bench::new(rt, drive);
    let fresh = bench.look()?;
    let pass = bench.open()?;
    fill(&mut bench, &pass)?;
    let pass = close_too_soon(&mut bench, pass)?;
    for meter in METERS {
        bench.deactivate(&pass, meter)?;
    }
    bench.close(pass)?;
    report(&mut bench, &fresh, before)?;
    Ok(bench.wear())
}

// Reports on the volume, and on what the evening brought since it was fresh and the drive had so much life left.
fn report<D: Drive>(bench: &mut Bench<D>, fresh: &Survey, before: u32) -> anyhow::Result<()> {
    let seen = bench.look()?;
    let wear = Wear::between(before, bench.volume.drive().left());
    println!(bench.rt; "\nREPORT OF THE EVENING")?;
    bench.rt.print(Report {
        survey: &seen,
        wear,
    })?;
    bench.rt.print(Evening::of(fresh, &seen, wear))?;
    Ok(())
}

// Creates the meters' files, stores their pages, and reads them back.
fn fill<D: Drive>(bench: &mut Bench<D>, pass: &WorkingPass) -> anyhow::Result<()> {
    for meter in METERS {
        bench.create(pass, meter)?;
    }
    bench.settle()?;
    bench.balance(pass)?;
    for meter in METERS {
        store(bench, pass, meter)?;
    }
    for meter in METERS {
        bench.read_pages(pass, meter)?;
    }
    Ok(())
}

// Places the pages of one meter, and names them in its entry once they have settled.
fn store<D: Drive>(bench: &mut Bench<D>, pass: &WorkingPass, meter: Meter) -> anyhow::Result<()> {
    for slot in 0..PAGES {
        bench.store_page(pass, meter, slot)?;
    }
    bench.settle()?;
    bench.update(pass, meter)?;
    bench.settle()
}

// A volume with files in use cannot be closed: the refusal hands the pass back.
fn close_too_soon<D: Drive>(
    bench: &mut Bench<D>,
    pass: WorkingPass,
) -> anyhow::Result<WorkingPass> {
    let Err((pass, fault)) = bench.volume.close(pass) else {
        return Err(anyhow!("a volume with files in use was closed"));
    };
    println!(bench.rt; "close           files in use: {fault}")?;
    Ok(pass)
}
