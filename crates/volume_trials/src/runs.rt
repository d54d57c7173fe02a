// Runs of a volume: the worked run on a cabinet with a cut and a salvage, and the store used rightly on every kind.
use drive::cabinet::Cabinet;
use drive::card::Card;
use drive::device::Drive;
use drive::fault::{Fault, Question};
use drive::lab::Lab;
use model::answers::{Balanced, Salvaged, Withdrawn};
use std::process::Abort;
use std::test::Fail;
use store::making::make;
use usage::{close_and_open_again, place_one_and_deposit_another};
use volumes::tokens::WorkingPass;
use volumes::volume::Volume;

// The address of the grant that a withdraw gives, which is deposited again; none where it says wait or full. No other crate
// asks for just the address.
fn granted<D: Drive>(volume: &mut Volume<D>, pass: &WorkingPass) -> Result<Option<u16>, Fault> {
    match volume.withdraw(pass)? {
        Withdrawn::Granted(grant) => {
            let address = grant.address();
            volume.deposit(grant)?;
            Ok(Some(address))
        }
        Withdrawn::Wait | Withdrawn::Full => Ok(None),
    }
}

// Polls until nothing is outstanding, and at least once. Usage and the evening poll with bounds and answers of their own.
fn settle<D: Drive>(volume: &mut Volume<D>) -> Result<(), Fail> {
    for _ in 0..8 {
        if volume.poll() == 0 {
            return Ok(());
        }
    }
    Err(Fail::new("polling does not end"))
}

// The worked run up to the cut: the page is posted, and nothing more is polled.
fn worked_run<D: Drive + Drop>(rt: &impl Abort, mut drive: D) -> Result<u32, Fail> {
    let mut page = [0u8; 512];
    make(&mut drive, 7, 2, &mut page)?;
    let mut volume = Volume::attach(drive);
    let pass = volume.open(&mut page)?;
    volume.create(&pass, 0, 0, 70, &mut page)?;
    assert_eq!(rt; volume.balance(&pass, &mut page)?, Balanced::Section(0));
    assert_eq!(rt; granted(&mut volume, &pass)?, None);
    assert_eq!(rt; volume.poll(), 2);
    assert_eq!(rt; volume.poll(), 1);
    assert_eq!(rt; volume.poll(), 0);
    assert_eq!(rt; granted(&mut volume, &pass)?, Some(10));
    place_one_and_deposit_another(&mut volume, &pass, 0, 0, &mut page)?;
    assert_eq!(rt; volume.drive().owed(), 1);
    Ok(volume.drive().left())
}

// One salvage, with its polls.
fn salvaged<D: Drive>(
    volume: &mut Volume<D>,
    page: &mut [u8],
    tally: &mut [u8],
) -> Result<Salvaged, Fail> {
    let answer = volume.salvage(page, tally)?;
    settle(volume)?;
    Ok(answer)
}

// After the cut: salvage answers begun, section 0 and ended.
fn mended_run<D: Drive + Drop>(rt: &impl Abort, drive: D) -> Result<(), Fail> {
    let mut page = [1u8; 512];
    let mut tally = [1u8; 20];
    let mut volume = Volume::attach(drive);
    assert_eq!(rt;
        volume.salvage(&mut page[0..511], &mut tally),
        Err(Question::PageLength.refused())
    );
    assert!(rt; page[0] == 0 && page[511] == 1 && tally[19] == 0);
    assert_eq!(rt;
        volume.salvage(&mut page, &mut tally[0..19]),
        Err(Question::TallyLength.refused())
    );
    assert_eq!(rt;
        salvaged(&mut volume, &mut page, &mut tally)?,
        Salvaged::Begun
    );
    assert_eq!(rt;
        salvaged(&mut volume, &mut page, &mut tally)?,
        Salvaged::Section(0)
    );
    assert_eq!(rt;
        salvaged(&mut volume, &mut page, &mut tally)?,
        Salvaged::Ended
    );
    let pass = volume.open(&mut page)?;
    settle(&mut volume)?;
    assert_eq!(rt; volume.balance(&pass, &mut page)?, Balanced::Section(0));
    settle(&mut volume)?;
    assert_eq!(rt; granted(&mut volume, &pass)?, Some(10));
    Ok(())
}

#[test]
fn the_worked_run_with_its_cut_and_its_salvage(rt: HostRuntime) -> Result<(), Fail> {
    let mut bytes = [0u8; 10240];
    let mut marks = [0u8; 20];
    worked_run(&rt, Cabinet::new(&mut bytes, &mut marks, 0))?;
    assert_eq!(rt; bytes[5120], 0);
    mended_run(&rt, Cabinet::new(&mut bytes, &mut marks, 30))
}

// The store used rightly, from make to a second opening.
fn right_use<D: Drive + Drop>(rt: &impl Abort, mut drive: D) -> Result<(), Fail> {
    let mut page = [0u8; 512];
    make(&mut drive, 7, 2, &mut page)?;
    let mut volume = Volume::attach(drive);
    let pass = volume.open(&mut page)?;
    settle(&mut volume)?;
    assert_eq!(rt; volume.balance(&pass, &mut page)?, Balanced::Section(0));
    assert_eq!(rt; volume.balance(&pass, &mut page)?, Balanced::Busy);
    settle(&mut volume)?;
    assert_eq!(rt; volume.balance(&pass, &mut page)?, Balanced::Quiet);
    assert_eq!(rt; granted(&mut volume, &pass)?, Some(10));
    close_and_open_again(&mut volume, pass, &mut page)?;
    assert_eq!(rt; volume.drive().size(), 20);
    Ok(())
}

#[test]
fn a_card_used_rightly(rt: HostRuntime) -> Result<(), Fail> {
    let mut bytes = [0u8; 10240];
    let mut marks = [0u8; 20];
    right_use(&rt, Card::new(&mut bytes, &mut marks, 0))
}

#[test]
fn a_lab_drive_used_rightly(rt: HostRuntime) -> Result<(), Fail> {
    let mut bytes = [0u8; 10240];
    let mut marks = [0u8; 20];
    right_use(&rt, Lab::new(&mut bytes, &mut marks, 0, 5))
}
