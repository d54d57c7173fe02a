// The store used rightly: a pass is given up at close and got anew by open, and every grant is spent.
#![tactic(auto)]

use drive::device::Drive;
use drive::fault::Fault;
use model::answers::{Drained, Withdrawn};
use volumes::tokens::{ClosingPass, Grant, WorkingPass};
use volumes::volume::Volume;

// The most drains and polls that emptying the stock takes: one a section, each with its polls.
const TURNS: usize = 32;

// Places a page with one grant, and deposits another.
pub fn place_one_and_deposit_another<D: Drive>(
    volume: &mut Volume<D>,
    pass: &WorkingPass,
    file: usize,
    slot: usize,
    page: &mut [u8],
) -> Result<(), Fault> {
    match volume.withdraw(pass)? {
        Withdrawn::Granted(first) => place(volume, pass, first, file, slot, page)?,
        Withdrawn::Wait | Withdrawn::Full => {}
    }
    withdraw_and_deposit(volume, pass)
}

// Withdraws a grant, where there is one, and deposits it again.
fn withdraw_and_deposit<D: Drive>(volume: &mut Volume<D>, pass: &WorkingPass) -> Result<(), Fault> {
    match volume.withdraw(pass)? {
        Withdrawn::Granted(grant) => volume.deposit(grant),
        Withdrawn::Wait | Withdrawn::Full => Ok(()),
    }
}

// Places the page; a grant that comes back is deposited. The evening does this too, and tells the technician in between.
fn place<D: Drive>(
    volume: &mut Volume<D>,
    pass: &WorkingPass,
    grant: Grant,
    file: usize,
    slot: usize,
    page: &mut [u8],
) -> Result<(), Fault> {
    match volume.place(pass, grant, file, slot, page) {
        Ok(()) => Ok(()),
        Err((back, fault)) => {
            volume.deposit(back)?;
            Err(fault)
        }
    }
}

// Closes the volume, drains and finishes it, opens it again and withdraws.
pub fn close_and_open_again<D: Drive>(
    volume: &mut Volume<D>,
    pass: WorkingPass,
    page: &mut [u8],
) -> Result<(), Fault> {
    let closing = match volume.close(pass) {
        Ok(closing) => closing,
        Err((_pass, fault)) => return Err(fault),
    };
    drain(volume, &closing, page)?;
    if let Err((_closing, fault)) = volume.finish(closing, page) {
        return Err(fault);
    }
    let again = volume.open(page)?;
    withdraw_and_deposit(volume, &again)
}

// Gives back what is in service, a section a turn, and polls until each is settled.
fn drain<D: Drive>(
    volume: &mut Volume<D>,
    closing: &ClosingPass,
    page: &mut [u8],
) -> Result<(), Fault> {
    for _ in 0..TURNS {
        if volume.poll() > 0 {
            continue;
        }
        if let Drained::Dry = volume.drain(closing, page)? {
            return Ok(());
        }
    }
    Ok(())
}
