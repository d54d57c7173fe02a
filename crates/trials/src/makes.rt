// Making a volume, and looking at it.
use crate::noting::noted_make;
use drive::cabinet::Cabinet;
use drive::card::Card;
use drive::device::Drive;
use drive::fault::{Fault, Question};
use std::test::Fail;
use store::making::make;
use surveys::survey::look;

#[test]
fn make_posts_entries_map_copy_and_label_in_this_order(rt: HostRuntime) -> Result<(), Fail> {
    let mut bytes = [0u8; 10240];
    let mut marks = [0u8; 20];
    let mut page = [1u8; 512];
    let notes = noted_make(Cabinet::new(&mut bytes, &mut marks, 0), 1, 2, &mut page)?;
    assert_eq!(rt; notes.count, 7);
    for (at, wanted) in notes.addresses.iter().zip([8u16, 9, 1, 2, 3, 7, 0].iter()) {
        assert_eq!(rt; *at, *wanted);
    }
    assert_eq!(rt; page[511], 0);
    Ok(())
}

#[test]
fn make_refuses_with_1_16_and_25_and_zeroes_the_page(rt: HostRuntime) {
    let mut bytes = [3u8; 5632];
    let mut marks = [1u8; 11];
    let mut page = [1u8; 512];
    let mut card = Card::new(&mut bytes, &mut marks, 4294967289);
    assert_eq!(rt;
        make(&mut card, 1, 2, &mut page[0..511]),
        Err(Question::PageLength.refused())
    );
    assert!(rt; page[0] == 0 && page[510] == 0 && page[511] == 1);
    assert_eq!(rt;
        make(&mut card, 0, 2, &mut page),
        Err(Question::Limits.refused())
    );
    assert_eq!(rt;
        make(&mut card, 1, 3, &mut page),
        Err(Question::Limits.refused())
    );
    assert_eq!(rt; make(&mut card, 1, 2, &mut page), Err(Question::Life.at(8)));
    assert_eq!(rt; card.left(), 6);
}

#[test]
fn a_volume_that_was_made_is_seen(rt: HostRuntime) -> Result<(), Fail> {
    let mut bytes = [3u8; 5632];
    let mut marks = [1u8; 11];
    let mut page = [1u8; 512];
    let mut card = Card::new(&mut bytes, &mut marks, 0);
    assert!(rt; look(&card, &mut page).is_err());
    assert_eq!(rt; make(&mut card, 9, 2, &mut page), Ok(()));
    let seen = look(&card, &mut page)?;
    assert_eq!(rt; seen.label.id, 9);
    assert_eq!(rt; seen.label.records, 11);
    assert_eq!(rt; seen.label.entries, 2);
    assert_eq!(rt; seen.free_entries, 2);
    assert_eq!(rt; seen.sections[0].free, Some(1));
    assert_eq!(rt; card.read(10, &mut page), Err(Question::Readable.at(10)));
    Ok(())
}
