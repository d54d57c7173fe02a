// The three kinds of drive at work.
use drive::cabinet::Cabinet;
use drive::card::Card;
use drive::device::Drive;
use drive::fault::{Fault, Question};
use drive::lab::Lab;

#[test]
fn a_card_completes_each_write_in_its_post(rt: HostRuntime) {
    let mut bytes = [7u8; 1024];
    let mut marks = [0u8; 2];
    let page = [9u8; 512];
    let mut card = Card::new(&mut bytes, &mut marks, 5);
    assert_eq!(rt; card.post(1, &page), Ok(()));
    assert_eq!(rt; card.owed(), 0);
    assert!(rt; !card.pending(1));
    assert_eq!(rt; card.step(), 0);
    assert_eq!(rt; card.left(), 4294967289);
}

#[test]
fn a_cabinet_completes_one_write_in_a_step(rt: HostRuntime) {
    let mut bytes = [7u8; 1024];
    let mut marks = [0u8; 2];
    let page = [9u8; 512];
    let mut cabinet = Cabinet::new(&mut bytes, &mut marks, 0);
    for _ in 0..4 {
        assert_eq!(rt; cabinet.post(1, &page), Ok(()));
    }
    assert_eq!(rt; cabinet.post(1, &page), Err(Question::Depth.at(1)));
    assert!(rt; cabinet.pending(1) && !cabinet.pending(0));
    assert_eq!(rt; cabinet.step(), 3);
    assert_eq!(rt; cabinet.step(), 2);
    assert_eq!(rt; cabinet.step(), 1);
    assert_eq!(rt; cabinet.step(), 0);
    assert!(rt; !cabinet.pending(1));
    assert_eq!(rt; cabinet.left(), 999996);
}

#[test]
fn a_read_shows_the_youngest_write(rt: HostRuntime) {
    let mut bytes = [7u8; 1024];
    let mut marks = [0u8; 2];
    let mut page = [0u8; 512];
    let mut cabinet = Cabinet::new(&mut bytes, &mut marks, 0);
    assert_eq!(rt; cabinet.post(0, &[1; 512]), Ok(()));
    assert_eq!(rt; cabinet.post(0, &[2; 512]), Ok(()));
    assert_eq!(rt; cabinet.step(), 1);
    assert_eq!(rt; cabinet.read(0, &mut page), Ok(()));
    assert_eq!(rt; page[511], 2);
    assert_eq!(rt; cabinet.read(1, &mut page), Ok(()));
    assert_eq!(rt; page[511], 7);
}

// From 276 the paces let 0, 0, 0, 2 and 1 writes through, and a refused post keeps the pace.
#[test]
fn a_lab_drive_follows_its_pace(rt: HostRuntime) {
    let mut bytes = [7u8; 1024];
    let mut marks = [0u8; 2];
    let page = [9u8; 512];
    let mut lab = Lab::new(&mut bytes, &mut marks, 0, 276);
    for owed in 1..4 {
        assert_eq!(rt; lab.post(0, &page), Ok(()));
        assert_eq!(rt; lab.owed(), owed);
    }
    assert_eq!(rt; lab.post(0, &page), Err(Question::Depth.at(0)));
    assert_eq!(rt; lab.step(), 1);
    assert_eq!(rt; lab.step(), 0);
    assert_eq!(rt; lab.step(), 0);
}

// From 0 the first pace lets two writes through.
#[test]
fn a_lab_drive_may_complete_a_write_in_its_post(rt: HostRuntime) {
    let mut bytes = [7u8; 512];
    let mut marks = [0u8; 1];
    let mut lab = Lab::new(&mut bytes, &mut marks, 4999, 0);
    assert_eq!(rt; lab.post(0, &[9; 512]), Ok(()));
    assert_eq!(rt; lab.owed(), 0);
    assert_eq!(rt; lab.post(0, &[9; 512]), Err(Question::Life.at(0)));
}

#[test]
fn a_refused_read_leaves_the_page(rt: HostRuntime) {
    let mut bytes = [7u8; 1024];
    let mut marks = [1u8, 0];
    let mut page = [3u8; 512];
    let card = Card::new(&mut bytes, &mut marks, 0);
    assert_eq!(rt; card.read(0, &mut page), Err(Question::Readable.at(0)));
    assert_eq!(rt; card.read(2, &mut page), Err(Question::Address.at(2)));
    assert_eq!(rt;
        card.read(2, &mut page[0..511]),
        Err(Question::RecordLength.at(2))
    );
    assert_eq!(rt; page[0], 3);
}

#[test]
fn a_post_makes_a_spoiled_record_readable(rt: HostRuntime) {
    let mut bytes = [7u8; 1024];
    let mut marks = [0u8, 5];
    let mut page = [9u8; 512];
    let mut card = Card::new(&mut bytes, &mut marks, 0);
    assert_eq!(rt; card.read(1, &mut page), Err(Question::Readable.at(1)));
    assert_eq!(rt; card.post(1, &page), Ok(()));
    assert_eq!(rt; card.read(1, &mut page), Ok(()));
    assert_eq!(rt; page[0], 9);
}

#[test]
fn a_wear_above_the_life_counts_as_the_life(rt: HostRuntime) {
    let mut bytes = [7u8; 512];
    let mut marks = [0u8; 1];
    let mut cabinet = Cabinet::new(&mut bytes, &mut marks, 1000001);
    assert_eq!(rt; cabinet.left(), 0);
    assert_eq!(rt; cabinet.post(0, &[9; 512]), Err(Question::Life.at(0)));
}

#[test]
fn a_record_wants_its_bytes_and_its_mark(rt: HostRuntime) {
    let mut bytes = [7u8; 1100];
    let mut three = [0u8; 3];
    let mut one = [0u8; 1];
    assert_eq!(rt; Card::new(&mut bytes, &mut three, 0).size(), 2);
    assert_eq!(rt; Card::new(&mut bytes, &mut one, 0).size(), 1);
}

#[test]
fn the_memory_handed_in_holds_what_was_posted(rt: HostRuntime) {
    let mut bytes = [7u8; 1024];
    let mut marks = [1u8; 2];
    {
        let mut cabinet = Cabinet::new(&mut bytes, &mut marks, 0);
        assert_eq!(rt; cabinet.post(1, &[9; 512]), Ok(()));
        assert_eq!(rt; cabinet.step(), 0);
    }
    assert!(rt; bytes[511] == 7 && bytes[512] == 9 && bytes[1023] == 9);
    assert!(rt; marks[0] == 1 && marks[1] == 0);
}
