use crate::tests::refused;
use labels::LabelSystem;
use made_up::Skipping;
use piles::Pile1;
use plain::{Counter, Heptad};
use station::{Answer, Call, Reading, Reason, Started, Station};
use std::test::Fail;

#[test]
fn opening(rt: HostRuntime) -> Result<(), Fail> {
    let mut station = Station::new(Pile1::new());
    refused(&rt, station.open(6), Reason::OrderTooSmall, 0)?;
    refused(&rt, station.open(21), Reason::SeatCount, 0)?;
    refused(&rt, station.open(0), Reason::SeatCount, 0)?;
    station.open(5)?;
    for seats in [0u8, 5, 6, 21] {
        refused(&rt, station.open(seats), Reason::AlreadyOpen, 0)?;
    }
    Ok(())
}

#[test]
fn before_opening(rt: HostRuntime) -> Result<(), Fail> {
    let mut station = Station::new(Pile1::new());
    for call in [
        Call::Join(1),
        Call::Leave(1),
        Call::Finish(1),
        Call::Write(1, 0),
        Call::Strike(1),
        Call::Earlier(1, 1),
        Call::Newer(1, 1),
        Call::Label(1),
    ] {
        refused(&rt, station.serve(call), Reason::NoSuchSeat, 1)?;
    }
    refused(&rt, station.label(0), Reason::NoSuchSeat, 0)?;
    refused(&rt, station.start(), Reason::NobodyWaits, 0)?;
    refused(&rt, station.read(), Reason::NothingStands, 0)?;
    assert_eq!(rt; Reason::NobodyWaits.number(), 10);
    assert_eq!(rt; Reason::NothingStands.number(), 12);
    Ok(())
}

#[test]
fn first_come_first_served(rt: HostRuntime) -> Result<(), Fail> {
    let mut station = Station::new(Pile1::new());
    station.open(3)?;
    station.join(2)?;
    station.join(1)?;
    refused(&rt, station.join(1), Reason::NotIdle, 1)?;
    station.write(3, 7)?;
    let first = Started {
        seat: 2,
        map: Some(7),
    };
    assert_eq!(rt; station.start()?, first);
    refused(&rt, station.start(), Reason::StartTaken, 0)?;
    station.leave(1)?;
    refused(&rt, station.leave(1), Reason::NotWaiting, 1)?;
    // nobody waits, but that is asked second
    refused(&rt, station.start(), Reason::StartTaken, 0)?;
    refused(&rt, station.finish(1), Reason::NotHolding, 1)?;
    station.finish(2)?;
    refused(&rt, station.start(), Reason::NobodyWaits, 0)
}

#[test]
fn who_waits_longer(rt: HostRuntime) -> Result<(), Fail> {
    let mut station = Station::new(Pile1::new());
    station.open(3)?;
    station.join(2)?;
    station.join(1)?;
    assert_eq!(rt; station.earlier(2, 1)?, true);
    assert_eq!(rt; station.earlier(1, 2)?, false);
    assert_eq!(rt; station.earlier(1, 1)?, false);
    // both seats exist before either is asked whether it waits
    refused(&rt, station.earlier(3, 4), Reason::NoSuchSeat, 4)?;
    refused(&rt, station.earlier(3, 1), Reason::NotWaiting, 3)?;
    refused(&rt, station.earlier(2, 3), Reason::NotWaiting, 3)
}

#[test]
fn which_writing_is_later(rt: HostRuntime) -> Result<(), Fail> {
    let mut station = Station::new(Pile1::new());
    station.open(3)?;
    station.write(2, 7)?;
    station.write(1, 7)?;
    assert_eq!(rt; station.newer(1, 2)?, true);
    assert_eq!(rt; station.newer(2, 1)?, false);
    assert_eq!(rt; station.newer(1, 1)?, false);
    // both seats exist before either is asked for its writing
    refused(&rt, station.newer(3, 4), Reason::NoSuchSeat, 4)?;
    refused(&rt, station.newer(3, 1), Reason::NoWriting, 3)?;
    refused(&rt, station.newer(2, 3), Reason::NoWriting, 3)
}

#[test]
fn the_last_writing_is_in_force(rt: HostRuntime) -> Result<(), Fail> {
    let mut station = Station::new(Counter::new(3, 10)?);
    station.open(2)?;
    station.write(1, 65_535)?;
    station.write(1, 4)?;
    assert_eq!(rt;
        station.label(1)?,
        0,
        "a lone writer gets label 0 each time"
    );
    refused(&rt, station.label(2), Reason::NoWriting, 2)?;
    station.write(2, 9)?;
    assert_eq!(rt; station.read()?, Reading { seat: 2, map: 9 });
    station.strike(2)?;
    refused(&rt, station.strike(2), Reason::NoWriting, 2)?;
    assert_eq!(rt; station.read()?, Reading { seat: 1, map: 4 });
    Ok(())
}

#[test]
fn a_call_changes_the_row_of_its_own_seat_alone(rt: HostRuntime) -> Result<(), Fail> {
    let mut station = Station::new(Counter::new(20, 100)?);
    station.open(20)?;
    for seat in 1..=20u8 {
        station.write(seat, 7)?;
    }
    for seat in [0u8, 21, 255] {
        refused(&rt, station.strike(seat), Reason::NoSuchSeat, seat)?;
    }
    for seat in [1u8, 2, 20] {
        station.strike(seat)?;
        refused(&rt, station.label(seat), Reason::NoWriting, seat)?;
    }
    for (label, seat) in (2u32..).zip(3..=19u8) {
        assert_eq!(rt; station.label(seat)?, label);
    }
    Ok(())
}

#[test]
fn a_refused_write_keeps_the_old_writing(rt: HostRuntime) -> Result<(), Fail> {
    let mut station = Station::new(Counter::new(3, 2)?);
    station.open(2)?;
    station.write(1, 5)?;
    station.write(2, 6)?;
    refused(&rt, station.write(1, 7), Reason::NoLabelLeft, 1)?;
    assert_eq!(rt; station.label(1)?, 0);
    refused(&rt, station.write(2, 65_536), Reason::MapTooLarge, 2)?;
    assert_eq!(rt; station.label(2)?, 1);
    assert_eq!(rt; station.read()?, Reading { seat: 2, map: 6 });
    Ok(())
}

#[test]
fn every_writer_of_a_full_register_can_write_again(rt: HostRuntime) -> Result<(), Fail> {
    let mut station = Station::new(Heptad);
    station.open(3)?;
    for seat in [1u8, 2, 3, 1, 2, 3, 2, 2, 1] {
        station.write(seat, 8)?;
        assert_eq!(rt; station.read()?, Reading { seat, map: 8 });
    }
    Ok(())
}

#[test]
fn labels_run_out(rt: HostRuntime) -> Result<(), Fail> {
    let mut station = Station::new(Counter::new(3, 2)?);
    station.open(3)?;
    station.join(1)?;
    station.join(2)?;
    refused(&rt, station.join(3), Reason::NoLabelLeft, 3)
}

#[test]
fn labels_of_writings_are_listed_by_rising_seat(rt: HostRuntime) -> Result<(), Fail> {
    let mut station = Station::new(Skipping);
    station.open(3)?;
    station.write(3, 1)?;
    station.write(1, 1)?;
    station.write(2, 1)?;
    assert_eq!(rt; station.label(2)?, 3, "the labels listed are 1, 0");
    Ok(())
}

#[test]
fn labels_in_the_line_are_listed_by_rising_seat(rt: HostRuntime) -> Result<(), Fail> {
    let mut station = Station::new(Skipping);
    station.open(3)?;
    station.join(1)?;
    station.join(2)?;
    station.join(3)?;
    for _ in 0..48 {
        station.leave(2)?;
        station.join(2)?;
        station.leave(3)?;
        station.join(3)?;
    }
    station.leave(1)?;
    // listed are 97, 98; listed as 98, 97 they leave 99
    refused(&rt, station.join(1), Reason::NoLabelLeft, 1)
}

#[test]
fn every_call_can_be_served(rt: HostRuntime) -> Result<(), Fail> {
    let mut station = Station::new(Counter::new(3, 10)?);
    let started = Started {
        seat: 2,
        map: Some(8),
    };
    for (call, answer) in [
        (Call::Open(3), Answer::Done),
        (Call::Join(2), Answer::Done),
        (Call::Join(1), Answer::Done),
        (Call::Earlier(2, 1), Answer::Verdict(true)),
        (Call::Leave(1), Answer::Done),
        (Call::Write(1, 7), Answer::Done),
        (Call::Write(3, 8), Answer::Done),
        (Call::Newer(3, 1), Answer::Verdict(true)),
        (Call::Label(3), Answer::Labelled(1)),
        (Call::Strike(1), Answer::Done),
        (Call::Read, Answer::Reading(Reading { seat: 3, map: 8 })),
        (Call::Start, Answer::Started(started)),
        (Call::Finish(2), Answer::Done),
    ] {
        assert_eq!(rt; station.serve(call)?, answer);
    }
    refused(&rt, station.serve(Call::Finish(2)), Reason::NotHolding, 2)
}
