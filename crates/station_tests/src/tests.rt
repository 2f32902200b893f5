use labels::LabelSystem;
use made_up::Skipping;
use piles::Pile1;
use plain::Counter;
use station::{Reason, Refusal, Station};
use std::process::Abort;
use std::test::Fail;

pub(crate) fn refused<T>(
    rt: &impl Abort,
    reply: Result<T, Refusal>,
    reason: Reason,
    seat: u8,
) -> Result<(), Fail>
where
    T: Drop,
{
    assert_eq!(rt; reply.err(), Some(Refusal { reason, seat }));
    Ok(())
}

#[test]
fn opening(rt: HostRuntime) -> Result<(), Fail> {
    let mut station = Station::new(Pile1::new());
    refused(&rt, station.open(6), Reason::OrderTooSmall, 0)?;
    refused(&rt, station.open(21), Reason::SeatCount, 0)?;
    refused(&rt, station.open(0), Reason::SeatCount, 0)?;
    station.open(5)?;
    refused(&rt, station.open(5), Reason::AlreadyOpen, 0)?;
    refused(&rt, station.open(0), Reason::AlreadyOpen, 0)
}

#[test]
fn before_opening(rt: HostRuntime) -> Result<(), Fail> {
    let mut station = Station::new(Pile1::new());
    refused(&rt, station.join(1), Reason::NoSuchSeat, 1)?;
    refused(&rt, station.label(0), Reason::NoSuchSeat, 0)?;
    refused(&rt, station.start(), Reason::NobodyWaits, 0)?;
    refused(&rt, station.read(), Reason::NothingStands, 0)?;
    assert_eq!(rt; Reason::NobodyWaits.number(), 10);
    assert_eq!(rt; Reason::NothingStands.number(), 12);
    Ok(())
}

#[test]
fn first_come_first_served(rt: HostRuntime) -> Result<(), Fail> {
    let mut station = Station::new(Pile1::new());
    station.open(3)?;
    station.join(2)?;
    station.join(1)?;
    refused(&rt, station.join(1), Reason::NotIdle, 1)?;
    assert_eq!(rt; station.earlier(2, 1)?, true);
    assert_eq!(rt; station.earlier(1, 2)?, false);
    assert_eq!(rt; station.earlier(1, 1)?, false);
    // both seats exist before either is asked whether it waits
    refused(&rt, station.earlier(3, 4), Reason::NoSuchSeat, 4)?;
    refused(&rt, station.earlier(2, 3), Reason::NotWaiting, 3)?;
    station.write(3, 7)?;
    let started = station.start()?;
    assert_eq!(rt; started.seat, 2);
    assert_eq!(rt; started.map, Some(7));
    refused(&rt, station.start(), Reason::StartTaken, 0)?;
    refused(&rt, station.finish(1), Reason::NotHolding, 1)?;
    station.finish(2)?;
    station.leave(1)?;
    refused(&rt, station.leave(1), Reason::NotWaiting, 1)
}

#[test]
fn the_last_writing_is_in_force(rt: HostRuntime) -> Result<(), Fail> {
    let mut station = Station::new(Counter::new(3, 10)?);
    station.open(2)?;
    station.write(1, 65_535)?;
    station.write(1, 4)?;
    assert_eq!(rt;
        station.label(1)?,
        0,
        "a lone writer gets label 0 each time"
    );
    refused(&rt, station.write(2, 65_536), Reason::MapTooLarge, 2)?;
    refused(&rt, station.label(2), Reason::NoWriting, 2)?;
    station.write(2, 9)?;
    let reading = station.read()?;
    assert_eq!(rt; reading.seat, 2);
    assert_eq!(rt; reading.map, 9);
    station.strike(2)?;
    refused(&rt, station.strike(2), Reason::NoWriting, 2)
}

#[test]
fn labels_run_out(rt: HostRuntime) -> Result<(), Fail> {
    let mut station = Station::new(Counter::new(3, 2)?);
    station.open(3)?;
    station.join(1)?;
    station.join(2)?;
    refused(&rt, station.join(3), Reason::NoLabelLeft, 3)
}

#[test]
fn labels_are_listed_by_rising_seat(rt: HostRuntime) -> Result<(), Fail> {
    let mut station = Station::new(Skipping);
    station.open(3)?;
    station.write(3, 1)?;
    station.write(1, 1)?;
    station.write(2, 1)?;
    assert_eq!(rt; station.label(2)?, 3, "the labels listed are 1, 0");
    Ok(())
}
