use crate::{Counter, CounterRefusal, Heptad, Triangle};
use labels::LabelSystem;
use std::test::Fail;

const LARGEST: u32 = 4_294_967_295;

#[test]
fn triangle_is_a_ring(rt: HostRuntime) {
    assert_eq!(rt; Triangle.order(), 2);
    assert_eq!(rt; Triangle.count(), 3);
    assert!(rt; Triangle.endless());
    assert!(rt; Triangle.beats(0, 2));
    assert!(rt; !Triangle.beats(2, 0));
    assert!(rt; !Triangle.beats(1, 1));
    assert!(rt; !Triangle.beats(4, 3));
    assert!(rt; !Triangle.beats(0, LARGEST));
}

#[test]
fn triangle_chooses_the_next(rt: HostRuntime) {
    assert_eq!(rt; Triangle.choose(&[]), Some(0));
    assert_eq!(rt; Triangle.choose(&[0]), Some(1));
    assert_eq!(rt; Triangle.choose(&[2]), Some(0));
    assert_eq!(rt; Triangle.choose(&[3]), None);
    assert_eq!(rt; Triangle.choose(&[LARGEST]), None);
    assert_eq!(rt; Triangle.choose(&[0, 1]), None);
}

#[test]
fn heptad_beats_by_residue(rt: HostRuntime) {
    assert_eq!(rt; Heptad.order(), 3);
    assert_eq!(rt; Heptad.count(), 7);
    assert!(rt; Heptad.endless());
    assert!(rt; Heptad.beats(0, 3));
    assert!(rt; !Heptad.beats(3, 0));
    assert!(rt; !Heptad.beats(5, 5));
    assert!(rt; !Heptad.beats(8, 0));
    assert!(rt; !Heptad.beats(0, LARGEST));
}

#[test]
fn heptad_chooses_the_least_winner(rt: HostRuntime) {
    assert_eq!(rt; Heptad.choose(&[]), Some(0));
    assert_eq!(rt; Heptad.choose(&[0, 1]), Some(2));
    assert_eq!(rt; Heptad.choose(&[6]), Some(0));
    assert_eq!(rt;
        Heptad.choose(&[0, 0]),
        Some(1),
        "a repeated label still has a choice"
    );
    assert_eq!(rt; Heptad.choose(&[0, 1, 2]), None);
    assert_eq!(rt; Heptad.choose(&[7]), None);
    assert_eq!(rt; Heptad.choose(&[0, LARGEST]), None);
    assert_eq!(rt; Heptad.choose(&[1; 40]), None);
}

#[test]
fn counter_chooses_past_the_largest(rt: HostRuntime) -> Result<(), Fail> {
    let counter = Counter::new(3, 10)?;
    assert_eq!(rt; counter.order(), 3);
    assert_eq!(rt; counter.count(), 10);
    assert!(rt; !counter.endless());
    assert!(rt; counter.beats(9, 8));
    assert!(rt; !counter.beats(8, 8));
    assert!(rt; !counter.beats(10, 9));
    assert_eq!(rt; counter.choose(&[]), Some(0));
    assert_eq!(rt; counter.choose(&[5, 2]), Some(6));
    assert_eq!(rt; counter.choose(&[9]), None);
    assert_eq!(rt; counter.choose(&[10]), None);
    assert_eq!(rt; counter.choose(&[0, 1, 2]), None);
    Ok(())
}

#[test]
fn counters_are_made_within_both_ranges(rt: HostRuntime) -> Result<(), Fail> {
    let highest = 0x1000_0000;
    assert_eq!(rt; Counter::new(1, 1)?.count(), 1);
    assert_eq!(rt; Counter::new(20, highest)?.order(), 20);
    assert_eq!(rt;
        Counter::new(20, highest)?.choose(&[highest - 2]),
        Some(highest - 1)
    );
    assert_eq!(rt; Counter::new(0, 1).err(), Some(CounterRefusal::Order));
    assert_eq!(rt; Counter::new(21, 1).err(), Some(CounterRefusal::Order));
    assert_eq!(rt;
        Counter::new(255, 0).err(),
        Some(CounterRefusal::Order),
        "the order is asked first"
    );
    assert_eq!(rt; Counter::new(1, 0).err(), Some(CounterRefusal::Ceiling));
    assert_eq!(rt;
        Counter::new(20, highest + 1).err(),
        Some(CounterRefusal::Ceiling)
    );
    assert_eq!(rt;
        Counter::new(1, LARGEST).err(),
        Some(CounterRefusal::Ceiling)
    );
    assert_eq!(rt; CounterRefusal::Order.number(), 14);
    assert_eq!(rt; CounterRefusal::Ceiling.number(), 15);
    Ok(())
}
