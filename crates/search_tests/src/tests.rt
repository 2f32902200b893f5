use labels::LabelSystem;
use piles::Pile4;
use plain::Heptad;
use search::{WaitingRow, WritingRow, head, tail};

fn row(label: Option<u32>) -> WaitingRow {
    WaitingRow { seat: 1, label }
}

fn writing(label: Option<u32>) -> WritingRow {
    WritingRow {
        seat: 1,
        label,
        map: 7,
    }
}

#[test]
fn nothing_labelled(rt: HostRuntime) {
    let none: [WaitingRow; 0] = [];
    assert_eq!(rt; head(&Heptad, &none), None);
    assert_eq!(rt; tail(&Heptad, &[row(None), row(None)]), None);
}

#[test]
fn a_single_label_is_both(rt: HostRuntime) {
    let rows = [row(None), row(Some(4_294_967_295)), row(None)];
    assert_eq!(rt;
        head(&Heptad, &rows),
        Some(1),
        "also where it is no label of the system"
    );
    assert_eq!(rt; tail(&Heptad, &rows), Some(1));
}

#[test]
fn gaps_are_counted(rt: HostRuntime) {
    let rows = [
        row(None),
        row(Some(1)),
        row(None),
        row(Some(2)),
        row(Some(0)),
        row(None),
    ];
    assert_eq!(rt; head(&Heptad, &rows), Some(3));
    assert_eq!(rt; tail(&Heptad, &rows), Some(4));
}

#[test]
fn equal_labels_and_cycles_have_neither(rt: HostRuntime) {
    let equal = [row(Some(2)), row(Some(2))];
    assert_eq!(rt; head(&Heptad, &equal), None);
    assert_eq!(rt; tail(&Heptad, &equal), None);
    let cycle = [row(Some(0)), row(Some(3)), row(Some(1))];
    assert_eq!(rt; head(&Heptad, &cycle), None);
    assert_eq!(rt; tail(&Heptad, &cycle), None);
}

#[test]
fn writings_over_the_deep_pile(rt: HostRuntime) {
    let pile = Pile4::new();
    let rows = [
        writing(Some(40_353_607)),
        writing(None),
        writing(Some(0)),
        writing(Some(5_764_801)),
    ];
    assert!(rt; pile.beats(40_353_607, 5_764_801));
    assert_eq!(rt; head(&pile, &rows), Some(0));
    assert_eq!(rt; tail(&pile, &rows), Some(2));
}
