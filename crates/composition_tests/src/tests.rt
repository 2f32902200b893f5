use composition::Over;
use labels::LabelSystem;
use made_up::Skipping;
use piles::{Pile1, Pile2, Pile3, Pile4};
use plain::{Counter, Triangle};
use std::test::Fail;

fn two_triangles() -> Over<Triangle, Triangle> {
    Over {
        outer: Triangle,
        inner: Triangle,
    }
}

#[test]
fn triangle_over_triangle(rt: HostRuntime) {
    let two = two_triangles();
    assert_eq!(rt; two.order(), 3);
    assert_eq!(rt; two.count(), 9);
    assert!(rt; two.beats(0, 6));
    assert!(rt; two.beats(0, 7));
    assert!(rt; !two.beats(6, 0));
    assert!(rt; !two.beats(9, 0));
    assert_eq!(rt; two.choose(&[0, 1]), Some(3));
    assert_eq!(rt; two.choose(&[1, 3]), Some(4));
    assert_eq!(rt; two.choose(&[6, 7]), Some(0));
    assert_eq!(rt;
        two.choose(&[0, 3]),
        Some(4),
        "a group that is not full grows"
    );
    assert_eq!(rt;
        two.choose(&[0, 0]),
        Some(3),
        "a repeated label counts twice in its group"
    );
    assert_eq!(rt; two.choose(&[0, 1, 3]), None);
    assert_eq!(rt; two.choose(&[9]), None);
}

#[test]
fn the_order_of_the_list_is_kept(rt: HostRuntime) {
    let outside = Over {
        outer: Skipping,
        inner: Triangle,
    };
    assert_eq!(rt;
        outside.choose(&[3, 4, 0]),
        Some(9),
        "the outer parts are 1, 0"
    );
    assert_eq!(rt;
        outside.choose(&[0, 3, 4]),
        Some(6),
        "the outer parts are 0, 1"
    );
    let inside = Over {
        outer: Triangle,
        inner: Skipping,
    };
    assert_eq!(rt; inside.choose(&[4, 7]), Some(8));
    assert_eq!(rt; inside.choose(&[7, 4]), Some(9));
}

#[test]
fn limits_of_composition(rt: HostRuntime) -> Result<(), Fail> {
    let highest = Counter::new(20, 0x1000_0000)?;
    let too_many = Over {
        outer: highest,
        inner: highest,
    };
    assert_eq!(rt; too_many.order(), 0);
    assert_eq!(rt; too_many.count(), 0);
    assert_eq!(rt; too_many.choose(&[]), None);
    let too_deep = Over {
        outer: Triangle,
        inner: Counter::new(20, 100)?,
    };
    assert_eq!(rt; too_deep.order(), 0);
    assert!(rt; !too_deep.beats(1, 0));
    let deepest = Over {
        outer: Triangle,
        inner: Counter::new(19, 100)?,
    };
    assert_eq!(rt; deepest.order(), 20);
    assert_eq!(rt; deepest.count(), 300);
    let widest = Over {
        outer: Counter::new(1, 0x4000)?,
        inner: Counter::new(1, 0x4000)?,
    };
    assert_eq!(rt; widest.count(), 0x1000_0000);
    let wider = Over {
        outer: Counter::new(1, 0x4001)?,
        inner: Counter::new(1, 0x4000)?,
    };
    assert_eq!(rt; wider.count(), 0);
    let over_nothing = Over {
        outer: Triangle,
        inner: too_many,
    };
    assert_eq!(rt; over_nothing.order(), 0);
    assert_eq!(rt; over_nothing.choose(&[0]), None);
    Ok(())
}

#[test]
fn piles_have_their_sizes(rt: HostRuntime) {
    assert_eq!(rt; Pile1::new().order(), 5);
    assert_eq!(rt; Pile1::new().count(), 81);
    assert_eq!(rt; Pile2::new().choose(&[0, 1, 2]), Some(7));
    assert_eq!(rt; Pile2::new().choose(&[0, 1, 2, 7]), Some(8));
    assert_eq!(rt; Pile3::new().choose(&[268_435_455]), None);
    assert_eq!(rt; Pile4::new().order(), 20);
    assert_eq!(rt; Pile4::new().count(), 121_060_821);
    assert_eq!(rt; Pile4::new().choose(&[0]), Some(1));
}
