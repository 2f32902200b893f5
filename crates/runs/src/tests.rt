use super::runs::{run, run_both, run_piles};
use piles::Pile4;
use plain::Counter;
use station::{Answer, Call, Reason, Refusal, Started};
use std::test::Fail;

const LINE: [Call; 5] = [
    Call::Open(3),
    Call::Join(2),
    Call::Join(1),
    Call::Start,
    Call::Start,
];

#[test]
fn a_short_life(rt: HostRuntime) -> Result<(), Fail> {
    let replies = run(rt.alloc(), Pile4::new(), &LINE)?;
    assert_eq!(rt; replies.len(), 5);
    assert_eq!(rt;
        replies.get(3).copied(),
        Some(Ok(Answer::Started(Started { seat: 2, map: None })))
    );
    let taken = Refusal {
        reason: Reason::StartTaken,
        seat: 0,
    };
    assert_eq!(rt; replies.get(4).copied(), Some(Err(taken)));
    Ok(())
}

#[test]
fn two_lives(rt: HostRuntime) -> Result<(), Fail> {
    let both = run_piles(rt.alloc(), &LINE)?;
    assert!(rt; both.first.as_slice() == both.second.as_slice());
    let small = run_both(rt.alloc(), Pile4::new(), Counter::new(3, 1)?, &LINE)?;
    assert_eq!(rt; small.first.get(2).copied(), Some(Ok(Answer::Done)));
    let none_left = Refusal {
        reason: Reason::NoLabelLeft,
        seat: 1,
    };
    assert_eq!(rt; small.second.get(2).copied(), Some(Err(none_left)));
    Ok(())
}
