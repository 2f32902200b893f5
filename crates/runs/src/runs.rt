ghost use Rattle.std.specs.Prelude.{◌≡◌, IfOk};
ghost use Rattle.over.specs.Piles.{pile_3, pile_4};
ghost use Rattle.lives.specs.Lives.{life};
ghost use Rattle.lives.specs.Promises.{Promised};

use super::serving::life_of;
use labels::LabelSystem;
use piles::{Pile3, Pile4};
use station::{Answer, Call, Refusal};
use std::alloc::{AllocError, Global};

/// The replies of two stations to the same calls: two lists and no list of pairs, since each is a life by itself.
#[derive(Drop)]
pub struct Both {
    pub first: Vec<Result<Answer, Refusal>>,
    pub second: Vec<Result<Answer, Refusal>>,
}

/// Puts `calls` to a new station over `system`, and gives its replies.
pub fn run<S: LabelSystem + Drop>(
    heap: Global,
    system: S,
    calls: &[Call],
) -> Result<Vec<Result<Answer, Refusal>>, AllocError>
    ensures replies { IfOk result (λ given. given.items ≡ life (S.meaning system) calls.now) }
    ensures promised { Promised (S.meaning system) (S.meaning system) }
{
    life_of(heap, system, calls)
}

/// Puts `calls` to two new stations, one over each system, and gives the replies of both. So a new system is held against
/// one that is known.
pub fn run_both<S: LabelSystem + Drop, U: LabelSystem + Drop>(
    heap: Global,
    first: S,
    second: U,
    calls: &[Call],
) -> Result<Both, AllocError>
    ensures first { IfOk result (λ both. both.first.items ≡ life (S.meaning first) calls.now) }
    ensures second { IfOk result (λ both. both.second.items ≡ life (U.meaning second) calls.now) }
    ensures promised { Promised (S.meaning first) (U.meaning second) }
{
    lives_of(heap, first, second, calls)
}

/// Puts `calls` to a station over pile 4 and to one over pile 3: an endless composition beside a counter.
pub fn run_piles(heap: Global, calls: &[Call]) -> Result<Both, AllocError>
    ensures first { IfOk result (λ both. both.first.items ≡ life pile_4 calls.now) }
    ensures second { IfOk result (λ both. both.second.items ≡ life pile_3 calls.now) }
    ensures promised { Promised pile_4 pile_3 }
{
    run_both(heap, Pile4::new(), Pile3::new(), calls)
}

/// The replies of two new stations.
// Its two clauses stand at `run_both` too, so that an edit that turns a value is refused here.
fn lives_of<S: LabelSystem + Drop, U: LabelSystem + Drop>(
    heap: Global,
    first: S,
    second: U,
    calls: &[Call],
) -> Result<Both, AllocError>
    ensures first { IfOk result (λ both. both.first.items ≡ life (S.meaning first) calls.now) }
    ensures second { IfOk result (λ both. both.second.items ≡ life (U.meaning second) calls.now) }
{
    let first = life_of(heap, first, calls)?;
    let second = life_of(heap, second, calls)?;
    Ok(Both { first, second })
}
