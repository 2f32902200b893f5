ghost use Rattle.std.specs.Prelude.{◌≡◌, IfOk};
ghost use Rattle.station.specs.View.{table};
ghost use Rattle.lives.specs.Lives.{replies, life};

use labels::LabelSystem;
use station::{Answer, Call, Refusal, Station};
use std::alloc::{AllocError, Global};

/// The replies of a new station over `system`.
pub(crate) fn life_of<S: LabelSystem + Drop>(
    heap: Global,
    system: S,
    calls: &[Call],
) -> Result<Vec<Result<Answer, Refusal>>, AllocError>
    ensures { IfOk result (λ given. given.items ≡ life (S.meaning system) calls.now) }
{
    let mut station = Station::new(system);
    serve_all(heap, &mut station, calls)
}

/// Puts `calls` to a station, one after the other.
fn serve_all<S: LabelSystem>(
    heap: Global,
    station: &mut Station<S>,
    calls: &[Call],
) -> Result<Vec<Result<Answer, Refusal>>, AllocError>
    ensures { IfOk result (λ given. given.items ≡ replies (S.meaning station.old.system) (table station.old) calls.now) }
{
    let mut given = Vec::new(heap);
    // By `for`: each call changes the station that the next one meets.
    for call in calls {
        given.push(station.serve(*call))?;
    }
    Ok(given)
}
