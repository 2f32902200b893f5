ghost use Rattle.std.specs.Prelude.{◌≤◌};
ghost use Rattle.arrayvec.specs.ArrayVec.{array_vec_len};

use super::row::Row;
use arrayvec::ArrayVec;

mod found;
mod line;
mod opening;
mod register;
mod serving;
mod view;

/// A station over the label system that it keeps. Its table has a row for each seat, and room for twenty in the value
/// itself, so that want of memory is never an answer.
#[derive(Drop)]
pub struct Station<S> {
    system: S,
    rows: ArrayVec<Row, 20>,
    // Of an array vector a proof sees only its items, so that they are no more than it has room for is said here.
    ghost few: { array_vec_len rows ≤ 20 },
}
