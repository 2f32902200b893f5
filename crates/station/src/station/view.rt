ghost use Rattle.std.specs.Prelude.{◌≡◌, ◌≤◌, true, false, [], MatchResult};
ghost use Rattle.station.specs.declared.refusal.Reason.TheVariants.{NoSuchSeat};
ghost use Rattle.std.specs.Borrow.{sem};
ghost use Rattle.station.specs.Lending.{LendsRow, LendsRowOf};
ghost use Rattle.station.specs.Given.{granted};
ghost use Rattle.station.specs.Table.{seated, row_of, opened_for};
ghost use Rattle.station.specs.View.{table};

use super::super::refusal::{Reason, Refusal};
use super::super::row::Row;
use super::Station;
use arrayvec::ArrayVec;
use labels::LabelSystem;

impl<S: LabelSystem> Station<S> {
    /// A new station, which has no seats.
    pub fn new(system: S) -> Station<S>
        ensures seats { table result ≡ [] }
        ensures system { result.system ≡ system }
    {
        Station {
            system,
            rows: ArrayVec::new(),
        }
    }

    /// The row of a seat, where the seat is one of the station's.
    pub(crate) fn row(&self, seat: u8) -> Result<Row, Refusal>
        ensures { result ≡ granted (seated (table self.now) seat) (row_of (table self.now) seat) NoSuchSeat seat }
    {
        usize::from(seat)
            .checked_sub(1)
            .and_then(|place| self.rows.get(place).copied())
            .ok_or(Reason::NoSuchSeat.about(seat))
    }

    /// The row of a seat, lent to be changed, where the seat is one of the station's.
    // Inlined, since it only passes on what the rows lend.
    #[tactic(auto, using(crate::proofs::Same::same_loan))]
    #[inline(always)]
    pub(crate) fn row_mut(&mut self, seat: u8) -> Result<&mut Row, Refusal>
        ensures* lends { sem 𝓛 (LendsRow S.row self.entry seat result) }
        ensures value { MatchResult result (λ row. (seated (table self.old) seat ≡ true) × (row.now ≡ row_of (table self.old) seat)) (λ e. (seated (table self.old) seat ≡ false) × (e ≡ record { reason = NoSuchSeat; seat = seat })) }
    {
        row_of_mut(&mut self.rows, seat)
    }

    /// Gives the station its seats, idle and without writing.
    pub(crate) fn seat(&mut self, seats: u8)
        requires { seats ≤ 20 }
        ensures rows { table self.new ≡ opened_for seats }
        ensures system { self.new.system ≡ self.old.system }
    {
        self.rows = ArrayVec::from([Row::default(); 20]);
        self.rows.truncate(usize::from(seats));
    }
}

/// The row of a seat, lent to be changed, where the seat is one of those that have rows.
// Over the rows alone: past the station's ghost field the clause on the loan isn't proved of a body that takes it apart.
pub(crate) fn row_of_mut<const ROOM: usize>(
    rows: &mut ArrayVec<Row, ROOM>,
    seat: u8,
) -> Result<&mut Row, Refusal>
    ensures* lends { sem 𝓛 (LendsRowOf ROOM.row rows.entry seat result) }
    ensures value { MatchResult result (λ row. (seated rows.old.items seat ≡ true) × (row.now ≡ row_of rows.old.items seat)) (λ e. (seated rows.old.items seat ≡ false) × (e ≡ record { reason = NoSuchSeat; seat = seat })) }
{
    if seat == 0 {
        return Err(Reason::NoSuchSeat.about(seat));
    }
    // Not by `checked_sub` and `ok_or`, as `row`: tried, and the proof doesn't follow a row lent through them.
    match rows.get_mut(usize::from(seat) - 1) {
        Some(row) => Ok(row),
        None => Err(Reason::NoSuchSeat.about(seat)),
    }
}
