ghost use Rattle.std.specs.Prelude.{◌≡◌, ℕ, ◌+◌, ◌-◌, ◌<◌, ◌≤◌, true, length, map, slice_index_or, slice_set, IfSome};
ghost use Rattle.arrayvec.specs.ArrayVec.{array_vec_len};
ghost use Rattle.search.specs.Search.{labels_in};
ghost use Rattle.station.specs.Layout.{laid_out};
ghost use Rattle.station.specs.Table.{blank, seated};
ghost use Rattle.station.specs.Rules.{found_row, line_tail, register_head, some_holds, waiting_choice, standing_choice, writing_row};
ghost use Rattle.station.specs.View.{table};

use super::super::layout::Laid;
use super::super::row::Row;
use super::Station;
use arrayvec::ArrayVec;
use labels::LabelSystem;
use search::{WaitingRow, WritingRow, labels_in};

impl<S: LabelSystem> Station<S> {
    /// The rows of the seats, by rising seat, as a search sees them.
    fn laid_out<R: Laid>(&self) -> ArrayVec<R, 20>
        ensures rows { result.items ≡ laid_out R.laid 1 (table self.now) }
        ensures len { array_vec_len result ≡ length (table self.now) }
    {
        let mut rows = ArrayVec::new();
        for (place, row) in self.rows.iter().enumerate() {
            rows.push(R::lay(place as u8 + 1, *row));
        }
        rows
    }

    /// The row of the seat that has waited longest.
    pub(crate) fn line_tail(&self) -> Option<WaitingRow>
        ensures value { result ≡ line_tail (S.meaning self.now.system) (table self.now) }
        ensures within { IfSome result (λ row. seated (table self.now) row.seat ≡ true) }
    {
        self.found(&self.laid_out())
    }

    /// The row of the writing in force.
    pub(crate) fn register_head(&self) -> Option<WritingRow>
        ensures { result ≡ register_head (S.meaning self.now.system) (table self.now) }
    {
        self.found(&self.laid_out())
    }

    /// The row that the search finds among the rows of the seats.
    fn found<R: Laid>(&self, rows: &ArrayVec<R, 20>) -> Option<R>
        requires { rows.now.items ≡ laid_out R.laid 1 (table self.now) }
        ensures value { result ≡ found_row R.laid (table self.now) (R.place_in (S.meaning self.now.system) (map R.label_of (table self.now))) }
        ensures seated { IfSome result (λ row. (place : ℕ) × (row ≡ R.laid (place + 1) (slice_index_or (table self.now) place blank)) × (seated (table self.now) (place + 1) ≡ true)) }
    {
        let place = R::find(&self.system, rows)?;
        Some(rows[place])
    }

    /// The label for a seat that would wait.
    pub(crate) fn waiting_choice(&self) -> Option<u32>
        ensures { result ≡ waiting_choice (S.meaning self.now.system) (table self.now) }
    {
        self.choice_beside(&self.laid_out::<WaitingRow>())
    }

    /// The label for a writing of `seat`: its own old label is left out.
    pub(crate) fn standing_choice(&self, seat: u8) -> Option<u32>
        requires { seated (table self.now) seat ≡ true }
        ensures { result ≡ standing_choice (S.meaning self.now.system) (table self.now) seat }
    {
        let mut rows = self.laid_out();
        leave_out(&mut rows, seat);
        self.choice_beside(&rows)
    }

    /// The label for a newcomer beside the labels that rows tell.
    fn choice_beside<R: Laid>(&self, rows: &ArrayVec<R, 20>) -> Option<u32>
        ensures { result ≡ (S.meaning self.now.system).choice (labels_in (map R.labelled rows.now.items)) }
    {
        self.system.choose(labels_in(rows).as_slice())
    }

    /// Whether a seat holds the start.
    pub(crate) fn some_holds(&self) -> bool
        ensures { result ≡ some_holds (table self.now) }
    {
        self.rows.iter().any(Row::holds)
    }
}

/// Leaves a seat's writing out of the rows.
fn leave_out(rows: &mut ArrayVec<WritingRow, 20>, seat: u8)
    requires { (1 ≤ seat) × (seat ≤ array_vec_len rows.old) }
    ensures { rows.new.items ≡ slice_set rows.old.items (seat - 1) (writing_row 0 blank) }
{
    rows[usize::from(seat) - 1] = WritingRow::default();
}
