ghost use Rattle.std.specs.Prelude.{◌≡◌, ℕ, ◌<◌, List, length, map, IfSome, Option as Maybe};
ghost use Rattle.labels.specs.System.{System};
ghost use Rattle.search.specs.Search.{head_of, tail_of};
ghost use Rattle.station.specs.declared.row.Row.{Row as SeatRow};
ghost use Rattle.station.specs.Table.{waiting_label, standing_label};
ghost use Rattle.station.specs.Rules.{waiting_row, writing_row};

use super::row::Row;
use labels::LabelSystem;
use search::{Entry, WaitingRow, WritingRow, head, tail};

/// A row of the table as a search sees it, and the search for it.
pub(crate) trait Laid: Entry + Copy + Default {
    ghost laid: { ℕ → SeatRow → Self };

    ghost label_of: { SeatRow → Maybe ℕ };

    ghost place_in: { System → List (Maybe ℕ) → Maybe ℕ };

    fn lay(seat: u8, row: Row) -> Self
        ensures { result ≡ laid seat row };

    /// The place that the search finds.
    fn find<S: LabelSystem>(system: &S, rows: &[Self]) -> Option<usize>
        ensures value { result ≡ place_in (S.meaning system.now) (map Self.labelled rows.now) }
        ensures within { IfSome result (λ place. place < length rows.now) };

    ghost tells: { (seat : ℕ) (row : SeatRow) → Self.labelled (laid seat row) ≡ label_of row };
}

/// The start goes to the tail.
impl Laid for WaitingRow {
    ghost use Rattle.std.specs.Prelude.{refl};

    ghost laid = { waiting_row };

    ghost label_of = { waiting_label };

    ghost place_in = { tail_of };

    ghost tells = { λ seat row. refl };

    fn lay(seat: u8, row: Row) -> WaitingRow {
        WaitingRow {
            seat,
            label: row.line.label(),
        }
    }

    fn find<S: LabelSystem>(system: &S, rows: &[WaitingRow]) -> Option<usize> {
        tail(system, rows)
    }
}

/// The writing at the head is in force.
impl Laid for WritingRow {
    ghost use Rattle.std.specs.Prelude.{refl};

    ghost laid = { writing_row };

    ghost label_of = { standing_label };

    ghost place_in = { head_of };

    ghost tells = { λ seat row. refl };

    fn lay(seat: u8, row: Row) -> WritingRow {
        WritingRow {
            seat,
            label: row.writing.map(|writing| writing.label),
            map: row.writing.map_or(0, |writing| writing.map),
        }
    }

    fn find<S: LabelSystem>(system: &S, rows: &[WritingRow]) -> Option<usize> {
        head(system, rows)
    }
}
