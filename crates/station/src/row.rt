ghost use Rattle.std.specs.Prelude.{◌≡◌};
ghost use Rattle.station.specs.declared.refusal.Reason.TheVariants.{NotIdle, NotWaiting, NotHolding, NoWriting};
ghost use Rattle.station.specs.Table.{is_idle, is_holding, line_label, waiting_label, standing_label};
ghost use Rattle.station.specs.Given.{given, granted};

use super::refusal::{Reason, Refusal};

/// What a seat does in the start line.
#[derive(Clone, Copy, Default)]
pub enum Line {
    #[default]
    Idle,
    /// It waits with this label.
    Waiting(u32),
    /// It holds the start.
    Holding,
}

/// A standing writing.
#[derive(Clone, Copy)]
pub struct Writing {
    pub label: u32,
    pub map: u16,
}

/// The row of a seat. By default the seat is idle and has no writing.
#[derive(Clone, Copy, Default)]
pub struct Row {
    pub line: Line,
    pub writing: Option<Writing>,
}

impl Line {
    /// The label that the seat waits with.
    pub(crate) fn label(&self) -> Option<u32>
        ensures { result ≡ line_label self.now }
    {
        match self {
            Line::Waiting(label) => Some(*label),
            _ => None,
        }
    }
}

/// What a call asks of the row of a seat, or its refusal about that seat.
impl Row {
    /// Whether the seat holds the start.
    pub(crate) fn holds(&self) -> bool
        ensures { result ≡ is_holding self.now }
    {
        matches!(self.line, Line::Holding)
    }

    // As `holding`: one function for both would take the line, the reason and the seat, and be no shorter.
    pub(crate) fn idle(&self, seat: u8) -> Result<(), Refusal>
        ensures { result ≡ granted (is_idle self.now) tt NotIdle seat }
    {
        match self.line {
            Line::Idle => Ok(()),
            _ => Err(Reason::NotIdle.about(seat)),
        }
    }

    pub(crate) fn holding(&self, seat: u8) -> Result<(), Refusal>
        ensures { result ≡ granted (is_holding self.now) tt NotHolding seat }
    {
        match self.line {
            Line::Holding => Ok(()),
            _ => Err(Reason::NotHolding.about(seat)),
        }
    }

    /// The label that the seat waits with.
    pub(crate) fn waiting(&self, seat: u8) -> Result<u32, Refusal>
        ensures { result ≡ given (waiting_label self.now) NotWaiting seat }
    {
        self.line.label().ok_or(Reason::NotWaiting.about(seat))
    }

    /// The label of the seat's writing.
    pub(crate) fn standing(&self, seat: u8) -> Result<u32, Refusal>
        ensures { result ≡ given (standing_label self.now) NoWriting seat }
    {
        self.writing
            .map(|writing| writing.label)
            .ok_or(Reason::NoWriting.about(seat))
    }
}
