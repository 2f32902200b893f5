ghost use Rattle.station.specs.declared.answer.Answer.TheVariants.{Done};
ghost use Rattle.station.specs.Questions.{told};
ghost use Rattle.station.specs.Serving.{Served};

use super::super::call::Call;
use super::super::refusal::{Reason, Refusal};
use super::Station;
use labels::{LabelSystem, Size};

impl<S: LabelSystem> Station<S> {
    /// Gives the station its seats, idle and without writing.
    pub fn open(&mut self, seats: u8) -> Result<(), Refusal>
        ensures { Served S.meaning self.old self.new (Call.Open seats) (told (λ _. Done) result) }
    {
        if !self.rows.is_empty() {
            return Err(Reason::AlreadyOpen.about(0));
        }
        if !(1..=Size::MAX_ORDER).contains(&seats) {
            return Err(Reason::SeatCount.about(0));
        }
        if seats > self.system.order() {
            return Err(Reason::OrderTooSmall.about(0));
        }
        self.seat(seats);
        Ok(())
    }
}
