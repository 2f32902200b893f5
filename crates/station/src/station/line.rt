ghost use Rattle.std.specs.Prelude.{◌≡◌};
ghost use Rattle.station.specs.declared.answer.Answer.TheVariants.{Done, Verdict};
ghost use Rattle.station.specs.Questions.{told};
ghost use Rattle.station.specs.Rules.{reply};
ghost use Rattle.station.specs.Serving.{Served};
ghost use Rattle.station.specs.View.{table};

use super::super::answer::{Answer, Started};
use super::super::call::Call;
use super::super::refusal::{Reason, Refusal};
use super::super::row::Line;
use super::Station;
use labels::LabelSystem;

impl<S: LabelSystem> Station<S> {
    /// An idle seat waits, with the label that the system chooses beside the labels of all waiting seats.
    pub fn join(&mut self, seat: u8) -> Result<(), Refusal>
        ensures { Served S.meaning self.old self.new (Call.Join seat) (told (λ _. Done) result) }
    {
        self.row(seat)?.idle(seat)?;
        let label = self
            .waiting_choice()
            .ok_or(Reason::NoLabelLeft.about(seat))?;
        self.row_mut(seat)?.line = Line::Waiting(label);
        Ok(())
    }

    /// A waiting seat becomes idle.
    pub fn leave(&mut self, seat: u8) -> Result<(), Refusal>
        ensures { Served S.meaning self.old self.new (Call.Leave seat) (told (λ _. Done) result) }
    {
        // As `finish` and `strike`: one function for the three would take two closures, and be no shorter.
        let row = self.row_mut(seat)?;
        row.waiting(seat)?;
        row.line = Line::Idle;
        Ok(())
    }

    /// The start goes to the tail of the waiting seats, which then holds it.
    pub fn start(&mut self) -> Result<Started, Refusal>
        ensures { Served S.meaning self.old self.new (Call.Start) (told (λ x. Answer.Started x) result) }
    {
        if self.some_holds() {
            return Err(Reason::StartTaken.about(0));
        }
        let first = self.line_tail().ok_or(Reason::NobodyWaits.about(0))?;
        let map = self.register_head().map(|writing| writing.map);
        // Never refused: a seat that waits is one of the station's.
        self.row_mut(first.seat)?.line = Line::Holding;
        Ok(Started {
            seat: first.seat,
            map,
        })
    }

    /// The seat that holds the start becomes idle.
    pub fn finish(&mut self, seat: u8) -> Result<(), Refusal>
        ensures { Served S.meaning self.old self.new (Call.Finish seat) (told (λ _. Done) result) }
    {
        let row = self.row_mut(seat)?;
        row.holding(seat)?;
        row.line = Line::Idle;
        Ok(())
    }

    /// Whether the first of two waiting seats waits longer: whether the second's label beats its label.
    pub fn earlier(&self, first: u8, second: u8) -> Result<bool, Refusal>
        ensures { told (λ b. Verdict b) result ≡ reply (S.meaning self.now.system) (table self.now) (Call.Earlier first second) }
    {
        // As `newer`: one function for both would hide which label has to beat which.
        let (one, other) = (self.row(first)?, self.row(second)?);
        let (older, younger) = (one.waiting(first)?, other.waiting(second)?);
        Ok(self.system.beats(younger, older))
    }
}
