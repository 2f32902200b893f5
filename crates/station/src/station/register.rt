ghost use Rattle.std.specs.Prelude.{◌≡◌};
ghost use Rattle.station.specs.declared.answer.Answer.TheVariants.{Done, Verdict, Labelled};
ghost use Rattle.station.specs.Questions.{told};
ghost use Rattle.station.specs.Rules.{reply};
ghost use Rattle.station.specs.Serving.{Served};
ghost use Rattle.station.specs.View.{table};

use super::super::answer::{Answer, Reading};
use super::super::call::Call;
use super::super::refusal::{Reason, Refusal};
use super::super::row::Writing;
use super::Station;
use labels::LabelSystem;

// No record as `Served` for what these calls and `earlier` answer: each has its own kind, and a clause is no longer.
impl<S: LabelSystem> Station<S> {
    /// A seat's writing is replaced by a map number, with the label that the system chooses beside the other writings.
    pub fn write(&mut self, seat: u8, map: u32) -> Result<(), Refusal>
        ensures { Served S.meaning self.old self.new (Call.Write seat map) (told (λ _. Done) result) }
    {
        self.row(seat)?;
        let map = u16::try_from(map).map_err(|_| Reason::MapTooLarge.about(seat))?;
        let label = self
            .standing_choice(seat)
            .ok_or(Reason::NoLabelLeft.about(seat))?;
        self.row_mut(seat)?.writing = Some(Writing { label, map });
        Ok(())
    }

    /// Removes a seat's standing writing.
    pub fn strike(&mut self, seat: u8) -> Result<(), Refusal>
        ensures { Served S.meaning self.old self.new (Call.Strike seat) (told (λ _. Done) result) }
    {
        let row = self.row_mut(seat)?;
        row.standing(seat)?;
        row.writing = None;
        Ok(())
    }

    /// The writing in force: that at the head of the standing writings.
    pub fn read(&self) -> Result<Reading, Refusal>
        ensures { told (λ x. Answer.Reading x) result ≡ reply (S.meaning self.now.system) (table self.now) (Call.Read) }
    {
        self.register_head()
            .map(|row| Reading {
                seat: row.seat,
                map: row.map,
            })
            .ok_or(Reason::NothingStands.about(0))
    }

    /// Whether the first of two standing writings is the later: whether its label beats the second's.
    pub fn newer(&self, first: u8, second: u8) -> Result<bool, Refusal>
        ensures { told (λ b. Verdict b) result ≡ reply (S.meaning self.now.system) (table self.now) (Call.Newer first second) }
    {
        let (one, other) = (self.row(first)?, self.row(second)?);
        let (later, earlier) = (one.standing(first)?, other.standing(second)?);
        Ok(self.system.beats(later, earlier))
    }

    /// The label of a seat's standing writing.
    pub fn label(&self, seat: u8) -> Result<u32, Refusal>
        ensures { told (λ x. Labelled x) result ≡ reply (S.meaning self.now.system) (table self.now) (Call.Label seat) }
    {
        self.row(seat)?.standing(seat)
    }
}
