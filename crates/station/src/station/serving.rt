ghost use Rattle.std.specs.Prelude.{◌≡◌};
ghost use Rattle.station.specs.Orderly.{Orderly};
ghost use Rattle.station.specs.Rules.{Ran};
ghost use Rattle.station.specs.Serving.{Served};
ghost use Rattle.station.specs.View.{table};

use super::super::answer::Answer;
use super::super::call::Call;
use super::super::refusal::Refusal;
use super::Station;
use labels::LabelSystem;

impl<S: LabelSystem> Station<S> {
    /// Puts any of the calls to the station.
    pub fn serve(&mut self, call: Call) -> Result<Answer, Refusal>
        ensures ran { Ran (S.meaning self.old.system) (table self.old) (table self.new) call result }
        ensures orderly { Orderly (S.meaning self.old.system) (table self.old) (table self.new) call result }
        ensures system { self.new.system ≡ self.old.system }
    {
        self.dispatch(call)
    }

    /// Each call by the function of its name: a `match` and no table of functions, since each takes values of its own.
    fn dispatch(&mut self, call: Call) -> Result<Answer, Refusal>
        ensures { Served S.meaning self.old self.new call result }
    {
        match call {
            Call::Open(seats) => self.open(seats).map(|_| Answer::Done),
            Call::Join(seat) => self.join(seat).map(|_| Answer::Done),
            Call::Leave(seat) => self.leave(seat).map(|_| Answer::Done),
            Call::Start => self.start().map(Answer::Started),
            Call::Finish(seat) => self.finish(seat).map(|_| Answer::Done),
            Call::Write(seat, map) => self.write(seat, map).map(|_| Answer::Done),
            Call::Strike(seat) => self.strike(seat).map(|_| Answer::Done),
            Call::Read => self.read().map(Answer::Reading),
            Call::Earlier(first, second) => self.earlier(first, second).map(Answer::Verdict),
            Call::Newer(first, second) => self.newer(first, second).map(Answer::Verdict),
            Call::Label(seat) => self.label(seat).map(Answer::Labelled),
        }
    }
}
