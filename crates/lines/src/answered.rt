ghost use Rattle.std.specs.Prelude.{◌≡◌, ℕ, ◌+◌, List, codes, decimal, Result};
ghost use Rattle.station.specs.declared.answer.Answer.{Answer};
ghost use Rattle.lines.specs.Drafts.{HasRoom, Puts};
ghost use Rattle.lines.specs.Lines.{started_text, reading_text, verdict_text};
ghost use Rattle.lines.specs.Replies.{done_in, started_in, reading_in, verdict_in, label_in, or_misplaced};

use super::draft::{Draft, put_number};
use station::{Answer, Reading, Started};

/// What calls of one kind answer: what of a station's answer it is, and how a line tells it.
pub(crate) trait Answered: Copy {
    /// What of an answer it is; an answer of another kind is misplaced.
    ghost part_in: { Answer → Result Self ℕ };

    /// How a line tells it.
    ghost text: { Self → List ℕ };

    /// The most bytes that its text has.
    ghost most: { ℕ };

    /// Takes it out of an answer, unless that is of another kind.
    // Each by a `match` of its own, since no function can be told which variant to take.
    fn part_of(answer: Answer) -> Option<Self>
        ensures { part_in answer ≡ or_misplaced result };

    /// Puts its text at the end of a line.
    fn put(self, draft: &mut Draft)
        requires { HasRoom draft.old most }
        ensures { Puts draft.old draft.new (text self) most };
}

impl Answered for () {
    ghost part_in = { done_in };

    ghost text = { λ _. codes "ok" };

    ghost most = { 2 };

    fn part_of(answer: Answer) -> Option<()> {
        (answer == Answer::Done).then_some(())
    }

    fn put(self, draft: &mut Draft) {
        draft.push_str("ok");
    }
}

impl Answered for Started {
    ghost part_in = { started_in };

    ghost text = { started_text };

    ghost most = { 3 + 5 + 5 };

    fn part_of(answer: Answer) -> Option<Started> {
        match answer {
            Answer::Started(started) => Some(started),
            _ => None,
        }
    }

    fn put(self, draft: &mut Draft) {
        put_number(draft, self.seat);
        draft.push_str(" map ");
        match self.map {
            Some(map) => put_number(draft, map),
            None => draft.push_str("none"),
        }
    }
}

impl Answered for Reading {
    ghost part_in = { reading_in };

    ghost text = { reading_text };

    ghost most = { 3 + 1 + 5 };

    fn part_of(answer: Answer) -> Option<Reading> {
        match answer {
            Answer::Reading(reading) => Some(reading),
            _ => None,
        }
    }

    fn put(self, draft: &mut Draft) {
        let Reading { seat, map } = self;
        put_number(draft, seat);
        draft.push_str(" ");
        put_number(draft, map);
    }
}

impl Answered for bool {
    ghost part_in = { verdict_in };

    ghost text = { verdict_text };

    ghost most = { 3 };

    fn part_of(answer: Answer) -> Option<bool> {
        match answer {
            Answer::Verdict(verdict) => Some(verdict),
            _ => None,
        }
    }

    fn put(self, draft: &mut Draft) {
        draft.push_str(if self { "yes" } else { "no" });
    }
}

impl Answered for u32 {
    ghost part_in = { label_in };

    ghost text = { decimal };

    ghost most = { 10 };

    fn part_of(answer: Answer) -> Option<u32> {
        match answer {
            Answer::Labelled(label) => Some(label),
            _ => None,
        }
    }

    fn put(self, draft: &mut Draft) {
        put_number(draft, self);
    }
}
