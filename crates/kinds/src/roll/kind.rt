// A roll as a kind of object.
ghost use Rattle.std.specs.Prelude.{◌≡◌};
ghost use Rattle.kinds.specs.Outcomes.{turned, content_after};
ghost use Rattle.kinds.specs.Rolls.{roll_operation, roll_uses, roll_class, roll_of, read_roll, marks, roll_acts, marks_after, former, marks_before};
ghost use Rattle.kinds.specs.Laws.RollDuties.{read_leaves_state, no_leaves_state, undo_leads_back};
ghost use Rattle.kinds.specs.Laws.RollLaws.{read_own, read_row};
ghost use Rattle.kinds.specs.Laws.Checks.{rows_tell};
ghost use Rattle.std.proofs.Common.{rules};

use super::entry::{Entry, Former};
use super::operation::RollOperation;
use super::state::Roll;
use crate::answer::{Class, Outcome};
use crate::kind::Kind;
use crate::operation::{Operation, UnknownOperation};
use crate::short_list::ShortList;

impl Kind for Roll {
    type Undo = Former;

    type Row = ShortList<Entry>;

    ghost classed = { λ r o. roll_class (roll_operation o) };

    ghost acts = { roll_acts };

    ghost uses = { roll_uses };

    ghost records = { λ r o. former (marks r) (roll_operation o) };

    ghost undone = { λ r f. turned roll_of r (marks_before (marks r) f) };

    ghost rowed = { λ r. r.row };

    ghost reads = { read_roll };

    ghost class_stays = { Prim.search rules };

    ghost read_stays = { λ r o e. read_leaves_state r (roll_operation o) e };

    ghost unknown_stays = { Prim.search rules };

    ghost no_stays = { λ r o e. no_leaves_state r (roll_operation o) e };

    ghost misfit_unknown = { Prim.search rules };

    ghost undo_restores = { λ r o e. undo_leads_back r (roll_operation o) e };

    ghost row_reads = { λ r. read_own r };

    ghost reads_row = { λ r l m. read_row r l m };

    ghost same_row = { λ s t e. rows_tell (λ x. x.row) read_roll read_own s t e };

    fn class(self, operation: Operation) -> Class {
        match RollOperation::try_from(operation) {
            Err(UnknownOperation) => Class::Unknown,
            Ok(RollOperation::Find(_)) => Class::Read,
            Ok(RollOperation::Mark(_, _)) => Class::Write,
        }
    }

    #[tactic(auto, using(crate::specs::Laws::RollDuties::marks_left))]
    fn act(self, operation: Operation) -> Outcome<Roll>
        ensures outcome { result ≡ roll_acts self operation }
        ensures after { marks result.next ≡ content_after marks_after (marks self) (roll_operation operation) }
    {
        match RollOperation::try_from(operation) {
            Err(UnknownOperation) => Outcome::no(self),
            Ok(RollOperation::Find(key)) => self.find(key),
            Ok(RollOperation::Mark(key, number)) => self.mark(key, number),
        }
    }

    fn undo_record(self, operation: Operation) -> Former {
        let key = match RollOperation::try_from(operation) {
            Err(UnknownOperation) => 0,
            Ok(RollOperation::Find(key) | RollOperation::Mark(key, _)) => key.value,
        };
        let number = self.number_of(key);
        Former { key, number }
    }

    fn undo(self, record: Former) -> Roll {
        let key = record.key;
        match record.number {
            None => self.without_mark(key),
            Some(number) => self.with_mark(Entry { key, number }),
        }
    }

    fn row(self) -> ShortList<Entry> {
        self.row
    }

    // That no other row reads is left to the tactic, so that a test that lets one pass is refused for it.
    #[tactic(auto, using(crate::specs::Laws::RollLaws::unread))]
    fn from_row(row: ShortList<Entry>) -> Option<Roll> {
        if row.is_sound() {
            Some(Roll { row })
        } else {
            None
        }
    }
}
