// A tally as a kind of object.
ghost use Rattle.kinds.specs.Tallies.{tally_operation, tally_uses, tally_class, tally_at, tally_acts, value_of, value_after, amount, value_undone};
ghost use Rattle.std.specs.Prelude.{◌≡◌};
ghost use Rattle.kinds.specs.Outcomes.{turned, content_after};
ghost use Rattle.kinds.specs.Laws.TallyLaws.{read_leaves_state, no_leaves_state, undo_leads_back, tally_at_own, tally_at_value};
ghost use Rattle.kinds.specs.Laws.Checks.{rows_tell};
ghost use Rattle.std.proofs.Common.{rules};

use super::operation::TallyOperation;
use super::state::Tally;
use crate::answer::{Class, Outcome};
use crate::kind::Kind;
use crate::operation::{Operation, UnknownOperation};

impl Kind for Tally {
    // By how much the write changed the value.
    type Undo = i32;

    type Row = u32;

    ghost classed = { λ t o. tally_class (tally_operation o) };

    ghost acts = { tally_acts };

    ghost uses = { tally_uses };

    ghost records = { λ t o. amount (value_of t) (tally_operation o) };

    ghost undone = { λ t d. turned tally_at t (value_undone (value_of t) d) };

    ghost rowed = { value_of };

    ghost reads = { tally_at };

    ghost class_stays = { Prim.search rules };

    ghost read_stays = { λ t o e. read_leaves_state t (tally_operation o) e };

    ghost unknown_stays = { Prim.search rules };

    ghost no_stays = { λ t o e. no_leaves_state t (tally_operation o) e };

    ghost misfit_unknown = { Prim.search rules };

    ghost undo_restores = { λ t o e. undo_leads_back t (tally_operation o) e };

    ghost row_reads = { λ t. tally_at_own t };

    ghost reads_row = { λ t v m. tally_at_value t v m };

    ghost same_row = { λ s t e. rows_tell value_of tally_at tally_at_own s t e };

    fn class(self, operation: Operation) -> Class {
        match TallyOperation::try_from(operation) {
            Err(UnknownOperation) => Class::Unknown,
            Ok(TallyOperation::Show) => Class::Read,
            Ok(TallyOperation::Add(_) | TallyOperation::Take(_)) => Class::Write,
        }
    }

    #[tactic(auto, using(crate::specs::Laws::TallyLaws::value_left))]
    fn act(self, operation: Operation) -> Outcome<Tally>
        ensures outcome { result ≡ tally_acts self operation }
        ensures after { value_of result.next ≡ content_after value_after (value_of self) (tally_operation operation) }
    {
        match TallyOperation::try_from(operation) {
            Err(UnknownOperation) => Outcome::no(self),
            Ok(TallyOperation::Show) => self.show(),
            Ok(TallyOperation::Add(n)) => self.add(n.value),
            Ok(TallyOperation::Take(n)) => self.take(n.value),
        }
    }

    fn undo_record(self, operation: Operation) -> i32 {
        match TallyOperation::try_from(operation) {
            Ok(TallyOperation::Add(n)) if self.has_room(n.value) => n.value as i32,
            Ok(TallyOperation::Take(n)) if self.covers(n.value) => -(n.value as i32),
            _ => 0,
        }
    }

    fn undo(self, record: i32) -> Tally {
        let change = record.unsigned_abs();
        if record < 0 {
            self.add(change).next
        } else {
            self.take(change).next
        }
    }

    fn row(self) -> u32 {
        self.number.value
    }

    fn from_row(row: u32) -> Option<Tally> {
        Tally::new(row)
    }
}
