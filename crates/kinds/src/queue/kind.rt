// A queue as a kind of object.
ghost use Rattle.std.specs.Prelude.{◌≡◌};
ghost use Rattle.kinds.specs.Outcomes.{turned, content_after};
ghost use Rattle.kinds.specs.Queues.{queue_operation, queue_uses, queue_class, queue_of, read_queue, entries, queue_acts, entries_after, end_move, entries_before};
ghost use Rattle.kinds.specs.Laws.QueueDuties.{read_leaves_state, no_leaves_state, undo_leads_back};
ghost use Rattle.kinds.specs.Laws.QueueLaws.{read_own, read_row};
ghost use Rattle.kinds.specs.Laws.Checks.{rows_tell};
ghost use Rattle.std.proofs.Common.{rules};

use super::operation::{EndMove, QueueOperation};
use super::state::Queue;
use crate::answer::{Class, Outcome};
use crate::kind::Kind;
use crate::operation::{Operation, UnknownOperation};
use crate::short_list::ShortList;

impl Kind for Queue {
    type Undo = EndMove;

    type Row = ShortList<u32>;

    ghost classed = { λ q o. queue_class (queue_operation o) };

    ghost acts = { queue_acts };

    ghost uses = { queue_uses };

    ghost records = { λ q o. end_move (entries q) (queue_operation o) };

    ghost undone = { λ q m. turned queue_of q (entries_before (entries q) m) };

    ghost rowed = { λ q. q.row };

    ghost reads = { read_queue };

    ghost class_stays = { Prim.search rules };

    ghost read_stays = { λ q o e. read_leaves_state q (queue_operation o) e };

    ghost unknown_stays = { Prim.search rules };

    ghost no_stays = { λ q o e. no_leaves_state q (queue_operation o) e };

    ghost misfit_unknown = { Prim.search rules };

    ghost undo_restores = { λ q o e. undo_leads_back q (queue_operation o) e };

    ghost row_reads = { λ q. read_own q };

    ghost reads_row = { λ q l m. read_row q l m };

    ghost same_row = { λ s t e. rows_tell (λ x. x.row) read_queue read_own s t e };

    fn class(self, operation: Operation) -> Class {
        match QueueOperation::try_from(operation) {
            Err(UnknownOperation) => Class::Unknown,
            Ok(QueueOperation::Front) => Class::Read,
            Ok(QueueOperation::Put(_) | QueueOperation::Next) => Class::Write,
        }
    }

    #[tactic(auto, using(crate::specs::Laws::QueueDuties::entries_left))]
    fn act(self, operation: Operation) -> Outcome<Queue>
        ensures outcome { result ≡ queue_acts self operation }
        ensures after { entries result.next ≡ content_after entries_after (entries self) (queue_operation operation) }
    {
        match QueueOperation::try_from(operation) {
            Err(UnknownOperation) => Outcome::no(self),
            Ok(QueueOperation::Front) => self.front(),
            Ok(QueueOperation::Put(n)) => self.put(n),
            Ok(QueueOperation::Next) => self.next(),
        }
    }

    fn undo_record(self, operation: Operation) -> EndMove {
        match QueueOperation::try_from(operation) {
            Ok(QueueOperation::Put(_)) if !self.row.is_full() => EndMove::BackJoined,
            Ok(QueueOperation::Next) => self.front_move(),
            _ => EndMove::Stayed,
        }
    }

    fn undo(self, record: EndMove) -> Queue {
        match record {
            EndMove::Stayed => self,
            EndMove::BackJoined => self.without_back(),
            EndMove::FrontLeft(n) => self.with_front(n),
        }
    }

    fn row(self) -> ShortList<u32> {
        self.row
    }

    fn from_row(row: ShortList<u32>) -> Option<Queue> {
        if row.is_sound() {
            Some(Queue { row })
        } else {
            None
        }
    }
}
