// What is done to a queue.
ghost use Rattle.std.specs.Prelude.{◌≡◌, ◌<◌, [], Some, OnSome};
ghost use Rattle.kinds.specs.Outcomes.{turned, left_by};
ghost use Rattle.kinds.specs.Queues.{queue_of, entries, front_of, entries_after, end_move, entries_before};
ghost use Rattle.kinds.specs.declared.queue.operation.EndMove.TheVariants.{BackJoined, FrontLeft};
ghost use Rattle.kinds.specs.declared.queue.operation.QueueOperation.TheVariants.{Front, Put, Next};

use super::operation::EndMove;
use super::state::Queue;
use crate::answer::Outcome;
use crate::number::Number;
use crate::short_list::ShortList;

impl Queue {
    // The queue without entries.
    pub fn new() -> Queue
        ensures { entries result ≡ [] }
    {
        Queue {
            row: ShortList::empty(),
        }
    }

    // The front entry, if there is one.
    fn front_entry(self) -> Option<u32>
        ensures value { result ≡ front_of (entries self) }
        ensures bound { OnSome result (0 < self.row.count) }
    {
        self.row.items().first().copied()
    }

    // The front entry as an answer, if there is one.
    pub(super) fn front(self) -> Outcome<Queue>
        ensures { result ≡ left_by queue_of self (entries_after (entries self) Front) }
    {
        Outcome {
            answer: self.front_entry(),
            next: self,
        }
    }

    // One entry more at the back, unless there are twelve.
    pub(super) fn put(self, n: Number) -> Outcome<Queue>
        ensures { result ≡ left_by queue_of self (entries_after (entries self) (Put n)) }
    {
        if self.row.is_full() {
            return Outcome::no(self);
        }
        let row = self.row.with_item(self.row.count, n.value);
        Outcome::yes(row.count as u32, Queue { row })
    }

    // The front entry taken out, if there is one.
    pub(super) fn next(self) -> Outcome<Queue>
        ensures { result ≡ left_by queue_of self (entries_after (entries self) Next) }
    {
        let Some(entry) = self.front_entry() else {
            return Outcome::no(self);
        };
        let row = self.row.without_item(0);
        Outcome::yes(entry, Queue { row })
    }

    // What NEXT is about to move.
    pub(super) fn front_move(self) -> EndMove
        ensures { result ≡ end_move (entries self) (Some Next) }
    {
        let front = self.front_entry();
        front.map_or(EndMove::Stayed, EndMove::FrontLeft)
    }

    // The queue before an entry joined the back.
    pub(super) fn without_back(self) -> Queue
        ensures { result ≡ turned queue_of self (entries_before (entries self) BackJoined) }
    {
        let Some(last) = self.row.count.checked_sub(1) else {
            return self;
        };
        let row = self.row.without_item(last);
        Queue { row }
    }

    // The queue before an entry left the front; as it is where no such queue exists.
    pub(super) fn with_front(self, n: u32) -> Queue
        ensures { result ≡ turned queue_of self (entries_before (entries self) (FrontLeft n)) }
    {
        if self.row.is_full() {
            return self;
        }
        let Ok(number) = Number::try_from(n) else {
            return self;
        };
        let row = self.row.with_item(0, number.value);
        Queue { row }
    }
}
