// What is done to a roll.
ghost use Rattle.std.specs.Prelude.{◌≡◌, ℕ, ◌<◌, ◌≤◌, [], MatchResult, slice_index_or};
ghost use Rattle.kinds.specs.Outcomes.{turned, left_by};
ghost use Rattle.kinds.specs.RollPlaces.{smaller, place_of};
ghost use Rattle.kinds.specs.Rolls.{roll_of, entry, marks, found, marked, without, marks_after, numbers_after};
ghost use Rattle.kinds.specs.declared.roll.operation.RollOperation.TheVariants.{Find, Mark};

use super::entry::Entry;
use super::state::Roll;
use crate::answer::Outcome;
use crate::number::Number;
use crate::short_list::ShortList;

impl Roll {
    // The roll without keys.
    pub fn new() -> Roll
        ensures { marks result ≡ [] }
    {
        Roll {
            row: ShortList::empty(),
        }
    }

    // How many keys stand before the place of a key. From the first on: with twelve at most, that takes
    // less time than to halve.
    fn place(&self, key: u32) -> usize
        ensures { result ≡ smaller key (marks self.now) }
    {
        let entries = self.row.items();
        let first = entries.iter().position(|entry| entry.key >= key);
        first.unwrap_or(entries.len())
    }

    // The place at which a key stands, or else at which it would.
    pub(super) fn search(&self, key: u32) -> Result<usize, usize>
        ensures value { result ≡ place_of key (marks self.now) }
        ensures bound { MatchResult result (λ at. at < self.now.row.count) (λ at. at ≤ self.now.row.count) }
    {
        let at = self.place(key);
        match self.row.items().get(at) {
            Some(entry) if entry.key == key => Ok(at),
            _ => Err(at),
        }
    }

    // The number at a place.
    fn number_at(&self, at: usize) -> u32
        requires { at < self.now.row.count }
        ensures { result ≡ (slice_index_or self.now.row.places at (entry 0 0)).number }
    {
        self.row.places[at].number
    }

    // The number of a key, if it is present.
    #[tactic(auto, using(crate::proofs::RollSteps::number_at))]
    pub(super) fn number_of(&self, key: u32) -> Option<u32>
        ensures { result ≡ found key (marks self.now) }
    {
        let at = self.search(key).ok()?;
        Some(self.number_at(at))
    }

    // The number of a key as an answer, if it is present.
    pub(super) fn find(self, key: Number) -> Outcome<Roll>
        ensures { result ≡ left_by roll_of self (marks_after (marks self) (Find key)) }
    {
        Outcome {
            answer: self.number_of(key.value),
            next: self,
        }
    }

    // The number of a key set, and the key put in if it was absent, unless there are twelve. Two
    // `Number`s, and no `Entry`, whose numbers may be any.
    pub(super) fn mark(self, key: Number, number: Number) -> Outcome<Roll>
        ensures outcome { result ≡ left_by roll_of self (marks_after (marks self) (Mark key number)) }
        ensures finds { (j : ℕ) → found j (marks result.next) ≡ numbers_after result.answer key.value number.value (marks self) j }
    {
        let entry = Entry {
            key: key.value,
            number: number.value,
        };
        match self.search(entry.key) {
            Ok(at) => {
                let row = self.row.with_other(at, entry);
                Outcome::yes(self.number_at(at), Roll { row })
            }
            Err(at) => {
                if self.row.is_full() {
                    return Outcome::no(self);
                }
                let row = self.row.with_item(at, entry);
                Outcome::yes(0, Roll { row })
            }
        }
    }

    // The roll with a former entry; as it is where no such roll exists.
    pub(super) fn with_mark(self, entry: Entry) -> Roll
        ensures { result ≡ turned roll_of self (marked «entry».key «entry».number (marks self)) }
    {
        let Ok(key) = Number::try_from(entry.key) else {
            return self;
        };
        let Ok(number) = Number::try_from(entry.number) else {
            return self;
        };
        self.mark(key, number).next
    }

    // The roll without a key.
    pub(super) fn without_mark(self, key: u32) -> Roll
        ensures { result ≡ turned roll_of self (without key (marks self)) }
    {
        let Ok(at) = self.search(key) else {
            return self;
        };
        let row = self.row.without_item(at);
        Roll { row }
    }
}
