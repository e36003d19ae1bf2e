// What is done to a short list.
ghost use Rattle.std.specs.Prelude.{◌≡◌, ◌+◌, ◌-◌, ◌<◌, ◌≤◌, [], ◌∷◌, ◌++◌, length, take, drop, nat_le, slice_set};
ghost use Rattle.std.specs.List.{list_all};
ghost use Rattle.kinds.specs.ShortLists.{room, items, packed, packs, holds, pushed, pulled};

use super::item::Item;
use super::{PLACES, ShortList};

// Puts an item at a place; those from there on move up by one, and the last is lost.
fn push_in<T: Copy>(places: &mut [T], at: usize, item: T)
    requires { at < length places.old }
    ensures { places.new ≡ pushed at item places.old }
{
    let rest = &mut places[at..];
    rest.rotate_right(1);
    rest[0] = item;
}

// Takes the item at a place out; those after it move down by one, and the last place gets the blank.
fn pull_out<T: Item>(places: &mut [T], at: usize)
    requires { at < length places.old }
    ensures { places.new ≡ pulled at T.blank places.old }
{
    let rest = &mut places[at..];
    rest[0] = T::blank();
    rest.rotate_left(1);
}

// Whether each place is empty.
fn are_blank<T: Item>(places: &[T]) -> bool
    ensures { result ≡ list_all (λ x. T.eq x T.blank) places.now }
{
    places.iter().all(|place| *place == T::blank())
}

impl<T> ShortList<T> {
    // The items.
    pub fn items(&self) -> &[T]
        ensures { result.now ≡ items self.now }
    {
        let places = self.places.as_slice();
        &places[..self.count.min(places.len())]
    }
}

// That a place lies in the list is asked for, as the library's `insert` and `remove` ask: it is a
// relation of two arguments, and no fact of one that a type could hold. That there is room, and that
// no more is counted than there are places, is asked once each.
impl<T: Item> ShortList<T> {
    // The list without items.
    pub(crate) fn empty() -> ShortList<T>
        ensures { result ≡ packed T.blank [] }
    {
        ShortList {
            count: 0,
            places: [T::blank(); PLACES],
        }
    }

    // Whether this is a list: at most twelve items, and blanks past them.
    fn is_packed(&self) -> bool
        ensures { result ≡ packs (λ x. T.eq x T.blank) self.now }
    {
        self.places.get(self.count..).is_some_and(are_blank)
    }

    // Whether this is a state's row.
    pub(crate) fn is_sound(&self) -> bool
        ensures { result ≡ holds (λ x. T.eq x T.blank) T.good self.now }
    {
        self.is_packed() && T::are_good(self.items())
    }

    // Whether there are twelve items.
    pub(crate) fn is_full(&self) -> bool
        ensures { result ≡ nat_le room self.now.count }
    {
        self.count >= PLACES
    }

    // An item put in at a place.
    pub(crate) fn with_item(mut self, at: usize, item: T) -> ShortList<T>
        requires within { at ≤ self.count }
        requires few { self.count < room }
        ensures count { result.count ≡ self.count + 1 }
        ensures places { result.places ≡ pushed at item self.places }
    {
        push_in(&mut self.places, at, item);
        self.count += 1;
        self
    }

    // Another item at a place.
    pub(crate) fn with_other(mut self, at: usize, item: T) -> ShortList<T>
        requires { at < length self.places }
        ensures count { result.count ≡ self.count }
        ensures places { result.places ≡ slice_set self.places at item }
    {
        self.places[at] = item;
        self
    }

    // The item at a place taken out.
    pub(crate) fn without_item(mut self, at: usize) -> ShortList<T>
        requires within { at < self.count }
        requires few { self.count ≤ room }
        ensures count { result.count ≡ self.count - 1 }
        ensures places { result.places ≡ pulled at T.blank self.places }
    {
        pull_out(&mut self.places, at);
        self.count -= 1;
        self
    }
}
