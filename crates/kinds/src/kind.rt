// What every kind of object has, and the laws that generic code may use.
ghost use Rattle.std.specs.Prelude.{◌≡◌, ℕ, false, Some, None, Option};
ghost use Rattle.kinds.specs.declared.answer.Class.{Class};
ghost use Rattle.kinds.specs.declared.answer.Class.TheVariants.{Unknown, Read, Write};
ghost use Rattle.kinds.specs.declared.answer.Outcome.{Outcome};
ghost use Rattle.kinds.specs.declared.operation.Operation.{Operation};
ghost use Rattle.kinds.specs.Operations.{fits};
ghost use Rattle.kinds.specs.Outcomes.{no_to};

use crate::answer::{Class, Outcome};
use crate::operation::Operation;

// A kind of object, by its states. A state is a value, and an operation gives the next one.
pub trait Kind: Copy {
    // What undoes one write.
    type Undo: Copy;

    // A state as plain data, which may also be no state's.
    type Row: Copy;

    // what an operation is to the object
    ghost classed: { Self → Operation → Class };

    // what an operation answers, and the state that it leaves
    ghost acts: { Self → Operation → Outcome Self };

    // how many numbers the operation of a code uses
    ghost uses: { Self → ℕ → ℕ };

    // the record made when an operation is about to act on a state
    ghost records: { Self → Operation → Self.Undo };

    // the state that undoing by a record leaves
    ghost undone: { Self → Self.Undo → Self };

    // the row of a state
    ghost rowed: { Self → Self.Row };

    // the state of a row, if it is a state's
    ghost reads: { Self.Row → Option Self };

    // What an operation is to this object.
    fn class(self, operation: Operation) -> Class
        ensures { result ≡ classed self operation };

    // What an operation answers, and the state after it.
    fn act(self, operation: Operation) -> Outcome<Self>
        ensures { result ≡ acts self operation };

    // The record that undoes what an operation is about to do.
    fn undo_record(self, operation: Operation) -> Self::Undo
        ensures { result ≡ records self operation };

    // The state that undoing by a record leaves.
    fn undo(self, record: Self::Undo) -> Self
        ensures { result ≡ undone self «record» };

    // This state as a row. Not by `From`, and the way back not by `TryFrom`: the laws below would have
    // to go by the relations of those traits, which is no plainer than by two functions.
    fn row(self) -> Self::Row
        ensures { result ≡ rowed self };

    // The state whose row this is, if it is a state's.
    fn from_row(row: Self::Row) -> Option<Self>
        ensures { result ≡ reads row };

    // No operation changes what any operation is to the object.
    ghost class_stays: { (s : Self) (o p : Operation) → classed (acts s p).next o ≡ classed s o };

    // A read leaves the state.
    ghost read_stays: { (s : Self) (o : Operation) → classed s o ≡ Read → (acts s o).next ≡ s };

    // An unknown operation answers no and leaves the state.
    ghost unknown_stays: { (s : Self) (o : Operation) → classed s o ≡ Unknown → acts s o ≡ no_to s };

    // An answer of no leaves the state.
    ghost no_stays: { (s : Self) (o : Operation) → (acts s o).answer ≡ None → (acts s o).next ≡ s };

    // An operation with a number above the largest, or with an unused one that is not 0, is unknown.
    ghost misfit_unknown: { (s : Self) (o : Operation) → fits (uses s o.code) o ≡ false → classed s o ≡ Unknown };

    // Undoing right after a write restores the state.
    ghost undo_restores: { (s : Self) (o : Operation) → classed s o ≡ Write → undone (acts s o).next (records s o) ≡ s };

    // The row of a state reads back as that state.
    ghost row_reads: { (s : Self) → reads (rowed s) ≡ Some s };

    // Nothing but rows of states reads back.
    ghost reads_row: { (s : Self) (r : Self.Row) → reads r ≡ Some s → rowed s ≡ r };

    // Equal rows mean equal states.
    ghost same_row: { (s t : Self) → rowed s ≡ rowed t → s ≡ t };
}
