// The join of any two kinds: each object is of one side, fixed when made, and knows only that side's operations.
ghost use Rattle.kinds.specs.Joins.{either_class, either_acts, either_uses, either_records, either_undone, either_reads, lifted};
ghost use Rattle.std.proofs.Common.{ap, rules};
ghost use Rattle.either.specs.declared.Either.TheVariants.{Left, Right};
ghost use Rattle.either.specs.Either.{map_either};
ghost use Rattle.kinds.specs.Laws.Sides.{left_some, right_some, left_not_right, right_not_left};

use crate::answer::{Class, Outcome};
use crate::kind::Kind;
use crate::operation::Operation;
use crate::queue::Queue;
use crate::roll::Roll;
use crate::tally::Tally;
use either::{Either, for_both, map_both};

// The objects of the product: a tally, or else a queue or a roll.
pub type Object = Either<Tally, Either<Queue, Roll>>;

impl<L: Kind, R: Kind> Kind for Either<L, R> {
    type Undo = Either<L::Undo, R::Undo>;

    type Row = Either<L::Row, R::Row>;

    ghost classed = { either_class L.Kind.classed R.Kind.classed };

    ghost acts = { either_acts L.Kind.acts R.Kind.acts };

    ghost uses = { either_uses L.Kind.uses R.Kind.uses };

    ghost records = { either_records L.Kind.records R.Kind.records };

    ghost undone = { either_undone L.Kind.undone R.Kind.undone };

    ghost rowed = { map_either L.Kind.rowed R.Kind.rowed };

    ghost reads = { either_reads L.Kind.reads R.Kind.reads };

    ghost class_stays = { Prim.search rules };

    ghost read_stays = { elim [
      | Left l ↦ λ o e. ap Left (L.Kind.read_stays l o e)
      | Right r ↦ λ o e. ap Right (R.Kind.read_stays r o e)
    ] };

    ghost unknown_stays = { elim [
      | Left l ↦ λ o e. ap (lifted Left) (L.Kind.unknown_stays l o e)
      | Right r ↦ λ o e. ap (lifted Right) (R.Kind.unknown_stays r o e)
    ] };

    ghost no_stays = { elim [
      | Left l ↦ λ o e. ap Left (L.Kind.no_stays l o e)
      | Right r ↦ λ o e. ap Right (R.Kind.no_stays r o e)
    ] };

    ghost misfit_unknown = { elim [
      | Left l ↦ λ o e. L.Kind.misfit_unknown l o e
      | Right r ↦ λ o e. R.Kind.misfit_unknown r o e
    ] };

    ghost undo_restores = { elim [
      | Left l ↦ λ o e. ap Left (L.Kind.undo_restores l o e)
      | Right r ↦ λ o e. ap Right (R.Kind.undo_restores r o e)
    ] };

    ghost row_reads = { Prim.search rules };

    ghost reads_row = { elim [
      | Left l ↦
          elim [
            | Left u ↦ λ e. ap Left (L.Kind.reads_row l u (left_some (L.Kind.reads u) l e))
            | Right v ↦ λ e. absurd (right_not_left (R.Kind.reads v) l e)
          ]
      | Right r ↦
          elim [
            | Left u ↦ λ e. absurd (left_not_right (L.Kind.reads u) r e)
            | Right v ↦ λ e. ap Right (R.Kind.reads_row r v (right_some (R.Kind.reads v) r e))
          ]
    ] };

    ghost same_row = { Prim.search rules };

    fn class(self, operation: Operation) -> Class {
        for_both!(self, state => state.class(operation))
    }

    // The sides are put back by closures: the check covers no bare constructor of a generic enum there.
    fn act(self, operation: Operation) -> Outcome<Either<L, R>> {
        match self {
            Either::Left(left) => left.act(operation).map(|next| Either::Left(next)),
            Either::Right(right) => right.act(operation).map(|next| Either::Right(next)),
        }
    }

    fn undo_record(self, operation: Operation) -> Either<L::Undo, R::Undo> {
        map_both!(self, state => state.undo_record(operation))
    }

    fn undo(self, record: Either<L::Undo, R::Undo>) -> Either<L, R> {
        match (self, record) {
            (Either::Left(left), Either::Left(undo)) => Either::Left(left.undo(undo)),
            (Either::Right(right), Either::Right(undo)) => Either::Right(right.undo(undo)),
            (other, _) => other,
        }
    }

    fn row(self) -> Either<L::Row, R::Row> {
        map_both!(self, state => state.row())
    }

    // By closures, as `act`.
    fn from_row(row: Either<L::Row, R::Row>) -> Option<Either<L, R>> {
        match row {
            Either::Left(left) => L::from_row(left).map(|state| Either::Left(state)),
            Either::Right(right) => R::from_row(right).map(|state| Either::Right(state)),
        }
    }
}
