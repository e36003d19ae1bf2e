// Entries, replies and closing states in script words.
ghost use Rattle.std.specs.Prelude.{Some};
ghost use Rattle.first_count.specs.Telling.{operation_text, answer_text, reply_text, line_text};

use crate::enter::{Entry, Refusal, Reply};
use either::Either;
use kinds::answer::Answer;
use kinds::join::Object;
use kinds::kind::Kind;
use kinds::operation::Operation;
use kinds::queue::{FRONT, NEXT, PUT};
use kinds::roll::{self, FIND, MARK};
use kinds::short_list::ShortList;
use kinds::tally::{ADD, SHOW, TAKE};
use std::fmt;

// An entry with what was told of it.
#[derive(Clone, Copy)]
pub struct Line {
    pub entry: Entry,
    pub reply: Result<Reply, Refusal>,
}

// An object with its number.
#[derive(Clone, Copy)]
pub struct Closing {
    pub number: usize,
    pub object: Object,
}

// A value whose type is from elsewhere, in words.
#[derive(Clone, Copy)]
struct Words<T>(T);

impl fmt::Display for Line {
    ghost output = { λ line. Some (line_text line.entry line.reply) };

    fn fmt<W: fmt::Write>(&self, f: &mut fmt::Formatter<W>) -> fmt::Result {
        let operation = Words(self.entry.operation);
        write!(f, "{} {operation}: ", self.entry.object)?;
        match self.reply {
            Ok(reply) => write!(f, "{reply}"),
            Err(refusal) => write!(f, "{refusal}"),
        }
    }
}

impl fmt::Display for Closing {
    fn fmt<W: fmt::Write>(&self, f: &mut fmt::Formatter<W>) -> fmt::Result {
        write!(f, "{} ", self.number)?;
        match self.object {
            Either::Left(tally) => write!(f, "TALLY {}", tally.row()),
            Either::Right(Either::Left(queue)) => write!(f, "QUEUE{}", Words(queue.row())),
            Either::Right(Either::Right(roll)) => write!(f, "ROLL{}", Words(roll.row())),
        }
    }
}

// The word of an operation and the numbers that it uses. By the code, since words are read and
// written without regard to the kind of the object.
impl fmt::Display for Words<Operation> {
    ghost output = { λ operation. Some (operation_text operation.0) };

    fn fmt<W: fmt::Write>(&self, f: &mut fmt::Formatter<W>) -> fmt::Result {
        let Operation {
            code,
            first,
            second,
        } = self.0;
        match code {
            SHOW => write!(f, "SHOW"),
            ADD => write!(f, "ADD {first}"),
            TAKE => write!(f, "TAKE {first}"),
            FRONT => write!(f, "FRONT"),
            PUT => write!(f, "PUT {first}"),
            NEXT => write!(f, "NEXT"),
            FIND => write!(f, "FIND {first}"),
            MARK => write!(f, "MARK {first} {second}"),
            code => write!(f, "{code} {first} {second}"),
        }
    }
}

impl fmt::Display for Words<Answer> {
    ghost output = { λ answer. Some (answer_text answer.0) };

    fn fmt<W: fmt::Write>(&self, f: &mut fmt::Formatter<W>) -> fmt::Result {
        match self.0 {
            Some(number) => write!(f, "yes {number}"),
            None => write!(f, "no"),
        }
    }
}

impl fmt::Display for Reply {
    ghost output = { λ reply. Some (reply_text reply) };

    fn fmt<W: fmt::Write>(&self, f: &mut fmt::Formatter<W>) -> fmt::Result {
        match *self {
            Reply::Answered(answer) => write!(f, "{}", Words(answer)),
            Reply::Undone(answer) => write!(f, "{}, undone", Words(answer)),
        }
    }
}

impl fmt::Display for Words<u32> {
    fn fmt<W: fmt::Write>(&self, f: &mut fmt::Formatter<W>) -> fmt::Result {
        write!(f, "{}", self.0)
    }
}

// A key with its number.
impl fmt::Display for Words<roll::Entry> {
    fn fmt<W: fmt::Write>(&self, f: &mut fmt::Formatter<W>) -> fmt::Result {
        write!(f, "{} {}", self.0.key, self.0.number)
    }
}

// The items in their order, with a space before each.
impl<T: Copy> fmt::Display for Words<ShortList<T>>
where
    Words<T>: fmt::Display,
{
    fn fmt<W: fmt::Write>(&self, f: &mut fmt::Formatter<W>) -> fmt::Result {
        for item in self.0.items() {
            write!(f, " {}", Words(*item))?;
        }
        Ok(())
    }
}
