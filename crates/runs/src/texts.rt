// What is printed of answers.
ghost use Rattle.std.specs.Prelude.{Some};
ghost use Rattle.runs.specs.Texts.{answer_text, declined_text};

use crate::{Answer, Declined};
use std::error::Error;
use std::fmt;

impl fmt::Display for Answer {
    ghost output = { λ answer. Some (answer_text answer) };

    fn fmt<W: fmt::Write>(&self, f: &mut fmt::Formatter<W>) -> fmt::Result {
        match self {
            Answer::Done => write!(f, "done"),
            Answer::Block(bytes) => {
                let first = bytes[0];
                write!(f, "block {first}")
            }
            Answer::Number(n) => write!(f, "number {n}"),
            Answer::Counts(mended, refused, absent) => {
                write!(f, "counts {mended} {refused} {absent}")
            }
            Answer::Order(slot) => write!(f, "order {slot}"),
        }
    }
}

impl fmt::Display for Declined {
    ghost output = { λ declined. Some (declined_text declined) };

    fn fmt<W: fmt::Write>(&self, f: &mut fmt::Formatter<W>) -> fmt::Result {
        match self {
            Declined::Refused(refusal) => {
                let number = refusal.number();
                write!(f, "refused {number}")
            }
            Declined::NoOrder => write!(f, "no order"),
        }
    }
}

impl Error for Declined {}
