// What a step answers, as a line: the slot's, or the refusal's.
ghost use Rattle.lines.specs.Promise.{AnswerLinePromise};

use crate::Line;
use crate::refused::refusal_line;
use crate::slot::slot_line;
use job::Refusal;
use run::Slot;

pub fn answer_line(number: u32, answer: Result<Slot, Refusal>) -> Line
    ensures { AnswerLinePromise number answer result }
{
    match answer {
        Ok(slot) => slot_line(number, slot),
        Err(refusal) => refusal_line(refusal),
    }
}
