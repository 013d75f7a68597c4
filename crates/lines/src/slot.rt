// 'a line per slot: slot number, job or -, then t and number for each first tag, s and number for
// each short window, each after a space, ascending'
ghost use Rattle.lines.specs.Promise.{SlotLinePromise};

use crate::Line;
use crate::parts::{put_choice, put_set};
use run::Slot;

#[tactic(auto, using(crate::proofs::LengthLaws::parts), unfolding(crate::specs::Slot::slot_text))]
pub fn slot_line(number: u32, slot: Slot) -> Line
    ensures { SlotLinePromise number slot result }
{
    let mut line = Line::new();
    line.put_decimal(u64::from(number));
    line.put(b" ");
    put_choice(&mut line, slot.choice);
    put_set(&mut line, b" t", slot.tags);
    put_set(&mut line, b" s", slot.shorts);
    line.put(b"\n");
    line
}
