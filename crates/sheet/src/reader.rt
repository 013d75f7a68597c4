// Reading a sheet byte by byte: where the reader stands, which byte may come next, and what it makes
// of it.
ghost use Rattle.std.specs.Prelude.{◌≡◌, true};
ghost use Rattle.sheet.specs.Reader.{SoundReader, start_reader, letter_field, letter_fits, digit_fits, own_byte, end_byte, spare_next, ends_field, fits_of, value_after, pushed_of, field_after, stored_of, advanced_of, between_lines};

use crate::reading::Sheet;
use job::{Job, JobList};

// The fields of the first line, and the four of a job's line.
#[derive(Clone, Copy, Debug, PartialEq, Eq)]
pub enum Field {
    Order,
    Model,
    Slots,
    // The S after the slot count.
    Spare,
    C,
    T,
    M,
    K,
}

impl Field {
    // Whether one letter is all of the field.
    fn is_letter(self) -> bool
        ensures { result ≡ letter_field self }
    {
        matches!(self, Field::Order | Field::Model | Field::Spare)
    }

    // 'V or W', 'R (relaxed) or O (original)', 'an optional S'.
    fn takes_letter(self, byte: u8) -> bool
        ensures { result ≡ letter_fits self byte }
    {
        match self {
            Field::Order => byte == b'V' || byte == b'W',
            Field::Model => byte == b'R' || byte == b'O',
            Field::Spare => byte == b'S',
            _ => false,
        }
    }

    // 'Single spaces, each line ended by a line feed': what ends the field.
    fn end_byte(self) -> u8
        ensures { result ≡ end_byte self }
    {
        match self {
            Field::Slots | Field::Spare | Field::K => b'\n',
            _ => b' ',
        }
    }

    // Whether the byte ends the slot count and 'an optional S' comes next.
    fn spare_next(self, byte: u8) -> bool
        ensures { result ≡ spare_next self byte }
    {
        self == Field::Slots && byte == b' '
    }

    fn ends_at(self, byte: u8) -> bool
        ensures { result ≡ ends_field self byte }
    {
        self.spare_next(byte) || byte == self.end_byte()
    }

    // The field that comes after the byte which ends this one.
    fn after(self, byte: u8) -> Field
        ensures { result ≡ field_after self byte }
    {
        match self {
            Field::Order => Field::Model,
            Field::Model => Field::Slots,
            Field::Slots if byte == b' ' => Field::Spare,
            Field::Slots | Field::Spare | Field::K => Field::C,
            Field::C => Field::T,
            Field::T => Field::M,
            Field::M => Field::K,
        }
    }
}

// `digits` bytes of the field are read, and `value` is what they say.
#[derive(Clone, Copy)]
pub struct Reader {
    pub field: Field,
    pub digits: u32,
    pub value: u32,
    pub job: Job,
    pub sheet: Sheet,
}

// The list with one job more. Jobs past the sixteenth are counted and not kept; the list that they
// make is refused, so a count that can grow no more may stay.
#[tactic(auto, unfolding(crate::specs::Reader::pushed_of))]
fn pushed(mut list: JobList, job: Job) -> JobList
    ensures { result ≡ pushed_of list job }
{
    if list.count < JobList::COUNT_MOST {
        list.jobs[list.count] = job;
    }
    list.count = list.count.saturating_add(1);
    list
}

impl Reader {
    // Before the first byte.
    pub fn start() -> Reader
        ensures { result ≡ start_reader }
    {
        Reader {
            field: Field::Order,
            digits: 0,
            value: 0,
            job: Job::none(),
            sheet: Sheet::blank(),
        }
    }

    // 'Numbers are 0 or up to 5 digits with no leading zero': whether one more digit may come.
    fn takes_digit(self, byte: u8) -> bool
        ensures { result ≡ digit_fits self.digits self.value byte }
    {
        byte.is_ascii_digit() && (self.digits == 0 || (0 < self.value && self.digits < 5))
    }

    // Whether the byte is one more of the field itself.
    #[tactic(auto, unfolding(crate::specs::Reader::own_byte))]
    fn owns(self, byte: u8) -> bool
        ensures { result ≡ own_byte self byte }
    {
        if self.field.is_letter() {
            return self.digits == 0 && self.field.takes_letter(byte);
        }
        self.takes_digit(byte)
    }

    // Whether some sheet goes on with the byte.
    #[tactic(auto, unfolding(crate::specs::Reader::fits_of))]
    pub fn fits(self, byte: u8) -> bool
        ensures { result ≡ fits_of self byte }
    {
        self.owns(byte) || (0 < self.digits && self.field.ends_at(byte))
    }

    // The value of the field with one more byte of its own.
    #[tactic(auto, unfolding(crate::specs::Reader::own_byte, crate::specs::Reader::value_after))]
    fn value_after(self, byte: u8) -> u32
        requires sound_reader { SoundReader self }
        requires byte_value { own_byte self byte ≡ true }
        ensures { result ≡ value_after self byte }
    {
        if self.field.is_letter() {
            return u32::from(byte == b'W' || byte == b'O');
        }
        self.value * 10 + u32::from(byte - b'0')
    }

    // What a field leaves that the byte ends: its value in its place, and the next field.
    #[tactic(auto, unfolding(crate::specs::Reader::stored_of))]
    fn stored(self, byte: u8) -> Reader
        ensures { result ≡ stored_of self byte }
    {
        let value = self.value;
        let mut next = Reader {
            field: self.field.after(byte),
            digits: 0,
            value: 0,
            ..self
        };
        match self.field {
            Field::Order => next.sheet.setting.order = value,
            Field::Model => next.sheet.setting.model = value,
            Field::Slots => next.sheet.slots = value,
            Field::Spare => next.sheet.setting.spare = true,
            Field::C => next.job.c = value,
            Field::T => next.job.t = value,
            Field::M => next.job.m = value,
            Field::K => {
                next.job.k = value;
                next.sheet.list = pushed(next.sheet.list, next.job);
            }
        }
        next
    }

    #[tactic(auto, unfolding(crate::specs::Reader::advanced_of))]
    pub(crate) fn advanced(self, byte: u8) -> Reader
        requires { SoundReader self }
        ensures { result ≡ advanced_of self byte }
    {
        if self.owns(byte) {
            return Reader {
                digits: self.digits + 1,
                value: self.value_after(byte),
                ..self
            };
        }
        self.stored(byte)
    }

    // Whether a sheet may end here.
    pub fn between_lines(self) -> bool
        ensures { result ≡ between_lines self }
    {
        self.field == Field::C && self.digits == 0
    }
}
