// The numbered refusals of document 01, every row once, with the values that the row names.
ghost use Rattle.job.specs.Promise.{AnswerNumberPromise, RefusalNumberPromise};

#[derive(Clone, Copy, Debug, PartialEq, Eq)]
pub enum Refusal {
    // 1
    NoJobs,
    // 2
    TooManyJobs,
    // 3: T
    Period { job: usize },
    // 4: C
    Service { job: usize },
    // 5: k
    Window { job: usize },
    // 6: m
    Share { job: usize },
    // 7
    OriginalModel,
    // 8
    CycleTooLong,
    // 9
    Overload { cycle: u64, load: u64 },
    // 10
    StateOutOfRange,
    // 11
    ClockAtLimit,
    // 12
    BufferTooShort,
    // 13
    SheetForm { place: usize },
    // 14
    JobBytes,
    // 15
    OrderOrModel,
    // 16
    SlotCount,
    // 17
    SheetTooLong,
}

impl Refusal {
    // The row's number. A method and no `From`: `u32::from(refusal)` would not say which number.
    pub fn number(self) -> u32
        ensures { RefusalNumberPromise self result }
    {
        match self {
            Refusal::NoJobs => 1,
            Refusal::TooManyJobs => 2,
            Refusal::Period { job: _ } => 3,
            Refusal::Service { job: _ } => 4,
            Refusal::Window { job: _ } => 5,
            Refusal::Share { job: _ } => 6,
            Refusal::OriginalModel => 7,
            Refusal::CycleTooLong => 8,
            Refusal::Overload { cycle: _, load: _ } => 9,
            Refusal::StateOutOfRange => 10,
            Refusal::ClockAtLimit => 11,
            Refusal::BufferTooShort => 12,
            Refusal::SheetForm { place: _ } => 13,
            Refusal::JobBytes => 14,
            Refusal::OrderOrModel => 15,
            Refusal::SlotCount => 16,
            Refusal::SheetTooLong => 17,
        }
    }
}

// 0, or the row's number, as the C entries return it. A `From` for a `Result` cannot be written here.
pub fn number_of<T: Copy>(answer: Result<T, Refusal>) -> u32
    ensures { AnswerNumberPromise answer result }
{
    match answer {
        Ok(_) => 0,
        Err(refusal) => refusal.number(),
    }
}
