// What is answered of each job of a list.
use job::JobList;

// One job: the windows that a cycle has, how many of them end short, and the first slot in which
// one does, or none.
#[derive(Clone, Copy, Debug, PartialEq, Eq)]
pub struct Below {
    pub windows: u32,
    pub short: u32,
    pub first: Option<u32>,
}

// The answer for a list, in fixed memory: `fallen` jobs fall below their part. Past the last job every
// number is 0 and no slot is named.
#[derive(Clone, Copy, Debug, PartialEq, Eq)]
pub struct Judgement {
    pub fallen: usize,
    pub jobs: [Below; JobList::COUNT_MOST],
}
