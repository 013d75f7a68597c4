// A job in a run, and how far its window has come.
ghost use Rattle.place.specs.Promise.{BlankPromise, OpenedPromise};
ghost use Rattle.std.specs.Prelude.{◌≡◌};
ghost use Rattle.place.specs.Opening.{unserved_in};

use job::Job;

// e slots gone in the period, which is the window's p-th; the service so far: u slots of this
// window (relaxed), or s finished in this window and v slots of this period (original); the tag.
#[derive(Clone, Copy, Debug, PartialEq, Eq)]
pub struct Progress {
    pub e: u32,
    pub p: u32,
    pub u: u32,
    pub s: u32,
    pub v: u32,
    pub tag: bool,
}

#[derive(Clone, Copy, Debug, PartialEq, Eq)]
pub struct Place {
    pub job: Job,
    pub at: Progress,
}

impl Place {
    // A job in period p with no slot gone, no service and no tag.
    fn unserved_in(job: Job, p: u32) -> Place
        ensures { result ≡ unserved_in job p }
    {
        Place {
            job,
            at: Progress {
                e: 0,
                p,
                u: 0,
                s: 0,
                v: 0,
                tag: false,
            },
        }
    }

    // A place of no job.
    pub fn blank() -> Place
        ensures { BlankPromise result }
    {
        Place::unserved_in(Job::none(), 0)
    }

    // A job at the opening of its window.
    pub fn opened(job: Job) -> Place
        ensures { OpenedPromise job result }
    {
        Place::unserved_in(job, 1)
    }
}
