// A whole sheet. Tests 17, 13, 16, 1 to 6.
ghost use Rattle.std.specs.Prelude.{◌≡◌, IfOk};
ghost use Rattle.job.specs.Told.{told_checked};
ghost use Rattle.sheet.specs.Sheet.{sheet_told};
ghost use Rattle.sheet.specs.Promise.{BlankPromise, ReadPromise};

use crate::reader::Reader;
use job::{JobList, Refusal};
use place::Setting;

#[derive(Clone, Copy)]
pub struct Sheet {
    pub setting: Setting,
    pub slots: u32,
    pub list: JobList,
}

impl Sheet {
    // 'sheet over 4,096 bytes' and 'slot count 0 or above 4,096' are refused.
    pub const BYTES_MOST: usize = 4096;

    pub const SLOTS_MOST: u32 = 4096;

    // The sheet of all zeros, which a reader fills.
    pub fn blank() -> Sheet
        ensures { BlankPromise result }
    {
        Sheet {
            setting: Setting::of(0, 0),
            slots: 0,
            list: JobList::empty(0),
        }
    }

    // What a sheet of the stated form holds: 16, then 1 to 6.
    #[tactic(auto, unfolding(crate::specs::Sheet::sheet_told))]
    fn checked(self) -> Result<Sheet, Refusal>
        ensures told { told_checked result ≡ sheet_told self }
        ensures same { IfOk result (λ sheet. sheet ≡ self) }
    {
        if self.slots == 0 || Sheet::SLOTS_MOST < self.slots {
            return Err(Refusal::SlotCount);
        }
        self.list.check()?;
        Ok(self)
    }
}

// No `TryFrom`: its promise would have no name.
pub fn read(bytes: &[u8]) -> Result<Sheet, Refusal>
    ensures { ReadPromise bytes.now result }
{
    if Sheet::BYTES_MOST < bytes.len() {
        return Err(Refusal::SheetTooLong);
    }
    let mut reader = Reader::start();
    for (at, &byte) in bytes.iter().enumerate() {
        if !reader.fits(byte) {
            return Err(Refusal::SheetForm { place: at });
        }
        reader = reader.advanced(byte);
    }
    if !reader.between_lines() {
        let place = bytes.len();
        return Err(Refusal::SheetForm { place });
    }
    reader.sheet.checked()
}
