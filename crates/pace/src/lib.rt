// The fill with spare on or off, for the benchmark and the comparisons alone. It is no part of the
// C entries: 'the C entry keeps spare off'.
#![tactic(auto)]

ghost use Rattle.std.specs.Prelude.{not, eqb};
ghost use Rattle.place.specs.Setting.{setting_of, with_spare};
ghost use Rattle.entry.specs.Promise.{FillNumberPromise};

use job::number_of;
use place::Setting;

// Spare is on exactly if its number is not 0.
#[unsafe(no_mangle)]
pub extern "C" fn filbertoss_pace(
    jobs: &[u8],
    order: u32,
    model: u32,
    spare: u32,
    buf: &mut [u8],
    offset: usize,
    n: usize,
) -> u32
    ensures { FillNumberPromise jobs.now (with_spare (setting_of order model) (not (eqb spare 0))) buf.old offset n result buf.new }
{
    let setting = Setting {
        order,
        model,
        spare: spare != 0,
    };
    number_of(entry::fill(jobs, setting, buf, offset, n))
}
