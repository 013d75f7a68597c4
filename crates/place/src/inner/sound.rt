// A place in its ranges, with the setting that it is run under: what one slot is asked of.
ghost use Rattle.place.specs.Sound.{SoundPlace};

use crate::record::Place;
use crate::setting::Setting;

#[derive(Clone, Copy)]
pub struct Sound {
    pub setting: Setting,
    pub place: Place,
    ghost sound: { SoundPlace setting place },
}
