// How a run is run: its order and its service model, and whether spare slots are given away. Order and
// model are numbers and no enums: a state of any content can be handed in and refused (rows 10 and 15),
// and `AllowedAnswers` speaks of every number.
ghost use Rattle.std.specs.Prelude.{◌≡◌};
ghost use Rattle.place.specs.Setting.{by_units};
ghost use Rattle.place.specs.Promise.{MadePromise, AllowedPromise};

use job::Job;

#[derive(Clone, Copy, Debug, PartialEq, Eq)]
pub struct Setting {
    pub order: u32,
    pub model: u32,
    pub spare: bool,
}

impl Setting {
    // 'Order 0 is V, 1 is W'; the model's numbers stand at `Job`.
    pub const V: u32 = 0;

    pub const W: u32 = 1;

    // A setting of any two numbers, with spare off.
    pub fn of(order: u32, model: u32) -> Setting
        ensures { MadePromise order model result }
    {
        Setting {
            order,
            model,
            spare: false,
        }
    }

    // Row 15.
    pub fn allowed(self) -> bool
        ensures { AllowedPromise self result }
    {
        (self.order <= Setting::W) & (self.model <= Job::ORIGINAL)
    }

    // How service is kept: by units, or by instances. Each question of a place asks it, and there is no
    // trait of the models or orders: they are numbers in the state, and a loop for each would be longer.
    // Lent, since a copy would be read in words of two numbers in the slot loops.
    pub(crate) fn by_units(&self) -> bool
        ensures { result ≡ by_units self.now }
    {
        self.model == Job::RELAXED
    }
}
