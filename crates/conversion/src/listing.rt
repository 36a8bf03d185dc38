// The defined list, written into the slots from its floors.
ghost use Rattle.std.specs.Prelude.{◌≡◌, ◌<◌, map, length};
ghost use Rattle.expressiveness.specs.Floors.{floor_rule};
ghost use Rattle.conversion.specs.Flags.{raised};

use crate::flags::Flags;
use crate::order::Order;
use rules::{Effect, Rule};

impl Order {
    // How many flags are up.
    pub(crate) fn count(&self, flags: &Flags) -> usize
        ensures { result ≡ length (raised flags.now self.now.total) }
    {
        (0..self.total).filter(|r| flags.has(*r)).count()
    }

    // The floor rule whose floor is a request.
    fn floor_rule(&self, effect: Effect, floor: usize) -> Rule
        requires { floor < self.now.total }
        ensures { result ≡ floor_rule self.now.conditions effect floor }
    {
        let request = self.request(floor);
        Rule {
            effect,
            needed: request.set,
            barred: 0,
            floor: request.post,
            barred_posts: 0,
        }
    }

    // Writes the rules of the floors that are flagged into slots, which are as many.
    pub(crate) fn put_rules(&self, effect: Effect, floors: &Flags, slots: &mut [Rule])
        requires { length slots.old ≡ length (raised floors.now self.now.total) }
        ensures { slots.new ≡ map (floor_rule self.now.conditions effect) (raised floors.now self.now.total) }
    {
        // by their places: what a loop over `slots.iter_mut().zip(..)` writes is not known after it
        for (place, floor) in (0..self.total).filter(|r| floors.has(*r)).enumerate() {
            slots[place] = self.floor_rule(effect, floor);
        }
    }
}
