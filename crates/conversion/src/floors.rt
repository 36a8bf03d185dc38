// The floors of the list that decides as a policy does, or what stands in its way, from the requests that are led.
ghost use Rattle.std.specs.Prelude.{ℕ, ◌<◌, true, false, Err, MatchOption};
ghost use Rattle.expressiveness.specs.Order.{Least, Minimal};
ghost use Rattle.rules.specs.Models.{default_overrides};
ghost use Rattle.conversion.specs.Flags.{Up};
ghost use Rattle.conversion.specs.Beyond.{Beyond, OverIn};
ghost use Rattle.conversion.specs.Shapes.{AnyStep, FirstBeyond, Flagged, In, Lower, Shaped};

use crate::around::Around;
use crate::flags::Flags;
use crate::order::Order;
use crate::refusal::Unconverted;
use crate::side::Side;
use rules::Model;

// The floors of the lead rules and of the counter rules, a flag for each request.
#[derive(Clone, Copy)]
pub(crate) struct FloorFlags {
    pub(crate) lead: Flags,
    pub(crate) counter: Flags,
}

impl Order {
    // The first request whose flag is up.
    pub(crate) fn first_up(&self, flags: &Flags) -> Option<usize>
        ensures { MatchOption result ((x : ℕ) → x < self.now.total → Up flags.now x → ⊥) (λ x. (x < self.now.total) × Least (Up flags.now) x) }
    {
        (0..self.total).find(|x| flags.has(*x))
    }

    // The first of a set on one side of a request.
    pub(crate) fn first_beyond(&self, side: Side, x: usize, members: &Flags) -> Option<usize>
        requires { x < self.now.total }
        ensures { MatchOption result ((y : ℕ) → Beyond self.now side x y → Up members.now y → ⊥) (FirstBeyond self.now side x members.now) }
    {
        (0..self.total).find(|y| members.has(*y) && self.is_beyond(side, x, *y))
    }

    // The lowest of a set: those with none of it below them.
    pub(crate) fn lowest(&self, members: &Flags) -> Flags
        ensures { Flagged self.now (Minimal (OverIn self.now) (In self.now members.now)) result }
    {
        members & &!&self.beyond(Side::Below, members)
    }

    // The lower requests of steps: led, with one above that is not.
    fn lowers(&self, led: &Flags) -> Flags
        ensures { Flagged self.now (Lower self.now led.now) result }
    {
        led & &self.beyond(Side::Above, &!led)
    }

    // The first step.
    fn first_step(&self, led: &Flags) -> Option<Unconverted>
        ensures { MatchOption result (AnyStep self.now led.now → ⊥) (λ step. Shaped self.now false led.now (Err step)) }
    {
        let lower = self.first_up(&self.lowers(led))?;
        let unled = !led;
        let upper = self.first_beyond(Side::Above, lower, &unled)?;
        Some(Unconverted::Step { upper, lower })
    }

    // The floors where the lead effect overrides, or the first step.
    fn upward_floors(&self, led: &Flags) -> Result<FloorFlags, Unconverted>
        ensures { Shaped self.now false led.now result }
    {
        // a refusal where there is something: `ok_or` goes the other way
        if let Some(step) = self.first_step(led) {
            return Err(step);
        }
        Ok(FloorFlags {
            lead: self.lowest(led),
            counter: Flags::none(),
        })
    }

    // The floors where the default overrides, or the first gap.
    fn convex_floors(&self, led: &Flags) -> Result<FloorFlags, Unconverted>
        ensures { Shaped self.now true led.now result }
    {
        Around {
            order: self,
            led,
            above: &self.beyond(Side::Above, led),
            below: &self.beyond(Side::Below, led),
        }
        .floors()
    }

    // The floors of the defined list of a model, or what stands in its way.
    pub(crate) fn floors(&self, model: Model, led: &Flags) -> Result<FloorFlags, Unconverted>
        ensures { Shaped self.now (default_overrides model) led.now result }
    {
        if model.default_overrides() {
            self.convex_floors(led)
        } else {
            self.upward_floors(led)
        }
    }
}
