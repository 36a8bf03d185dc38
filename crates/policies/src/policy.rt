// A policy: a number of requests, and what is decided of each.
ghost use Rattle.std.specs.Prelude.{◌≡◌};
ghost use Rattle.policies.specs.Policies.{Meaning, decided};

use rules::Effect;

pub trait Policy {
    // How many requests it has, and what it decides of them.
    ghost meaning: { Self → Meaning };

    // How many requests there are.
    fn requests(&self) -> usize
        ensures { result ≡ (meaning self.now).requests };

    // The decision of a request by its number; none where there is no such request.
    fn decide(&self, request: usize) -> Option<Effect>
        ensures { result ≡ decided (meaning self.now) request };
}

// A policy that is lent is a policy.
impl<'a, P: Policy> Policy for &'a P {
    ghost meaning = { λ p. P.Policy.meaning p.now };

    fn requests(&self) -> usize {
        (*self).requests()
    }

    fn decide(&self, request: usize) -> Option<Effect> {
        (*self).decide(request)
    }
}
