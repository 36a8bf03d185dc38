// The contrary of a policy.
ghost use Rattle.policies.specs.Policies.{contrary};

use crate::policy::Policy;
use rules::Effect;

// Permits just the requests that the policy beneath denies.
#[derive(Drop)]
pub struct Contrary<P> {
    pub beneath: P,
}

impl<P: Policy> Policy for Contrary<P> {
    ghost meaning = { λ p. contrary (P.Policy.meaning p.beneath) };

    fn requests(&self) -> usize {
        self.beneath.requests()
    }

    fn decide(&self, request: usize) -> Option<Effect> {
        self.beneath.decide(request).map(|effect| !effect)
    }
}
