// The members of a set of small numbers, conditions or posts, of which member c is bit c.
ghost use Rattle.std.specs.Prelude.{◌≡◌};
ghost use Rattle.ladders.specs.Sets.{holds};

// Whether a set has a member.
pub fn has(set: u16, member: u8) -> bool
    ensures { result ≡ holds set member }
{
    u32::from(member) < u16::BITS && (set >> member) & 1 == 1
}
