// What a role set has as members, and turning a whole set.
ghost use Rattle.std.specs.Prelude.{◌≡◌, refl};
ghost use Rattle.std.proofs.Common.{lit≤, mod-eq_of_lt};
ghost use Rattle.numbers.specs.Roles.{turn, role_number};
ghost use Rattle.numbers.specs.declared.role.DirectedRole.{DirectedRole};
ghost use Rattle.numbers.specs.RoleSets.{role_word, role_has, role_covers, word_turned, turned_set};
ghost use Rattle.numbers.specs.SetsLawful.{same_roles};

use super::RoleSet;
use crate::role::{DirectedRole, Role};
use crate::word_set::WordSet;

impl WordSet for RoleSet {
    type Item = DirectedRole;

    const WIDTH: u8 = 32;

    ghost WIDTH = { 32 };

    ghost word = { λ s. s.bits };

    ghost of_word = { role_word };

    ghost number = { role_number };

    ghost narrow = { lit≤ tt };

    ghost small = { λ s. s.small };

    ghost kept = { λ x h. mod-eq_of_lt h };

    ghost known = { same_roles };

    ghost compared = { λ a b. refl };

    fn word(self) -> u64 {
        self.bits as u64
    }

    fn of_word(bits: u64) -> RoleSet {
        RoleSet {
            bits: (bits % (1 << 32)) as u32,
        }
    }

    fn number(item: DirectedRole) -> u8 {
        match item {
            DirectedRole::Forward(Role(n @ 1..=16)) => n,
            DirectedRole::Backward(Role(n @ 1..=16)) => 16 + n,
            _ => 0,
        }
    }
}

// The word whose two halves have changed places.
fn exchanged(bits: u32) -> u32
    ensures { result ≡ word_turned bits }
{
    (bits >> 16) | (bits << 16)
}

impl RoleSet {
    // The set of the same roles, each read in the other direction.
    pub fn turned(self) -> RoleSet
        ensures value { result ≡ turned_set self }
        ensures members { (role : DirectedRole) → role_has result (role_number role) ≡ role_has self (role_number (turn role)) }
        ensures back { turned_set result ≡ self }
        ensures inclusion { (other : RoleSet) → role_covers result (turned_set other) ≡ role_covers self other }
    {
        RoleSet {
            bits: exchanged(self.bits),
        }
    }
}
