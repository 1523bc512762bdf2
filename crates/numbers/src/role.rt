// A role by its number, and a role with the direction in which it is read.
ghost use Rattle.std.specs.Prelude.{◌≡◌, Some};
ghost use Rattle.numbers.specs.Roles.{turn, is_role, role_up_to, role_text};

use std::fmt;

// The roles that mean something have the numbers 1 to 16; the calls that are given a role test that.
#[derive(Clone, Copy, PartialEq, Eq, Debug)]
pub struct Role(pub u8);

// A role read forward, or backward as its inverse.
#[derive(Clone, Copy, PartialEq, Eq, Debug)]
pub enum DirectedRole {
    Forward(Role),
    Backward(Role),
}

// The role's number behind the letter S, and a minus before both where it is read backward.
impl fmt::Display for DirectedRole {
    ghost output = { λ r. Some (role_text r) };

    fn fmt<W: fmt::Write>(&self, f: &mut fmt::Formatter<W>) -> fmt::Result {
        match self {
            DirectedRole::Forward(Role(n)) => write!(f, "S{n}"),
            DirectedRole::Backward(Role(n)) => write!(f, "-S{n}"),
        }
    }
}

impl DirectedRole {
    // Whether the number is one that a role may have.
    pub fn in_range(self) -> bool
        ensures { result ≡ is_role self }
    {
        self.up_to(16)
    }

    // Whether the number is from 1 to n.
    pub fn up_to(self, n: u8) -> bool
        ensures { result ≡ role_up_to n self }
    {
        let (DirectedRole::Forward(role) | DirectedRole::Backward(role)) = self;
        (1..=n).contains(&role.0)
    }

    // The same role read in the other direction.
    pub fn turned(self) -> DirectedRole
        ensures value { result ≡ turn self }
        ensures back { turn result ≡ self }
    {
        match self {
            DirectedRole::Forward(role) => DirectedRole::Backward(role),
            DirectedRole::Backward(role) => DirectedRole::Forward(role),
        }
    }
}
