// What a session is opened with.
ghost use Rattle.std.specs.Prelude.{◌≡◌};
ghost use Rattle.session.specs.Opening.{opening, allowed};

use crate::refusal::Refusal;

// The numbers of terms and roles, and the lengths of the three tables.
#[derive(Clone, Copy)]
pub struct Sizes {
    pub terms: u8,
    pub roles: u8,
    pub axioms: usize,
    pub contexts: usize,
    pub needs: usize,
}

impl Sizes {
    // No terms, roles and places.
    pub const NONE: Sizes = Sizes {
        terms: 0,
        roles: 0,
        axioms: 0,
        contexts: 0,
        needs: 0,
    };

    // Whether a session can be opened with these.
    pub fn check(self) -> Result<(), Refusal>
        ensures { result ≡ opening self.terms self.roles self.axioms self.contexts self.needs }
    {
        if !(1..=64).contains(&self.terms) || self.roles > 16 {
            return Err(Refusal::Numbers);
        }
        if self.axioms > 2048 || self.contexts > 1024 || self.needs > 4096 {
            return Err(Refusal::TooLong);
        }
        Ok(())
    }

    // These, or none where no session can be opened with them.
    pub fn allowed(self) -> Sizes
        ensures { result ≡ allowed self }
    {
        match self.check() {
            Ok(()) => self,
            Err(_) => Sizes::NONE,
        }
    }
}
