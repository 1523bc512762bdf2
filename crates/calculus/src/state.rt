// What has been worked out: contexts, the needs that belong to them, and the results that add to them.
ghost use Rattle.std.specs.Prelude.{◌≡◌, false};

use numbers::role_set::RoleSet;

// A set of terms, what every thing that carries the set is known to carry too, and whether no thing can carry it.
#[derive(Clone, Copy)]
pub struct Context<S> {
    pub set: S,
    pub held: S,
    pub void: bool,
}

impl<S: Copy> Context<S> {
    // A context of a set of which nothing else is known yet: it holds its set, and it is not void.
    pub fn new(set: S) -> Context<S>
        ensures set { result.set ≡ set }
        ensures held { result.held ≡ set }
        ensures void { result.void ≡ false }
    {
        Context {
            set,
            held: set,
            void: false,
        }
    }
}

// From every thing that carries the set of a context, all these roles lead to one thing that carries all these
// terms. The context is given by its place, counted from 0.
#[derive(Clone, Copy)]
pub struct Need<S> {
    pub context: u16,
    pub roles: RoleSet,
    pub terms: S,
}

// A result of a rule.
#[derive(Clone, Copy)]
pub enum Finding<S> {
    // a context with this set
    Fresh { set: S },
    // these terms join the held terms of the context
    Held { context: u16, terms: S },
    // no thing carries the context's set
    Void { context: u16 },
    // a need
    Needed { need: Need<S> },
}
