// The theorems of the calculus, each on the contract of a function that does nothing else. They are stated for
// sets in words and proved over any make of term set.
ghost use Rattle.std.specs.Prelude.{◌≡◌, ℕ, ◌*◌, ◌<◌, ◌≤◌, Bool, List, [], ◌∷◌, ◌++◌, Some, None};
ghost use Rattle.numbers.specs.declared.term_set.TermSet.{TermSet};
ghost use Rattle.shelf.specs.declared.form.Form.{Form};
ghost use Rattle.calculus.specs.Makes.{words};
ghost use Rattle.calculus.specs.Potentials.{potential, step_bound};
ghost use Rattle.calculus.specs.Reached.{Reached, Regular};
ghost use Rattle.calculus.specs.Rules.{Due, Missing, Closed};
ghost use Rattle.calculus.specs.Search.{first_missing};
ghost use Rattle.calculus.specs.States.{State, added, with_axioms, with_rest};
ghost use Rattle.calculus.specs.Theorems.{Sound, Complete, LowestMissing};
ghost use Rattle.calculus.specs.declared.state.Finding.{Finding};
ghost use Rattle.calculus.specs.declared.state.Finding.TheVariants.{Fresh};

// Every state that is reached is regular.
pub fn regular()
    ensures { (s : State TermSet) → Reached words s → Regular words s }
{}

// What is stored in a state that is reached is true in every interpretation that obeys its axioms; adding a result that is
// due, a context of any set or any axiom keeps it so.
pub fn sound()
    ensures reached { (s : State TermSet) → Reached words s → Sound words s }
    ensures due { (s : State TermSet) (p : List ℕ) (r : Finding TermSet) → Reached words s → Due words s p r → Sound words s → Sound words (added words s r) }
    ensures fresh { (s : State TermSet) (t : TermSet) → Reached words s → Sound words s → Sound words (added words s (Fresh t)) }
    ensures taken { (s : State TermSet) (x : Form TermSet) → Sound words s → Sound words (with_axioms words s (s.axioms ++ (x ∷ []))) }
{}

// A closed state that is reached leaves out nothing: one interpretation that obeys all its axioms has, for every context
// that is not void, a thing that carries its set and of all terms exactly the held ones.
pub fn complete()
    ensures { (s : State TermSet) → Reached words s → Closed words s → Complete words s }
{}

// The search finds nothing exactly where the state is closed, and what it finds is due, missing and the lowest.
pub fn searched()
    ensures none { (s : State TermSet) → first_missing words s ≡ None → Closed words s }
    ensures closed { (s : State TermSet) → Closed words s → first_missing words s ≡ None }
    ensures lowest { (s : State TermSet) (r : Finding TermSet) → first_missing words s ≡ Some r → LowestMissing words s r }
{}

// What so many places hold, where each holds so much.
fn held_by(places: u16, each: u16) -> u32
    ensures { result ≡ places * each }
{
    places as u32 * each as u32
}

// What the places of contexts and needs hold together.
fn capacity(terms: u8, roles: u8, contexts: u16, needs: u16) -> u64
    ensures { result ≡ step_bound terms roles contexts needs }
{
    let in_contexts = held_by(contexts, terms as u16 + 2);
    let in_needs = held_by(needs, terms as u16 + 2 * roles as u16);
    in_contexts as u64 + in_needs as u64
}

// No run of a session makes more steps than this: every step raises the potential, no call lowers it, and it is never
// above this number.
pub fn step_bound(terms: u8, roles: u8, contexts: u16, needs: u16) -> u64
    ensures value { result ≡ step_bound terms roles contexts needs }
    ensures bounded { (s : State TermSet) → Reached words s → s.term_count ≡ terms → s.role_count ≡ roles → s.context_places ≡ contexts → s.need_places ≡ needs → potential words s ≤ result }
    ensures raised { (s : State TermSet) (p : List ℕ) (f : Finding TermSet) → Reached words s → Due words s p f → Missing words s f → potential words s < potential words (added words s f) }
    ensures fresh { (s : State TermSet) (t : TermSet) → Reached words s → potential words s ≤ potential words (added words s (Fresh t)) }
    ensures taken { (s : State TermSet) (xs : List (Form TermSet)) → potential words (with_axioms words s xs) ≡ potential words s }
    ensures rested { (s : State TermSet) (b : Bool) → potential words (with_rest words s b) ≡ potential words s }
{
    capacity(terms, roles, contexts, needs)
}
