// The limit of 65,535 entries: what a shelf answers without a look at its entries.
ghost use Rattle.std.specs.Prelude.{◌≡◌, ℕ, ◌+◌, ◌<◌, ◌≤◌, List, length, Err, MatchResult};
ghost use Rattle.shelf.specs.Shelves.{Entry, entry_at, at_most_all};

use crate::fault::{Cause, Origin, ShelfFault, without_byte};

// How many entries a shelf has that was made of so many.
pub(crate) fn limited_count(total: usize) -> u16
    ensures { (m : ℕ) (xs : List Entry) → length xs ≡ total → result ≡ length (at_most_all m xs) }
{
    u16::try_from(total).unwrap_or(1)
}

// Where among so many entries, counted from 0, the one at a place is. Too many are one fault at the first place.
pub(crate) fn index(total: usize, origin: Origin) -> Result<usize, ShelfFault>
    ensures { MatchResult result (λ i. (i + 1 ≡ origin.place) × (i < total) × (total ≤ 65535))
        (λ e. (xs : List Entry) → length xs ≡ total → Err e ≡ entry_at (at_most_all origin.mark xs) origin.mark origin.place) }
{
    let place = origin.place as usize;
    if total > 65535 && place == 1 {
        return Err(without_byte(Cause::TooLong, origin));
    }
    if total > 65535 || place == 0 || place > total {
        return Err(without_byte(Cause::Outside, origin));
    }
    Ok(place - 1)
}
