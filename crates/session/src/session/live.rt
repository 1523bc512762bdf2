// What the search goes through: the contexts that are not void, and the needs of a context.
ghost use Rattle.std.specs.Prelude.{◌≡◌, ◌+◌, ◌≤◌, length};

use calculus::state::{Context, Need};
use numbers::term_set::TermSet;

// The contexts that are not void, with their places counted from 0. `rows` are those not looked at yet, and the first of them
// has the place `place`.
#[derive(Drop)]
pub(super) struct Live<'a> {
    rows: &'a [Context<TermSet>],
    place: u16,
    ghost few: { place + length rows.now ≤ 65535 },
}

impl<'a> Live<'a> {
    // Those of a list of contexts.
    pub(super) fn new(rows: &'a [Context<TermSet>]) -> Live<'a>
        requires { length rows.now ≤ 65535 }
        ensures rows { result.rows.now ≡ rows.now }
        ensures place { result.place ≡ 0 }
    {
        Live { rows, place: 0 }
    }
}

impl<'a> Iterator for Live<'a> {
    ghost use Rattle.std.specs.Iterator.{YieldsFirstBy, item_count};
    ghost use Rattle.session.specs.Living.{live_left};

    type Item = (u16, &'a Context<TermSet>);

    ghost next_gives = { YieldsFirstBy (λ e. (e.0, e.1.now)) live_left };

    ghost remaining = { item_count live_left };

    fn next(&mut self) -> Option<(u16, &'a Context<TermSet>)> {
        while let Some((context, others)) = self.rows.split_first() {
            let place = self.place;
            *self = Live {
                rows: others,
                place: place + 1,
            };
            if !context.void {
                return Some((place, context));
            }
        }
        None
    }
}

// The needs of the context at a place. `rows` are the needs not looked at yet.
#[derive(Drop)]
pub(super) struct NeedsOf<'a> {
    rows: &'a [Need<TermSet>],
    place: u16,
}

impl<'a> NeedsOf<'a> {
    // Those among a list of needs.
    pub(super) fn new(rows: &'a [Need<TermSet>], place: u16) -> NeedsOf<'a>
        ensures rows { result.rows.now ≡ rows.now }
        ensures place { result.place ≡ place }
    {
        NeedsOf { rows, place }
    }
}

impl<'a> Iterator for NeedsOf<'a> {
    ghost use Rattle.std.specs.Iterator.{YieldsFirstRef, item_count};
    ghost use Rattle.session.specs.Living.{needs_left};

    type Item = &'a Need<TermSet>;

    ghost next_gives = { YieldsFirstRef needs_left };

    ghost remaining = { item_count needs_left };

    fn next(&mut self) -> Option<&'a Need<TermSet>> {
        while let Some((need, others)) = self.rows.split_first() {
            self.rows = others;
            if need.context == self.place {
                return Some(need);
            }
        }
        None
    }
}
