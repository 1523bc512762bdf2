// What a session is opened with, and the tables that it is lent.
use crate::script::{Unread, parted};
use calculus::state::{Context, Need};
use numbers::role_set::RoleSet;
use numbers::set::NumberSet;
use numbers::term_set::TermSet;
use session::sizes::Sizes;
use shelf::form::{Axiom, Form};
use std::alloc::{AllocError, Global};

// The tables, which a session borrows.
#[derive(Drop)]
pub(crate) struct Tables {
    pub(crate) axioms: Vec<Axiom>,
    pub(crate) contexts: Vec<Context<TermSet>>,
    pub(crate) needs: Vec<Need<TermSet>>,
}

// The sizes that a line states: a word and five numbers.
pub(crate) fn read(line: &str) -> Result<Sizes, Unread> {
    let numbers = line.strip_prefix("open ").ok_or(Unread::NotUnderstood)?;
    let (terms, rest) = parted(numbers, " ")?;
    let (roles, lengths) = parted(rest, " ")?;
    let (axioms, rest) = parted(lengths, " ")?;
    let (contexts, needs) = parted(rest, " ")?;
    Ok(Sizes {
        terms: terms.parse()?,
        roles: roles.parse()?,
        axioms: axioms.parse()?,
        contexts: contexts.parse()?,
        needs: needs.parse()?,
    })
}

impl Tables {
    // Tables of these lengths, or empty ones where no session can be opened so. What their rows hold does not matter, since
    // a session fills them first.
    pub(crate) fn new(heap: Global, sizes: Sizes) -> Result<Tables, AllocError> {
        let Sizes {
            axioms,
            contexts,
            needs,
            ..
        } = sizes.allowed();
        let terms = TermSet::empty();
        let axiom = Form::Nothing { left: terms };
        let context = Context::new(terms);
        let need = Need {
            context: 0,
            roles: RoleSet::empty(),
            terms,
        };
        Ok(Tables {
            axioms: vec![in heap; axiom; axioms]?,
            contexts: vec![in heap; context; contexts]?,
            needs: vec![in heap; need; needs]?,
        })
    }
}
