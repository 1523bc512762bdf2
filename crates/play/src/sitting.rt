// The lines of a script that are played with one session.
ghost use Rattle.std.specs.Prelude.{◌<◌, IfOk, OnSome};
ghost use Rattle.std.specs.Io.Iter.{lines_left};

use crate::opening;
use crate::opening::Tables;
use crate::script::{Call, Unread};
use session::session::Session;
use session::sizes::Sizes;
use std::alloc::{AllocError, Global};
use std::io;
use std::io::{BufRead, Lines};

// What a session is opened with, and the line that says so; the first sitting has none.
#[derive(Drop)]
pub(crate) struct Sitting {
    sizes: Sizes,
    line: Option<String>,
}

impl Sitting {
    // The sitting before any line that opens a session.
    pub(crate) const FIRST: Sitting = Sitting {
        sizes: Sizes::NONE,
        line: None,
    };

    // Opens the session, and answers lines as they come up to one that opens another; then fewer lines are left.
    pub(crate) fn play<B: BufRead + Drop>(
        &self,
        rt: &HostRuntime,
        lines: &mut Lines<B, Global>,
    ) -> io::Result<Option<Sitting>>
        ensures { IfOk result (λ next. OnSome next (lines_left lines.new < lines_left lines.old)) }
    {
        let mut tables = Tables::new(rt.alloc(), self.sizes)?;
        let mut session = Session::open(
            self.sizes.terms,
            self.sizes.roles,
            tables.axioms.as_mut_slice(),
            tables.contexts.as_mut_slice(),
            tables.needs.as_mut_slice(),
        );
        if let Some(line) = &self.line {
            play_line(rt, &mut session, line.as_str())?;
        }
        // A `for` over the lent lines would say nothing of how many are left.
        while let Some(line) = lines.next() {
            let line = line?;
            if let Ok(sizes) = opening::read(line.as_str()) {
                return Ok(Some(Sitting {
                    sizes,
                    line: Some(line),
                }));
            }
            play_line(rt, &mut session, line.as_str())?;
        }
        Ok(None)
    }
}

// Prints a line of the script with its answer. A comment stands as it is, and a blank line is left out.
fn play_line(rt: &HostRuntime, session: &mut Session, line: &str) -> io::Result<()> {
    if line.trim().is_empty() {
        return Ok(());
    }
    if line.starts_with('#') {
        return println!(rt; "{line}");
    }
    match Call::read(rt.alloc(), line) {
        Ok(call) => {
            let answer = call.answer(rt.alloc(), session)?;
            println!(rt; "{line} -> {answer}")
        }
        Err(Unread::NotUnderstood) => println!(rt; "{line} -> ?"),
        Err(Unread::NoMemory) => Err(AllocError.into()),
    }
}
