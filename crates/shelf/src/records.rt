// A shelf over given axiom records.
ghost use Rattle.std.specs.Prelude.{◌≡◌};
ghost use Rattle.shelf.specs.Records.{read_record, records_list};
ghost use Rattle.shelf.specs.RecordLists.{records_short, records_sound};

use crate::fault::{ByteFault, Cause, Entry, Origin, located};
use crate::form::Axiom;
use crate::limit::{index, limited_count};
use crate::shelf::Shelf;

// A record with a role outside 1 to 16 is a fault of the first field, with a wrong right side of the second.
#[derive(Clone, Copy)]
pub struct Records<'a> {
    records: &'a [Axiom],
    mark: u16,
}

impl<'a> Records<'a> {
    pub fn new(records: &'a [Axiom], mark: u16) -> Records<'a>
        ensures records { result.records.now ≡ records.now }
        ensures mark { result.mark ≡ mark }
    {
        Records { records, mark }
    }
}

// The record as an axiom, or what is wrong with it.
fn read(row: &Axiom) -> Result<Axiom, ByteFault>
    ensures { result ≡ read_record row.now }
{
    if !row.roles_in_range() {
        return Err(Cause::First.into());
    }
    if !row.right_in_range() {
        return Err(Cause::Second.into());
    }
    Ok(*row)
}

impl<'a> Shelf for Records<'a> {
    ghost list = { λ s. records_list s.mark s.records.now };

    ghost mark = { λ s. s.mark };

    ghost short = { λ s. records_short s.mark s.records.now };

    ghost sound = { λ s. records_sound s.mark s.records.now };

    #[tactic(auto, using(crate::specs::RecordLists::length_records))]
    fn count(&self) -> u16 {
        limited_count(self.records.len())
    }

    #[tactic(auto, using(crate::specs::RecordLists::length_records, crate::specs::RecordLists::records_at))]
    fn entry(&self, place: u16) -> Entry {
        let mark = self.mark;
        let origin = Origin { mark, place };
        let i = index(self.records.len(), origin)?;
        located(read(&self.records[i]), origin)
    }
}
