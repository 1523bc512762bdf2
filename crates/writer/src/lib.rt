#![tactic(auto)]

// Writes a shelf as a catalogue.
ghost use Rattle.std.specs.Prelude.{◌≡◌, ℕ, List, length, take, IfOk, IfErr};
ghost use Rattle.catalogue.specs.Catalogues.{Bytes, catalogue_list};
ghost use Rattle.writer.specs.Writing.{refusal_number, faultless, refusal_due, write_answer, write_buffer};

mod body;
mod layout;

use crate::layout::{catalogue_length, lay_out};
use shelf::shelf::Shelf;

// Why a shelf is not written.
#[derive(Clone, Copy, PartialEq, Eq, Debug)]
pub enum WriteRefusal {
    // it has more than 512 entries, or a faulty one
    Unwritable = 10,
    // the buffer is too short
    TooShort = 11,
}

impl WriteRefusal {
    // The number under which the refusal is reported.
    pub fn number(self) -> u8
        ensures { result ≡ refusal_number self }
    {
        self as u8
    }
}

// Whether no entry is a fault.
fn is_faultless<S: Shelf>(shelf: &S) -> bool
    ensures { result ≡ faultless (S.Shelf.list shelf.now) }
{
    shelf.counted_entries().all(|entry| entry.is_ok())
}

// Lays a shelf out as a catalogue at the front of a buffer and answers its length.
pub fn write<S: Shelf>(shelf: &S, buffer: &mut [u8]) -> Result<usize, WriteRefusal>
    ensures value { result ≡ write_answer (S.Shelf.list shelf.now) (length buffer.old) }
    ensures buffer { buffer.new ≡ write_buffer (S.Shelf.list shelf.now) buffer.old result }
    ensures refusal { IfErr result (λ e. refusal_number e ≡ refusal_due (S.Shelf.list shelf.now)) }
    ensures back { IfOk result (λ n. (m : ℕ) → catalogue_list (take n buffer.new) m ≡ S.Shelf.list shelf.now) }
    ensures again { IfOk result (λ n. (bytes : List ℕ) (m : ℕ) → Bytes bytes → catalogue_list bytes m ≡ S.Shelf.list shelf.now → take n buffer.new ≡ bytes) }
{
    let count = shelf.count();
    if count > 512 || !is_faultless(shelf) {
        return Err(WriteRefusal::Unwritable);
    }
    let len = catalogue_length(shelf);
    if len > buffer.len() {
        return Err(WriteRefusal::TooShort);
    }
    lay_out(shelf, &mut buffer[..len]);
    Ok(len)
}
