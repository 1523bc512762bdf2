// The contents of a catalogue: the count, and a line for each entry that names its body.
ghost use Rattle.std.specs.Prelude.{◌≡◌, ◌+◌, ◌-◌, ◌*◌, ◌<◌, ◌≤◌, true, false, length, take, drop, MatchOption};
ghost use Rattle.numbers.specs.Bits.{possible};
ghost use Rattle.catalogue.specs.Catalogues.{word_at, entries, readable, line_byte, start_of, size_of, due_start, line_right, form_of};
ghost use Rattle.catalogue.specs.Handed.{viewed};

use crate::body;
use crate::fault::at_byte;
use shelf::fault::{ByteFault, Cause};
use shelf::form::Form;

// The two-byte number at a byte, high byte first.
fn word(bytes: &[u8], at: usize) -> u16
    requires { at + 1 < length bytes.now }
    ensures { result ≡ word_at bytes.now at }
{
    u16::from_be_bytes([bytes[at], bytes[at + 1]])
}

// The first byte of the contents line i, counted from 0; for as many lines as there are, the byte after them.
fn line_byte(i: u16) -> usize
    ensures { result ≡ line_byte i }
{
    2 + 4 * i as usize
}

// Where a contents line says that its body starts, and how long it is.
#[derive(Clone, Copy)]
pub(crate) struct Line {
    pub(crate) start: u16,
    size: u16,
}

impl Line {
    // The byte after the body.
    fn end(self) -> usize
        ensures { result ≡ self.start + self.size }
    {
        self.start as usize + self.size as usize
    }

    // The part of the bytes that the line names.
    fn named(self, bytes: &[u8]) -> &[u8]
        requires { self.start + self.size ≤ length bytes.now }
        ensures part { result.now ≡ take self.size (drop self.start bytes.now) }
        ensures len { length result.now ≡ self.size }
    {
        &bytes[self.start as usize..self.end()]
    }
}

// The bytes of a catalogue whose contents can be read, and how many entries they say that it has: there is a line for each.
#[derive(Clone, Copy)]
pub(crate) struct Contents<'a> {
    bytes: &'a [u8],
    count: u16,
    ghost counted: { count ≡ entries bytes.now },
    ghost whole: { 2 + 4 * count ≤ length bytes.now },
}

impl<'a> Contents<'a> {
    // The contents of the bytes, or nothing where the count or a line cannot be read.
    pub(crate) fn read(bytes: &'a [u8]) -> Option<Contents<'a>>
        ensures { MatchOption result (readable bytes.now ≡ false) (λ c. (readable bytes.now ≡ true) × (c.bytes.now ≡ bytes.now)) }
    {
        let count = u16::from_be_bytes(*bytes.first_chunk()?);
        if count > 512 || bytes.len() < line_byte(count) {
            return None;
        }
        if count == 0 && bytes.len() != 2 {
            return None;
        }
        Some(Contents { bytes, count })
    }

    // How many entries there are.
    pub(crate) fn count(self) -> u16
        ensures { result ≡ entries self.entry.bytes.now }
    {
        self.count
    }

    // The entry at a place counted from 1, if there is one.
    pub(crate) fn at(self, place: u16) -> Option<Slot<'a>>
        ensures { MatchOption result (possible (entries self.entry.bytes.now) place ≡ false)
            (λ s. (possible (entries self.entry.bytes.now) place ≡ true) × (s.i ≡ place - 1) × (s.contents.bytes.now ≡ self.entry.bytes.now)) }
    {
        if !(1..=self.count).contains(&place) {
            return None;
        }
        Some(Slot {
            contents: self,
            i: place - 1,
        })
    }
}

// The entry i, counted from 0, of contents that have it.
#[derive(Clone, Copy)]
pub(crate) struct Slot<'a> {
    contents: Contents<'a>,
    i: u16,
    ghost within: { i < contents.count },
}

impl<'a> Slot<'a> {
    // The contents line of the entry.
    pub(crate) fn line(self) -> Line
        ensures start { result.start ≡ start_of self.entry.contents.bytes.now self.entry.i }
        ensures size { result.size ≡ size_of self.entry.contents.bytes.now self.entry.i }
    {
        let at = line_byte(self.i);
        Line {
            start: word(self.contents.bytes, at),
            size: word(self.contents.bytes, at + 2),
        }
    }

    // Where the body has to start: after the contents, or where the line before points.
    fn due(self) -> usize
        ensures { result ≡ due_start self.entry.contents.bytes.now self.entry.i }
    {
        match self.i {
            0 => line_byte(self.contents.count),
            i => {
                let contents = self.contents;
                let before = Slot { contents, i: i - 1 };
                before.line().end()
            }
        }
    }

    // Whether the line names a body as it has to.
    fn is_right(self) -> bool
        ensures { result ≡ line_right self.entry.contents.bytes.now self.entry.i }
    {
        let line = self.line();
        let len = self.contents.bytes.len();
        line.start as usize == self.due()
            && (3..=67).contains(&line.size)
            && line.end() <= len
            && (self.i + 1 < self.contents.count || line.end() == len)
    }

    // The form of the entry.
    pub(crate) fn form(self) -> Result<Form<&'a [u8]>, ByteFault>
        ensures { viewed result ≡ form_of self.entry.contents.bytes.now self.entry.i }
    {
        if !self.is_right() {
            return Err(at_byte(Cause::Line, line_byte(self.i)));
        }
        let line = self.line();
        body::form(line.start, line.named(self.contents.bytes))
    }
}
