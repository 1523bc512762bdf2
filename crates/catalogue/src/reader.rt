// A shelf over the bytes of a catalogue.
ghost use Rattle.std.specs.Prelude.{◌≡◌, ◌==◌, if◌then◌else◌};
ghost use Rattle.shelf.specs.Faults.{at_byte};
ghost use Rattle.shelf.specs.Shelves.{placed};
ghost use Rattle.catalogue.specs.Bodies.{to_axiom};
ghost use Rattle.catalogue.specs.Catalogues.{catalogue_list};
ghost use Rattle.catalogue.specs.CatalogueLists.{catalogue_short, catalogue_sound};
ghost use Rattle.catalogue.specs.Handed.{seen, handed, read_at, body_at};

use crate::body;
use crate::contents::Contents;
use shelf::fault::{ByteFault, Cause, Entry, Origin, ShelfFault, located};
use shelf::form::{Axiom, Form};
use shelf::shelf::Shelf;

// The catalogue that some bytes are, with the mark that it was given at its making.
#[derive(Clone, Copy)]
pub struct Catalogue<'a> {
    bytes: &'a [u8],
    mark: u16,
}

// A body as it is handed out: the entry's place, the byte where the body starts, and its form, whose left list
// is a part of the catalogue's bytes.
#[derive(Clone, Copy)]
pub struct Body<'a> {
    pub place: u16,
    pub start: u16,
    pub form: Form<&'a [u8]>,
}

impl<'a> Body<'a> {
    // The axiom that the body states, or what is wrong with its left list.
    pub fn axiom(self) -> Result<Axiom, ByteFault>
        ensures { result ≡ to_axiom self.entry.start (seen self.entry.form) }
    {
        body::axiom(self.start, self.form)
    }

    // The body as the entry of a shelf that has the mark.
    pub fn entry(self, mark: u16) -> Entry
        ensures { result ≡ placed mark self.entry.place (to_axiom self.entry.start (seen self.entry.form)) }
    {
        let place = self.place;
        located(self.axiom(), Origin { mark, place })
    }
}

// The fault at a place of a catalogue that cannot be read: the first place says so, the others are outside.
fn unread(place: u16) -> ByteFault
    ensures { result ≡ at_byte (if place == 1 then Cause.Contents else Cause.Outside) 0 }
{
    match place {
        1 => Cause::Contents.into(),
        _ => Cause::Outside.into(),
    }
}

impl<'a> Catalogue<'a> {
    // A catalogue of these bytes, whether or not they can be read, and with this mark.
    pub fn new(bytes: &'a [u8], mark: u16) -> Catalogue<'a>
        ensures bytes { result.bytes.now ≡ bytes.now }
        ensures mark { result.mark ≡ mark }
    {
        Catalogue { bytes, mark }
    }

    // The body at a place counted from 1, or what is wrong at which byte.
    fn read(&self, place: u16) -> Result<Body<'a>, ByteFault>
        ensures { handed result ≡ read_at self.now.bytes.now place }
    {
        let contents = Contents::read(self.bytes).ok_or(unread(place))?;
        let slot = contents.at(place).ok_or(ByteFault::from(Cause::Outside))?;
        let start = slot.line().start;
        let form = slot.form()?;
        Ok(Body { place, start, form })
    }

    // The body at a place counted from 1, or what is wrong there.
    pub fn body(&self, place: u16) -> Result<Body<'a>, ShelfFault>
        ensures { handed result ≡ body_at self.now.bytes.now self.now.mark place }
    {
        let mark = self.mark;
        located(self.read(place), Origin { mark, place })
    }
}

impl<'a> Shelf for Catalogue<'a> {
    ghost list = { λ s. catalogue_list s.bytes.now s.mark };

    ghost mark = { λ s. s.mark };

    ghost short = { λ s. catalogue_short s.bytes.now s.mark };

    ghost sound = { λ s. catalogue_sound s.bytes.now s.mark };

    #[tactic(auto, using(crate::proofs::CatalogueBodies::count_listed))]
    fn count(&self) -> u16 {
        Contents::read(self.bytes).map_or(1, Contents::count)
    }

    #[tactic(auto, using(crate::proofs::CatalogueBodies::entry_stated))]
    fn entry(&self, place: u16) -> Entry {
        let body = self.body(place)?;
        body.entry(self.mark)
    }
}
