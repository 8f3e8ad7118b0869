// Where a reader begins, and where it stands.
ghost use Rattle.std.specs.Prelude.{◌≡◌, min, length};
ghost use Rattle.text.specs.Readers.{text_of, place_of};

use super::Reader;

impl<'a> Reader<'a> {
    /// A reader at the start of a text.
    pub fn new(text: &'a [u8]) -> Reader<'a>
        ensures text { text_of result ≡ text.now }
        ensures at { place_of result ≡ 0 }
    {
        Reader { text, at: 0 }
    }

    /// A reader at a place of a text, or at the end of one that is shorter.
    pub fn at(text: &'a [u8], place: usize) -> Reader<'a>
        ensures text { text_of result ≡ text.now }
        ensures at { place_of result ≡ min place (length text.now) }
    {
        Reader {
            text,
            at: place.min(text.len()),
        }
    }

    /// How far the text was read.
    pub fn place(&self) -> usize
        ensures { result ≡ place_of self.now }
    {
        self.at
    }
}
