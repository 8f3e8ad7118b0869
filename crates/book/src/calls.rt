// What is done to the book of notes.
ghost use Rattle.std.specs.Prelude.{◌≡◌, ◌+◌, ◌-◌, ◌<◌, length, replicate, nat_lt, slice_index_or, slice_set};
ghost use Rattle.model.specs.Bounds.{most_gates, most_saves, readers};
ghost use Rattle.book.specs.Notes.{blank, notes_in};

use crate::{Book, Lengths, Notes};
use model::bounds::{READERS, SAVES};

impl Book {
    /// Each reader has noted these gone lengths, and no save is open.
    pub fn new(lengths: Lengths) -> Book
        ensures notes { result.notes.rows ≡ replicate readers lengths }
        ensures closed { result.depth ≡ 0 }
    {
        let rows = [lengths; READERS];
        let notes = Notes { rows };
        Book {
            notes,
            saved: [notes; SAVES],
            depth: 0,
        }
    }

    /// Whether one save more may be opened.
    pub fn has_room(&self) -> bool
        ensures { result ≡ nat_lt self.now.depth most_saves }
    {
        self.depth < SAVES
    }

    /// Whether a save is open.
    pub fn has_save(&self) -> bool
        ensures { result ≡ nat_lt 0 self.now.depth }
    {
        0 < self.depth
    }

    /// Opens a save, which has the notes as they are.
    pub fn save(&mut self)
        requires { self.old.depth < most_saves }
        ensures notes { self.new.notes ≡ self.old.notes }
        ensures saved { self.new.saved ≡ slice_set self.old.saved self.old.depth self.old.notes }
        ensures opened { self.new.depth ≡ self.old.depth + 1 }
    {
        self.saved[self.depth] = self.notes;
        self.depth += 1;
    }

    /// Closes the newest save, and puts all notes back as they were then.
    pub fn restore(&mut self)
        requires { 0 < self.old.depth }
        ensures notes { self.new.notes ≡ slice_index_or self.old.saved (self.old.depth - 1) blank }
        ensures saved { self.new.saved ≡ self.old.saved }
        ensures closed { self.new.depth ≡ self.old.depth - 1 }
    {
        let newest = self.depth - 1;
        self.notes = self.saved[newest];
        self.depth = newest;
    }

    /// A reader notes: its one entry is overwritten.
    pub fn note(&mut self, r: usize, lengths: Lengths)
        requires { r < readers }
        ensures notes { self.new.notes.rows ≡ slice_set self.old.notes.rows r lengths }
        ensures saved { self.new.saved ≡ self.old.saved }
        ensures depth { self.new.depth ≡ self.old.depth }
        ensures long { length self.old.notes.rows ≡ readers }
    {
        let entry = &mut self.notes.rows[r];
        *entry = lengths;
    }

    /// How many positions had left the gate when the reader noted.
    pub fn noted(&self, r: usize, g: usize) -> u16
        requires reader { r < readers }
        requires gate { g < most_gates }
        ensures { result ≡ notes_in self.now.notes.rows r g }
    {
        self.notes.rows[r][g]
    }
}
