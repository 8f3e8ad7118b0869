// The lines of calls that are made one after the other.
use std::alloc::{AllocError, Global};
use std::fmt;

/// What a question found, if anything.
#[derive(Clone, Copy)]
pub struct Found(pub Option<u16>);

impl fmt::Display for Found {
    fn fmt<W: fmt::Write>(&self, f: &mut fmt::Formatter<W>) -> fmt::Result {
        match self.0 {
            Some(n) => write!(f, "{n}"),
            None => write!(f, "none"),
        }
    }
}

/// The lines so far.
#[derive(Drop)]
pub struct Log {
    text: String,
}

impl Log {
    pub fn new(heap: Global) -> Log {
        Log {
            text: String::new(heap),
        }
    }

    /// Adds a line.
    pub fn tell<T: fmt::Display + Drop>(&mut self, word: &str, told: T) -> Result<(), AllocError> {
        writeln!(self.text, "{word} {told}")
    }

    /// Adds the line of a call: what it answers, or why it is refused.
    pub fn add<T: fmt::Display + Drop, E: fmt::Display + Drop>(
        &mut self,
        word: &str,
        answer: Result<T, E>,
    ) -> Result<(), AllocError> {
        match answer {
            Ok(told) => self.tell(word, told),
            Err(refusal) => writeln!(self.text, "{word} no {refusal}"),
        }
    }

    /// Adds the line of a call that is done and has nothing to tell, by a 0.
    pub fn add_done<E: fmt::Display + Drop>(
        &mut self,
        word: &str,
        answer: Result<(), E>,
    ) -> Result<(), AllocError> {
        self.add(word, answer.map(|()| 0))
    }

    /// Adds the line of a question that is answered by yes or no, by a 1 or a 0.
    pub fn add_yes<E: fmt::Display + Drop>(
        &mut self,
        word: &str,
        answer: Result<bool, E>,
    ) -> Result<(), AllocError> {
        self.add(word, answer.map(u8::from))
    }

    /// Adds the line of a question that may find nothing.
    pub fn add_found<E: fmt::Display + Drop>(
        &mut self,
        word: &str,
        answer: Result<Option<u16>, E>,
    ) -> Result<(), AllocError> {
        self.add(word, answer.map(Found))
    }

    /// Adds a line for each place of a list.
    pub fn add_list(&mut self, list: &[u16]) -> Result<(), AllocError> {
        for n in list {
            self.tell("place", *n)?;
        }
        Ok(())
    }

    /// The text of the lines.
    pub fn into_text(self) -> String {
        self.text
    }
}
