//! A text on several lines.

use fixed_num::Memory;
use std::alloc::Global;
use std::mem;

/// The lines of a text so far.
#[derive(Drop)]
struct Lines {
    alloc: Global,
    whole: Vec<String>,
    last: String,
    letters: usize,
    most: usize,
}

impl Lines {
    /// Begins the next line.
    fn end_line(&mut self) -> Result<(), Memory> {
        let next = String::new(self.alloc);
        let line = mem::replace(&mut self.last, next);
        self.whole.push(line)?;
        self.letters = 0;
        Ok(())
    }

    /// One letter more, on the next line where the last one is full.
    fn push(&mut self, letter: char) -> Result<(), Memory> {
        if self.letters >= self.most {
            self.end_line()?;
        }
        self.last.push(letter)?;
        self.letters = self.letters.saturating_add(1);
        Ok(())
    }

    /// A blank and a word, or the word on the next line where it has no room behind them. A word that is longer than a
    /// line is cut.
    fn push_word(&mut self, word: &str) -> Result<(), Memory> {
        let length = word.chars().count();
        if self.letters > 0 {
            if self.letters.saturating_add(length) < self.most {
                self.push(' ')?;
            } else {
                self.end_line()?;
            }
        }
        for letter in word.chars() {
            self.push(letter)?;
        }
        Ok(())
    }
}

/// A text on lines of at most so many letters, broken between its words.
pub fn wrapped(alloc: Global, words: &str, most: usize) -> Result<Vec<String>, Memory> {
    let mut lines = Lines {
        alloc,
        whole: Vec::new(alloc),
        last: String::new(alloc),
        letters: 0,
        most,
    };
    for word in words.split(' ') {
        lines.push_word(word)?;
    }
    lines.end_line()?;
    Ok(lines.whole)
}
