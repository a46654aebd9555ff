//! A runtime that has words.

use std::alloc::{AllocError, Global};
use std::env::FillError;
use std::rt::Env;

/// A runtime that only has words, each as its bytes; the program's name is the first.
#[derive(Drop)]
pub(crate) struct GivenWords {
    words: Vec<Vec<u8>>,
}

impl GivenWords {
    /// The words of a row, behind the program's name. A word that ends with `\xFF` has that byte there, so it is not
    /// UTF-8.
    pub fn of(alloc: Global, row: &str) -> Result<GivenWords, AllocError> {
        let mut words = vec![in alloc; b"cm".as_slice().to_vec(alloc)?]?;
        for word in row.split_whitespace() {
            let mut bytes = word.trim_end_matches(r"\xFF").as_bytes().to_vec(alloc)?;
            if word.ends_with(r"\xFF") {
                bytes.push(0xFF)?;
            }
            words.push(bytes)?;
        }
        Ok(GivenWords { words })
    }
}

impl Env for GivenWords {
    fn arg(&self, i: usize, buf: &mut [u8]) -> Result<usize, FillError> {
        let Some(word) = self.words.get(i) else {
            return Err(FillError::NotPresent);
        };
        let word = word.as_slice();
        if buf.len() < word.len() {
            return Err(FillError::TooLong);
        }
        buf[..word.len()].copy_from_slice(word);
        Ok(word.len())
    }

    fn var(&self, _name: &str, _buf: &mut [u8]) -> Result<usize, FillError> {
        Err(FillError::NotPresent)
    }

    fn var_at(&self, _i: usize, _buf: &mut [u8]) -> Result<usize, FillError> {
        Err(FillError::NotPresent)
    }
}
