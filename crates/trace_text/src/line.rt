//! The text of a line, as it is made.

ghost use Rattle.std.specs.Prelude.{◌≡◌, ◌+◌, ◌≤◌, OnOk, take, vec_len};

use crate::numbers::{item_room, place_item};
use crate::place::place_text;
use fixed_num::{Fx, Memory, StoredValue};
use itoa::Buffer;
use std::alloc::Global;
use std::marker::Model;

/// The text of a line, as it is made: bytes of which the first ones count. The others are room that lines before it
/// took, so that a line takes memory only where none was as long. Contracts see the bytes that count.
#[derive(Debug, Drop)]
pub(crate) struct LineText {
    bytes: Vec<u8>,
    /// How many bytes count.
    end: usize,
}

impl Model for LineText {
    ghost use Rattle.std.specs.Prelude.{ℕ, ◌≤◌, List, take, vec_len};

    ghost Value = { List ℕ };

    ghost view = { λ line. take line.end line.bytes.items };

    ghost invariant = { λ line. line.end ≤ vec_len line.bytes };
}

impl LineText {
    ghost use Rattle.std.specs.Prelude.{◌<◌, [], ◌++◌, length, slice_set, decimal};
    ghost use Rattle.cm_model.specs.Items.{outs_text, numbers_text};
    ghost use Rattle.trace_text.specs.Joined.{before_item};

    /// No byte. It takes no memory.
    pub(crate) fn none(alloc: Global) -> LineText
        ensures { result ≡ [] }
    {
        LineText {
            bytes: Vec::new(alloc),
            end: 0,
        }
    }

    /// The bytes.
    pub(crate) fn as_slice(&self) -> &[u8]
        ensures { result.now ≡ self.now }
    {
        &self.bytes[..self.end]
    }

    /// How many they are.
    pub(crate) fn len(&self) -> usize
        ensures { result ≡ length self.now }
    {
        self.end
    }

    /// No byte any more. The room stays.
    pub(crate) fn clear(&mut self)
        ensures { self.new ≡ [] }
    {
        self.end = 0;
    }

    /// Puts another byte at this place.
    #[tactic(auto, using(crate::proofs::PlaceLemmas::set_in_front))]
    pub(crate) fn set(&mut self, place: usize, byte: u8)
        requires { place < length self.old }
        ensures { self.new ≡ slice_set self.old place byte }
    {
        self.bytes[place] = byte;
    }

    /// Appends a word.
    #[inline(always)]
    pub(crate) fn push_word(&mut self, word: &str) -> Result<(), Memory>
        ensures { OnOk result (self.new ≡ self.old ++ word.now) }
    {
        make_room(&mut self.bytes, self.end, word.len())?;
        let bytes = self.bytes.as_mut_slice();
        self.end = place_text(bytes, self.end, word.as_bytes());
        Ok(())
    }

    /// Appends a word and a count.
    pub(crate) fn push_counted(&mut self, word: &str, count: u64) -> Result<(), Memory>
        ensures { OnOk result (self.new ≡ self.old ++ word.now ++ decimal count) }
    {
        self.push_word(word)?;
        let mut buffer = Buffer::new();
        self.push_word(buffer.format(count))
    }

    /// Appends an item that begins with this head and has these values and numbers, behind a separator where others
    /// stand before it.
    pub(crate) fn push_item(
        &mut self,
        started: bool,
        head: &str,
        values: &[StoredValue],
        numbers: &[Fx],
    ) -> Result<(), Memory>
        ensures { OnOk result (self.new ≡ self.old ++ before_item started ++ head.now
            ++ outs_text values.now ++ numbers_text numbers.now) }
    {
        let room = item_room(head, values, numbers)?;
        make_room(&mut self.bytes, self.end, room)?;
        let bytes = self.bytes.as_mut_slice();
        self.end = place_item(bytes, self.end, started, head.as_bytes(), values, numbers);
        Ok(())
    }
}

/// So many bytes stand behind the first ones, which stay as they are.
#[inline(always)]
#[tactic(auto, using(crate::proofs::PlaceLemmas::front_stays))]
fn make_room(bytes: &mut Vec<u8>, end: usize, room: usize) -> Result<(), Memory>
    requires { end ≤ vec_len bytes.old }
    ensures room { OnOk result (end + room ≤ vec_len bytes.new) }
    ensures front { take end bytes.new.items ≡ take end bytes.old.items }
    ensures longer { vec_len bytes.old ≤ vec_len bytes.new }
{
    if room <= bytes.len() - end {
        return Ok(());
    }
    lengthen(bytes, room)
}

/// The bytes become longer by so many at least: as long as what the memory that is taken for them holds.
#[cold]
#[inline(never)]
fn lengthen(bytes: &mut Vec<u8>, more: usize) -> Result<(), Memory>
    ensures room { OnOk result (vec_len bytes.old + more ≤ vec_len bytes.new) }
    ensures front { take (vec_len bytes.old) bytes.new.items ≡ bytes.old.items }
    ensures longer { vec_len bytes.old ≤ vec_len bytes.new }
{
    bytes.reserve(more)?;
    let whole = bytes.capacity();
    bytes.resize(whole, 0)?;
    Ok(())
}
