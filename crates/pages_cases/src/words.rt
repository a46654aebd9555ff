//! The words of a line, and what they stand for.

use fixed_num::Fx;
use std::test::Fail;

/// The word at a place of a line; none is empty.
pub fn word(line: &str, place: usize) -> &str {
    line.split(' ').nth(place).unwrap_or("")
}

/// The part at a place of a line in which bars stand between the parts; none is empty.
pub fn part(line: &str, place: usize) -> &str {
    line.split(" | ").nth(place).unwrap_or("")
}

/// The text between the first two bars of a line.
pub fn between_bars(line: &str) -> &str {
    line.split('|').nth(1).unwrap_or("")
}

/// The number at a place of a line.
pub fn number(line: &str, place: usize) -> Result<Fx, Fail> {
    Ok(Fx::read(word(line, place).as_bytes())?)
}

/// The whole number at a place of a line.
pub fn whole(line: &str, place: usize) -> Result<i64, Fail> {
    Ok(word(line, place).parse()?)
}
