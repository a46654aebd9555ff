//! Text that is appended without a formatter: the two lines of each cycle print so.

ghost use Rattle.std.specs.Prelude.{◌≡◌, ◌⊎◌, ◌++◌, OnOk, OnErr, string_bytes, codes, decimal};

use fixed_num::Memory;
use itoa::Buffer;

/// Appends a number. The text stays if there is no memory.
pub fn push_number(text: &mut String, number: u64) -> Result<(), Memory>
    ensures done { OnOk result (string_bytes text.new ≡ string_bytes text.old ++ decimal number) }
    ensures kept { OnErr result (string_bytes text.new ≡ string_bytes text.old) }
{
    let mut buffer = Buffer::new();
    text.push_str(buffer.format(number))?;
    Ok(())
}

/// Appends a word and a number. If there is no memory, the text stays or has the word alone.
pub fn push_numbered(text: &mut String, word: &str, number: u64) -> Result<(), Memory>
    ensures done { OnOk result (string_bytes text.new ≡ string_bytes text.old ++ word.now ++ decimal number) }
    ensures kept { OnErr result ((string_bytes text.new ≡ string_bytes text.old)
        ⊎ (string_bytes text.new ≡ string_bytes text.old ++ word.now)) }
{
    text.push_str(word)?;
    push_number(text, number)
}
