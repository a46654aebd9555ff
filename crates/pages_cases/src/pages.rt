//! Pages of cases: texts that a person reads, each with what must be told of it.

use std::alloc::Global;
use std::test::Fail;

/// Tells something of a text, in words.
pub trait Teller {
    /// What is told of this text; the last line has no end.
    fn told(&self, alloc: Global, text: &str) -> Result<String, Fail>;
}

/// Fails at the first case of a page of which something else is told than it says, with what is told. A case is a
/// paragraph: the lines of a text, and behind them `=> ` and what must be told, in one line or several. Before each
/// text stands the same for all.
pub fn hold<T: Teller>(alloc: Global, teller: &T, before: &str, page: &str) -> Result<(), Fail> {
    for case in page.split("\n\n") {
        hold_case(alloc, teller, before, case)?;
    }
    Ok(())
}

/// The same of a page whose cases are lines `TEXT => TOLD`, of a text of one line.
pub fn hold_lines<T: Teller>(
    alloc: Global,
    teller: &T,
    before: &str,
    page: &str,
) -> Result<(), Fail> {
    for line in page.lines() {
        hold_line(alloc, teller, before, line)?;
    }
    Ok(())
}

fn hold_case<T: Teller>(alloc: Global, teller: &T, before: &str, case: &str) -> Result<(), Fail> {
    let whole = joined(alloc, before, case)?;
    let whole = expanded(alloc, whole.as_str())?;
    let (text, want) = halves(whole.as_str(), "=> ")?;
    hold_text(alloc, teller, text, want)
}

fn hold_line<T: Teller>(alloc: Global, teller: &T, before: &str, line: &str) -> Result<(), Fail> {
    let whole = joined(alloc, before, line)?;
    let whole = expanded(alloc, whole.as_str())?;
    let (text, want) = halves(whole.as_str(), " => ")?;
    let text = joined(alloc, text, "\n")?;
    hold_text(alloc, teller, text.as_str(), want)
}

fn hold_text<T: Teller>(alloc: Global, teller: &T, text: &str, want: &str) -> Result<(), Fail> {
    let text = written_out(alloc, text)?;
    let told = teller.told(alloc, text.as_str())?;
    hold_told(alloc, text.as_str(), told.as_str(), want)
}

/// Fails where what is told of a text is not what is wanted. A failure has room for the beginning of a long text.
pub fn hold_told(alloc: Global, text: &str, told: &str, want: &str) -> Result<(), Fail> {
    if told == want {
        return Ok(());
    }
    Err(Fail::new(format!(in alloc; "told is {told}, of {text}")?))
}

/// The parts of a text before and behind the first such sign.
pub fn halves<'a>(text: &'a str, sign: &str) -> Result<(&'a str, &'a str), Fail> {
    match text.split_once(sign) {
        Some(halves) => Ok(halves),
        None => Err(Fail::new("a text without its sign")),
    }
}

/// Two texts behind one another.
pub fn joined(alloc: Global, first: &str, second: &str) -> Result<String, Fail> {
    let mut text = String::from_str(alloc, first)?;
    text.push_str(second)?;
    Ok(text)
}

/// Appends an item, behind a sign where something stands before it.
pub fn push_parted(told: &mut String, sign: &str, item: &str) -> Result<(), Fail> {
    if !told.is_empty() {
        told.push_str(sign)?;
    }
    told.push_str(item)?;
    Ok(())
}

/// A text in which `\s`, `\t`, `\r` and `\n` stood for a space, a tab, a carriage return and a line feed.
pub fn written_out(alloc: Global, text: &str) -> Result<String, Fail> {
    let text = text.replace(alloc, r"\s", " ")?;
    let text = text.as_str().replace(alloc, r"\t", "\t")?;
    with_line_ends(alloc, text.as_str())
}

fn with_line_ends(alloc: Global, text: &str) -> Result<String, Fail> {
    let text = text.replace(alloc, r"\r", "\r")?;
    Ok(text.as_str().replace(alloc, r"\n", "\n")?)
}

/// A text whose lines that ended with `\` go on in the next, and in which `<3..6 * PIECE>` stood for the piece three
/// times: for the numbers 3, 4 and 5. In it `#` stands for the number and `#'` for the next one. The same holds of
/// round brackets, also inside a piece. Brackets without a ` * ` stand as they are.
pub fn expanded(alloc: Global, text: &str) -> Result<String, Fail> {
    let lines = text.replace(alloc, "\\\n", "")?;
    let inside = repeated(alloc, lines.as_str(), '(', ')')?;
    repeated(alloc, inside.as_str(), '<', '>')
}

fn repeated(alloc: Global, text: &str, open: char, close: char) -> Result<String, Fail> {
    let mut whole = String::new(alloc);
    let mut parts = text.split(open);
    whole.push_str(parts.next().unwrap_or(""))?;
    for part in parts {
        push_part(&mut whole, part, open, close)?;
    }
    Ok(whole)
}

/// Appends what begins behind an open bracket, and goes on behind its close.
fn push_part(whole: &mut String, part: &str, open: char, close: char) -> Result<(), Fail> {
    let (inside, rest) = part.split_once(close).ok_or("an open bracket")?;
    match inside.split_once(" * ") {
        Some((range, piece)) => push_repetition(whole, range, piece)?,
        None => write!(whole, "{open}{inside}{close}")?,
    }
    whole.push_str(rest)?;
    Ok(())
}

/// Appends a piece once for each number of a range.
fn push_repetition(whole: &mut String, range: &str, piece: &str) -> Result<(), Fail> {
    let (first, end) = halves(range, "..")?;
    for number in first.parse()?..end.parse()? {
        push_piece(whole, piece, number)?;
    }
    Ok(())
}

fn push_piece(whole: &mut String, piece: &str, number: u32) -> Result<(), Fail> {
    let mut parts = piece.split('#');
    whole.push_str(parts.next().unwrap_or(""))?;
    for part in parts {
        push_numbered(whole, part, number)?;
    }
    Ok(())
}

/// Appends a number, and what stands behind its sign.
fn push_numbered(whole: &mut String, part: &str, number: u32) -> Result<(), Fail> {
    match part.strip_prefix('\'') {
        Some(part) => write!(whole, "{}{part}", number.saturating_add(1))?,
        None => write!(whole, "{number}{part}")?,
    }
    Ok(())
}
