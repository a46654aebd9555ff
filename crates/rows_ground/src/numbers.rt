//! Numbers, as lines of text: a question, and behind the arrow what is told. Texts that are read stand between bars.

use fixed_num::Fx;
use pages_cases::pages::{Teller, hold_lines};
use pages_cases::words::{between_bars, number, whole, word};
use std::alloc::Global;
use std::str;
use std::test::Fail;

/// The constants.
const CONSTANTS: &str = "\
zero => 0.000000
one => 1.000000
max => 1000000000.000000";

/// Past either end of the range a number is that end. A whole number of units is none there.
const RANGE: &str = "\
micro 0 => 0.000000
micro -500000 => -0.500000
micro 1000000000000000 => 1000000000.000000
micro 1000000000000001 => 1000000000.000000
micro -1000000000000001 => -1000000000.000000
micro 9223372036854775807 => 1000000000.000000
micro -9223372036854775808 => -1000000000.000000
units 0 => 0.000000
units -5 => -5.000000
units 1000000000 => 1000000000.000000
units -1000000000 => -1000000000.000000
units 1000000001 => none
units -1000000001 => none
units -9223372036854775808 => none";

/// Sums and differences.
const SUMS: &str = "\
-0.5 plus 0.25 => -0.250000
-0.5 less 0.25 => -0.750000
1000000000 plus 0.000001 => 1000000000.000000
1000000000 less 0.000001 => 999999999.999999
1000000000 plus -1000000000 => 0.000000
1000000000 less -1000000000 => 1000000000.000000
-1000000000 plus 0.000001 => -999999999.999999
-1000000000 less 0.000001 => -1000000000.000000";

/// Products round down. The square of 3037.000499 fits 64 bits in micro-units, that of 3037.0005 does not.
const PRODUCTS: &str = "\
1.5 times 2 => 3.000000
-0.000001 times 0.000001 => -0.000001
0.000001 times 0.000001 => 0.000000
-0.000001 times -0.000001 => 0.000000
1000000000 times 0.000001 => 1000.000000
1000000000 times 0.999999 => 999999000.000000
1000000000 times 1.000001 => 1000000000.000000
1000000000 times 1000000000 => 1000000000.000000
1000000000 times -1000000000 => -1000000000.000000
-1000000000 times -1000000000 => 1000000000.000000
3037.000499 times 3037.000499 => 9223372.030926
3037.000500 times 3037.000500 => 9223372.037000
-3037.000500 times 3037.000500 => -9223372.037001";

/// A number by a whole number over another rounds down too.
const RATIOS: &str = "\
0.000007 by 1 over 2 => 0.000003
-0.000007 by 1 over 2 => -0.000004
0.000007 by -1 over 2 => -0.000004
-0.000007 by -1 over 2 => 0.000003
-0.000006 by 1 over 2 => -0.000003
0 by 5 over 3 => 0.000000
0.000001 by 1 over 9223372036854775807 => 0.000000
-0.000001 by 1 over 9223372036854775807 => -0.000001
1000000000 by 9223372036854775807 over 1 => 1000000000.000000
1000000000 by -9223372036854775808 over 1 => -1000000000.000000
1000000000 by 9223372036854775807 over 9223372036854775807 => 1000000000.000000
1000000000 by 9223372036854775806 over 9223372036854775807 => 999999999.999999";

/// A number within a limit.
const LIMITS: &str = "\
2 within 3 => 2.000000
5 within 3 => 3.000000
-5 within 3 => -3.000000
-3 within 3 => -3.000000
7 within 0 => 0.000000
-1000000000 within 1000000000 => -1000000000.000000";

/// Which texts are numbers, and the first thing that is wrong with the others.
const TEXTS: &str = "\
|| => no number
|-| => not a number at byte 1
|--1| => not a number at byte 1
|+5| => not a number at byte 0
| 1| => not a number at byte 0
|1 | => not a number at byte 1
|.5| => not a number at byte 0
|-.5| => not a number at byte 1
|5.| => not a number at byte 2
|1..2| => not a number at byte 2
|1.5.| => not a number at byte 3
|1e3| => not a number at byte 1
|é| => not a number at byte 0
|1.0000000x| => not a number at byte 9
|99999999999x| => not a number at byte 11
|1.0000000| => more than six decimals
|1000000000.0000001| => more than six decimals
|1000000000.000001| => number out of range
|-1000000000.000001| => number out of range
|1000000001| => number out of range
|999999999999999999999999999999999999999| => number out of range
|007| => 7.000000
|-0| => 0.000000
|-0.0| => 0.000000
|-0.5| => -0.500000
|1.25| => 1.250000
|0.000001| => 0.000001
|-0.000001| => -0.000001
|-12.034001| => -12.034001
|999999999.999999| => 999999999.999999
|1000000000| => 1000000000.000000
|-1000000000| => -1000000000.000000
|1000000000.000000| => 1000000000.000000
|00000000000000000000000000000000000000007| => 7.000000
|(0..400 * 9)| => number out of range
|(0..400 * 0)| => 0.000000";

/// A number's text as a string, and appended to bytes that stand there, each of so many micro-units.
const PRINTED: &str = "\
text -12034001 => -12.034001
at -1500000 7 => at -1.500000 and 0.000007";

#[test]
fn numbers_come_to_what_is_told(rt: HostRuntime) -> Result<(), Fail> {
    for page in [CONSTANTS, RANGE, SUMS, PRODUCTS, RATIOS, LIMITS] {
        hold_lines(rt.alloc(), &Numbers, "", page)?;
    }
    Ok(())
}

#[test]
fn numbers_are_read_and_printed(rt: HostRuntime) -> Result<(), Fail> {
    hold_lines(rt.alloc(), &Reads, "", TEXTS)?;
    hold_lines(rt.alloc(), &Prints, "", PRINTED)
}

/// Tells the number that a calculation comes to, or `none`.
#[derive(Clone, Copy)]
struct Numbers;

impl Teller for Numbers {
    fn told(&self, alloc: Global, line: &str) -> Result<String, Fail> {
        match made(line.trim_end())? {
            Some(number) => Ok(format!(in alloc; "{number}")?),
            None => Ok(String::from_str(alloc, "none")?),
        }
    }
}

/// The number that comes of a question.
fn made(question: &str) -> Result<Option<Fx>, Fail> {
    match word(question, 0) {
        "zero" => Ok(Some(Fx::ZERO)),
        "one" => Ok(Some(Fx::ONE)),
        "max" => Ok(Some(Fx::MAX)),
        "micro" => Ok(Some(Fx::from_micro(whole(question, 1)?))),
        "units" => Ok(Fx::from_units(whole(question, 1)?)),
        _ => Ok(Some(calculated(question)?)),
    }
}

/// What a number comes to by another.
fn calculated(question: &str) -> Result<Fx, Fail> {
    let left = number(question, 0)?;
    match word(question, 1) {
        "by" => ratio(left, whole(question, 2)?, whole(question, 4)?),
        sign => together(left, sign, number(question, 2)?),
    }
}

/// Two numbers as one.
fn together(left: Fx, sign: &str, right: Fx) -> Result<Fx, Fail> {
    match sign {
        "within" => within(left, right),
        "plus" => Ok(left.add(right)),
        "less" => Ok(left.sub(right)),
        _ => Ok(left.mul(right)),
    }
}

fn within(number: Fx, limit: Fx) -> Result<Fx, Fail> {
    if limit.micro() < 0 {
        return Err(Fail::new("a limit below zero"));
    }
    Ok(number.clamp(limit))
}

fn ratio(number: Fx, by: i64, over: i64) -> Result<Fx, Fail> {
    if over <= 0 {
        return Err(Fail::new("no divisor"));
    }
    Ok(number.over(by, over))
}

/// Tells the number that a text between bars is, or why it is none.
#[derive(Clone, Copy)]
struct Reads;

impl Teller for Reads {
    fn told(&self, alloc: Global, line: &str) -> Result<String, Fail> {
        match Fx::read(between_bars(line).as_bytes()) {
            Ok(number) => Ok(format!(in alloc; "{number}")?),
            Err(fault) => Ok(format!(in alloc; "{fault}")?),
        }
    }
}

/// Tells the text of a number, or the texts of two that are appended to bytes.
#[derive(Clone, Copy)]
struct Prints;

impl Teller for Prints {
    fn told(&self, alloc: Global, line: &str) -> Result<String, Fail> {
        let question = line.trim_end();
        let first = Fx::from_micro(whole(question, 1)?);
        if word(question, 0) == "text" {
            return Ok(first.text(alloc)?);
        }
        appended(alloc, first, Fx::from_micro(whole(question, 2)?))
    }
}

fn appended(alloc: Global, first: Fx, second: Fx) -> Result<String, Fail> {
    let mut bytes = Vec::from_slice(alloc, b"at ")?;
    first.push_text(&mut bytes)?;
    bytes.extend_from_slice(b" and ")?;
    second.push_text(&mut bytes)?;
    Ok(String::from_str(alloc, str::from_utf8(bytes.as_slice())?)?)
}
