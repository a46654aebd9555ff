//! What is sent: values, or points with their times.

ghost use Rattle.std.specs.Prelude.{◌≡◌, Ok};
ghost use Rattle.sequence.specs.Answers.{Answers};
ghost use Rattle.cm_document.specs.Lines.{words};
ghost use Rattle.cm_document.specs.LineGrammar.{all_words, value_word, values_in, untimed, timed};
ghost use Rattle.cm_document.specs.LineGrammar.{time_word, point_at, later, points_after, mail_in};
ghost use Rattle.script_text.specs.FewWords.{one_or_more};

use crate::numbers::{is_time, time, value};
use crate::words::next_word;
use cm_document::{Mail, Point2, ScriptFault};
use fixed_num::Fx;
use sequence::Seq;
use std::alloc::Global;

/// Values alone, or, where the first word is a time, points.
pub fn mail(alloc: Global, text: &[u8]) -> Result<Option<Mail>, ScriptFault>
    ensures { Answers ScriptFault.Memory (Ok (mail_in (words text.now))) result }
{
    let Some((first, _)) = next_word(text) else {
        return Ok(None);
    };
    if is_time(first) {
        Ok(points(alloc, text)?.map(Mail::Points))
    } else {
        Ok(all_values(alloc, text)?.map(Mail::Values))
    }
}

/// The points of a text, each at a later time than the one before it.
#[tactic(auto, using(crate::proofs::MailLemmas::points_so_far))]
fn points(alloc: Global, text: &[u8]) -> Result<Option<Seq<Point2>>, ScriptFault>
    ensures { Answers ScriptFault.Memory (Ok (points_after 0 (timed (words text.now)))) result }
{
    let mut found = Seq::new(alloc);
    let mut before = 0;
    let mut left = text;
    while let Some((word, more)) = next_word(left) {
        left = more;
        if !is_time(word) {
            continue;
        }
        let Some(point) = point_after(alloc, before, word, more)? else {
            return Ok(None);
        };
        before = point.at_us;
        found.push(point)?;
    }
    Ok(Some(found))
}

/// The point at this time with the values up to the next time, where it is later than the one before it.
#[tactic(auto, using(crate::proofs::MailLemmas::values_in_words))]
fn point_after(
    alloc: Global,
    before: u64,
    at: &[u8],
    text: &[u8],
) -> Result<Option<Point2>, ScriptFault>
    ensures { Answers ScriptFault.Memory
        (Ok (later before (point_at (time_word at.now) (values_in (untimed (words text.now)))))) result }
{
    let Some(at_us) = time(at) else {
        return Ok(None);
    };
    let Some(values) = one_or_more(values_to_time(alloc, text)?) else {
        return Ok(None);
    };
    let at_us = u64::from(at_us);
    Ok((before < at_us).then_some(Point2 { at_us, values }))
}

/// The values of the words up to the first time.
#[tactic(auto, using(crate::proofs::MailLemmas::values_so_far))]
fn values_to_time(alloc: Global, text: &[u8]) -> Result<Option<Seq<Fx>>, ScriptFault>
    ensures { Answers ScriptFault.Memory (Ok (all_words value_word (untimed (words text.now)))) result }
{
    let mut found = Seq::new(alloc);
    let mut left = text;
    while let Some((word, more)) = next_word(left) {
        if is_time(word) {
            return Ok(Some(found));
        }
        let Some(value) = value(word) else {
            return Ok(None);
        };
        found.push(value)?;
        left = more;
    }
    Ok(Some(found))
}

/// The values, where there is one at least.
fn one_or_more(values: Option<Seq<Fx>>) -> Option<Seq<Fx>>
    ensures { result ≡ one_or_more values }
{
    match values {
        Some(values) if !values.as_slice().is_empty() => Some(values),
        _ => None,
    }
}

/// The values of all words of a text.
#[tactic(auto, using(crate::proofs::MailLemmas::values_so_far))]
fn all_values(alloc: Global, text: &[u8]) -> Result<Option<Seq<Fx>>, ScriptFault>
    ensures { Answers ScriptFault.Memory (Ok (all_words value_word (words text.now))) result }
{
    let mut found = Seq::new(alloc);
    let mut left = text;
    while let Some((word, more)) = next_word(left) {
        let Some(value) = value(word) else {
            return Ok(None);
        };
        found.push(value)?;
        left = more;
    }
    Ok(Some(found))
}
