//! Words, read by a command of `clap`.

ghost use Rattle.std.specs.Prelude.{◌≡◌, ◌≤◌, ◌⊎◌, ◌∷◌, false, None, codes, map};
ghost use Rattle.std.specs.Prelude.{option_map, string_bytes, IfOk, IfErr, IfSome};
ghost use Rattle.std.specs.List.{list_all};
ghost use Rattle.std.specs.Char.{is_ascii_digit};
ghost use Rattle.clap.specs.Words.{first_value, found_of, kind_of, Text};
ghost use Rattle.sequence.specs.Answers.{Answers};
ghost use Rattle.cm_words.specs.declared.job.TheConstants.{MOST_ROUNDS, MOST_WORKERS};
ghost use Rattle.cm_words.specs.Words.{asked, given, can_make, CanBeAsked, job_of, job_with};
ghost use Rattle.cm_words.specs.Words.{job_word, kind_named, make_text, workers_text};
ghost use Rattle.cm_words.specs.Words.{rounds_asked, rounds_in, workers_asked, workers_in};

use crate::job::{MOST_DIGITS_OF_ROUNDS, MOST_ROUNDS, MOST_WORKERS};
use crate::{Job, JobKind, WordsFault};
use clap::error::ErrorKind;
use clap::{Arg, ArgMatches, Command, Error};
use fixed_num::Memory;
use std::alloc::Global;

/// The job that the words after the program's name ask for. `Usage` exactly where they are not accepted.
pub fn asked(alloc: Global, words: &[String]) -> Result<Job, WordsFault>
    ensures answer { Answers WordsFault.Memory (asked (map string_bytes words.now)) result }
    ensures within { IfOk result CanBeAsked }
{
    let line = line(alloc, words)?;
    let found = read_line(alloc, line.as_slice())?;
    match found.job {
        Some(word) => job_of(kind_named(word), found.make, found.workers),
        None => Err(WordsFault::Usage),
    }
}

/// The program's name and the words, as a command reads them.
fn line(alloc: Global, words: &[String]) -> Result<Vec<&str>, Memory>
    ensures { IfOk result
        (λ line. map (λ w. w.now) line.items ≡ codes "cm" ∷ map string_bytes words.now) }
{
    let mut line = Vec::new(alloc);
    line.push("cm")?;
    for word in words {
        line.push(word.as_str())?;
    }
    Ok(line)
}

/// What the command finds on a line that it takes, and nothing on another.
#[derive(Clone, Copy, Debug)]
struct Found<'a> {
    /// The word that stands for the job.
    job: Option<&'a str>,
    /// The text of `--make`, where it is given.
    make: Option<&'a str>,
    /// The text of `--workers`, where it is given.
    workers: Option<&'a str>,
}

/// What the command finds on the line.
fn read_line<'a>(alloc: Global, line: &'a [&'a str]) -> Result<Found<'a>, Memory>
    ensures job { IfOk result
        (λ found. option_map (λ w. w.now) found.job ≡ job_word (map (λ w. w.now) line.entry.now)) }
    ensures make { IfOk result
        (λ found. option_map (λ w. w.now) found.make ≡ make_text (map (λ w. w.now) line.entry.now)) }
    ensures workers { IfOk result
        (λ found. option_map (λ w. w.now) found.workers ≡ workers_text (map (λ w. w.now) line.entry.now)) }
{
    match parsed(alloc, line) {
        Ok(matches) => Ok(Found {
            job: matches.get_str("job"),
            make: matches.get_str("make"),
            workers: matches.get_str("workers"),
        }),
        Err(fault) if fault.kind() == ErrorKind::OutOfMemory => Err(Memory),
        Err(_) => Ok(Found {
            job: None,
            make: None,
            workers: None,
        }),
    }
}

/// What the command makes of the line.
fn parsed<'a>(alloc: Global, line: &'a [&'a str]) -> Result<ArgMatches<'a>, Error>
    ensures found { IfOk result (λ m. (id : Text)
        → first_value (found_of m) id ≡ given id (map (λ w. w.now) line.entry.now)) }
    ensures refused { IfErr result (λ e. (kind_of e ≡ ErrorKind.OutOfMemory)
        ⊎ ((id : Text) → given id (map (λ w. w.now) line.entry.now) ≡ None)) }
{
    let job = Arg::new(alloc, "job").required(true);
    let make = Arg::new(alloc, "make").long("make");
    let workers = Arg::new(alloc, "workers").long("workers");
    let command = Command::new(alloc, "cm")
        .disable_help_flag(true)
        .disable_version_flag(true)
        .arg(job)?
        .arg(make)?
        .arg(workers)?;
    command.try_get_matches_from(line)
}

/// The job that a word names.
fn kind_named(word: &str) -> Option<JobKind>
    ensures { result ≡ kind_named word.now }
{
    match word {
        "run" => Some(JobKind::Run),
        "steps" => Some(JobKind::Steps),
        "live" => Some(JobKind::Live),
        "upgrade" => Some(JobKind::Upgrade),
        "check" => Some(JobKind::Check),
        "plan" => Some(JobKind::Plan),
        _ => None,
    }
}

/// The job of this kind, where there is one, with what the texts of `--make` and `--workers` ask for.
fn job_of(
    kind: Option<JobKind>,
    make: Option<&str>,
    workers: Option<&str>,
) -> Result<Job, WordsFault>
    ensures job { result ≡ job_of kind (option_map (λ t. t.now) make.entry) (option_map (λ t. t.now) workers.entry) }
    ensures within { IfOk result CanBeAsked }
{
    match kind {
        Some(kind) => job_with(kind, make, workers),
        None => Err(WordsFault::Usage),
    }
}

/// The job of this kind, with what the texts ask for.
fn job_with(kind: JobKind, make: Option<&str>, workers: Option<&str>) -> Result<Job, WordsFault>
    ensures job { result ≡ job_with kind (rounds_asked kind (option_map (λ t. t.now) make.entry))
        (workers_asked kind (option_map (λ t. t.now) workers.entry)) }
    ensures within { IfOk result CanBeAsked }
{
    let make = rounds_asked(kind, make)?;
    let workers = workers_asked(kind, workers)?;
    Ok(Job {
        kind,
        make,
        workers,
    })
}

/// Whether a job of this kind can make its document.
fn can_make(kind: JobKind) -> bool
    ensures { result ≡ can_make kind }
{
    match kind {
        JobKind::Run | JobKind::Steps | JobKind::Live => true,
        JobKind::Upgrade | JobKind::Check | JobKind::Plan => false,
    }
}

/// Of how many rounds a job of this kind makes its document; without a text it reads it.
fn rounds_asked(kind: JobKind, make: Option<&str>) -> Result<Option<u32>, WordsFault>
    ensures rounds { result ≡ rounds_asked kind (option_map (λ t. t.now) make.entry) }
    ensures within { IfOk result (λ made. IfSome made (λ rounds. (1 ≤ rounds) × (rounds ≤ MOST_ROUNDS))) }
    ensures unmade { IfOk result (λ made. can_make kind ≡ false → made ≡ None) }
{
    let Some(text) = make else {
        return Ok(None);
    };
    if !can_make(kind) {
        return Err(WordsFault::Usage);
    }
    match rounds_in(text) {
        Some(rounds) => Ok(Some(rounds)),
        None => Err(WordsFault::Usage),
    }
}

/// How many workers a job of this kind has; without a text one.
fn workers_asked(kind: JobKind, workers: Option<&str>) -> Result<u32, WordsFault>
    ensures workers { result ≡ workers_asked kind (option_map (λ t. t.now) workers.entry) }
    ensures within { IfOk result (λ count. (1 ≤ count) × (count ≤ MOST_WORKERS)) }
    ensures alone { IfOk result (λ count. can_make kind ≡ false → count ≡ 1) }
{
    let Some(text) = workers else {
        return Ok(1);
    };
    if !can_make(kind) {
        return Err(WordsFault::Usage);
    }
    match workers_in(text) {
        Some(count) => Ok(count),
        None => Err(WordsFault::Usage),
    }
}

/// How many rounds a text asks for.
#[tactic(auto, using(crate::proofs::RoundLemmas::rounds))]
fn rounds_in(text: &str) -> Option<u32>
    ensures rounds { result ≡ rounds_in text.now }
    ensures within { IfSome result (λ rounds. (1 ≤ rounds) × (rounds ≤ MOST_ROUNDS)) }
{
    if text.is_empty() || text.len() > MOST_DIGITS_OF_ROUNDS || !are_digits(text) {
        return None;
    }
    match text.parse::<u32>() {
        Ok(rounds) if 1 <= rounds && rounds <= MOST_ROUNDS => Some(rounds),
        _ => None,
    }
}

/// How many workers a text asks for.
#[tactic(auto, using(crate::proofs::RoundLemmas::rounds))]
fn workers_in(text: &str) -> Option<u32>
    ensures workers { result ≡ workers_in text.now }
    ensures within { IfSome result (λ count. (1 ≤ count) × (count ≤ MOST_WORKERS)) }
{
    if text.len() != 1 || !are_digits(text) {
        return None;
    }
    match text.parse::<u32>() {
        Ok(count) if 1 <= count && count <= MOST_WORKERS => Some(count),
        _ => None,
    }
}

fn are_digits(text: &str) -> bool
    ensures { result ≡ list_all is_ascii_digit text.now }
{
    text.as_bytes().iter().all(|byte| byte.is_ascii_digit())
}
