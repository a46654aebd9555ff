//! The words of the program.

ghost use Rattle.std.specs.Prelude.{map, string_bytes, MatchOption};
ghost use Rattle.cm_bench.specs.Words.{AreOf, AreOfNone, IsPlan, IsNoPlan, StandsFor, StandsForNone};
ghost use Rattle.cm_bench.specs.Words.{AreRuns, AreNoRuns, AskForRuns, AskForNoRuns};

use crate::plan::TurnsAsked;

/// What the words ask for.
#[derive(Clone, Copy)]
pub(crate) enum Measure {
    /// So many live runs.
    Live(u64),
    /// So many runs by each number of workers.
    Workers(u64),
    /// Turns of each body.
    Turns(TurnsAsked),
    /// Nothing that there is.
    Nothing,
}

/// What these words ask for.
pub(crate) fn asked(words: &[String]) -> Measure {
    if let Some(runs) = runs_of(words, "live") {
        return Measure::Live(runs);
    }
    if let Some(runs) = runs_of(words, "workers") {
        return Measure::Workers(runs);
    }
    match plan_of(words) {
        Some(plan) => Measure::Turns(plan),
        None => Measure::Nothing,
    }
}

/// The plan of the words `TURNS SEED`, both decimal and the turns not 0. `None` for any others.
fn plan_of(words: &[String]) -> Option<TurnsAsked>
    ensures { MatchOption result (IsNoPlan (map string_bytes words.now)) (IsPlan (map string_bytes words.now)) }
{
    if words.len() != 2 {
        return None;
    }
    plan_of_two(words[0].as_str(), words[1].as_str())
}

fn plan_of_two(turns: &str, seed: &str) -> Option<TurnsAsked>
    ensures { MatchOption result (AreOfNone turns.now seed.now) (AreOf turns.now seed.now) }
{
    let turns = number_of(turns)?;
    let seed = number_of(seed)?;
    if turns == 0 {
        return None;
    }
    Some(TurnsAsked { turns, seed })
}

/// How many runs the words ask for that are this one and a number, decimal and not 0. `None` for any others.
fn runs_of(words: &[String], asked: &str) -> Option<u64>
    ensures { MatchOption result (AskForNoRuns asked.now (map string_bytes words.now))
        (AskForRuns asked.now (map string_bytes words.now)) }
{
    if words.len() != 2 {
        return None;
    }
    runs_of_two(asked, words[0].as_str(), words[1].as_str())
}

fn runs_of_two(asked: &str, word: &str, runs: &str) -> Option<u64>
    ensures { MatchOption result (AreNoRuns asked.now word.now runs.now) (AreRuns asked.now word.now runs.now) }
{
    if word != asked {
        return None;
    }
    let runs = number_of(runs)?;
    if runs == 0 {
        return None;
    }
    Some(runs)
}

/// The number that a word stands for.
fn number_of(word: &str) -> Option<u64>
    ensures { MatchOption result (StandsForNone word.now) (StandsFor word.now) }
{
    match word.parse() {
        Ok(number) => Some(number),
        Err(_) => None,
    }
}
