//! What is counted of a history.

ghost use Rattle.std.specs.Prelude.{◌≡◌, ◌+◌, ◌-◌, ◌<◌, ◌≤◌, ◌^◌, length};
ghost use Rattle.summary_text.specs.Calls.Count.{CanCount};
ghost use Rattle.summary_text.specs.Counted.{Counted, nothing, counted, with_entry, with_cycle};
ghost use Rattle.summary_text.specs.Counted.{with_decided, with_decisions, with_outcome};
ghost use Rattle.summary_text.specs.Few.{AreFew, outcomes};

use cm_model::{Decision, Entry, Outcome, Reply};
use cm_storage::CycleRecord;
use fixed_num::BodyState;
use std::marker::Model;

/// What is counted of some entries, and where the bodies are after the last cycle among them. Each count has 128 bits:
/// an entry may hold as many items as there can be.
#[derive(Debug, Drop)]
pub struct Tally<'a> {
    /// The cycles that ended.
    pub cycles: u128,
    /// The entries.
    pub entries: u128,
    /// The controllers that these cycles updated, each as often as it was updated.
    pub updates: u128,
    /// The requests that were carried out.
    pub done: u128,
    /// Those that were refused.
    pub refused: u128,
    /// Those that waited when the loop closed.
    pub ended: u128,
    /// The bodies after the last cycle, one for each joint as described; none before the first.
    pub bodies: &'a [BodyState],
}

impl<'a> Model for Tally<'a> {
    ghost use Rattle.summary_text.specs.Counted.{Counted};

    ghost Value = { Counted };

    ghost view = { λ s. record {
      cycles = s.cycles;
      entries = s.entries;
      updates = s.updates;
      done = s.done;
      refused = s.refused;
      ended = s.ended;
      bodies = s.bodies.now;
    } };
}

impl<'a> Tally<'a> {
    /// Of no entry.
    fn nothing() -> Tally<'a>
        ensures { result ≡ nothing }
    {
        Tally {
            cycles: 0,
            entries: 0,
            updates: 0,
            done: 0,
            refused: 0,
            ended: 0,
            bodies: &[],
        }
    }

    /// Of all entries of a history.
    pub fn of(history: &'a [Entry]) -> Tally<'a>
        ensures counted { result ≡ counted history.now }
        ensures few { AreFew result }
        ensures entries { result.entries < 2 ^ 64 }
    {
        let mut tally = Tally::nothing();
        for entry in history {
            tally.count_entry(entry);
        }
        tally
    }

    /// Counts an entry: a record is that of a cycle that ended, and decisions say what became of requests.
    #[tactic(auto, using(crate::proofs::CountLemmas::counting))]
    fn count_entry(&mut self, entry: &'a Entry)
        requires { CanCount self.old }
        ensures counted { self.new ≡ with_entry entry.now self.old }
        ensures few { AreFew self.new }
        ensures entries { self.new.entries ≡ self.old.entries + 1 }
    {
        self.entries += 1;
        match &entry.reply {
            Reply::Cycle(record) => self.count_cycle(record),
            Reply::Decisions(decisions) => self.count_decisions(decisions.as_slice()),
            _ => {}
        }
    }

    fn count_cycle(&mut self, record: &'a CycleRecord)
        requires cycles { self.old.cycles < 2 ^ 64 }
        requires updates { self.old.updates ≤ 2 ^ 128 - 2 ^ 64 }
        ensures counted { self.new ≡ with_cycle record.now self.old }
        ensures fits { length record.now.ran < 2 ^ 64 }
    {
        self.cycles += 1;
        self.updates += record.ran().len() as u128;
        self.bodies = record.bodies();
    }

    fn count_decisions(&mut self, decisions: &[Decision])
        requires { outcomes self.old ≤ 2 ^ 128 - 2 ^ 64 }
        ensures counted { self.new ≡ with_decisions decisions.now self.old }
        ensures fits { length decisions.now < 2 ^ 64 }
    {
        for decision in decisions {
            self.count_decision(decision);
        }
    }

    fn count_decision(&mut self, decision: &Decision)
        requires { outcomes self.old < 2 ^ 128 - 1 }
        ensures counted { self.new ≡ with_decided decision.now.ticket decision.now.outcome self.old }
        ensures more { outcomes self.new ≤ outcomes self.old + 1 }
    {
        // Nobody asked for what has no ticket.
        if let Some(_) = decision.ticket {
            self.count_outcome(&decision.outcome);
        }
    }

    fn count_outcome(&mut self, outcome: &Outcome)
        requires { outcomes self.old < 2 ^ 128 - 1 }
        ensures counted { self.new ≡ with_outcome outcome.now self.old }
        ensures more { outcomes self.new ≡ outcomes self.old + 1 }
    {
        match outcome {
            Outcome::Done { .. } => self.done += 1,
            Outcome::Refused(..) => self.refused += 1,
            Outcome::LoopEnded => self.ended += 1,
        }
    }
}
