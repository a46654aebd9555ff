//! What a run comes to, by the number of its rounds.

ghost use Rattle.std.specs.Prelude.{◌≡◌, ℕ, ◌≤◌};
ghost use Rattle.summary_text.specs.Counted.{counted};
ghost use Rattle.made_laws.specs.Runs.{run_of, summed_up, summary_of_one, summary_of_two, AreCounts};

/// The run of one round has the summary that was written down for it by hand: 24 entries of the session and 21 of the
/// loop; in ten cycles eight controllers are updated, and in one of them, while one is stopped, seven; and one joint
/// has moved.
pub fn the_run_of_one_round()
    ensures { summed_up 1 ≡ summary_of_one }
{}

/// And the run of two rounds: 26 entries a round and 19 besides, and a second joint has moved.
pub fn the_run_of_two_rounds()
    ensures { summed_up 2 ≡ summary_of_two }
{}

/// The run of so many rounds, of which there is one at least, has ten cycles a round, 26 entries a round and 19
/// besides, and 79 updates a round; two requests a round and one besides are decided, and all of them carried out.
pub fn runs_of_made_documents_are_counted()
    ensures { (rounds : ℕ) → 1 ≤ rounds → AreCounts rounds (counted (run_of rounds)) }
{}
