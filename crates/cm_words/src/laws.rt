//! What holds of words: a function that does nothing, with a contract.

ghost use Rattle.std.specs.Prelude.{◌≡◌, ℕ, List, Ok};
ghost use Rattle.cm_words.specs.Accepted.{HasNoOption, IsListed};
ghost use Rattle.cm_words.specs.Words.{asked};
ghost use Rattle.cm_words.specs.declared.job.Job.{Job};

/// A job that reads its document and has one worker is asked for by its word alone, and by its word with two hyphens
/// before it or behind it. Without an option no other words ask for a job.
pub fn jobs_are_asked_for_by_these_words()
    ensures accepted { (words : List (List ℕ)) (job : Job) → IsListed words job → asked words ≡ Ok job }
    ensures alone { (words : List (List ℕ)) (job : Job)
        → HasNoOption words → asked words ≡ Ok job → IsListed words job }
{}
