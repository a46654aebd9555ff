//! The words that the program was started with, and what they ask for.

ghost use Rattle.desk_jobs.specs.Book.{RunsAlone};

use cm_program::given_words;
use cm_top::Status;
use cm_words::{Job, JobKind};
use std::alloc::Global;
use std::rt::Env;

/// What is drawn.
#[derive(Drop)]
pub(crate) struct DrawJob {
    /// Whose run it is.
    pub drawn: Drawn,
    /// What is written of the run.
    pub written: Written,
}

/// Whose run is drawn.
#[derive(Drop)]
pub(crate) enum Drawn {
    /// The run that this job makes of a document.
    Made(Made),
    /// The run that a stored trace tells.
    Told,
}

/// A job that makes a run.
#[derive(Clone, Copy)]
pub(crate) enum Made {
    /// The job `run`.
    Run,
    /// The job `steps`.
    Steps,
}

impl Made {
    /// The job, for one worker.
    pub fn job(self) -> Job
        ensures { RunsAlone result.kind }
    {
        let kind = match self {
            Made::Run => JobKind::Run,
            Made::Steps => JobKind::Steps,
        };
        Job {
            kind,
            make: None,
            workers: 1,
        }
    }
}

/// What is written of a run.
#[derive(Drop)]
pub(crate) enum Written {
    /// A page of SVG, with the document's name in the title; empty if none is given.
    Page(String),
    /// What was not done as asked or went wrong, and what would mend it, in words.
    Whys,
}

/// What the words after the program's name ask for: the job, `run` where none is named, and behind it `--why`, or
/// `--name` and the document's name.
pub(crate) fn asked_of<E: Env + AllocGlobal>(rt: &E) -> Result<DrawJob, Status> {
    let words = given_words(rt)?;
    asked_by(rt.alloc(), words.as_slice())
}

/// What these words ask for.
fn asked_by(alloc: Global, words: &[String]) -> Result<DrawJob, Status> {
    match words.split_first() {
        Some((word, others)) if word.as_str() == "run" => {
            asked_named(alloc, Drawn::Made(Made::Run), others)
        }
        Some((word, others)) if word.as_str() == "steps" => {
            asked_named(alloc, Drawn::Made(Made::Steps), others)
        }
        Some((word, others)) if word.as_str() == "check" => {
            asked_named(alloc, Drawn::Told, others)
        }
        _ => asked_named(alloc, Drawn::Made(Made::Run), words),
    }
}

/// What the words behind the job ask for.
fn asked_named(alloc: Global, drawn: Drawn, words: &[String]) -> Result<DrawJob, Status> {
    let written = match words {
        [] => Written::Page(String::new(alloc)),
        [key] if key.as_str() == "--why" => Written::Whys,
        [key, name] if key.as_str() == "--name" => named_page(alloc, name.as_str())?,
        _ => return Err(Status::BadWords),
    };
    Ok(DrawJob { drawn, written })
}

/// A page with this name in its title.
fn named_page(alloc: Global, given: &str) -> Result<Written, Status> {
    let mut name = String::new(alloc);
    match name.push_str(given) {
        Ok(()) => Ok(Written::Page(name)),
        Err(_) => Err(Status::Memory),
    }
}
