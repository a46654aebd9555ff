//! The parts of a document.

ghost use Rattle.std.specs.Prelude.{◌≡◌, ◌+◌, ◌≤◌, length, option_map, unwrap_or};
ghost use Rattle.cm_document.specs.Lines.{parts_of, raw_lines};
ghost use Rattle.document_text.specs.Parts.{Divides, DividesTwice};
ghost use Rattle.document_text.specs.Traced.{separates};

use script_text::{bare_line, first_line};

/// A document divided at its separator, none of it copied.
#[derive(Clone, Copy, Debug)]
pub struct Divided<'a> {
    /// The bytes before the separator; all of them if there is none.
    pub description: &'a [u8],
    /// How many lines the description is.
    pub lines: usize,
    /// The bytes behind the separator, if it stands.
    pub script: Option<&'a [u8]>,
}

/// Divides a document at its separator, the first line that is one.
pub fn divide(bytes: &[u8]) -> Divided<'_>
    ensures description { result.description.now ≡ (parts_of bytes.now).description }
    ensures lines { result.lines ≡ (parts_of bytes.now).lines }
    ensures script { option_map (λ t. t.now) result.script ≡ (parts_of bytes.now).script }
    ensures sizes { (result.lines + unwrap_or (option_map (λ t. length t.now) result.script) 0 ≤ length bytes.now)
        × (length (raw_lines bytes.now)
        ≡ result.lines + unwrap_or (option_map (λ t. 1 + length (raw_lines t.now)) result.script) 0) }
{
    let cut = cut_at(bytes, Separator::Script);
    Divided {
        description: cut.before,
        lines: cut.lines,
        script: cut.behind,
    }
}

/// A document divided at both separators, none of it copied.
#[derive(Clone, Copy, Debug)]
pub struct Thirds<'a> {
    /// The bytes before the separator of the script; all of them if there is none.
    pub description: &'a [u8],
    /// How many lines the description is.
    pub lines: usize,
    /// The bytes behind it, up to the separator of the trace, if it stands.
    pub script: Option<&'a [u8]>,
    /// The bytes behind that, if it stands.
    pub trace: Option<&'a [u8]>,
    /// How many lines the document is without a trace.
    pub all_lines: usize,
}

/// Divides a document at the separator of its script, and what stands behind it at that of its trace.
#[tactic(auto, using(cm_document::proofs::LineLemmas::raw_lines_within))]
pub fn divide_twice(bytes: &[u8]) -> Thirds<'_>
    ensures { DividesTwice bytes.now result.description.now result.lines (option_map (λ t. t.now) result.script)
        (option_map (λ t. t.now) result.trace) result.all_lines }
{
    let parts = divide(bytes);
    match parts.script {
        Some(text) => {
            let behind = cut_at(text, Separator::Trace);
            Thirds {
                description: parts.description,
                lines: parts.lines,
                script: Some(behind.before),
                trace: behind.behind,
                all_lines: parts.lines + 1 + behind.lines,
            }
        }
        None => Thirds {
            description: parts.description,
            lines: parts.lines,
            script: None,
            trace: None,
            all_lines: parts.lines,
        },
    }
}

/// A line that divides a document.
#[derive(Clone, Copy, Debug)]
enum Separator {
    /// The one between the description and the script.
    Script,
    /// The one between the script and the trace.
    Trace,
}

impl Separator {
    /// Whether this line is the separator.
    fn is(self, line: &[u8]) -> bool
        ensures { result ≡ separates self line.now }
    {
        let bare = bare_line(line);
        match self {
            Separator::Script => bare == b"--- script ---".as_slice(),
            Separator::Trace => bare == b"--- trace ---".as_slice(),
        }
    }
}

/// A text divided at a line, none of it copied.
#[derive(Clone, Copy, Debug)]
struct Cut<'a> {
    /// The bytes before the line; all of them if there is none.
    before: &'a [u8],
    /// How many lines these are.
    lines: usize,
    /// The bytes behind the line, if it stands.
    behind: Option<&'a [u8]>,
}

/// Divides a text at the first line that is this separator.
#[tactic(auto, using(crate::proofs::PartsLemmas::dividing))]
fn cut_at(bytes: &[u8], separator: Separator) -> Cut<'_>
    ensures { Divides (separates separator) bytes.now result.before.now result.lines
        (option_map (λ t. t.now) result.behind) }
{
    let mut lines = 0;
    let mut rest = bytes;
    while !rest.is_empty() {
        let (line, more) = first_line(rest);
        if separator.is(line) {
            let (before, _) = bytes.split_at(bytes.len() - rest.len());
            return Cut {
                before,
                lines,
                behind: Some(more),
            };
        }
        lines += 1;
        rest = more;
    }
    Cut {
        before: bytes,
        lines,
        behind: None,
    }
}
