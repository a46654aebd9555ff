//! How the program tells its status.

ghost use Rattle.std.specs.Prelude.{◌≡◌};
ghost use Rattle.cm_top.specs.Status.{code_of};

use cm_top::Status;
use std::fmt;
use std::io::Eprint;

/// Tells a status that is not `Ok` on standard error, and gives the number that the program ends with. Whether the line
/// could be written changes nothing.
pub fn report<R: Eprint>(rt: &R, status: &Status) -> u8
    ensures { result ≡ code_of status.now }
{
    if *status != Status::Ok {
        let _ = eprintln!(rt; "{}", Line(status));
    }
    status.code()
}

/// The line on standard error for a status other than `Ok`. It prints without a string of its own, as memory may have
/// run out.
#[derive(Clone, Copy)]
struct Line<'a>(&'a Status);

impl fmt::Display for Line<'_> {
    fn fmt<W: fmt::Write>(&self, f: &mut fmt::Formatter<W>) -> fmt::Result {
        write!(f, "cm: {}", self.0)
    }
}
