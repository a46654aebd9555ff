//! Which calls of a source or a sink in memory fail.

ghost use Rattle.std.specs.Prelude.{◌≡◌};
ghost use Rattle.outside_io.specs.Faults.{one_more};
ghost use Rattle.outside_io.specs.Failing.{is_listed};

/// The numbers of the calls that are to fail, counted from 0, and how many calls there were and failed.
#[derive(Debug, Drop)]
pub(crate) struct Failures {
    pub(crate) listed: Vec<u64>,
    pub(crate) calls: u64,
    pub(crate) faults: u64,
}

impl Failures {
    /// Before the first call.
    pub(crate) fn make(listed: Vec<u64>) -> Failures
        ensures listed { result.listed.items ≡ listed.items }
        ensures calls { result.calls ≡ 0 }
        ensures faults { result.faults ≡ 0 }
    {
        Failures {
            listed,
            calls: 0,
            faults: 0,
        }
    }

    /// Counts one call more, and says whether it is to fail.
    pub(crate) fn next_is_listed(&mut self) -> bool
        ensures answer { result ≡ is_listed self.old.listed.items self.old.calls }
        ensures calls { self.new.calls ≡ one_more self.old.calls }
        ensures listed { self.new.listed.items ≡ self.old.listed.items }
        ensures faults { self.new.faults ≡ self.old.faults }
    {
        let call = self.calls;
        self.calls = call.saturating_add(1);
        self.listed.contains(&call)
    }

    /// Counts one fault more.
    pub(crate) fn count(&mut self)
        ensures faults { self.new.faults ≡ one_more self.old.faults }
        ensures calls { self.new.calls ≡ self.old.calls }
        ensures listed { self.new.listed.items ≡ self.old.listed.items }
    {
        self.faults = self.faults.saturating_add(1);
    }
}
