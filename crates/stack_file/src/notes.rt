// What is noted of the lines of an open block, to tell which blocks have no application.
ghost use Rattle.std.specs.Prelude.{◌≡◌};
ghost use Rattle.stack_file.specs.Kept as spec;

// Notes on the lines of a block. A block without an application of its own has one all the same where its
// last lines are maps, all of whose blocks have one without a default. And where a block has none, no
// map in it has a default.
#[derive(Clone, Copy)]
pub(crate) struct Notes {
    // Whether there is a `run` or a `cascade`.
    answered: bool,
    // Where the last line, `run` and `cascade` passed over, is a map: whether all blocks of the maps in
    // the last row have an application without a default.
    row: Option<bool>,
    // The line of the first `end`, in the order of the lines, of a block that would have no application,
    // were there no default.
    unbuilt: Option<u32>,
}

impl Notes {
    pub(crate) fn fresh() -> Notes
        ensures { result ≡ spec.fresh }
    {
        Notes {
            answered: false,
            row: None,
            unbuilt: None,
        }
    }

    // Behind a `use`.
    pub(crate) fn behind_use(self) -> Notes
        ensures { result ≡ spec.noted_use self }
    {
        Notes { row: None, ..self }
    }

    // Behind a `run` or a cascade.
    pub(crate) fn behind_run(self) -> Notes
        ensures { result ≡ spec.noted_run self }
    {
        Notes {
            answered: true,
            ..self
        }
    }

    // Behind a map whose `end` is this line, and of whose lines this was noted.
    pub(crate) fn behind_map(self, line: u32, inside: Notes) -> Notes
        ensures { result ≡ spec.noted_map line inside self }
    {
        Notes {
            answered: self.answered,
            row: Some(self.row.unwrap_or(true) && inside.suffices()),
            unbuilt: self.first_unbuilt(line, inside),
        }
    }

    fn first_unbuilt(self, line: u32, inside: Notes) -> Option<u32>
        ensures { result ≡ spec.earlier self.unbuilt (spec.lacking line inside) }
    {
        match self.unbuilt {
            Some(at) => Some(at),
            None => inside.lacking(line),
        }
    }

    // Whether the block has an application without a default.
    fn suffices(self) -> bool
        ensures { result ≡ spec.suffices self }
    {
        match self.row {
            Some(all) => self.answered || all,
            None => self.answered,
        }
    }

    // The first `end` at which a block would have no application, were there no default, where the block
    // ends at this line and is itself one of them.
    pub(crate) fn lacking(self, line: u32) -> Option<u32>
        ensures { result ≡ spec.lacking line self }
    {
        if self.suffices() {
            return None;
        }
        match self.unbuilt {
            Some(at) => Some(at),
            None => Some(line),
        }
    }
}
