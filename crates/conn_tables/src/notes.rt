// A watcher that notes what it is asked.
ghost use Rattle.std.specs.Prelude.{None, ◌-◌, ◌^◌};

use rack_outside::{Keys, Link, Waited, Watcher};

/// A call that hands it a link.
#[derive(Clone, Copy, Debug, PartialEq, Eq)]
pub(crate) enum Call {
    Watch { key: usize, write: bool },
    Forget { key: usize },
}

/// Notes the last call that handed it a link, and how many there were. It watches nothing.
#[derive(Drop)]
pub(crate) struct Notes {
    pub(crate) calls: u8,
    pub(crate) last: Option<Call>,
    /// What it answers to a call to watch. Its count of faults stands at its end, so that it may answer either.
    pub(crate) answers: bool,
}

impl Notes {
    fn note(&mut self, call: Call) {
        self.calls = self.calls.saturating_add(1);
        self.last = Some(call);
    }
}

impl<L: Link> Watcher<L> for Notes {
    ghost named = { λ n. None };

    ghost faults = { λ n. 2 ^ 64 - 1 };

    fn watch(&mut self, key: usize, link: &mut L, write: bool) -> bool {
        let _link = link;
        self.note(Call::Watch { key, write });
        self.answers
    }

    fn forget(&mut self, key: usize, link: &mut L) {
        let _link = link;
        self.note(Call::Forget { key });
    }

    fn wait(&mut self, _ms: u64, keys: &mut Keys) -> Waited {
        keys.clear();
        Waited::Some
    }
}
