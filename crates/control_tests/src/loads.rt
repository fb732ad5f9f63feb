// A loader in memory, which always gives the same.
use master_core::{Load, Loader};
use rack_types::NoMemory;

#[derive(Drop)]
pub(crate) struct SameLoad {
    pub(crate) load: Load,
    pub(crate) answered: Option<Load>,
    pub(crate) loads: u64,
    pub(crate) faults: u64,
}

impl Loader for SameLoad {
    ghost loads = { λ s. s.loads };

    ghost answered = { λ s. s.answered };

    ghost faults = { λ s. s.faults };

    fn load(&mut self) -> Result<Load, NoMemory> {
        self.loads = self.loads.saturating_add(1);
        if matches!(self.load, Load::Failed) {
            self.faults = self.faults.saturating_add(1);
        }
        self.answered = Some(self.load);
        Ok(self.load)
    }
}
