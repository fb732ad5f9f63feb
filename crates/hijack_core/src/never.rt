// The hijacker that nobody can make.
ghost use Rattle.std.specs.Prelude.{◌≡◌, [], refl};
ghost use Rattle.hijack_core.specs.Silence.{silence, silence-begins, silence-joins, silence-short};

use crate::{Hijack, Said};
use rack_types::{Bytes, NoMemory};
use std::alloc::Global;

/// A hijacker that nobody can make, since its field is private and no call gives one: the type for
/// stacks and connections that are never taken over. If there were one it would say nothing, and close.
///
/// It isn't a type without values: each method of such a type would have a contract that no call can
/// meet, and the gate refuses those.
#[derive(Debug, Drop)]
pub struct Never {
    alloc: Global,
}

impl Never {
    // No bytes, and the end.
    fn silence(&self) -> Said
        ensures { result ≡ silence }
    {
        Said {
            bytes: Bytes::new(Vec::new(self.alloc)),
            go_on: false,
        }
    }
}

impl Hijack for Never {
    ghost says = { λ h bytes. silence };

    ghost ends = { λ h bytes. [] };

    fn on_bytes(&mut self, piece: &[u8]) -> Result<Said, NoMemory> {
        let _piece = piece;
        Ok(self.silence())
    }

    fn on_end(&mut self) -> Result<Said, NoMemory> {
        Ok(self.silence())
    }

    fn leave(&mut self) {}

    ghost begins = { λ h bytes more. silence-begins };

    ghost joins = { λ h bytes goes. (h, silence-joins bytes goes) };

    ghost stops = { λ h bytes more stops. refl };

    ghost short = { λ h piece few. silence-short };

    ghost short_end = { λ h bytes. silence-short };
}
