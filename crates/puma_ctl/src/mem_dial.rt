// A dial in memory.
ghost use Rattle.std.specs.Prelude.{◌≡◌, None, Some};
ghost use Rattle.std.specs.Option.{option_map};
ghost use Rattle.rack_outside.specs.Wire.{wire_seen};
ghost use Rattle.puma_ctl.specs.Dial.{GivesLink, IsFreshLink, IsOneDial, with_back};
ghost use Rattle.puma_ctl.specs.Exchange.{exchange_of, exchange_seen};

use crate::Dial;
use rack_outside::MemLink;
use std::marker::Model;

/// A dial in memory. It gives one link, where it has one, and each further dial fails.
#[derive(Drop)]
pub struct MemDial {
    link: Option<MemLink>,
    back: Option<MemLink>,
    faults: u64,
    dials: u64,
}

impl Model for MemDial {
    ghost use Rattle.std.specs.Option.{ForSome};
    ghost use Rattle.rack_outside.specs.Wire.{wire_seen};
    ghost use Rattle.puma_ctl.specs.Dial.{IsFreshLink};
    ghost use Rattle.puma_ctl.specs.Exchange.{Exchange};

    ghost Value = { Exchange };

    ghost view = { λ d. record { link = d.link; back = d.back; faults = d.faults; dials = d.dials } };

    ghost invariant = { λ d. ForSome d.link (λ w. IsFreshLink (wire_seen w)) };
}

impl MemDial {
    /// A dial that gives this link, on which nothing happened yet.
    pub fn new(link: MemLink) -> MemDial
        requires { IsFreshLink (wire_seen link) }
        ensures { result ≡ exchange_of (Some link) }
    {
        MemDial {
            link: Some(link),
            back: None,
            faults: 0,
            dials: 0,
        }
    }

    /// A dial that fails.
    pub fn failing() -> MemDial
        ensures { result ≡ exchange_of None }
    {
        MemDial {
            link: None,
            back: None,
            faults: 0,
            dials: 0,
        }
    }

    /// The link that it took back, where it did.
    pub fn back(&self) -> Option<&MemLink>
        ensures { option_map (λ l. l.now) result ≡ self.now.back }
    {
        self.back.as_ref()
    }
}

impl Dial for MemDial {
    type Link = MemLink;

    ghost seen = { exchange_seen };

    fn dial(&mut self, _address: &str) -> Option<MemLink> {
        self.dials = self.dials.saturating_add(1);
        let link = self.link.take();
        if link.is_none() {
            self.faults = self.faults.saturating_add(1);
        }
        link
    }

    fn pause(&mut self) {}

    fn take_back(&mut self, link: MemLink) {
        self.back = Some(link);
    }
}
