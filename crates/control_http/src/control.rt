// The runner that answers an operator.
ghost use Rattle.std.specs.Prelude.{◌≡◌, ℕ, List, ◌+◌, ◌<◌, ◌-◌, ◌^◌, [], true, false, length, IfOk, OnOk, OnErr, Some};
ghost use Rattle.rack_types.specs.Answer.{told, IsAsGiven};
ghost use Rattle.rack_types.specs.Env.{Pairs};
ghost use Rattle.rack_types.specs.Runner.{answered_then, asked_then, went_well};
ghost use Rattle.control_http.specs.Runs.{Served, Serves, UsesLoader, asked_in, answers_in};
ghost use Rattle.control_http.specs.Said.{answer_of, forbidden, loads};
ghost use Rattle.control_http.specs.Wish.{wish_of};

use crate::SlotSeen;
use crate::said::Reply;
use crate::serve::serve;
use hijack_core::Never;
use http_server::Log;
use master_core::{Loader, Master};
use rack_types::{Env, NoMemory, Plain, Runner};
use std::alloc::Global;
use std::snapshot::Snapshot;

/// What answers an operator, request by request: statistics of a master and its slots, and orders to it.
///
/// - Without the token, or with another one, the status is 403, and nothing else is looked at. The token
///   is the value of the query's first pair `token`, compared as decoded bytes.
/// - At a path other than `/stats`, `/stop`, `/halt` and `/phased-restart` it is 404.
/// - Where the method isn't GET it is 405.
/// - `/stats` is answered by what stands and what was seen, `/stop` and `/halt` by taking the order.
/// - `/phased-restart` is 409 while the master is busy, and then nothing is loaded. Else the application is
///   loaded: where it could be, the order is taken; where not, the status is 422, with the reason.
///
/// Each answer has its text in JSON, with sorted keys and without spaces. What each run answered, and the
/// master that it began with, contracts see: the present master is that one, changed in turn by the orders
/// of what was asked.
#[derive(Drop)]
pub struct Control<'a, Ld> {
    alloc: Global,
    /// Who takes the orders.
    pub master: &'a mut Master,
    /// What loads the application anew.
    pub loader: &'a mut Ld,
    /// The token that opens the door.
    pub token: &'a [u8],
    /// What was seen of each slot of the master, the lowest first.
    pub seen: &'a [SlotSeen],
    /// How many runs there were.
    pub runs: u64,
    /// What was asked, each with whether that run was Ok. It takes no memory.
    pub asked: Log<Env, bool>,
    /// What was answered. It takes no memory.
    pub answered: Log<Reply, ()>,
    /// The master that it began with. It takes no memory.
    pub given: Snapshot<Master>,
    /// Of each slot something was seen.
    pub ghost slots: { length seen.now ≡ length master.now.slots },
    /// What was asked and answered leads from the master that it began with to the present one.
    pub ghost served: { ∥ Served token.now seen.now given.value (asked_in asked.items) (answers_in answered.items) master.now ∥₁ },
}

impl<'a, Ld: Loader> Control<'a, Ld> {
    /// What answers by this token for this master, with what was seen of each of its slots, the lowest
    /// first. It takes no memory; what it answers is kept in memory of `alloc`.
    pub fn new(
        alloc: Global,
        master: &'a mut Master,
        loader: &'a mut Ld,
        token: &'a [u8],
        seen: &'a [SlotSeen],
    ) -> Control<'a, Ld>
        requires { length seen.now ≡ length master.old.slots }
        ensures master { result.master.now ≡ master.old }
        ensures loader { result.loader.now ≡ loader.old }
        ensures borrows_master { result.master.ghost_name ≡ master.entry.ghost_name }
        ensures borrows_loader { result.loader.ghost_name ≡ loader.entry.ghost_name }
        ensures token { result.token.now ≡ token.now }
        ensures seen { result.seen.now ≡ seen.now }
        ensures given { result.given.value ≡ master.old }
        ensures fresh { (result.runs ≡ 0) × (result.asked.items ≡ []) × (result.answered.items ≡ []) }
    {
        let given = Snapshot::of(&*master);
        Control {
            alloc,
            master,
            loader,
            token,
            seen,
            runs: 0,
            asked: Log::new(),
            answered: Log::new(),
            given,
        }
    }
}

impl<'a, Ld: Loader> Runner<Plain, Never> for Control<'a, Ld> {
    ghost use Rattle.control_http.specs.Leads.{Leads};

    ghost runs = { λ c. c.runs };

    // It isn't steady, so nothing is said by this one.
    ghost answer = { λ c ps input. answer_of forbidden };

    ghost steady = { false };

    ghost answered = { λ c. Some (answers_in c.answered.items) };

    ghost asked = { λ c. Some (asked_in c.asked.items) };

    ghost becomes = { Leads };

    /// Answers what is asked. Where memory is wanted the master is as it was; something may have been
    /// loaded.
    fn run(&mut self, env: &mut Env) -> Result<Reply, NoMemory>
        requires { self.old.runs < 2 ^ 64 - 1 }
        ensures counts { self.new.runs ≡ self.old.runs + 1 }
        ensures answers { false ≡ true → IfOk result (λ a. told (λ b. b.content) a ≡ answer_of forbidden) }
        ensures same { OnOk result (IsAsGiven env.old env.new) }
        ensures keeps { false ≡ true → (ps : Pairs) (input : List ℕ) → answer_of forbidden ≡ answer_of forbidden }
        ensures answered { Some (answers_in self.new.answered.items) ≡ answered_then (λ b. b.content) result (Some (answers_in self.old.answered.items)) }
        ensures asked { Some (asked_in self.new.asked.items) ≡ asked_then result env.old (Some (asked_in self.old.asked.items)) }
        ensures serves { IfOk result (λ a. Serves (wish_of self.old.token.now env.old.pairs) self.old.seen.now (Ld.answered self.new.loader.now) self.old.master.now (told (λ b. b.content) a) self.new.master.now) }
        ensures unchanged { OnErr result (self.new.master.now ≡ self.old.master.now) }
        ensures uses { UsesLoader Ld.loads Ld.faults Ld.answered (loads (wish_of self.old.token.now env.old.pairs) self.old.master.now) (went_well result) self.old.loader.now self.new.loader.now }
        ensures becomes { Leads self.old self.new }
    {
        let well = self.asked.and(&*env, &true);
        let badly = self.asked.and(&*env, &false);
        self.runs += 1;
        let served = serve(
            self.alloc,
            &mut *self.master,
            &mut *self.loader,
            self.token,
            self.seen,
            env,
        );
        match served {
            Ok(answer) => {
                self.asked = well;
                self.answered = self.answered.and(&answer, &());
                Ok(answer)
            }
            Err(refused) => {
                self.asked = badly;
                Err(refused)
            }
        }
    }
}
