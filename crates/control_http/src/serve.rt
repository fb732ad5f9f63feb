// One run.
ghost use Rattle.std.specs.Prelude.{◌≡◌, IfOk, OnErr, OnOk, Some, length};
ghost use Rattle.rack_types.specs.Answer.{told};
ghost use Rattle.rack_types.specs.Runner.{went_well};
ghost use Rattle.control_http.specs.Runs.{Serves, UsesLoader};
ghost use Rattle.control_http.specs.Said.{Orders, answer_of, done, loads};
ghost use Rattle.control_http.specs.Wish.{wish_of};

use crate::SlotSeen;
use crate::restart::restart;
use crate::said::{Reply, answer, say};
use crate::stats::stats;
use crate::wish::{Wish, wish_of};
use master_core::{Loader, Master, Order};
use rack_types::{Env, NoMemory};
use std::alloc::Global;

// Answers a request. An order is taken last, so that nothing is wanted behind it.
pub(crate) fn serve<Ld: Loader>(
    alloc: Global,
    master: &mut Master,
    loader: &mut Ld,
    token: &[u8],
    seen: &[SlotSeen],
    env: &Env,
) -> Result<Reply, NoMemory>
    requires { length seen.now ≡ length master.old.slots }
    ensures serves { IfOk result (λ a. Serves (wish_of token.now env.now.pairs) seen.now (Ld.answered loader.new) master.old (told (λ b. b.content) a) master.new) }
    ensures unchanged { OnErr result (master.new ≡ master.old) }
    ensures uses { UsesLoader Ld.loads Ld.faults Ld.answered (loads (wish_of token.now env.now.pairs) master.old) (went_well result) loader.old loader.new }
{
    match wish_of(alloc, token, env)? {
        Wish::Forbidden => say(alloc, 403, b"{\"status\":\"forbidden\"}"),
        Wish::NotFound => say(alloc, 404, b"{\"status\":\"not found\"}"),
        Wish::OtherMethod => say(alloc, 405, b"{\"status\":\"method\"}"),
        Wish::Stats => answer(alloc, 200, stats(alloc, master, seen)?),
        Wish::Stop => end(alloc, master, Order::Stop),
        Wish::Halt => end(alloc, master, Order::Halt),
        Wish::PhasedRestart => restart(alloc, master, loader),
    }
}

// Takes an order, which is one to end and so is always taken.
fn end(alloc: Global, master: &mut Master, order: Order) -> Result<Reply, NoMemory>
    ensures answers { IfOk result (λ a. told (λ b. b.content) a ≡ answer_of done) }
    ensures orders { OnOk result (Orders (Some order) master.old master.new) }
    ensures unchanged { OnErr result (master.new ≡ master.old) }
{
    let answer = say(alloc, 200, b"{\"status\":\"ok\"}")?;
    let _reply = master.order(order);
    Ok(answer)
}
