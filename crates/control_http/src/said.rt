// The answers.
ghost use Rattle.std.specs.Prelude.{◌≡◌, IfOk};
ghost use Rattle.rack_types.specs.Answer.{told};
ghost use Rattle.control_http.specs.Said.{answer_of, busy, broken, no_file};

use crate::field::{put_number, put_text};
use hijack_core::Never;
use rack_types::{Answer, Bytes, Headers, Kind, NoMemory, Plain};
use std::alloc::Global;

// A control server's answer.
pub(crate) type Reply = Answer<Plain, Never>;

// The answer of this status and this text.
pub(crate) fn answer(alloc: Global, status: u32, json: Vec<u8>) -> Result<Reply, NoMemory>
    ensures { IfOk result (λ a. told (λ b. b.content) a ≡ answer_of (record { status = status; json = json.items })) }
{
    let mut pieces = Vec::with_capacity(alloc, 1)?;
    pieces.push(Bytes::new(json))?;
    let mut headers = Headers::with_room(alloc, 1)?;
    headers.set_static(b"content-type", b"application/json")?;
    Ok(Answer::Reply {
        status,
        headers,
        body: Plain::new(pieces, false, true, Kind::Enumerable),
        part: None,
    })
}

// The answer of this status with a text that is always the same.
pub(crate) fn say(alloc: Global, status: u32, json: &[u8]) -> Result<Reply, NoMemory>
    ensures { IfOk result (λ a. told (λ b. b.content) a ≡ answer_of (record { status = status; json = json.now })) }
{
    answer(alloc, status, Vec::from_slice(alloc, json)?)
}

// That a master is busy.
#[tactic(auto, unfolding(crate::specs::Said::busy))]
pub(crate) fn say_busy(alloc: Global, phase: u32, target: u32) -> Result<Reply, NoMemory>
    ensures { IfOk result (λ a. told (λ b. b.content) a ≡ answer_of (busy phase target)) }
{
    let mut json = Vec::with_capacity(alloc, 64)?;
    put_number(&mut json, b"{\"phase\":", phase as u64)?;
    put_number(
        &mut json,
        b",\"status\":\"busy\",\"target\":",
        target as u64,
    )?;
    json.extend_from_slice(b"}")?;
    answer(alloc, 409, json)
}

// That a stack file breaks a rule.
#[tactic(auto, unfolding(crate::specs::Said::broken))]
pub(crate) fn say_broken(alloc: Global, line: u32, rule: u8) -> Result<Reply, NoMemory>
    ensures { IfOk result (λ a. told (λ b. b.content) a ≡ answer_of (broken line rule)) }
{
    let mut json = Vec::with_capacity(alloc, 64)?;
    put_number(&mut json, b"{\"line\":", line as u64)?;
    put_number(&mut json, b",\"rule\":\"S", rule as u64)?;
    json.extend_from_slice(b"\",\"status\":\"refused\"}")?;
    answer(alloc, 422, json)
}

// That there is no stack file, for this reason.
#[tactic(auto, unfolding(crate::specs::Said::no_file))]
pub(crate) fn say_no_file(alloc: Global, reason: &[u8]) -> Result<Reply, NoMemory>
    ensures { IfOk result (λ a. told (λ b. b.content) a ≡ answer_of (no_file reason.now)) }
{
    let mut json = Vec::with_capacity(alloc, 64)?;
    put_text(&mut json, b"{\"file\":\"", reason)?;
    json.extend_from_slice(b"\",\"status\":\"refused\"}")?;
    answer(alloc, 422, json)
}
