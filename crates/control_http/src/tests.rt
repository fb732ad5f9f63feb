// The table of answers, by rows over objects in memory.
use crate::{Control, SlotSeen};
use master_core::{Load, Loader, Master};
use rack_types::{Answer, Body, Bytes, Env, Input, NoMemory, Plain, Runner, Step};
use serde_json::Value;
use std::alloc::Global;
use std::test::Fail;

// A loader in memory, which always gives the same.
#[derive(Drop)]
struct SameLoad {
    load: Load,
    answered: Option<Load>,
    loads: u64,
    faults: u64,
}

fn loader_of(load: Load) -> SameLoad {
    SameLoad {
        load,
        answered: None,
        loads: 0,
        faults: 0,
    }
}

impl Loader for SameLoad {
    ghost loads = { λ s. s.loads };

    ghost answered = { λ s. s.answered };

    ghost faults = { λ s. s.faults };

    fn load(&mut self) -> Result<Load, NoMemory> {
        self.loads = self.loads.saturating_add(1);
        if matches!(self.load, Load::Failed) {
            self.faults = self.faults.saturating_add(1);
        }
        self.answered = Some(self.load);
        Ok(self.load)
    }
}

// What was seen of a slot at rest.
const AT_REST: SlotSeen = SlotSeen {
    backlog: 0,
    running: 0,
    pool_capacity: 4,
    max_threads: 4,
    requests: 0,
};

// A request, by its method, path and query, and what it is answered, by status and text.
#[derive(Clone, Copy)]
struct Row(&'static str, &'static str, &'static str, u32, &'static str);

fn ask(
    alloc: Global,
    control: &mut Control<'_, SameLoad>,
    row: &Row,
) -> Result<Option<(u32, Vec<u8>)>, NoMemory> {
    let mut env = Env::new(alloc, Input::new(Bytes::new(Vec::new(alloc))));
    env.set(b"REQUEST_METHOD", row.0.as_bytes())?;
    env.set(b"PATH_INFO", row.1.as_bytes())?;
    env.set(b"QUERY_STRING", row.2.as_bytes())?;
    if control.runs == u64::MAX {
        return Ok(None);
    }
    match control.run(&mut env)? {
        Answer::Reply { status, body, .. } => Ok(Some((status, text_of(alloc, body)?))),
        Answer::Raised(_) => Ok(None),
        Answer::Taken(_) => Ok(None),
    }
}

fn text_of(alloc: Global, mut body: Plain) -> Result<Vec<u8>, NoMemory> {
    match body.next()? {
        Step::Piece => Vec::from_slice(alloc, body.piece()),
        Step::End => Ok(Vec::new(alloc)),
        Step::Raised => Ok(Vec::new(alloc)),
    }
}

fn is_right(
    alloc: Global,
    control: &mut Control<'_, SameLoad>,
    row: &Row,
) -> Result<bool, NoMemory> {
    match ask(alloc, control, row)? {
        Some((status, text)) => Ok(status == row.3 && text.as_slice() == row.4.as_bytes()),
        None => Ok(false),
    }
}

// The first row that is answered otherwise, and else how often something was loaded.
fn differs(
    alloc: Global,
    control: &mut Control<'_, SameLoad>,
    rows: &[Row],
) -> Result<(Option<usize>, u64), NoMemory> {
    for (i, row) in rows.iter().enumerate() {
        if !is_right(alloc, control, row)? {
            return Ok((Some(i), 0));
        }
    }
    Ok((None, control.loader.loads))
}

// The same, of a new master of one slot with this token and what it loads.
fn first_wrong(
    alloc: Global,
    token: &[u8],
    load: Load,
    rows: &[Row],
) -> Result<(Option<usize>, u64), NoMemory> {
    let mut master = Master::new(alloc, 1)?;
    let mut loader = loader_of(load);
    if master.slots().len() != 1 {
        return Ok((Some(0), 0));
    }
    let seen = [AT_REST];
    let mut control = Control::new(alloc, &mut master, &mut loader, token, &seen);
    differs(alloc, &mut control, rows)
}

const FORBIDDEN: &str = "{\"status\":\"forbidden\"}";

const NOT_FOUND: &str = "{\"status\":\"not found\"}";

const METHOD: &str = "{\"status\":\"method\"}";

const OK: &str = "{\"status\":\"ok\"}";

const BUSY: &str = "{\"phase\":0,\"status\":\"busy\",\"target\":1}";

const STATS: &str =
    "{\"booted_workers\":1,\"old_workers\":0,\"phase\":0,\"worker_status\":[{\"booted\":true,\"index\":0,\"last_status\":{\"backlog\":0,\"max_threads\":4,\"pool_capacity\":4,\"requests_count\":0,\"running\":0},\"phase\":0}],\"workers\":1}";

const OLD_STATS: &str =
    "{\"booted_workers\":1,\"old_workers\":1,\"phase\":1,\"worker_status\":[{\"booted\":true,\"index\":0,\"last_status\":{\"backlog\":0,\"max_threads\":4,\"pool_capacity\":4,\"requests_count\":0,\"running\":0},\"phase\":0}],\"workers\":1}";

// Each row of the table, alone and where those above it stand too: before an order is pending, while a
// phased restart is, and behind a stop. A refusal that lets an order through would show in what follows.
fn each_row() -> [Row; 29] {
    [
        Row("GET", "/stats", "token=t", 200, STATS),
        Row("POST", "/nothing", "", 403, FORBIDDEN),
        Row("GET", "/phased-restart", "token=x", 403, FORBIDDEN),
        Row("GET", "/stop", "token=x", 403, FORBIDDEN),
        Row("GET", "/halt", "token=x&token=t", 403, FORBIDDEN),
        Row("GET", "/stats", "token", 403, FORBIDDEN),
        Row("GET", "/stats", "Token=t", 403, FORBIDDEN),
        Row("GET", "/stats", "token=tt", 403, FORBIDDEN),
        Row("POST", "/", "token=t", 404, NOT_FOUND),
        Row("GET", "/stats/", "token=t", 404, NOT_FOUND),
        Row("GET", "/Stop", "token=t", 404, NOT_FOUND),
        Row("GET", "", "token=t", 404, NOT_FOUND),
        Row("POST", "/stop", "token=t", 405, METHOD),
        Row("HEAD", "/halt", "token=t", 405, METHOD),
        Row("get", "/phased-restart", "token=t", 405, METHOD),
        Row("GET", "/stats", "a=b&&token=t&token=x", 200, STATS),
        Row("GET", "/phased-restart", "%74oken=%74", 200, OK),
        Row("GET", "/phased-restart", "token=t", 409, BUSY),
        Row("GET", "/stop", "token=x", 403, FORBIDDEN),
        Row("GET", "/stops", "token=t", 404, NOT_FOUND),
        Row("POST", "/phased-restart", "token=t", 405, METHOD),
        Row("GET", "/stats", "token=t", 200, OLD_STATS),
        Row("GET", "/stop", "token=t", 200, OK),
        Row("GET", "/phased-restart", "token=t", 409, BUSY),
        Row("GET", "/stop", "token=t", 200, OK),
        Row("GET", "/halt", "token=t", 200, OK),
        Row("GET", "/halt", "token=t", 200, OK),
        Row("GET", "/stop", "token=t", 200, OK),
        Row("GET", "/stats", "token=t", 200, OLD_STATS),
    ]
}

// A token with a space and a zero byte.
fn spelled() -> [Row; 5] {
    [
        Row("GET", "/stop", "token=a+b%00", 200, OK),
        Row("GET", "/stop", "token=a%20b%00&", 200, OK),
        Row("GET", "/stop", "token=a b%00", 200, OK),
        Row("GET", "/stop", "token=a%2Bb%00", 403, FORBIDDEN),
        Row("GET", "/stop", "token=a+b", 403, FORBIDDEN),
    ]
}

// A token that is no text: the bytes count, not what stands in their place.
fn no_text() -> [Row; 3] {
    [
        Row("GET", "/stop", "token=%ff", 200, OK),
        Row("GET", "/stop", "token=%FE", 403, FORBIDDEN),
        Row("GET", "/stop", "token=%ef%bf%bd", 403, FORBIDDEN),
    ]
}

fn broken() -> [Row; 1] {
    [Row(
        "GET",
        "/phased-restart",
        "token=t",
        422,
        "{\"line\":4294967295,\"rule\":\"S9\",\"status\":\"refused\"}",
    )]
}

// What is answered where there is no file, and again.
fn absent() -> [Row; 2] {
    [
        Row(
            "GET",
            "/phased-restart",
            "token=t",
            422,
            "{\"file\":\"absent\",\"status\":\"refused\"}",
        ),
        Row("GET", "/stats", "token=t", 200, STATS),
    ]
}

fn long() -> [Row; 1] {
    [Row(
        "GET",
        "/phased-restart",
        "token=t",
        422,
        "{\"file\":\"long\",\"status\":\"refused\"}",
    )]
}

fn failed() -> [Row; 2] {
    [
        Row(
            "GET",
            "/phased-restart",
            "token=t",
            422,
            "{\"file\":\"failed\",\"status\":\"refused\"}",
        ),
        Row(
            "GET",
            "/phased-restart",
            "token=t",
            422,
            "{\"file\":\"failed\",\"status\":\"refused\"}",
        ),
    ]
}

const BAD: Load = Load::Bad {
    line: 4_294_967_295,
    rule: 9,
};

// Whether a table is answered by a new master, and something was loaded so often.
fn holds(
    alloc: Global,
    token: &[u8],
    load: Load,
    rows: &[Row],
    loads: u64,
) -> Result<bool, NoMemory> {
    Ok(first_wrong(alloc, token, load, rows)? == (None, loads))
}

fn good_loads_hold(alloc: Global) -> Result<bool, NoMemory> {
    Ok(
        holds(alloc, b"t", Load::Read, &each_row(), 1)?
            && holds(alloc, b"a b\0", Load::Read, &spelled(), 0)?
            && holds(alloc, b"\xff", Load::Read, &no_text(), 0)?,
    )
}

fn other_loads_hold(alloc: Global) -> Result<bool, NoMemory> {
    Ok(
        holds(alloc, b"t", BAD, &broken(), 1)?
            && holds(alloc, b"t", Load::Absent, &absent(), 1)?
            && holds(alloc, b"t", Load::Long, &long(), 1)?
            && holds(alloc, b"t", Load::Failed, &failed(), 2)?,
    )
}

#[test]
fn each_row_is_answered(rt: HostRuntime) -> Result<(), Fail> {
    assert!(rt; good_loads_hold(rt.alloc())?);
    assert!(rt; other_loads_hold(rt.alloc())?);
    Ok(())
}

// The numbers at their ends.
const MOST: SlotSeen = SlotSeen {
    backlog: 4_294_967_295,
    running: 32,
    pool_capacity: 0,
    max_threads: 32,
    requests: 18_446_744_073_709_551_615,
};

// The text of `/stats` for sixteen slots.
fn most_stats(alloc: Global) -> Result<Option<Vec<u8>>, NoMemory> {
    let mut master = Master::new(alloc, 16)?;
    let mut loader = loader_of(Load::Read);
    let seen = [MOST; 16];
    if master.slots().len() != 16 {
        return Ok(None);
    }
    let mut control = Control::new(alloc, &mut master, &mut loader, b"t", &seen);
    match ask(
        alloc,
        &mut control,
        &Row("GET", "/stats", "token=t", 200, ""),
    )? {
        Some((_, text)) => Ok(Some(text)),
        None => Ok(None),
    }
}

// The number that stands there, read back by another.
fn number_at(value: &Value, path: &str) -> Option<u64> {
    value.pointer(path).and_then(Value::as_u64)
}

// Whether they are those that were put in.
fn are_most(value: &Value) -> bool {
    number_at(value, "/workers") == Some(16)
        && number_at(value, "/worker_status/15/index") == Some(15)
        && number_at(value, "/worker_status/15/last_status/backlog") == Some(4_294_967_295)
        && number_at(value, "/worker_status/0/last_status/requests_count") == Some(u64::MAX)
}

#[test]
fn statistics_are_read_back(rt: HostRuntime) -> Result<(), Fail> {
    let text = most_stats(rt.alloc())?.ok_or("no answer")?;
    let value = Value::from_slice(rt.alloc(), &text)?;
    assert!(rt; are_most(&value));
    assert!(rt; value.to_vec(rt.alloc())?.as_slice() == text.as_slice());
    Ok(())
}
