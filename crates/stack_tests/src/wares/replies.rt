// What becomes of a reply.
use super::{Which, after_text, env_of, reply_of};
use rack_types::{Env, NoMemory};
use std::alloc::Global;

// A middleware, the method, the status, the headers, whether the length is known, and what comes of it.
struct Row {
    ware: Which,
    method: &'static str,
    status: u32,
    headers: &'static str,
    known: bool,
    wanted: &'static str,
}

const ROWS: [Row; 27] = [
    Row {
        ware: Which::Head,
        method: "HEAD",
        status: 200,
        headers: "etag=x",
        known: true,
        wanted: "200 part\netag: x\nend of 0",
    },
    Row {
        ware: Which::Head,
        method: "HEAD",
        status: 200,
        headers: "",
        known: false,
        wanted: "200 part\nend of 0",
    },
    Row {
        ware: Which::Head,
        method: "GET",
        status: 200,
        headers: "",
        known: false,
        wanted: "200 part\nhello",
    },
    Row {
        ware: Which::Head,
        method: "head",
        status: 200,
        headers: "",
        known: true,
        wanted: "200 part\nhello of 5",
    },
    Row {
        ware: Which::ContentLength,
        method: "GET",
        status: 200,
        headers: "etag=x",
        known: true,
        wanted: "200 part\netag: x\ncontent-length: 5\nhello of 5",
    },
    Row {
        ware: Which::ContentLength,
        method: "GET",
        status: 200,
        headers: "",
        known: false,
        wanted: "200 part\nhello",
    },
    Row {
        ware: Which::ContentLength,
        method: "GET",
        status: 200,
        headers: "content-length=9",
        known: true,
        wanted: "200 part\ncontent-length: 9\nhello of 5",
    },
    Row {
        ware: Which::ContentLength,
        method: "GET",
        status: 200,
        headers: "transfer-encoding=x",
        known: true,
        wanted: "200 part\ntransfer-encoding: x\nhello of 5",
    },
    Row {
        ware: Which::ContentLength,
        method: "GET",
        status: 100,
        headers: "",
        known: true,
        wanted: "100 part\nhello of 5",
    },
    Row {
        ware: Which::ContentLength,
        method: "GET",
        status: 199,
        headers: "",
        known: true,
        wanted: "199 part\nhello of 5",
    },
    Row {
        ware: Which::ContentLength,
        method: "GET",
        status: 204,
        headers: "",
        known: true,
        wanted: "204 part\nhello of 5",
    },
    Row {
        ware: Which::ContentLength,
        method: "GET",
        status: 304,
        headers: "",
        known: true,
        wanted: "304 part\nhello of 5",
    },
    Row {
        ware: Which::ContentLength,
        method: "GET",
        status: 99,
        headers: "",
        known: true,
        wanted: "99 part\ncontent-length: 5\nhello of 5",
    },
    Row {
        ware: Which::ContentType,
        method: "GET",
        status: 200,
        headers: "",
        known: true,
        wanted: "200 part\ncontent-type: text/html\nhello of 5",
    },
    Row {
        ware: Which::ContentType,
        method: "GET",
        status: 204,
        headers: "",
        known: true,
        wanted: "204 part\nhello of 5",
    },
    Row {
        ware: Which::ContentType,
        method: "GET",
        status: 203,
        headers: "content-type=a/b",
        known: false,
        wanted: "203 part\ncontent-type: a/b\nhello",
    },
    Row {
        ware: Which::SetHeader,
        method: "GET",
        status: 200,
        headers: "x-a=1|b=2|x-a=3",
        known: true,
        wanted: "200 part\nx-a: new\nb: 2\nhello of 5",
    },
    Row {
        ware: Which::SetHeader,
        method: "GET",
        status: 204,
        headers: "b=2",
        known: false,
        wanted: "204 part\nb: 2\nx-a: new\nhello",
    },
    Row {
        ware: Which::MethodOverride,
        method: "POST",
        status: 200,
        headers: "",
        known: true,
        wanted: "200 part\nhello of 5",
    },
    Row {
        ware: Which::Lint,
        method: "GET",
        status: 200,
        headers: "a=1",
        known: true,
        wanted: "200 part\na: 1\nhello of 5",
    },
    Row {
        ware: Which::Lint,
        method: "HEAD",
        status: 200,
        headers: "",
        known: true,
        wanted: "500\nx-lint: L11\ncontent-length: 0\nend of 0",
    },
    Row {
        ware: Which::Lint,
        method: "HEAD",
        status: 200,
        headers: "",
        known: false,
        wanted: "200 part\nhello",
    },
    Row {
        ware: Which::Lint,
        method: "GET",
        status: 99,
        headers: "a b=1",
        known: true,
        wanted: "500\nx-lint: L1\ncontent-length: 0\nend of 0",
    },
    Row {
        ware: Which::Lint,
        method: "GET",
        status: 200,
        headers: "a b=1",
        known: true,
        wanted: "500\nx-lint: L2\ncontent-length: 0\nend of 0",
    },
    Row {
        ware: Which::Lint,
        method: "GET",
        status: 204,
        headers: "content-type=a/b",
        known: false,
        wanted: "500\nx-lint: L6\ncontent-length: 0\nend of 0",
    },
    Row {
        ware: Which::Lint,
        method: "GET",
        status: 200,
        headers: "content-length=4",
        known: true,
        wanted: "500\nx-lint: L10\ncontent-length: 0\nend of 0",
    },
    Row {
        ware: Which::Lint,
        method: "GET",
        status: 200,
        headers: "content-length=4",
        known: false,
        wanted: "200 part\ncontent-length: 4\nhello",
    },
];

fn text_of(alloc: Global, row: &Row) -> Result<Vec<u8>, NoMemory> {
    let env = env_of(alloc, row.method, "")?;
    text_in(alloc, &env, row)
}

fn text_in(alloc: Global, env: &Env, row: &Row) -> Result<Vec<u8>, NoMemory> {
    let answer = reply_of(alloc, row.status, row.headers, row.known)?;
    after_text(alloc, &row.ware, env, answer)
}

fn is_right(alloc: Global, row: &Row) -> Result<bool, NoMemory> {
    let text = text_of(alloc, row)?;
    Ok(text.as_slice() == row.wanted.as_bytes())
}

fn first_wrong(alloc: Global, rows: &[Row]) -> Result<Option<usize>, NoMemory> {
    for (i, row) in rows.iter().enumerate() {
        if !is_right(alloc, row)? {
            return Ok(Some(i));
        }
    }
    Ok(None)
}

#[test]
fn changes_replies(rt: HostRuntime) -> Result<(), NoMemory> {
    assert_eq!(rt; first_wrong(rt.alloc(), &ROWS)?, None);
    Ok(())
}
