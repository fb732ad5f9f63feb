// Which method a request gets.
use super::{env_of, put, with};
use rack_types::{Env, NoMemory};
use std::alloc::Global;
use stock_middleware::Ware;

// A method, CONTENT_TYPE and the header, each where it isn't empty; a body; and the method that comes of it.
struct Asked {
    method: &'static str,
    kind: &'static str,
    header: &'static str,
    body: &'static str,
    wanted: &'static str,
}

const FORM: &str = "application/x-www-form-urlencoded";

const ASKED: [Asked; 24] = [
    Asked {
        method: "POST",
        kind: "",
        header: "put",
        body: "",
        wanted: "PUT POST",
    },
    Asked {
        method: "POST",
        kind: "",
        header: "PuT",
        body: "_method=delete",
        wanted: "PUT POST",
    },
    Asked {
        method: "POST",
        kind: FORM,
        header: "",
        body: "_method=delete",
        wanted: "DELETE POST",
    },
    Asked {
        method: "POST",
        kind: FORM,
        header: "put",
        body: "_method=delete",
        wanted: "DELETE POST",
    },
    Asked {
        method: "POST",
        kind: FORM,
        header: "put",
        body: "a=b",
        wanted: "PUT POST",
    },
    Asked {
        method: "POST",
        kind: FORM,
        header: "",
        body: "_method=get&a=b&_method=head&c",
        wanted: "HEAD POST",
    },
    Asked {
        method: "POST",
        kind: FORM,
        header: "",
        body: "_method=get&_method=brew",
        wanted: "POST -",
    },
    Asked {
        method: "POST",
        kind: FORM,
        header: "",
        body: "_method=p+ut",
        wanted: "POST -",
    },
    Asked {
        method: "POST",
        kind: FORM,
        header: "put",
        body: "_method=+put",
        wanted: "POST -",
    },
    Asked {
        method: "POST",
        kind: FORM,
        header: "",
        body: "_method=%50ut",
        wanted: "PUT POST",
    },
    Asked {
        method: "POST",
        kind: FORM,
        header: "",
        body: "%5fmethod=p%55%54",
        wanted: "PUT POST",
    },
    Asked {
        method: "POST",
        kind: FORM,
        header: "",
        body: "_method=%5",
        wanted: "POST -",
    },
    Asked {
        method: "POST",
        kind: FORM,
        header: "",
        body: "_method=%ff",
        wanted: "POST -",
    },
    Asked {
        method: "POST",
        kind: FORM,
        header: "put",
        body: "_method",
        wanted: "POST -",
    },
    Asked {
        method: "POST",
        kind: FORM,
        header: "put",
        body: "_METHOD=get",
        wanted: "PUT POST",
    },
    Asked {
        method: "POST",
        kind: FORM,
        header: "",
        body: "&&_method=options&",
        wanted: "OPTIONS POST",
    },
    Asked {
        method: "POST",
        kind: "text/plain",
        header: "",
        body: "_method=put",
        wanted: "POST -",
    },
    Asked {
        method: "POST",
        kind: " \tApplication/X-WWW-Form-URLencoded ;q=1;r",
        header: "",
        body: "_method=patch",
        wanted: "PATCH POST",
    },
    Asked {
        method: "POST",
        kind: "application/x-www-form-urlencodedx",
        header: "link",
        body: "_method=put",
        wanted: "LINK POST",
    },
    Asked {
        method: "POST",
        kind: FORM,
        header: "",
        body: "_method=unlink",
        wanted: "UNLINK POST",
    },
    Asked {
        method: "POST",
        kind: "",
        header: "post",
        body: "",
        wanted: "POST POST",
    },
    Asked {
        method: "POST",
        kind: "",
        header: "brew",
        body: "",
        wanted: "POST -",
    },
    Asked {
        method: "GET",
        kind: FORM,
        header: "put",
        body: "_method=put",
        wanted: "GET -",
    },
    Asked {
        method: "post",
        kind: "",
        header: "put",
        body: "",
        wanted: "post -",
    },
];

// With a pair, unless the value is empty.
fn with_some(env: Env, name: &str, value: &str) -> Result<Env, NoMemory> {
    match value.is_empty() {
        true => Ok(env),
        false => with(env, name, value),
    }
}

fn two_read(env: Env) -> Env {
    let mut env = env;
    env.input().read(2);
    env
}

// Such an environment, of whose body two bytes are read.
fn asking(alloc: Global, row: &Asked) -> Result<Env, NoMemory> {
    let env = env_of(alloc, row.method, row.body)?;
    let env = with_some(env, "CONTENT_TYPE", row.kind)?;
    let env = with_some(env, "HTTP_X_HTTP_METHOD_OVERRIDE", row.header)?;
    Ok(two_read(env))
}

fn put_value(env: &Env, name: &str, out: &mut Vec<u8>) -> Result<(), NoMemory> {
    match env.get(name.as_bytes()) {
        Some(value) => put(out, value),
        None => put(out, b"-"),
    }
}

// The method and the former one.
fn put_methods(env: &Env, out: &mut Vec<u8>) -> Result<(), NoMemory> {
    put_value(env, "REQUEST_METHOD", out)?;
    put(out, b" ")?;
    put_value(env, "rack.methodoverride.original_method", out)?;
    put(out, b"|")
}

// The methods before and behind `undo`, each with a bar behind it.
fn put_undone(alloc: Global, env: &mut Env, out: &mut Vec<u8>) -> Result<(), NoMemory> {
    let undo = Ware::MethodOverride.before(alloc, env)?;
    let put = put_methods(env, out);
    Ware::MethodOverride.undo(env, undo);
    put?;
    put_methods(env, out)
}

// The same as text.
fn undone(alloc: Global, env: &mut Env) -> Result<Vec<u8>, NoMemory> {
    let mut out = Vec::new(alloc);
    match put_undone(alloc, env, &mut out) {
        Ok(()) => Ok(out),
        Err(refused) => Err(refused),
    }
}

fn wanted_of(alloc: Global, row: &Asked) -> Result<String, NoMemory> {
    Ok(format!(in alloc; "{}|{} -|", row.wanted, row.method)?)
}

fn is_wanted(alloc: Global, said: &[u8], row: &Asked) -> Result<bool, NoMemory> {
    let wanted = wanted_of(alloc, row)?;
    Ok(said == wanted.as_bytes())
}

// Whether the method is the wanted one, behind `undo` the former one again, and as much left of the body.
fn is_undone(alloc: Global, env: &mut Env, row: &Asked) -> Result<bool, NoMemory> {
    let said = undone(alloc, env)?;
    if env.input().rest().len() != row.body.len() - row.body.len().min(2) {
        return Ok(false);
    }
    is_wanted(alloc, said.as_slice(), row)
}

fn is_right(alloc: Global, row: &Asked) -> Result<bool, NoMemory> {
    let mut env = asking(alloc, row)?;
    is_undone(alloc, &mut env, row)
}

fn first_wrong(alloc: Global, rows: &[Asked]) -> Result<Option<usize>, NoMemory> {
    for (i, row) in rows.iter().enumerate() {
        if !is_right(alloc, row)? {
            return Ok(Some(i));
        }
    }
    Ok(None)
}

#[test]
fn overrides_the_method(rt: HostRuntime) -> Result<(), NoMemory> {
    assert_eq!(rt; first_wrong(rt.alloc(), &ASKED)?, None);
    Ok(())
}

fn put_pair(out: &mut Vec<u8>, name: &[u8], value: &[u8]) -> Result<(), NoMemory> {
    put(out, name)?;
    put(out, b"=")?;
    put(out, value)?;
    put(out, b" ")
}

// The names and values, one behind the other.
fn put_pairs(env: &Env, out: &mut Vec<u8>) -> Result<(), NoMemory> {
    for i in 0..env.len() {
        put_pair(out, env.name(i), env.value(i))?;
    }
    Ok(())
}

fn put_overridden(alloc: Global, env: &mut Env, out: &mut Vec<u8>) -> Result<(), NoMemory> {
    let _undo = Ware::MethodOverride.before(alloc, env)?;
    put_pairs(env, out)
}

fn pairs_of_overridden(alloc: Global, env: Env) -> Result<Vec<u8>, NoMemory> {
    let mut env = env;
    let mut out = Vec::new(alloc);
    match put_overridden(alloc, &mut env, &mut out) {
        Ok(()) => Ok(out),
        Err(refused) => Err(refused),
    }
}

fn overridden(alloc: Global) -> Result<Vec<u8>, NoMemory> {
    let env = env_of(alloc, "POST", "")?;
    let env = with(env, "HTTP_X_HTTP_METHOD_OVERRIDE", "put")?;
    pairs_of_overridden(alloc, env)
}

#[test]
fn puts_the_former_method_last(rt: HostRuntime) -> Result<(), NoMemory> {
    let wanted =
        "REQUEST_METHOD=PUT PATH_INFO=/ QUERY_STRING= SERVER_NAME=a SERVER_PROTOCOL=HTTP/1.1 rack.url_scheme=http rack.errors=discard rack.hijack?=true HTTP_X_HTTP_METHOD_OVERRIDE=put rack.methodoverride.original_method=POST ";
    assert_eq!(rt; overridden(rt.alloc())?.as_slice(), wanted.as_bytes());
    Ok(())
}
