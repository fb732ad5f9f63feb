// Each call once. The boundaries of the rules, and pairs of them, are worked out beside their definitions.
use lint_core::*;
use rack_types::{Bytes, Env, Headers, Input, NoMemory};
use std::alloc::Global;

// An environment with a method and nothing else.
fn method_alone(alloc: Global) -> Result<Env, NoMemory> {
    let mut env = Env::new(alloc, Input::new(Bytes::new(Vec::new(alloc))));
    env.set(b"REQUEST_METHOD", b"GET")?;
    Ok(env)
}

#[test]
fn lints_an_environment(rt: HostRuntime) -> Result<(), NoMemory> {
    let env = method_alone(rt.alloc())?;
    assert_eq!(rt; check_env(&env), Some(EnvRule(2)));
    assert_eq!(rt; check_taken(&env), Some(Rule(9)));
    Ok(())
}

#[test]
fn lints_a_reply(rt: HostRuntime) -> Result<(), NoMemory> {
    let env = method_alone(rt.alloc())?;
    let mut headers = Headers::new(rt.alloc());
    headers.set_static(b"content-length", b"5")?;
    assert_eq!(rt;
        check_head(Set::Full, &env, 200, &headers, Some(5), false),
        None
    );
    assert_eq!(rt;
        check_head(Set::Full, &env, 200, &headers, Some(4), false),
        Some(Rule(10))
    );
    Ok(())
}

#[test]
fn watches_a_body(rt: HostRuntime) {
    let mut watch = BodyWatch::new(Some(5));
    assert_eq!(rt; watch.piece(3), None);
    assert_eq!(rt; watch.piece(3), Some(BodyRule(1)));
    assert_eq!(rt; watch.end(false), Some(BodyRule(2)));
    assert_eq!(rt; watch.end(true), Some(BodyRule(3)));
}
