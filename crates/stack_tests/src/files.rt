// What each rule refuses, at its boundaries, and what is written of what was read.
use rack_text::write_decimal;
use rack_types::NoMemory;
use stack_file::{ReadFault, read, write};
use std::alloc::Global;
use std::test::Fail;

// The line of a text's first fault and the rule, or that it has none.
fn fault_of(alloc: Global, text: &[u8]) -> Result<Vec<u8>, NoMemory> {
    if text.len() > 100_000 {
        return Vec::from_slice(alloc, b"long");
    }
    match read(alloc, text) {
        Ok(_) => Vec::from_slice(alloc, b"none"),
        Err(ReadFault::Bad(fault)) => fault_text(alloc, fault.line, fault.rule),
        Err(ReadFault::NoMemory) => Vec::from_slice(alloc, b"memory"),
    }
}

fn fault_text(alloc: Global, line: u32, rule: u8) -> Result<Vec<u8>, NoMemory> {
    let mut text = Vec::new(alloc);
    write_decimal(u128::from(line), &mut text)?;
    text.extend_from_slice(b" S")?;
    write_decimal(u128::from(rule), &mut text)?;
    Ok(text)
}

// What is written of the steps that the text says; nothing where it has none.
fn rewritten(alloc: Global, text: &[u8]) -> Result<Vec<u8>, NoMemory> {
    let mut out = Vec::new(alloc);
    if text.len() > 100_000 {
        return Ok(out);
    }
    if let Ok(steps) = read(alloc, text) {
        write(alloc, &steps, &mut out)?;
    }
    Ok(out)
}

// A text between two others, so many times.
fn repeated(
    alloc: Global,
    before: &str,
    text: &str,
    times: usize,
    after: &str,
) -> Result<Vec<u8>, NoMemory> {
    let mut all = Vec::from_slice(alloc, before.as_bytes())?;
    for _i in 0..times {
        all.extend_from_slice(text.as_bytes())?;
    }
    all.extend_from_slice(after.as_bytes())?;
    Ok(all)
}

const BAD: &[(&str, &str)] = &[
    ("run echo\n\trun echo\n", "2 S1"),
    ("run echo\r\n", "1 S1"),
    ("# \x7f\nrun echo\n", "1 S1"),
    ("boil \x01", "1 S1"),
    ("\n# use\n boil eggs\nuse", "3 S2"),
    ("ends", "1 S2"),
    ("use", "1 S3"),
    ("run", "1 S3"),
    ("use heads", "1 S3"),
    ("run takes echo", "1 S3"),
    ("run \\x74ake echo", "1 S3"),
    ("use boil \\q", "1 S3"),
    ("use head x", "1 S4"),
    ("use set_header a", "1 S4"),
    ("use set_header a b c", "1 S4"),
    ("use content_type a b", "1 S4"),
    ("run text 200 a", "1 S4"),
    ("run echo \\q", "1 S4"),
    ("run cookies", "1 S4"),
    ("run bad", "1 S4"),
    ("run take", "1 S4"),
    ("run take echo upper", "1 S4"),
    ("run take echo \\q", "1 S4"),
    ("run part", "1 S4"),
    ("run part echo", "1 S4"),
    ("run part 99 it x", "1 S4"),
    ("map", "1 S4"),
    ("map /a /b", "1 S4"),
    ("end x", "1 S4"),
    ("cascade x", "1 S4"),
    ("use content_type \\q", "1 S5"),
    ("run raise \\ea", "1 S5"),
    ("run text 99 a b", "1 S5"),
    ("run text 1000 a b", "1 S5"),
    ("run late 1000001", "1 S5"),
    ("run bad 9", "1 S5"),
    ("run take it", "1 S5"),
    ("run take \\q", "1 S5"),
    ("run part 200 it", "1 S5"),
    ("run part 99 echo", "1 S5"),
    ("run part 1000 upper", "1 S5"),
    ("run part echo 200", "1 S5"),
    ("map a", "1 S5"),
    ("map \\e", "1 S5"),
    ("run echo\nend", "2 S6"),
    ("map /\nrun echo\n", "3 S6"),
    ("map /\nrun echo", "3 S6"),
    ("cascade\n", "2 S6"),
    ("cascade\nuse head\nend", "2 S7"),
    ("cascade\nmap /a\nend\nend", "2 S7"),
    ("cascade\ncascade\nend\nend", "2 S7"),
    ("cascade\nuse heads\nend", "2 S3"),
    ("", "1 S8"),
    ("# nothing\n\n", "3 S8"),
    ("use head", "2 S8"),
    ("map /a\nend\nuse head\nmap /b\nend\n", "2 S8"),
    ("map /a\nuse head\nend\nuse head\n", "3 S8"),
    ("map /a\nmap /b\nrun echo\nend\nuse lint\nend\n", "6 S8"),
    ("map /a\nrun echo\nend\nuse lint\n", "5 S8"),
    ("map /a\nend\nboil\n", "3 S2"),
];

#[test]
fn tells_the_first_bad_line_and_its_least_rule(rt: HostRuntime) -> Result<(), Fail> {
    for (text, fault) in BAD {
        let told = fault_of(rt.alloc(), text.as_bytes())?;
        assert_eq!(rt; told.as_slice(), fault.as_bytes(), "{text}");
    }
    Ok(())
}

// A text so often between two others, and what is told of it.
const LIMITS: &[(&str, &str, usize, &str, &str)] = &[
    ("   run raise ", "a", 4_086, "", "none"),
    ("   run raise ", "a", 4_087, "", "1 S1"),
    ("#", " ", 4_095, "\nrun echo", "none"),
    ("#", " ", 4_096, "\nrun echo", "1 S1"),
    ("", " ", 65_528, "run echo", "none"),
    ("", "run echo\n", 256, "", "none"),
    ("", "run echo\n", 257, "", "257 S9"),
    ("cascade\n", "run echo\n", 255, "end\n", "none"),
    ("cascade\n", "run echo\n", 256, "end\n", "257 S9"),
    ("run echo\n", "map /a\nend\n", 255, "", "none"),
    ("run echo\n", "map /a\nend\n", 256, "", "512 S9"),
    ("run echo\n", "map /a\n", 33, "", "34 S9"),
    ("run echo\n", "map /a\n", 32, "cascade\n", "34 S9"),
    ("run echo\n", "map /a\n", 32, "", "34 S6"),
];

#[test]
fn holds_lines_steps_and_depth_to_their_limits(rt: HostRuntime) -> Result<(), Fail> {
    for (before, text, times, after, fault) in LIMITS {
        let all = repeated(rt.alloc(), before, text, *times, after)?;
        let told = fault_of(rt.alloc(), &all)?;
        assert_eq!(rt; told.as_slice(), fault.as_bytes(), "{before}");
    }
    Ok(())
}

// Blocks within blocks, as deep as they may stand.
fn deepest(alloc: Global) -> Result<Vec<u8>, NoMemory> {
    let ends = repeated(alloc, "", "end\n", 32, "")?;
    let mut deep = repeated(alloc, "run echo\n", "map /a\n", 32, "")?;
    deep.extend_from_slice(&ends)?;
    fault_of(alloc, &deep)
}

#[test]
fn reads_the_deepest_block(rt: HostRuntime) -> Result<(), Fail> {
    assert_eq!(rt; deepest(rt.alloc())?.as_slice(), b"none".as_slice());
    Ok(())
}

// Texts, and the written form of each.
const WRITTEN: &[(&str, &str)] = &[
    (
        "run  text 0200 text/plain a\\x20b  ",
        "run text 200 text/plain a\\sb\n",
    ),
    ("# a comment\n\n   run echo", "run echo\n"),
    ("run env\n", "run env\n"),
    ("run pieces 00100\n", "run pieces 100\n"),
    ("run pieces 404 \\e \\xfF\n", "run pieces 404 \\e \\xff\n"),
    ("run stream\n", "run stream\n"),
    ("run stream a \\x5c\n", "run stream a \\\\\n"),
    ("run cookies a=1 b\n", "run cookies a=1 b\n"),
    ("run bad 01 \\x31\\x30\n", "run bad 1 10\n"),
    ("run raise \\n\n", "run raise \\n\n"),
    ("run late 007 a !\n", "run late 7 a !\n"),
    ("run late 7 ! a\n", "run late 7 ! a\n"),
    ("run late 0 \\x21\n", "run late 0 !\n"),
    ("run take echo\n", "run take echo\n"),
    ("run take \\x75pper\n", "run take upper\n"),
    ("run part 0200 upper\n", "run part 200 upper\n"),
    ("run part 999 echo", "run part 999 echo\n"),
    (
        "use content_type\nrun echo\n",
        "use content_type text/html\nrun echo\n",
    ),
    (
        "use content_type \\e\nrun echo\n",
        "use content_type \\e\nrun echo\n",
    ),
    (
        "use head\nuse content_length\nuse method_override\nuse lint\nuse set_header a \\s\nrun echo\n",
        "use head\nuse content_length\nuse method_override\nuse lint\nuse set_header a \\s\nrun echo\n",
    ),
    ("map /\nrun echo\nend\n", "map /\n  run echo\nend\n"),
    ("map //\nrun echo\nend\n", "map //\n  run echo\nend\n"),
    (
        "map /a/\nmap /b//\nrun echo\nend\nend\n",
        "map /a\n  map /b//\n    run echo\n  end\nend\n",
    ),
    ("cascade\nend\n", "cascade\nend\n"),
    (
        "map /\\s\ncascade\nrun echo\nrun env\nend\nend\n",
        "map /\\s\n  cascade\n    run echo\n    run env\n  end\nend\n",
    ),
    ("map /a\nend\nrun echo\n", "map /a\nend\nrun echo\n"),
];

#[test]
fn writes_the_canonical_form_of_what_was_read(rt: HostRuntime) -> Result<(), Fail> {
    for (text, written) in WRITTEN {
        let once = rewritten(rt.alloc(), text.as_bytes())?;
        assert_eq!(rt; once.as_slice(), written.as_bytes(), "{text}");
        let twice = rewritten(rt.alloc(), &once)?;
        assert_eq!(rt; twice.as_slice(), written.as_bytes(), "{text}");
    }
    Ok(())
}
