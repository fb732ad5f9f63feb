//! What words say which command, as tables; the rows are what a user of any command line expects.
use crate::{Command, Control, command_of, control_of};
use std::alloc::Global;
use std::test::Fail;

// The words, each a String.
fn words_of(alloc: Global, words: &[&str]) -> Result<Vec<String>, Fail> {
    let mut strings = Vec::new(alloc);
    for word in words.iter() {
        strings.push(String::from_str(alloc, word)?)?;
    }
    Ok(strings)
}

// Whether the words say this command.
fn says(alloc: Global, words: &[&str], command: Option<Command<'_>>) -> Result<bool, Fail> {
    let strings = words_of(alloc, words)?;
    Ok(command_of(alloc, strings.as_slice())? == command)
}

#[test]
fn once_has_a_name_and_one_option(rt: HostRuntime) -> Result<(), Fail> {
    let alloc = rt.alloc();
    let plain = Some(Command::Once {
        hijack: true,
        stack: "a.stack",
    });
    let closed = Some(Command::Once {
        hijack: false,
        stack: "a.stack",
    });
    assert!(rt; says(alloc, &["once", "a.stack"], plain)?);
    assert!(rt; says(alloc, &["once", "--", "a.stack"], plain)?);
    assert!(rt; says(alloc, &["once", "--no-hijack", "a.stack"], closed)?);
    assert!(rt; says(alloc, &["once", "a.stack", "--no-hijack"], closed)?);
    assert!(rt; says(alloc, &["once", "--no-hijack", "--", "a.stack"], closed)?);
    Ok(())
}

#[test]
fn check_has_a_name(rt: HostRuntime) -> Result<(), Fail> {
    let alloc = rt.alloc();
    let named = |stack| Some(Command::Check { stack });
    assert!(rt; says(alloc, &["check", "a.stack"], named("a.stack"))?);
    assert!(rt; says(alloc, &["check", "-"], named("-"))?);
    assert!(rt; says(alloc, &["check", ""], named(""))?);
    assert!(rt; says(alloc, &["check", "é b"], named("é b"))?);
    assert!(rt; says(alloc, &["check", "--", "-a"], named("-a"))?);
    assert!(rt; says(alloc, &["check", "--", "--"], named("--"))?);
    assert!(rt; says(alloc, &["check", "--", "--no-hijack"], named("--no-hijack"))?);
    assert!(rt; says(alloc, &["check", "help"], named("help"))?);
    Ok(())
}

#[test]
fn other_words_say_nothing(rt: HostRuntime) -> Result<(), Fail> {
    let alloc = rt.alloc();
    let rows: [&[&str]; 24] = [
        &[],
        &[""],
        &["--"],
        &["help"],
        &["--help"],
        &["-V"],
        &["serve", "a"],
        &["Once", "a"],
        &["onc", "a"],
        &["--", "once", "a"],
        &["--no-hijack", "once", "a"],
        &["once"],
        &["once", "--"],
        &["once", "--no-hijack"],
        &["once", "a", "b"],
        &["once", "a", "--", "b"],
        &["once", "--no-hijack", "--no-hijack", "a"],
        &["once", "--no-hijack=x", "a"],
        &["once", "--no-hijac", "a"],
        &["once", "-a"],
        &["once", "-é"],
        &["once", "--help"],
        &["check"],
        &["check", "--no-hijack", "a"],
    ];
    for words in rows {
        assert!(rt; says(alloc, words, None)?, "{words:?}");
    }
    Ok(())
}

#[test]
fn control_has_two_names_and_a_token(rt: HostRuntime) -> Result<(), Fail> {
    let alloc = rt.alloc();
    let stop = Some(Control {
        address: "h:1",
        token: "t",
        order: "stop",
    });
    for (words, wanted) in [
        (["control", "h:1", "--token", "t", "stop"].as_slice(), true),
        (["control", "h:1", "stop", "--token", "t"].as_slice(), true),
        (["control", "--token=t", "h:1", "stop"].as_slice(), true),
        (
            ["control", "--token", "t", "--", "h:1", "stop"].as_slice(),
            true,
        ),
        (["control", "h:1", "stop"].as_slice(), false),
        (["control", "h:1", "--token", "t"].as_slice(), false),
        (
            ["control", "h:1", "--token", "t", "stop", "now"].as_slice(),
            false,
        ),
        (
            ["control", "h:1", "--token", "t", "--token", "t", "stop"].as_slice(),
            false,
        ),
        (["control", "--help"].as_slice(), false),
        (["once", "h:1", "--token", "t", "stop"].as_slice(), false),
        ([].as_slice(), false),
    ] {
        let strings = words_of(alloc, words)?;
        let said = control_of(alloc, strings.as_slice())?;
        assert!(rt;
            if wanted { said == stop } else { said == None },
            "{words:?}"
        );
    }
    Ok(())
}
