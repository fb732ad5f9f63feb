// What main answers itself: the program's help, and its version.
use std::io;
use std::io::Write;

/// What the words ask of the program itself.
#[derive(Clone, Copy, Debug, PartialEq, Eq)]
pub enum Asked {
    /// What the program is and how it is used.
    Help,
    /// Its version.
    Version,
}

/// What the words ask of the program itself, where they do: one of `--help`, `-h`, `help`, `--version` and
/// `-V`, alone or behind a command's name.
pub fn asked_for(words: &[String]) -> Option<Asked> {
    match words {
        [word] => asked_by(word.as_str()),
        [command, word] if is_command(command.as_str()) => asked_by(word.as_str()),
        _ => None,
    }
}

fn asked_by(word: &str) -> Option<Asked> {
    match word {
        "--help" | "-h" | "help" => Some(Asked::Help),
        "--version" | "-V" => Some(Asked::Version),
        _ => None,
    }
}

fn is_command(word: &str) -> bool {
    word == "once" || word == "check" || word == "control"
}

/// Writes what was asked for, all of it.
pub fn answer<W: Write>(asked: Asked, out: &mut W) -> io::Result<()> {
    let text = match asked {
        Asked::Help => HELP,
        Asked::Version => VERSION,
    };
    out.write_all(text.as_bytes())
}

const VERSION: &str = "puma 0.1.0\n";

const HELP: &str = "puma - an HTTP/1.1 application server after Puma and the Rack 3 SPEC.\n\
It answers requests by a stack of middleware and endpoints from a stack file.\n\
\n\
Usage:\n\
\x20 puma once [--no-hijack] STACK    serve one connection\n\
\x20 puma check STACK                 print a stack file in its written form\n\
\x20 puma control ADDRESS --token T ORDER\n\
\x20                                  give an order to a running server\n\
\x20 puma --help                      print this text; also -h, help\n\
\x20 puma --version                   print the version; also -V\n\
\n\
puma once [--no-hijack] STACK\n\
\x20 Requests come on standard input, kept and pipelined ones too, and the\n\
\x20 replies go to standard output, until the connection ends.\n\
\x20   STACK         the name of a stack file\n\
\x20   --no-hijack   the environment says rack.hijack?=false (default: true)\n\
\x20 The peer is 127.0.0.1, the local side is localhost, port 9292.\n\
\x20 Example:  bin/puma once examples/hello.stack < examples/get.http\n\
\n\
puma check STACK\n\
\x20 Prints one line for each step and each end, without comments; or which line\n\
\x20 is the first that breaks a rule, and which rule. It has no flags.\n\
\x20   STACK         the name of a stack file\n\
\x20 Example:  bin/puma check examples/everything.stack\n\
\n\
puma control ADDRESS --token T ORDER\n\
\x20 Dials a control server once, asks it for ORDER, and prints the body of its\n\
\x20 reply, which is JSON, and a line feed. It waits for it half a minute.\n\
\x20   ADDRESS       a name or an IP address, a colon and a port\n\
\x20   --token T     the server's token, 1 to 64 letters and digits\n\
\x20   ORDER         stats, phased-restart, stop or halt\n\
\x20 Example:  bin/puma control 127.0.0.1:9293 --token secret stats\n\
\n\
Flags may stand before or behind a name, and what follows -- is no flag. --help\n\
and its kin answer behind once, check and control too; a stack file that is\n\
called help is named ./help.\n\
\n\
A stack file, of at most 65,536 bytes:\n\
\x20 # A comment. The first use is the outermost.\n\
\x20 use head\n\
\x20 use set_header x-served-by puma\n\
\x20 map /inbox\n\
\x20   run echo\n\
\x20 end\n\
\x20 map /about\n\
\x20   run text 200 text/plain written\\sin\\sRattle\\n\n\
\x20 end\n\
\x20 run text 200 text/plain hello\\n\n\
\n\
\x20 Middleware  head, content_length, content_type [TYPE], method_override,\n\
\x20             set_header NAME VALUE, lint\n\
\x20 Endpoints   text STATUS TYPE BODY, echo, env, pieces STATUS P.., stream P..,\n\
\x20             cookies V.., late LENGTH P.., bad N.., raise TEXT, take HIJACKER,\n\
\x20             part STATUS HIJACKER\n\
\x20 Blocks      map PLACE .. end, cascade .. end (only run lines inside)\n\
\x20 Hijackers   echo, upper\n\
\x20 Arguments   \\s is a space, \\n LF, \\r CR, \\\\ a backslash, \\x41 a byte, \\e\n\
\x20             alone the empty text\n\
\n\
Rules of stack files; \"puma: stack line 2 S3\" names the first bad line:\n\
\x20 S1  bytes: a tab, CR LF, a letter beyond ASCII, or more than 4,096 in a line\n\
\x20 S2  the first word: use, run, map, cascade or end\n\
\x20 S3  the name of the middleware or endpoint\n\
\x20 S4  how many arguments there are: a space in a text is \\s\n\
\x20 S5  the form of an argument: a place begins with /, a number has its range\n\
\x20 S6  an end too many or too few, seen at the line behind the last\n\
\x20 S7  another line than run and end in a cascade\n\
\x20 S8  no application: a block, or the whole file, has no run\n\
\x20 S9  more than 256 steps, or deeper than 32\n\
\n\
What most often goes wrong:\n\
\x20 puma: usage       a word is missing, as STACK; or a flag stands before once\n\
\x20 S1                the file was saved with CR LF, or has a tab\n\
\x20 S2 to S5          written as a config.ru: Rack::Head, quotes, do, a comment\n\
\x20                   behind a line. Arguments have no quotes; map /a, not\n\
\x20                   map \"/a\" do\n\
\x20 the last line     its LF may be missing, and that is no fault; what is only\n\
\x20                   seen at the end is told of the line behind it\n\
\x20 a 500 to each request: L4 is a capital in a header's name, L6 a type with\n\
\x20                   status 204, 304 or 1xx\n\
\n\
Exit statuses, each but 0 with one line on standard error:\n\
\x20 0  done                         4  a line of the stack file breaks a rule\n\
\x20 1  no memory                    6  a read of standard input failed\n\
\x20 2  the words are no command     7  a write to standard output failed\n\
\x20 3  the stack file is absent,    9  input too long: 2^40 bytes, and the\n\
\x20    too long, or can't be read      connection isn't over\n\
\x20 12 the control server wasn't     14 the control server's reply has\n\
\x20    reached, or its link failed      another status than 200\n\
\x20 13 the control server gave no\n\
\x20    reply\n\
\x20 125 is bin/puma's own: the program could not be built.\n\
\n\
Documents, in docs/ of the repository: STACKS.md has the stack file line by\n\
line and each rule; DEFINITIONS.md has requests, refusals and replies;\n\
TRUST.md says what the proof means.\n";

#[cfg(test)]
mod tests {
    use super::*;
    use std::test::Fail;

    #[test]
    fn asks_alone_or_behind_a_command(rt: HostRuntime) -> Result<(), Fail> {
        for (line, wanted) in [
            ("--help", Some(Asked::Help)),
            ("-h", Some(Asked::Help)),
            ("help", Some(Asked::Help)),
            ("--version", Some(Asked::Version)),
            ("-V", Some(Asked::Version)),
            ("once --help", Some(Asked::Help)),
            ("check -V", Some(Asked::Version)),
            ("check help", Some(Asked::Help)),
            ("control --help", Some(Asked::Help)),
            ("serve --help", None),
            ("--help once", None),
            ("once stack --help", None),
            ("once ./help", None),
            ("check", None),
            ("", None),
        ] {
            let mut words = Vec::new(rt.alloc());
            for word in line.split(' ') {
                words.push(String::from_str(rt.alloc(), word)?)?;
            }
            assert_eq!(rt; asked_for(&words), wanted);
        }
        Ok(())
    }
}
