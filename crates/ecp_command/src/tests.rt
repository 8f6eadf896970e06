use super::{
    Call, Command, Head, Input, Planned, Refusal, Setting, Subject, command, generate, read_input,
    soak_input,
};
use ecp_shape::limits::MAX_INPUT;
use std::alloc::{AllocError, Global};
use std::test::Fail;

// The session, the phase and the node of a loss.
type Loss = (u32, u32, u32);

// The settings that have no default, as a head spells them.
fn sizes(alloc: Global, k: &str, n: &str, nodes: &str, block: &str) -> Result<String, AllocError> {
    format!(in alloc; "k = {k}\nn = {n}\nnodes = {nodes}\nblock = {block}\n")
}

// A head and its end, with one parity row for each data row.
fn mirror(alloc: Global, block: &str) -> Result<String, AllocError> {
    let head = sizes(alloc, "1", "2", "2", block)?;
    format!(in alloc; "{head}---\n")
}

// A script under a head of four lines and its end.
fn input(alloc: Global, script: &str) -> Result<String, AllocError> {
    let head = sizes(alloc, "2", "3", "3", "1")?;
    format!(in alloc; "{head}---\n{script}")
}

// What an input is refused for, or None where it is accepted.
fn refusal(alloc: Global, input: &[u8]) -> Option<Refusal> {
    if input.len() > MAX_INPUT {
        return None;
    }
    read_input(alloc, input).err()
}

// The same of a script.
fn script_refusal(alloc: Global, script: &str) -> Result<Option<Refusal>, AllocError> {
    let input = input(alloc, script)?;
    Ok(refusal(alloc, input.as_bytes()))
}

// The head, and then this line so many times.
fn repeated(alloc: Global, head: &str, line: &str, times: u32) -> Result<String, AllocError> {
    let mut input = String::from_str(alloc, head)?;
    for _ in 0..times {
        input.push_str(line)?;
    }
    Ok(input)
}

fn accepted(alloc: Global, input: &str) -> Result<Input, Fail> {
    if input.len() > MAX_INPUT {
        return Err(Fail::from("too long"));
    }
    Ok(read_input(alloc, input.as_bytes())?)
}

#[test]
fn reads_the_words_of_a_command(rt: HostRuntime) -> Result<(), Fail> {
    let alloc = rt.alloc();
    let mend = Command::Mend { k: 2, n: 3, row: 2 };
    let data = Command::Mend { k: 2, n: 3, row: 0 };
    let widest = Command::Mend {
        k: 15,
        n: 16,
        row: 15,
    };
    for (line, want) in [
        ("run", Some(Command::Run)),
        ("mend 2 3 2", Some(mend)),
        ("mend 15 16 15", Some(widest)),
        ("mend 2 3 0", Some(data)),
        ("mend 2 3 3", None),
        ("mend 3 3 3", None),
        ("mend 0 3 2", None),
        ("mend 16 17 16", None),
        ("mend 02 3 2", None),
        ("mend +2 3 2", None),
        ("mend 2 3", None),
        ("mend 2 3 2 2", None),
        ("run run", None),
        ("Run", None),
        ("check", Some(Command::Check)),
        ("check run", None),
        ("Check", None),
        ("soak 0", None),
        ("run-dir a", None),
    ] {
        let mut words = Vec::new(alloc);
        for word in line.split(' ') {
            words.push(String::from_str(alloc, word)?)?;
        }
        assert_eq!(rt; command(&words), want, "at {line}");
    }
    assert_eq!(rt; command(&[]), None);
    Ok(())
}

#[test]
fn refuses_an_input_without_a_head(rt: HostRuntime) {
    let alloc = rt.alloc();
    for (input, want) in [
        ("", Refusal::NoRule),
        ("k =\n", Refusal::NoRule),
        ("k = 2\n ---\n", Refusal::NoRule),
        ("k = 2\n---\r\n", Refusal::NoRule),
        ("k =\n---\nfetch a 0\n", Refusal::NotToml),
        ("k = 2\nk = 2\n---\n", Refusal::NotToml),
        ("---\n", Refusal::Key(Setting::K)),
        ("x = 1\n---\n", Refusal::Key(Setting::K)),
        (
            "n = 3\nnodes = 3\nblock = 1\n---\n",
            Refusal::Key(Setting::K),
        ),
    ] {
        assert_eq!(rt; refusal(alloc, input.as_bytes()), Some(want), "at {input}");
    }
    assert_eq!(rt; refusal(alloc, b"\xff\n---\n"), Some(Refusal::NotToml));
}

#[test]
fn refuses_a_head_by_its_first_fault(rt: HostRuntime) -> Result<(), Fail> {
    let alloc = rt.alloc();
    for (k, n, nodes, block, want) in [
        ("\"2\"", "3", "3", "1", Setting::K),
        ("2.0", "3", "3", "1", Setting::K),
        ("0", "3", "3", "1", Setting::K),
        ("16", "17", "17", "1", Setting::K),
        ("2", "2", "3", "1", Setting::N),
        ("2", "17", "17", "1", Setting::N),
        ("2", "3", "2", "1", Setting::Nodes),
        ("2", "3", "33", "\"\"", Setting::Nodes),
        ("2", "3", "3", "0", Setting::Block),
        ("2", "3", "3", "65537", Setting::Block),
    ] {
        let head = sizes(alloc, k, n, nodes, block)?;
        assert_eq!(rt; refusal(alloc, head.as_bytes()), Some(Refusal::NoRule));
        let input = format!(in alloc; "{head}---\n")?;
        assert_eq!(rt;
            refusal(alloc, input.as_bytes()),
            Some(Refusal::Key(want)),
            "at {head}"
        );
    }
    Ok(())
}

#[test]
fn refuses_a_setting_with_a_default(rt: HostRuntime) -> Result<(), Fail> {
    let alloc = rt.alloc();
    let head = sizes(alloc, "2", "3", "3", "5")?;
    for (line, want) in [
        ("slice = 0", Refusal::Key(Setting::Slice)),
        ("slice = 6", Refusal::Key(Setting::Slice)),
        ("window = 0", Refusal::Key(Setting::Window)),
        ("window = 17", Refusal::Key(Setting::Window)),
        ("workers = -1", Refusal::Key(Setting::Workers)),
        ("workers = 9", Refusal::Key(Setting::Workers)),
        ("path = \"cyclic\"", Refusal::Key(Setting::Path)),
        ("path = 1", Refusal::Key(Setting::Path)),
        ("Path = \"linear\"", Refusal::UnknownKey),
        ("x = 1\nworkers = 9", Refusal::Key(Setting::Workers)),
        ("[k2]", Refusal::UnknownKey),
    ] {
        let input = format!(in alloc; "{head}{line}\n---\nfetch\n")?;
        assert_eq!(rt; refusal(alloc, input.as_bytes()), Some(want), "at {line}");
    }
    Ok(())
}

#[test]
fn refuses_a_line_without_a_form(rt: HostRuntime) -> Result<(), Fail> {
    let alloc = rt.alloc();
    for line in [
        "fetch a 0",
        "put a hex 414",
        "put a hex 4g",
        "put a hex",
        "put a hex ",
        "put a  hex 41",
        "put a hex 41 ",
        "put  a hex 41",
        "put a hex --",
        "put a/b hex 41",
        "put a Hex 41",
        "put a gen",
        "put a gen ",
        "put a gen 0",
        "put a gen 0 ",
        "put a gen 0 1 ",
        "put a gen 0 01",
        "put a gen 00 1",
        "put a gen +1 1",
        "put a gen -1 1",
        "put a gen 0 -",
        "put a gen 18446744073709551616 1",
        "put a gen 0 4294967296",
        "put a  gen 0 1",
        "put a gen  0 1",
        "put a Gen 0 1",
        "read a 0\r",
        " read a 0",
        "read a 0 ",
        "read a  0",
        "read a 00",
        "read a 01",
        "read a +1",
        "read a -1",
        "read a 4294967296",
        "read a",
        "read",
        "lose",
        "lose ",
        "lose 1 2",
        "join",
        "join ",
        "join 01",
        "join 1 2",
        "joined 1",
        "session 8",
        "session 08",
        "session",
        "barrier ",
        " barrier",
        "barrier 1",
        "session barrier",
        "Barrier",
        "rebuild 0 1",
        "cat",
        "cat ",
        "cat a 0",
        "cat a/b",
        "cats a",
        "sum a",
        "sum a 01",
        "sum a 4294967296",
        "sum a/b 0",
        "sums a 0",
        "stat",
        "stat ",
        "stat a 0",
        "stat a/b",
        "Read a 0",
        "read aaaaaaaaaabbbbbbbbbbccccccccccddddddddddeeeeeeeeeeffffffffff12345 0",
    ] {
        assert_eq!(rt;
            script_refusal(alloc, line)?,
            Some(Refusal::Line(6)),
            "at {line}"
        );
    }
    assert_eq!(rt;
        script_refusal(alloc, "# one\n\nfetch\n")?,
        Some(Refusal::Line(8))
    );
    Ok(())
}

#[test]
fn keeps_each_limit_and_refuses_one_past_it(rt: HostRuntime) -> Result<(), Fail> {
    let alloc = rt.alloc();
    let small = mirror(alloc, "1")?;
    let large = sizes(alloc, "1", "16", "16", "65536")?;
    let large = format!(in alloc; "{large}---\n")?;
    let put = repeated(alloc, "put a hex ", "00", 4096)?;
    let put = repeated(alloc, put.as_str(), "\n", 1)?;
    for (head, line, most) in [
        (small.as_str(), "lose 0\n", 10_000),
        (small.as_str(), "barrier\n", 10_000),
        (large.as_str(), "read a 0\n", 1_024),
        (large.as_str(), "put a hex 00\n", 1_024),
        (small.as_str(), put.as_str(), 16),
    ] {
        let at_limit = repeated(alloc, head, line, most)?;
        assert_eq!(rt; refusal(alloc, at_limit.as_bytes()), None, "at {most}");
        let past_it = repeated(alloc, at_limit.as_str(), line, 1)?;
        assert_eq!(rt;
            refusal(alloc, past_it.as_bytes()),
            Some(Refusal::Line(most + 6)),
            "past {most}"
        );
    }
    Ok(())
}

#[test]
fn a_file_that_is_read_whole_costs_its_most_blocks(rt: HostRuntime) -> Result<(), Fail> {
    let alloc = rt.alloc();
    let head = sizes(alloc, "15", "16", "16", "1")?;
    let puts = format!(in alloc; "{head}---\nput a gen 0 1\nput a gen 0 61440\nput a gen 0 1\n")?;
    let at_limit = repeated(alloc, puts.as_str(), "cat a\n", 68)?;
    assert_eq!(rt; refusal(alloc, at_limit.as_bytes()), None);
    let past_it = repeated(alloc, at_limit.as_str(), "cat a\n", 1)?;
    assert_eq!(rt; refusal(alloc, past_it.as_bytes()), Some(Refusal::Line(77)));
    let of_none = repeated(alloc, puts.as_str(), "cat b\n", 69)?;
    assert_eq!(rt; refusal(alloc, of_none.as_bytes()), None);
    Ok(())
}

#[test]
fn keeps_the_limits_of_one_put(rt: HostRuntime) -> Result<(), Fail> {
    let alloc = rt.alloc();
    let digits = repeated(alloc, "", "0F", 4_096)?;
    for (block, times) in [("65536", 1_024), ("1", 1)] {
        let mut head = mirror(alloc, block)?;
        head.push_str("put a hex ")?;
        let at_limit = repeated(alloc, head.as_str(), digits.as_str(), times)?;
        assert_eq!(rt; refusal(alloc, at_limit.as_bytes()), None, "at {times}");
        let past_it = repeated(alloc, at_limit.as_str(), "0F", 1)?;
        assert_eq!(rt;
            refusal(alloc, past_it.as_bytes()),
            Some(Refusal::Line(6)),
            "past {times}"
        );
    }
    let head = mirror(alloc, "65536")?;
    let at_limit = format!(in alloc; "{head}put a gen 0 4194304")?;
    assert_eq!(rt; refusal(alloc, at_limit.as_bytes()), None);
    let past_it = format!(in alloc; "{head}put a gen 0 4194305")?;
    assert_eq!(rt; refusal(alloc, past_it.as_bytes()), Some(Refusal::Line(6)));
    Ok(())
}

#[test]
fn generates_the_bytes_of_a_seed(rt: HostRuntime) -> Result<(), Fail> {
    let alloc = rt.alloc();
    for (seed, len, want) in [
        (0, 1, b"\x14".as_slice()),
        (1, 1, b"\x6c".as_slice()),
        (0, 0, b"".as_slice()),
        (0, 8, b"\x14\x1a\x9a\x66\x62\x8f\x14\x5b".as_slice()),
        (7, 8, b"\x7e\xf4\xe8\x45\x44\x23\x67\x52".as_slice()),
        (u64::MAX, 8, b"\xbb\xb1\x8f\x6b\xf8\x9f\x9a\xa5".as_slice()),
    ] {
        assert_eq!(rt; generate(alloc, seed, len)?.bytes(), want, "of {seed}");
    }
    Ok(())
}

#[test]
fn reads_a_generated_put(rt: HostRuntime) -> Result<(), Fail> {
    let alloc = rt.alloc();
    let script = "put a gen 1 8\nput a gen 18446744073709551615 8\nput e gen 7 0\n";
    let input = accepted(alloc, input(alloc, script)?.as_str())?;
    let [session] = input.sessions.as_slice() else {
        return Err(Fail::from("one session"));
    };
    let [
        Planned {
            call: Call::Put { name, bytes },
            ..
        },
        Planned {
            call: Call::Put { bytes: last, .. },
            ..
        },
        Planned {
            call: Call::Put { bytes: none, .. },
            ..
        },
    ] = session.calls.as_slice()
    else {
        return Err(Fail::from("three puts"));
    };
    assert_eq!(rt; name.bytes(), b"a".as_slice());
    assert_eq!(rt;
        bytes.bytes(),
        b"\x6c\x82\xa5\x62\xcb\x80\x8d\x10".as_slice()
    );
    assert_eq!(rt;
        last.bytes(),
        b"\xbb\xb1\x8f\x6b\xf8\x9f\x9a\xa5".as_slice()
    );
    assert_eq!(rt; none.len(), 0);
    Ok(())
}

#[test]
fn reads_what_is_asked_of_a_file(rt: HostRuntime) -> Result<(), Fail> {
    let alloc = rt.alloc();
    let input = accepted(
        alloc,
        input(alloc, "sum a.B_-9 4294967295\nstat b\ncat c\n")?.as_str(),
    )?;
    let [session] = input.sessions.as_slice() else {
        return Err(Fail::from("one session"));
    };
    let [
        Planned {
            call: Call::Sum { name, index },
            ..
        },
        Planned {
            call: Call::Stat { name: other },
            ..
        },
        Planned {
            call: Call::Cat { name: whole },
            ..
        },
    ] = session.calls.as_slice()
    else {
        return Err(Fail::from("a sum, a stat and a cat"));
    };
    assert_eq!(rt;
        (name.bytes(), *index),
        (b"a.B_-9".as_slice(), 4_294_967_295)
    );
    assert_eq!(rt; other.bytes(), b"b".as_slice());
    assert_eq!(rt; whole.bytes(), b"c".as_slice());
    Ok(())
}

#[test]
fn reads_the_settings_with_their_defaults(rt: HostRuntime) -> Result<(), Fail> {
    let alloc = rt.alloc();
    let small = Head {
        k: 2,
        n: 3,
        nodes: 3,
        block: 1,
        slice: 1,
        window: 4,
        workers: 0,
        cyclic: false,
    };
    assert_eq!(rt; accepted(alloc, input(alloc, "")?.as_str())?.head, small);
    let text =
        "n = 16\nk = 15\nblock = 65536\nnodes = 32\npath = 'linear' # the default\nworkers = 8\nwindow = 0x10\n---";
    let large = Head {
        k: 15,
        n: 16,
        nodes: 32,
        block: 65536,
        slice: 4096,
        window: 16,
        workers: 8,
        cyclic: false,
    };
    let input = accepted(alloc, text)?;
    assert_eq!(rt; input.head, large);
    assert_eq!(rt; input.sessions.len(), 0);
    assert_eq!(rt; input.phases, 1);
    Ok(())
}

#[test]
fn reads_the_calls_of_a_script(rt: HostRuntime) -> Result<(), Fail> {
    let alloc = rt.alloc();
    let script =
        "# a comment\n\nsession 7\nput a.B_-9 hex 4aFf\nput e hex -\n#\nread a 7\nlose 4294967295\njoin 4294967295\nsession 3\n";
    let input = accepted(alloc, input(alloc, script)?.as_str())?;
    assert_eq!(rt; input.phases, 1);
    let [session] = input.sessions.as_slice() else {
        return Err(Fail::from("one session"));
    };
    assert_eq!(rt; session.number, 7);
    let [first, second, third, fourth, fifth] = session.calls.as_slice() else {
        return Err(Fail::from("five calls"));
    };
    let (Call::Put { name, bytes }, Call::Put { bytes: none, .. }) = (&first.call, &second.call)
    else {
        return Err(Fail::from("two puts"));
    };
    assert_eq!(rt; name.bytes(), b"a.B_-9".as_slice());
    assert_eq!(rt; bytes.bytes(), b"J\xff".as_slice());
    assert_eq!(rt; none.len(), 0);
    assert!(rt; matches!(third.call, Call::Read { index: 7, .. }));
    assert!(rt;
        matches!(
            fourth.call,
            Call::Lose {
                node: 4_294_967_295
            }
        )
    );
    assert!(rt;
        matches!(
            fifth.call,
            Call::Join {
                node: 4_294_967_295
            }
        )
    );
    assert_eq!(rt; fourth.phase, 0);
    Ok(())
}

// The calls of a script that are losses, by session, each with its session and phase.
fn losses(alloc: Global, input: &Input) -> Result<Vec<Loss>, Fail> {
    let mut losses = Vec::new(alloc);
    for session in &input.sessions {
        for planned in &session.calls {
            let Call::Lose { node } = planned.call else {
                return Err(Fail::from("a loss"));
            };
            losses.push((session.number, planned.phase, node))?;
        }
    }
    Ok(losses)
}

#[test]
fn reads_sessions_and_phases(rt: HostRuntime) -> Result<(), Fail> {
    let alloc = rt.alloc();
    for (script, phases, want) in [
        ("barrier\nbarrier\n# one\nbarrier", 4, [].as_slice()),
        (
            "lose 0\nsession 5\nlose 1\nsession 2\nlose 2\nsession 5\nlose 3\n",
            1,
            [(0, 0, 0), (2, 0, 2), (5, 0, 1), (5, 0, 3)].as_slice(),
        ),
        (
            "session 5\nlose 0\nbarrier\nlose 1\nsession 2\nlose 2\nlose 3\nsession 5\nlose 4\n",
            2,
            [(2, 1, 2), (2, 1, 3), (5, 0, 0), (5, 1, 1), (5, 1, 4)].as_slice(),
        ),
        (
            "barrier\nsession 1\nbarrier\nlose 0\nbarrier\nsession 0\nlose 1\nbarrier\n",
            5,
            [(0, 3, 1), (1, 2, 0)].as_slice(),
        ),
    ] {
        let input = accepted(alloc, input(alloc, script)?.as_str())?;
        assert_eq!(rt; input.phases, phases, "at {script}");
        assert_eq!(rt; losses(alloc, &input)?.as_slice(), want, "at {script}");
    }
    Ok(())
}

// Prints what a head with these lines behind its sizes is refused for.
fn printed(alloc: Global, sizes: &str, more: &str) -> Result<String, Fail> {
    let input = format!(in alloc; "{sizes}{more}\n---\nfetch\n")?;
    let Some(refusal) = refusal(alloc, input.as_bytes()) else {
        return Err(Fail::from("not refused"));
    };
    Ok(refusal.to_string(alloc)?)
}

#[test]
fn prints_the_key_of_the_first_fault(rt: HostRuntime) -> Result<(), Fail> {
    let alloc = rt.alloc();
    for (k, n, nodes, block, want) in [
        ("0", "17", "33", "0", "head: k"),
        ("2", "2", "33", "0", "head: n"),
        ("2", "3", "2", "0", "head: nodes"),
        ("2", "3", "3", "0", "head: block"),
    ] {
        let head = sizes(alloc, k, n, nodes, block)?;
        assert_eq!(rt; printed(alloc, head.as_str(), "slice = 0")?.as_str(), want);
    }
    let head = sizes(alloc, "2", "3", "3", "5")?;
    for (more, want) in [
        ("slice = 6\nwindow = 0", "head: slice"),
        ("window = 17\nworkers = 9", "head: window"),
        ("workers = 9\npath = 1", "head: workers"),
        ("path = \"ring\"\nx = 1", "head: path"),
        ("x = 1", "head: unknown key"),
    ] {
        assert_eq!(rt; printed(alloc, head.as_str(), more)?.as_str(), want);
    }
    Ok(())
}

#[test]
fn prints_each_refusal(rt: HostRuntime) -> Result<(), Fail> {
    let alloc = rt.alloc();
    for (refusal, want) in [
        (Refusal::NotToml, "head: not TOML"),
        (Refusal::NoRule, "head: no line ---"),
        (Refusal::UnknownKey, "head: unknown key"),
        (Refusal::Line(22), "line 22"),
        (Refusal::NoMemory, "no memory"),
    ] {
        assert_eq!(rt; refusal.to_string(alloc)?.as_str(), want);
    }
    let text = Refusal::Key(Setting::Block).text();
    assert_eq!(rt; text.words, "head:");
    assert_eq!(rt; text.subject, Subject::Key(Setting::Block));
    Ok(())
}

#[test]
fn a_soak_has_79_calls_of_four_sessions(rt: HostRuntime) -> Result<(), Fail> {
    let alloc = rt.alloc();
    let input = soak_input(alloc, 14)?;
    assert_eq!(rt; (input.sessions.len(), input.phases), (4, 6));
    let counts = input.sessions.iter().map(|session| session.calls.len());
    assert!(rt; counts.eq([22, 17, 20, 20]));
    let first = &input.sessions[0].calls;
    let (Some(put), Some(lose), Some(cat)) = (first.get(3), first.get(4), first.get(9)) else {
        return Err("too few calls".into());
    };
    let Call::Put { name, bytes } = &put.call else {
        return Err("no put".into());
    };
    assert_eq!(rt; (name.bytes(), bytes.len()), (b"f3".as_slice(), 68_536));
    assert_eq!(rt; bytes.bytes(), generate(alloc, 17, 68_536)?.bytes());
    assert!(rt; matches!(lose.call, Call::Lose { node: 6 }));
    let Call::Cat { name } = &cat.call else {
        return Err("no file".into());
    };
    assert_eq!(rt; name.bytes(), b"f4".as_slice());
    Ok(())
}
