use super::*;

/// A script behind the head of the scripts.
fn script(calls: &'static [u8], out: &'static [u8]) -> Run {
    Run {
        head: SCRIPT_HEAD,
        ..row("run", calls, out)
    }
}

fn refused_script(calls: &'static [u8], status: u8, diag: &'static [u8]) -> Run {
    Run {
        head: SCRIPT_HEAD,
        ..refused(calls, status, diag)
    }
}

fn refused(input: &'static [u8], status: u8, diag: &'static [u8]) -> Run {
    Run {
        input,
        ..stop("run", status, diag)
    }
}

#[test]
fn serves_the_calls_of_a_script(rt: HostRuntime) -> Result<(), Fail> {
    let runs = [
        script(
            b"\
            put a hex 4142\n\
            lose 0\n\
            read a 0\n\
            ",
            b"\
            session 0\n\
            stored 0 1\n\
            lost 1\n\
            data 41\n\
            journal 3\n\
            0 s0 0 end 0 stored 0 1 7\n\
            1 s0 1 end 1 lost 1\n\
            2 s0 2 end 2 data\n\
            end\n\
            ",
        ),
        script(
            b"\
            put a hex 4142\n\
            lose 0\n\
            read a 0\n\
            lose 1\n\
            read a 0\n\
            ",
            b"\
            session 0\n\
            stored 0 1\n\
            lost 1\n\
            data 41\n\
            lost 1\n\
            unrecoverable 1\n\
            journal 5\n\
            0 s0 0 end 0 stored 0 1 7\n\
            1 s0 1 end 1 lost 1\n\
            2 s0 2 end 2 data\n\
            3 s0 3 end 3 lost 1\n\
            4 s0 4 end 4 unrecoverable 1\n\
            end\n\
            ",
        ),
        script(
            b"\
            put a hex 4142\n\
            lose 0\n\
            read a 0\n\
            read a 2\n\
            read b 0\n\
            ",
            b"\
            session 0\n\
            stored 0 1\n\
            lost 1\n\
            data 41\n\
            no-block 2\n\
            no-file\n\
            journal 5\n\
            0 s0 0 end 0 stored 0 1 7\n\
            1 s0 1 end 1 lost 1\n\
            2 s0 2 end 2 data\n\
            3 s0 3 end 3 no-block 2\n\
            4 s0 4 end 4 no-file\n\
            end\n\
            ",
        ),
        script(
            b"\
            put a hex 41\n\
            put a hex 42\n\
            read a 0\n\
            read a 1\n\
            ",
            b"\
            session 0\n\
            stored 0 1\n\
            name-taken\n\
            data 41\n\
            no-block 1\n\
            journal 4\n\
            0 s0 0 end 0 stored 0 1 7\n\
            1 s0 1 end 1 name-taken\n\
            2 s0 2 end 2 data\n\
            3 s0 3 end 3 no-block 1\n\
            end\n\
            ",
        ),
        script(
            b"\
                        put e hex -\n\
            read e 0\n\
            stat e\n\
            ",
            b"\
            session 0\n\
            stored 0 0\n\
            no-block 0\n\
            stat 0 0 0\n\
            journal 3\n\
            0 s0 0 end 0 stored 0 0 7\n\
            1 s0 1 end 1 no-block 0\n\
            2 s0 2 end 2 stat 0 0 0\n\
            end\n\
            ",
        ),
        row(
            "run",
            b"\
            k = 2\n\
            n = 3\n\
            nodes = 3\n\
            block = 5\n\
            slice = 2\n\
            ---\n\
            put a hex 0102030405060708090a\n\
            lose 0\n\
            read a 0\n\
            ",
            b"\
            session 0\n\
            stored 0 1\n\
            lost 1\n\
            data 0102030405\n\
            journal 3\n\
            0 s0 0 end 0 stored 0 1 7\n\
            1 s0 1 end 1 lost 1\n\
            2 s0 2 end 2 data\n\
            end\n\
            ",
        ),
        script(
            b"\
                        session 3\n\
            lose 0\n\
            put a hex 41\n\
            lose 0\n\
            lose 3\n\
            join 1\n\
            ",
            b"\
            session 3\n\
            lost 0\n\
            few-nodes 2\n\
            node-down\n\
            no-node\n\
            node-up\n\
            journal 5\n\
            0 s3 0 end 0 lost 0\n\
            1 s3 1 end 1 few-nodes 2\n\
            2 s3 2 end 2 node-down\n\
            3 s3 3 end 3 no-node\n\
            4 s3 4 end 4 node-up\n\
            end\n\
            ",
        ),
        script(
            b"\
            put a hex 4142\n\
            lose 0\n\
            join 0\n\
            lose 0\n\
            join 0\n\
            join 3\n\
            read a 0\n\
            put b hex 43\n\
            ",
            b"\
            session 0\n\
            stored 0 1\n\
            lost 1\n\
            joined 1\n\
            lost 0\n\
            joined 2\n\
            no-node\n\
            data 41\n\
            stored 1 1\n\
            journal 8\n\
            0 s0 0 end 0 stored 0 1 7\n\
            1 s0 1 end 1 lost 1\n\
            2 s0 2 end 2 joined 1\n\
            3 s0 3 end 3 lost 0\n\
            4 s0 4 end 4 joined 2\n\
            5 s0 5 end 5 no-node\n\
            6 s0 6 end 6 data\n\
            7 s0 7 end 7 stored 1 1 7\n\
            end\n\
            ",
        ),
        row(
            "run",
            b"\
            k = 1\n\
            n = 2\n\
            nodes = 2\n\
            block = 3\n\
            ---\n\
            put a hex 616263\n\
            sum a 0\n\
            lose 0\n\
            sum a 0\n\
            sum a 1\n\
            sum b 0\n\
            stat a\n\
            stat b\n\
            ",
            b"\
            session 0\n\
            stored 0 1\n\
            sum ba7816bf8f01cfea414140de5dae2223b00361a396177a9cb410ff61f20015ad\n\
            lost 1\n\
            sum ba7816bf8f01cfea414140de5dae2223b00361a396177a9cb410ff61f20015ad\n\
            no-block 1\n\
            no-file\n\
            stat 3 1 1\n\
            no-file\n\
            journal 8\n\
            0 s0 0 end 0 stored 0 1 3\n\
            1 s0 1 end 1 data\n\
            2 s0 2 end 2 lost 1\n\
            3 s0 3 end 3 data\n\
            4 s0 4 end 4 no-block 1\n\
            5 s0 5 end 5 no-file\n\
            6 s0 6 end 6 stat 3 1 1\n\
            7 s0 7 end 7 no-file\n\
            end\n\
            ",
        ),
        script(
            b"\
                        ",
            b"journal 0\nend\n",
        ),
    ];
    each_leaves(&rt, rt.alloc(), &runs)
}

#[test]
fn says_which_fault_of_an_input_is_the_first(rt: HostRuntime) -> Result<(), Fail> {
    let runs = [
        refused(b"n = 3\nnodes = 3\nblock = 1\n---\n", 3, b"head: k\n"),
        refused(b"k = 2\n", 3, b"head: no line ---\n"),
        refused(b"k\n---\n", 3, b"head: not TOML\n"),
        refused(
            b"\
            k = 2\n\
            n = 3\n\
            nodes = 3\n\
            block = 1\n\
            color = 1\n\
            ---\n\
            ",
            3,
            b"head: unknown key\n",
        ),
        refused_script(
            b"\
                        fetch a 0\n\
            ",
            4,
            b"line 6\n",
        ),
        refused_script(
            b"\
            put a hex 414\n\
            ",
            4,
            b"line 6\n",
        ),
        Run {
            failing_pulls: &[1],
            ..refused_script(
                b"\
                                put a hex 4142\n\
                lose 0\n\
                read a 0\n\
                ",
                5,
                b"input: read fault\n",
            )
        },
    ];
    each_leaves(&rt, rt.alloc(), &runs)
}

#[test]
fn a_fault_of_the_output_cuts_the_text_short(rt: HostRuntime) -> Result<(), Fail> {
    let run = Run {
        words: "run",
        head: SCRIPT_HEAD,
        input: b"put a hex 4142\nlose 0\nread a 0\n",
        piece: 1,
        failing_pushes: &[8],
        status: WRITE_FAULT,
        out: b"session ",
        ..DONE_RUN
    };
    let bytes = run.bytes(rt.alloc())?;
    assert!(rt; leaves(&rt, rt.alloc(), &run, bytes)?);
    Ok(())
}
