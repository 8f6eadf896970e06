//! Files that are read whole.
use super::*;

#[test]
fn a_file_read_whole_is_answered_by_its_length_and_digest(rt: HostRuntime) -> Result<(), Fail> {
    let runs = [
        row(
            "run",
            b"\
            k = 1\n\
            n = 2\n\
            nodes = 2\n\
            block = 3\n\
            ---\n\
            put a hex 616263\n\
            cat a\n\
            sum a 0\n\
            ",
            b"\
            session 0\n\
            stored 0 1\n\
            file 3 ba7816bf8f01cfea414140de5dae2223b00361a396177a9cb410ff61f20015ad\n\
            sum ba7816bf8f01cfea414140de5dae2223b00361a396177a9cb410ff61f20015ad\n\
            journal 5\n\
            0 s0 0 end 0 stored 0 1 3\n\
            1 s0 1 0 1 opened 3 1 0\n\
            2 s0 1 1 2 data\n\
            3 s0 1 end 3 whole\n\
            4 s0 2 end 4 data\n\
            end\n\
            ",
        ),
        Run {
            head: SCRIPT_HEAD,
            ..row(
                "run",
                b"put e hex -\nread e 0\ncat e\nstat e\n",
                b"\
                session 0\n\
                stored 0 0\n\
                no-block 0\n\
                file 0 e3b0c44298fc1c149afbf4c8996fb92427ae41e4649b934ca495991b7852b855\n\
                stat 0 0 0\n\
                journal 5\n\
                0 s0 0 end 0 stored 0 0 7\n\
                1 s0 1 end 1 no-block 0\n\
                2 s0 2 0 2 opened 0 0 0\n\
                3 s0 2 end 3 whole\n\
                4 s0 3 end 4 stat 0 0 0\n\
                end\n\
                ",
            )
        },
    ];
    each_leaves(&rt, rt.alloc(), &runs)
}

#[test]
fn the_fill_behind_a_file_is_not_in_its_digest(rt: HostRuntime) -> Result<(), Fail> {
    let runs = [row(
        "run",
        b"\
        k = 2\n\
        n = 3\n\
        nodes = 3\n\
        block = 3\n\
        ---\n\
        put a hex 61626364\n\
        lose 1\n\
        cat a\n\
        ",
        b"\
        session 0\n\
        stored 0 1\n\
        lost 1\n\
        file 4 88d4266fd4e6338d13b845fcf289579d209c897823b9217da3e161936f031589\n\
        journal 6\n\
        0 s0 0 end 0 stored 0 1 7\n\
        1 s0 1 end 1 lost 1\n\
        2 s0 2 0 2 opened 4 2 0\n\
        3 s0 2 1 3 data\n\
        4 s0 2 2 4 data\n\
        5 s0 2 end 5 whole\n\
        end\n\
        ",
    )];
    each_leaves(&rt, rt.alloc(), &runs)
}

#[test]
fn a_file_breaks_off_at_its_first_block_without_data(rt: HostRuntime) -> Result<(), Fail> {
    let runs = [Run {
        head: SCRIPT_HEAD,
        ..row(
            "run",
            b"put a hex 41424344\nlose 1\nlose 2\ncat a\ncat b\n",
            b"\
            session 0\n\
            stored 0 2\n\
            lost 2\n\
            lost 2\n\
            broken 1 unrecoverable 1\n\
            no-file\n\
            journal 8\n\
            0 s0 0 end 0 stored 0 2 7\n\
            1 s0 1 end 1 lost 2\n\
            2 s0 2 end 2 lost 2\n\
            3 s0 3 0 3 opened 4 4 0\n\
            4 s0 3 1 4 data\n\
            5 s0 3 2 5 unrecoverable 1\n\
            6 s0 3 end 6 broken 1\n\
            7 s0 4 end 7 no-file\n\
            end\n\
            ",
        )
    }];
    each_leaves(&rt, rt.alloc(), &runs)
}
