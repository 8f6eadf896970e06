use crate::{Act, Deed, Line, Name, Part, Reply, line_text, reply_text, reply_to};
use std::process::Abort;

const POSITIONS: [u32; 16] = [1, 6, 11, 16, 21, 26, 31, 36, 41, 46, 51, 56, 61, 66, 71, 76];

fn line_is(rt: &impl Abort, at: u32, line: &Line, text: &str) {
    let mut out = [0; 512];
    let len = line_text(at, line, &mut out);
    assert_eq!(rt; &out[..len], text.as_bytes());
}

fn act_is(rt: &impl Abort, act: Act, text: &str) {
    let line = Line {
        caller: 0,
        call: 4,
        part: Part::End,
        point: 9,
        act,
    };
    line_is(rt, 9, &line, text);
}

fn reply_is(rt: &impl Abort, reply: &Reply, text: &str) {
    let mut out = [0; 512];
    let len = reply_text(reply, &mut out);
    assert_eq!(rt; &out[..len], text.as_bytes());
}

#[test]
fn writes_lines_of_worked_rows(rt: HostRuntime) {
    let drop = Line {
        caller: 9,
        call: 0,
        part: Part::End,
        point: 2,
        act: Act::Drop { stripe: 0, row: 1 },
    };
    line_is(&rt, 2, &drop, "2 n1 0 end 2 drop 0 1\n");
    let restored = Line {
        caller: 0,
        call: 4,
        part: Part::Part(1),
        point: 5,
        act: Act::Restored {
            stripe: 0,
            row: 0,
            node: 0,
            inc: 1,
        },
    };
    line_is(&rt, 5, &restored, "5 s0 4 1 5 restored 0 0 0 1\n");
}

#[test]
fn writes_the_acts_of_a_put_and_a_read(rt: HostRuntime) {
    let cases = [
        (
            Act::Stored {
                first: 0,
                stripes: 1,
                up: 7,
            },
            "9 s0 4 end 9 stored 0 1 7\n",
        ),
        (Act::NameTaken, "9 s0 4 end 9 name-taken\n"),
        (Act::TooFewNodes(2), "9 s0 4 end 9 few-nodes 2\n"),
        (Act::StoreFailed(2), "9 s0 4 end 9 store-failed 2\n"),
        (Act::Data, "9 s0 4 end 9 data\n"),
        (Act::NoSuchFile, "9 s0 4 end 9 no-file\n"),
        (Act::NoSuchBlock(2), "9 s0 4 end 9 no-block 2\n"),
        (Act::Unrecoverable(1), "9 s0 4 end 9 unrecoverable 1\n"),
        (
            Act::Unsteady(POSITIONS),
            "9 s0 4 end 9 unsteady 1 6 11 16 21 26 31 36 41 46 51 56 61 66 71 76\n",
        ),
        (
            Act::Opened {
                len: 3,
                count: 1,
                first: 0,
            },
            "9 s0 4 end 9 opened 3 1 0\n",
        ),
        (Act::Whole, "9 s0 4 end 9 whole\n"),
        (Act::Broken(3), "9 s0 4 end 9 broken 3\n"),
    ];
    for (act, text) in cases {
        act_is(&rt, act, text);
    }
}

#[test]
fn writes_the_acts_of_nodes_and_rebuilds(rt: HostRuntime) {
    let cases = [
        (Act::Lost(1), "9 s0 4 end 9 lost 1\n"),
        (Act::NoSuchNode, "9 s0 4 end 9 no-node\n"),
        (Act::NodeDown, "9 s0 4 end 9 node-down\n"),
        (Act::Joined(1), "9 s0 4 end 9 joined 1\n"),
        (Act::NodeUp, "9 s0 4 end 9 node-up\n"),
        (Act::Listed(1), "9 s0 4 end 9 listed 1\n"),
        (Act::NoNode(3), "9 s0 4 end 9 no-node 3\n"),
        (Act::TargetDown(0), "9 s0 4 end 9 node-down 0\n"),
        (
            Act::AlreadyLive { stripe: 5, row: 1 },
            "9 s0 4 end 9 already-live 5 1\n",
        ),
        (
            Act::Clash {
                stripe: 5,
                row: 1,
                other: 2,
            },
            "9 s0 4 end 9 clash 5 1 2\n",
        ),
        (
            Act::Gone {
                stripe: 5,
                row: 1,
                live: 2,
            },
            "9 s0 4 end 9 gone 5 1 2\n",
        ),
        (
            Act::MendFailed {
                stripe: 5,
                row: 1,
                node: 3,
            },
            "9 s0 4 end 9 mend-failed 5 1 3\n",
        ),
        (
            Act::MendUnsteady {
                stripe: 5,
                row: 1,
                at: POSITIONS,
            },
            "9 s0 4 end 9 mend-unsteady 5 1 1 6 11 16 21 26 31 36 41 46 51 56 61 66 71 76\n",
        ),
        (
            Act::MendDown {
                stripe: 5,
                row: 1,
                node: 3,
            },
            "9 s0 4 end 9 mend-down 5 1 3\n",
        ),
        (
            Act::Stat {
                len: 3,
                count: 1,
                live: 2,
            },
            "9 s0 4 end 9 stat 3 1 2\n",
        ),
    ];
    for (act, text) in cases {
        act_is(&rt, act, text);
    }
}

#[test]
fn writes_replies(rt: HostRuntime) {
    let rebuilt = Act::Rebuilt {
        restored: 1,
        live: 0,
        clash: 1,
        gone: 0,
        failed: 0,
        unsteady: 0,
        down: 0,
    };
    act_is(&rt, rebuilt, "9 s0 4 end 9 rebuilt 1 0 1 0 0 0 0\n");
    reply_is(
        &rt,
        &Reply::Ended(rebuilt),
        "rebuilt 1 live 0 clash 1 gone 0 failed 0 unsteady 0 down 0\n",
    );
    let stored = Act::Stored {
        first: 0,
        stripes: 3,
        up: 7,
    };
    reply_is(&rt, &Reply::Ended(stored), "stored 0 3\n");
    reply_is(&rt, &Reply::File { len: 3 }, "file 3 ");
    let broken = Reply::Broken {
        index: 2,
        cause: Act::Unrecoverable(1),
    };
    reply_is(&rt, &broken, "broken 2 unrecoverable 1\n");
}

#[test]
fn chooses_the_reply(rt: HostRuntime) {
    let name = Name::new("a");
    assert_eq!(rt; name.bytes(), b"a".as_slice());
    let sum = Deed::Sum { name, index: 0 };
    assert_eq!(rt; reply_to(&sum, &Act::Data, 0, &Act::Data), Reply::Sum);
    let cat = Deed::Cat { name };
    assert_eq!(rt;
        reply_to(&cat, &Act::Whole, 7, &Act::Data),
        Reply::File { len: 7 }
    );
}
