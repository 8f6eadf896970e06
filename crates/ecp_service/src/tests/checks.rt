use super::*;

/// The head of the large put.
const LARGE_HEAD: &[u8] = b"k = 4\nn = 6\nnodes = 8\nblock = 65536\n---\n";

fn counted(head: &'static [u8], calls: &'static [u8], out: &'static [u8]) -> Run {
    Run {
        head,
        ..row("check", calls, out)
    }
}

fn refused(head: &'static [u8], input: &'static [u8], status: u8, diag: &'static [u8]) -> Run {
    Run {
        head,
        input,
        ..stop("check", status, diag)
    }
}

#[test]
fn counts_the_calls_of_a_script(rt: HostRuntime) -> Result<(), Fail> {
    let three = b"put a hex 4142\nlose 0\nread a 0\n";
    let spread = b"session 2\nlose 0\nbarrier\nsession 0\nlose 1\nsession 2\nlose 2\n";
    let runs = [
        counted(SCRIPT_HEAD, three, b"accepted 3\n"),
        counted(SCRIPT_HEAD, spread, b"accepted 3\n"),
        counted(SCRIPT_HEAD, b"", b"accepted 0\n"),
    ];
    each_leaves(&rt, rt.alloc(), &runs)
}

#[test]
fn says_why_a_script_is_not_accepted(rt: HostRuntime) -> Result<(), Fail> {
    let runs = [
        refused(SCRIPT_HEAD, b"fetch a 0\n", 4, b"line 6\n"),
        refused(b"", b"k = 2\n", 3, b"head: no line ---\n"),
        Run {
            failing_pulls: &[0],
            ..refused(SCRIPT_HEAD, b"", 5, b"input: read fault\n")
        },
        Run {
            failing_pushes: &[0],
            ..refused(SCRIPT_HEAD, b"", WRITE_FAULT, b"")
        },
    ];
    each_leaves(&rt, rt.alloc(), &runs)
}

#[test]
fn accepts_a_put_of_4_mebibytes_and_no_byte_more(rt: HostRuntime) -> Result<(), Fail> {
    let alloc = rt.alloc();
    let most = counted(LARGE_HEAD, b"put a gen 0 4194304\n", b"accepted 1\n");
    assert!(rt; leaves(&rt, alloc, &most, most.bytes(alloc)?)?);
    let over = refused(LARGE_HEAD, b"put a gen 0 4194305\n", 4, b"line 6\n");
    assert!(rt; leaves(&rt, alloc, &over, over.bytes(alloc)?)?);
    Ok(())
}
