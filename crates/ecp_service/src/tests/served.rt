//! How many bytes each node's store served in a run.
use super::*;
use ecp_store::Store;

/// A script, what it leaves, and the bytes that the stores of the first three nodes served.
fn served<R: Abort + Threads + Wait + Sync>(
    rt: &R,
    alloc: Global,
    head: &'static [u8],
    calls: &'static [u8],
    out: &'static [u8],
    bytes: [u64; 3],
) -> Result<(), Fail> {
    let run = Run {
        head,
        ..row("run", calls, out)
    };
    let (as_said, stores) = ran(rt, alloc, &run, run.bytes(alloc)?)?;
    assert!(rt; as_said);
    assert_eq!(rt; stores.len(), MAX_NODES as usize);
    for (store, bytes) in stores.iter().zip(bytes) {
        assert_eq!(rt; store.served(), bytes);
    }
    Ok(())
}

#[test]
fn a_lost_block_is_read_at_each_of_its_helpers_once(rt: HostRuntime) -> Result<(), Fail> {
    served(
        &rt,
        rt.alloc(),
        SCRIPT_HEAD,
        b"put a hex 4142\nlose 0\nread a 0\n",
        b"\
        session 0\n\
        stored 0 1\n\
        lost 1\n\
        data 41\n\
        journal 3\n\
        0 s0 0 end 0 stored 0 1 7\n\
        1 s0 1 end 1 lost 1\n\
        2 s0 2 end 2 data\n\
        end\n\
        ",
        [0, 1, 1],
    )
}

#[test]
fn a_live_block_is_read_at_its_own_node(rt: HostRuntime) -> Result<(), Fail> {
    served(
        &rt,
        rt.alloc(),
        SCRIPT_HEAD,
        b"put a hex 41\nread a 0\n",
        b"\
        session 0\n\
        stored 0 1\n\
        data 41\n\
        journal 2\n\
        0 s0 0 end 0 stored 0 1 7\n\
        1 s0 1 end 1 data\n\
        end\n\
        ",
        [1, 0, 0],
    )
}

#[test]
fn a_block_of_three_slices_is_read_slice_by_slice(rt: HostRuntime) -> Result<(), Fail> {
    served(
        &rt,
        rt.alloc(),
        b"k = 2\nn = 3\nnodes = 3\nblock = 5\nslice = 2\n---\n",
        b"put a hex 0102030405060708090a\nlose 0\nread a 0\n",
        b"\
        session 0\n\
        stored 0 1\n\
        lost 1\n\
        data 0102030405\n\
        journal 3\n\
        0 s0 0 end 0 stored 0 1 7\n\
        1 s0 1 end 1 lost 1\n\
        2 s0 2 end 2 data\n\
        end\n\
        ",
        [0, 5, 5],
    )
}

#[test]
fn reads_of_a_lost_block_go_round_its_helpers(rt: HostRuntime) -> Result<(), Fail> {
    served(
        &rt,
        rt.alloc(),
        b"k = 1\nn = 3\nnodes = 3\nblock = 1\n---\n",
        b"put a hex 41\nlose 0\nread a 0\nread a 0\nread a 0\n",
        b"\
        session 0\n\
        stored 0 1\n\
        lost 1\n\
        data 41\n\
        data 41\n\
        data 41\n\
        journal 5\n\
        0 s0 0 end 0 stored 0 1 7\n\
        1 s0 1 end 1 lost 1\n\
        2 s0 2 end 2 data\n\
        3 s0 3 end 3 data\n\
        4 s0 4 end 4 data\n\
        end\n\
        ",
        [0, 2, 1],
    )
}
