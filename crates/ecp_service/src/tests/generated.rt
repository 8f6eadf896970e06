use super::*;

/// Scripts that were drawn at random, and what a plain table written in another language answers to each.
const SCRIPTS: [(&str, &str); 20] = [
    (
        "session 6\nput f0 hex 9eafa7c2983661198cc364\nread f1 1\nread f1 1\nput f0 hex 9be1ad\nread f0 2\nput f1 hex 0a\nread f1 1\nread f1 1\nput f1 hex 0924bdcf9f005fc5f2\nput f0 hex ce9756b4cbf7dd1b40\n",
        "session 6\nstored 0 3\nno-file\nno-file\nname-taken\ndata 9836\nstored 3 1\nno-block 1\nno-block 1\nname-taken\nname-taken\njournal 10\n0 s6 0 end 0 stored 0 3 15\n1 s6 1 end 1 no-file\n2 s6 2 end 2 no-file\n3 s6 3 end 3 name-taken\n4 s6 4 end 4 data\n5 s6 5 end 5 stored 3 1 15\n6 s6 6 end 6 no-block 1\n7 s6 7 end 7 no-block 1\n8 s6 8 end 8 name-taken\n9 s6 9 end 9 name-taken\nend\n",
    ),
    (
        "session 0\nput f0 hex fb129fc2ad7cb232fb26dadcf1\nput f1 hex 68\nread f1 3\nlose 1\nread f0 0\nread f1 1\nlose 4\nlose 0\nread f0 3\nread f0 2\n",
        "session 0\nstored 0 4\nstored 4 1\nno-block 1\nlost 4\ndata fb12\nno-block 1\nno-node\nlost 4\ndata b232\ndata ad7c\njournal 10\n0 s0 0 end 0 stored 0 4 15\n1 s0 1 end 1 stored 4 1 15\n2 s0 2 end 2 no-block 1\n3 s0 3 end 3 lost 4\n4 s0 4 end 4 data\n5 s0 5 end 5 no-block 1\n6 s0 6 end 6 no-node\n7 s0 7 end 7 lost 4\n8 s0 8 end 8 data\n9 s0 9 end 9 data\nend\n",
    ),
    (
        "session 6\nput f0 hex b215d024\nput f1 hex a0\nread f0 3\nread f0 1\nlose 0\nread f1 1\nlose 1\nread f0 0\nlose 4\nlose 3\n",
        "session 6\nstored 0 1\nstored 1 1\nno-block 2\ndata d024\nlost 1\nno-block 1\nlost 2\nunrecoverable 1\nno-node\nlost 1\njournal 10\n0 s6 0 end 0 stored 0 1 15\n1 s6 1 end 1 stored 1 1 15\n2 s6 2 end 2 no-block 2\n3 s6 3 end 3 data\n4 s6 4 end 4 lost 1\n5 s6 5 end 5 no-block 1\n6 s6 6 end 6 lost 2\n7 s6 7 end 7 unrecoverable 1\n8 s6 8 end 8 no-node\n9 s6 9 end 9 lost 1\nend\n",
    ),
    (
        "session 7\nput f0 hex ba55285ca3f9b138b8\nread f1 3\nread f0 0\nread f1 0\nlose 2\nread f1 0\nread f1 0\nread f1 0\nput f1 hex -\nread f1 0\n",
        "session 7\nstored 0 3\nno-file\ndata ba55\nno-file\nlost 3\nno-file\nno-file\nno-file\nstored 3 0\nno-block 0\njournal 10\n0 s7 0 end 0 stored 0 3 15\n1 s7 1 end 1 no-file\n2 s7 2 end 2 data\n3 s7 3 end 3 no-file\n4 s7 4 end 4 lost 3\n5 s7 5 end 5 no-file\n6 s7 6 end 6 no-file\n7 s7 7 end 7 no-file\n8 s7 8 end 8 stored 3 0 11\n9 s7 9 end 9 no-block 0\nend\n",
    ),
    (
        "session 6\nput f0 hex e2f9\nread f1 1\nlose 1\nread f0 1\nlose 2\nput f0 hex 1f9b9801331ca824b6\nput f0 hex -\nlose 2\nread f0 0\nread f1 0\n",
        "session 6\nstored 0 1\nno-file\nlost 1\nno-block 1\nlost 1\nname-taken\nname-taken\nnode-down\ndata e2f9\nno-file\njournal 10\n0 s6 0 end 0 stored 0 1 15\n1 s6 1 end 1 no-file\n2 s6 2 end 2 lost 1\n3 s6 3 end 3 no-block 1\n4 s6 4 end 4 lost 1\n5 s6 5 end 5 name-taken\n6 s6 6 end 6 name-taken\n7 s6 7 end 7 node-down\n8 s6 8 end 8 data\n9 s6 9 end 9 no-file\nend\n",
    ),
    (
        "session 7\nput f0 hex 1377f5e601002e666ecb968969\nlose 4\nread f0 2\nread f0 3\nput f1 hex fba6ce\nput f0 hex 65ffc0ab32c58b94cb\nput f0 hex f49c7d\nput f0 hex -\nread f0 3\nput f1 hex 3650f2\n",
        "session 7\nstored 0 4\nno-node\ndata 0100\ndata 2e66\nstored 4 1\nname-taken\nname-taken\nname-taken\ndata 2e66\nname-taken\njournal 10\n0 s7 0 end 0 stored 0 4 15\n1 s7 1 end 1 no-node\n2 s7 2 end 2 data\n3 s7 3 end 3 data\n4 s7 4 end 4 stored 4 1 15\n5 s7 5 end 5 name-taken\n6 s7 6 end 6 name-taken\n7 s7 7 end 7 name-taken\n8 s7 8 end 8 data\n9 s7 9 end 9 name-taken\nend\n",
    ),
    (
        "session 5\nput f0 hex 3a\nread f0 2\nread f0 2\nread f1 0\nread f0 2\nput f0 hex db0ebd\nlose 0\nput f1 hex -\nput f1 hex -\nlose 3\n",
        "session 5\nstored 0 1\nno-block 1\nno-block 1\nno-file\nno-block 1\nname-taken\nlost 1\nstored 1 0\nname-taken\nlost 0\njournal 10\n0 s5 0 end 0 stored 0 1 15\n1 s5 1 end 1 no-block 1\n2 s5 2 end 2 no-block 1\n3 s5 3 end 3 no-file\n4 s5 4 end 4 no-block 1\n5 s5 5 end 5 name-taken\n6 s5 6 end 6 lost 1\n7 s5 7 end 7 stored 1 0 14\n8 s5 8 end 8 name-taken\n9 s5 9 end 9 lost 0\nend\n",
    ),
    (
        "session 0\nput f0 hex 350dbcd62b1e0698bba58d2ce3\nread f0 1\nread f0 1\nread f1 2\nread f1 0\nput f0 hex ec\nread f0 0\nread f0 2\nlose 3\nread f0 0\n",
        "session 0\nstored 0 4\ndata bcd6\ndata bcd6\nno-file\nno-file\nname-taken\ndata 350d\ndata 2b1e\nlost 3\ndata 350d\njournal 10\n0 s0 0 end 0 stored 0 4 15\n1 s0 1 end 1 data\n2 s0 2 end 2 data\n3 s0 3 end 3 no-file\n4 s0 4 end 4 no-file\n5 s0 5 end 5 name-taken\n6 s0 6 end 6 data\n7 s0 7 end 7 data\n8 s0 8 end 8 lost 3\n9 s0 9 end 9 data\nend\n",
    ),
    (
        "session 7\nput f0 hex 937bb6144bb5\nlose 0\nput f0 hex b38f5f9702ce66fc1c\nread f0 2\nread f1 1\nread f0 1\nread f0 3\nread f0 1\nlose 2\nput f0 hex -\n",
        "session 7\nstored 0 2\nlost 1\nname-taken\ndata 4bb5\nno-file\ndata b614\nno-block 3\ndata b614\nlost 2\nname-taken\njournal 10\n0 s7 0 end 0 stored 0 2 15\n1 s7 1 end 1 lost 1\n2 s7 2 end 2 name-taken\n3 s7 3 end 3 data\n4 s7 4 end 4 no-file\n5 s7 5 end 5 data\n6 s7 6 end 6 no-block 3\n7 s7 7 end 7 data\n8 s7 8 end 8 lost 2\n9 s7 9 end 9 name-taken\nend\n",
    ),
    (
        "session 2\nput f0 hex 7c\nlose 4\nread f0 1\nput f0 hex -\nput f0 hex ed69027e3c462a2982\nread f1 2\nread f1 1\nlose 2\nlose 1\nput f1 hex 6d\n",
        "session 2\nstored 0 1\nno-node\nno-block 1\nname-taken\nname-taken\nno-file\nno-file\nlost 1\nlost 1\nfew-nodes 2\njournal 10\n0 s2 0 end 0 stored 0 1 15\n1 s2 1 end 1 no-node\n2 s2 2 end 2 no-block 1\n3 s2 3 end 3 name-taken\n4 s2 4 end 4 name-taken\n5 s2 5 end 5 no-file\n6 s2 6 end 6 no-file\n7 s2 7 end 7 lost 1\n8 s2 8 end 8 lost 1\n9 s2 9 end 9 few-nodes 2\nend\n",
    ),
    (
        "session 3\nput f0 hex 1e044b15678f24696f\nread f0 3\nlose 1\nput f1 hex 515793\nread f1 3\nread f0 0\nput f1 hex 3159fbb43e6438fe25\nput f0 hex d20a83069a9ed730fc\nread f0 0\nput f0 hex e75ccec291\n",
        "session 3\nstored 0 3\ndata 2469\nlost 2\nstored 3 1\nno-block 2\ndata 1e04\nname-taken\nname-taken\ndata 1e04\nname-taken\njournal 10\n0 s3 0 end 0 stored 0 3 15\n1 s3 1 end 1 data\n2 s3 2 end 2 lost 2\n3 s3 3 end 3 stored 3 1 13\n4 s3 4 end 4 no-block 2\n5 s3 5 end 5 data\n6 s3 6 end 6 name-taken\n7 s3 7 end 7 name-taken\n8 s3 8 end 8 data\n9 s3 9 end 9 name-taken\nend\n",
    ),
    (
        "session 5\nput f0 hex e66ce0076a\nput f1 hex d280abc8\nread f1 2\nput f1 hex c8abee4b52b529d1cb\nread f1 0\nread f0 3\nlose 2\nread f0 3\nlose 1\nread f0 1\n",
        "session 5\nstored 0 2\nstored 2 1\nno-block 2\nname-taken\ndata d280\nno-block 3\nlost 3\nno-block 3\nlost 2\nunrecoverable 1\njournal 10\n0 s5 0 end 0 stored 0 2 15\n1 s5 1 end 1 stored 2 1 15\n2 s5 2 end 2 no-block 2\n3 s5 3 end 3 name-taken\n4 s5 4 end 4 data\n5 s5 5 end 5 no-block 3\n6 s5 6 end 6 lost 3\n7 s5 7 end 7 no-block 3\n8 s5 8 end 8 lost 2\n9 s5 9 end 9 unrecoverable 1\nend\n",
    ),
    (
        "session 5\nput f0 hex af1225\nread f1 0\nread f1 1\nread f1 3\nput f1 hex -\nread f0 3\nread f0 1\nput f1 hex 45f6d9e820\nread f1 2\nput f0 hex -\n",
        "session 5\nstored 0 1\nno-file\nno-file\nno-file\nstored 1 0\nno-block 2\ndata 2500\nname-taken\nno-block 0\nname-taken\njournal 10\n0 s5 0 end 0 stored 0 1 15\n1 s5 1 end 1 no-file\n2 s5 2 end 2 no-file\n3 s5 3 end 3 no-file\n4 s5 4 end 4 stored 1 0 15\n5 s5 5 end 5 no-block 2\n6 s5 6 end 6 data\n7 s5 7 end 7 name-taken\n8 s5 8 end 8 no-block 0\n9 s5 9 end 9 name-taken\nend\n",
    ),
    (
        "session 7\nput f0 hex 530d4e4173852fb0a87de3d1b9\nlose 1\nread f0 3\nlose 0\nread f0 0\nread f0 3\nread f0 1\nread f0 3\nlose 2\nread f0 0\n",
        "session 7\nstored 0 4\nlost 3\ndata 2fb0\nlost 3\nunrecoverable 1\ndata 2fb0\nunrecoverable 1\ndata 2fb0\nlost 3\nunrecoverable 0\njournal 10\n0 s7 0 end 0 stored 0 4 15\n1 s7 1 end 1 lost 3\n2 s7 2 end 2 data\n3 s7 3 end 3 lost 3\n4 s7 4 end 4 unrecoverable 1\n5 s7 5 end 5 data\n6 s7 6 end 6 unrecoverable 1\n7 s7 7 end 7 data\n8 s7 8 end 8 lost 3\n9 s7 9 end 9 unrecoverable 0\nend\n",
    ),
    (
        "session 0\nput f0 hex 60a00741\nput f1 hex d8ad3af9727f269e9f\nput f1 hex 3e12cf\nread f1 3\nput f0 hex de186fb925\nput f0 hex 20108f\nread f1 1\nput f0 hex -\nlose 3\nread f0 3\n",
        "session 0\nstored 0 1\nstored 1 3\nname-taken\ndata 269e\nname-taken\nname-taken\ndata 3af9\nname-taken\nlost 3\nno-block 2\njournal 10\n0 s0 0 end 0 stored 0 1 15\n1 s0 1 end 1 stored 1 3 15\n2 s0 2 end 2 name-taken\n3 s0 3 end 3 data\n4 s0 4 end 4 name-taken\n5 s0 5 end 5 name-taken\n6 s0 6 end 6 data\n7 s0 7 end 7 name-taken\n8 s0 8 end 8 lost 3\n9 s0 9 end 9 no-block 2\nend\n",
    ),
    (
        "session 1\nput f0 hex 96cb0a4d28348ee00dfc33eff7\nread f1 2\nread f0 3\nread f1 0\nread f0 3\nlose 3\nread f0 1\nread f0 3\nread f0 2\nread f1 3\n",
        "session 1\nstored 0 4\nno-file\ndata 8ee0\nno-file\ndata 8ee0\nlost 3\ndata 0a4d\ndata 8ee0\ndata 2834\nno-file\njournal 10\n0 s1 0 end 0 stored 0 4 15\n1 s1 1 end 1 no-file\n2 s1 2 end 2 data\n3 s1 3 end 3 no-file\n4 s1 4 end 4 data\n5 s1 5 end 5 lost 3\n6 s1 6 end 6 data\n7 s1 7 end 7 data\n8 s1 8 end 8 data\n9 s1 9 end 9 no-file\nend\n",
    ),
    (
        "session 5\nput f0 hex 2e82f4633c20b08be3374459\nread f0 0\nread f1 0\nread f1 3\nread f1 3\nput f1 hex 1ad056\nread f0 2\nread f1 2\nlose 0\nread f0 1\n",
        "session 5\nstored 0 3\ndata 2e82\nno-file\nno-file\nno-file\nstored 3 1\ndata 3c20\nno-block 2\nlost 3\ndata f463\njournal 10\n0 s5 0 end 0 stored 0 3 15\n1 s5 1 end 1 data\n2 s5 2 end 2 no-file\n3 s5 3 end 3 no-file\n4 s5 4 end 4 no-file\n5 s5 5 end 5 stored 3 1 15\n6 s5 6 end 6 data\n7 s5 7 end 7 no-block 2\n8 s5 8 end 8 lost 3\n9 s5 9 end 9 data\nend\n",
    ),
    (
        "session 7\nput f0 hex b5d64c6d32cad630550dcd\nput f1 hex -\nread f0 2\nlose 4\nread f1 3\nread f0 3\nlose 3\nlose 3\nread f0 0\nput f0 hex fec624\n",
        "session 7\nstored 0 3\nstored 3 0\ndata 32ca\nno-node\nno-block 0\ndata d630\nlost 2\nnode-down\ndata b5d6\nname-taken\njournal 10\n0 s7 0 end 0 stored 0 3 15\n1 s7 1 end 1 stored 3 0 15\n2 s7 2 end 2 data\n3 s7 3 end 3 no-node\n4 s7 4 end 4 no-block 0\n5 s7 5 end 5 data\n6 s7 6 end 6 lost 2\n7 s7 7 end 7 node-down\n8 s7 8 end 8 data\n9 s7 9 end 9 name-taken\nend\n",
    ),
    (
        "session 6\nput f0 hex 2edf62c561b705653885b5\nput f0 hex ebd1205138\nread f0 3\nput f0 hex fb6dd0b4e32dc5ca63\nlose 1\nput f1 hex -\nread f1 1\nread f1 2\nlose 0\nput f1 hex bd9bb5f153\n",
        "session 6\nstored 0 3\nname-taken\ndata 0565\nname-taken\nlost 2\nstored 3 0\nno-block 0\nno-block 0\nlost 2\nname-taken\njournal 10\n0 s6 0 end 0 stored 0 3 15\n1 s6 1 end 1 name-taken\n2 s6 2 end 2 data\n3 s6 3 end 3 name-taken\n4 s6 4 end 4 lost 2\n5 s6 5 end 5 stored 3 0 13\n6 s6 6 end 6 no-block 0\n7 s6 7 end 7 no-block 0\n8 s6 8 end 8 lost 2\n9 s6 9 end 9 name-taken\nend\n",
    ),
    (
        "session 0\nput f0 hex 3a98d436ea19\nlose 3\nread f1 1\nlose 2\nlose 3\nread f0 2\nput f1 hex f823730c\nput f1 hex 5940cf\nread f1 0\nlose 3\n",
        "session 0\nstored 0 2\nlost 1\nno-file\nlost 2\nnode-down\ndata ea19\nfew-nodes 2\nfew-nodes 2\nno-file\nnode-down\njournal 10\n0 s0 0 end 0 stored 0 2 15\n1 s0 1 end 1 lost 1\n2 s0 2 end 2 no-file\n3 s0 3 end 3 lost 2\n4 s0 4 end 4 node-down\n5 s0 5 end 5 data\n6 s0 6 end 6 few-nodes 2\n7 s0 7 end 7 few-nodes 2\n8 s0 8 end 8 no-file\n9 s0 9 end 9 node-down\nend\n",
    ),
];

#[test]
fn serves_twenty_scripts_drawn_at_random(rt: HostRuntime) -> Result<(), Fail> {
    for (script, text) in SCRIPTS {
        let run = Run {
            head: b"k = 2\nn = 3\nnodes = 4\nblock = 2\n---\n",
            ..row("run", script.as_bytes(), text.as_bytes())
        };
        assert!(rt;
            leaves(&rt, rt.alloc(), &run, run.bytes(rt.alloc())?)?,
            "{script}"
        );
    }
    Ok(())
}
