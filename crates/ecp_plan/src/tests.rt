use crate::{LiveRow, Picks, hop_at, pick, place, slices};

#[test]
fn rows_and_slices_have_their_places(rt: HostRuntime) {
    assert_eq!(rt; place(7, 2, 1), 0);
    assert_eq!(rt; place(11, 1, 1), 3);
    assert_eq!(rt; slices(5, 2), 3);
    assert_eq!(rt; hop_at(1, 3, 4, 2), 2);
    assert_eq!(rt; hop_at(3, 3, 4, 2), 0);
}

#[test]
fn picks_the_nodes_that_helped_longest_ago(rt: HostRuntime) {
    let live = [
        LiveRow { row: 1, node: 1 },
        LiveRow { row: 2, node: 2 },
        LiveRow { row: 3, node: 3 },
    ];
    let rows = [1, 3, 0, 0, 0, 0, 0, 0, 0, 0, 0, 0, 0, 0, 0, 0];
    assert_eq!(rt; pick(&[0, 1, 1, 0], &live, 2), Picks { len: 2, rows });
}
