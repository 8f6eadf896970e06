ghost use Rattle.std.specs.Prelude.{◌≡◌, ◌+◌, ◌<◌, length};

mod till;

use super::*;
use std::alloc::Global;
use std::marker::Brand;
use std::process::Abort;
use std::test::Fail;
use std::thread::{Threads, join};

/// A number, which is entered as itself.
#[derive(Drop)]
struct Number(u64);

impl Entered for Number {
    ghost use Rattle.std.specs.Prelude.{[], ◌∷◌};

    ghost item = { λ n. n.0 ∷ [] };
}

#[test]
fn two_logs_keep_their_lengths(rt: HostRuntime) -> Result<(), Fail> {
    let blank = Blank::new(rt.alloc(), 2)?;
    two_logs::<Brand, _>(&rt, rt.alloc(), blank)
}

fn two_logs<N: Names, R: Abort>(rt: &R, alloc: Global, blank: Blank) -> Result<(), Fail>
    requires { blank ≡ N.book }
{
    let (book, mut keepers) = Book::<N>::open(alloc, blank)?;
    let second = keepers.pop().ok_or("log 1")?;
    let mut first = keepers.pop().ok_or("log 0")?;
    assert!(rt; first.log() == 0 && second.log() == 1 && keepers.is_empty());
    assert!(rt; first.len() == 0 && second.len() == 0);
    book.append(&mut first, &Number(7));
    let mut one = book.tag(&mut first);
    book.append(&mut first, &Number(8));
    let mut two = book.tag(&mut first);
    assert!(rt; one.len() == 1 && two.len() == 2 && first.len() == 2);
    book.meet_tags(&mut one, &mut two);
    book.meet(&mut first, &mut one);
    assert!(rt; one.len() == 1 && two.len() == 2 && first.len() == 2);
    book.end_tag(one);
    book.end_tag(two);
    assert_eq!(rt; book.end_keeper(first), 2);
    assert_eq!(rt; book.end_keeper(second), 0);
    Ok(())
}

#[test]
fn a_tag_is_copied_in_another_thread(rt: HostRuntime) -> Result<(), Fail> {
    let blank = Blank::new(rt.alloc(), 1)?;
    copied_elsewhere::<Brand, _>(&rt, rt.alloc(), blank)
}

fn copied_elsewhere<N: Names + Send + Sync, R: Threads + Abort + Sync>(
    rt: &R,
    alloc: Global,
    blank: Blank,
) -> Result<(), Fail>
    requires { blank ≡ N.book }
{
    let (book, mut keepers) = Book::<N>::open(alloc, blank)?;
    let mut keeper = keepers.pop().ok_or("log 0")?;
    assert!(rt; keeper.len() == 0);
    book.append(&mut keeper, &Number(7));
    let tag = book.tag(&mut keeper);
    let shared = &book;
    let (mut keeper, (mut tag, mut copy)) = join(
        rt,
        move ||
            requires { length keeper.items < 100 }
        { grown(shared, keeper) },
        move || with_copy(shared, tag),
    );
    assert!(rt; keeper.log() == 0 && tag.log() == 0 && copy.log() == 0);
    assert!(rt; keeper.len() == 3 && tag.len() == 1 && copy.len() == 1);
    book.meet(&mut keeper, &mut copy);
    book.meet_tags(&mut copy, &mut tag);
    Ok(())
}

fn grown<N: Names>(book: &Book<N>, mut keeper: Keeper<N>) -> Keeper<N>
    requires { length keeper.items < 100 }
    ensures { result.log ≡ keeper.log }
{
    book.append(&mut keeper, &Number(8));
    book.append(&mut keeper, &Number(9));
    keeper
}

fn with_copy<N: Names>(book: &Book<N>, mut tag: Tag<N>) -> (Tag<N>, Tag<N>)
    ensures { (result.0 ≡ tag) × (result.1 ≡ tag) }
{
    let copy = book.copy(&mut tag);
    (tag, copy)
}
