ghost use Rattle.std.specs.Prelude.{◌≡◌, ◌<◌, ◌≤◌, [], All, IfOk, vec_len};
ghost use Rattle.ecp_rebuild.specs.Tasks.{HasDistinctParts};
ghost use Rattle.ecp_rebuild.specs.Office.{outcome_of};

use super::*;
use ecp_history::Act;
use std::alloc::Global;
use std::marker::PhantomData;
use std::process::Abort;
use std::sync::Wait;
use std::test::Fail;
use std::thread::Threads;

/// What hands are named after, as those of a service are. It says nothing of threads.
trait Named {}

struct Anyone;

impl Named for Anyone {}

/// A hand that lists what it does.
#[derive(Drop)]
struct Clerk<N: Named> {
    number: u32,
    done: Vec<(Task, Outcome)>,
    of: PhantomData<N>,
}

/// Finds each block live, but runs out of memory in one part.
#[derive(Drop)]
struct Office<N: Named> {
    short: u32,
    of: PhantomData<N>,
}

impl<N: Named> Mender for Office<N> {
    ghost use Rattle.std.specs.Prelude.{◌≡◌, ℕ};
    ghost use Rattle.ecp_rebuild.specs.Office.{outcome_of};

    type Hand = Clerk<N>;

    ghost Identity = { ℕ };

    ghost who = { λ h. h.number };

    ghost did = { λ h. h.done.items };

    ghost fit = { λ m h. Unit {0} };

    ghost takes = { λ m t. Unit {0} };

    ghost answers = { λ m t o. o ≡ outcome_of m.short t };

    fn mend<R: Wait>(&self, rt: &R, _alloc: Global, hand: &mut Clerk<N>, task: Task) -> Outcome {
        for _ in rt.forever() {
            if hand.done.reserve(1).is_ok() {
                break;
            }
        }
        let outcome = outcome(self.short, task);
        hand.done.push_reserved((task, outcome));
        outcome
    }
}

fn outcome(short: u32, task: Task) -> Outcome
    ensures { result ≡ outcome_of short task }
{
    if task.part == short {
        return Outcome::NoMemory;
    }
    Outcome::Ended(Act::AlreadyLive {
        stripe: task.stripe,
        row: task.row,
    })
}

// The tasks of the parts 0 to n - 1.
fn tasks(alloc: Global, n: u32) -> Result<Vec<Task>, NoMemory>
    ensures { IfOk result (λ v. HasDistinctParts v.items) }
{
    let mut tasks = Vec::new(alloc);
    for part in 0..n {
        tasks.push(Task {
            part,
            stripe: part / 3,
            row: (part % 16) as u8,
        })?;
    }
    Ok(tasks)
}

// The hands 0 to n - 1, which have done nothing.
fn hands<N: Named>(alloc: Global, n: u32) -> Result<Vec<Clerk<N>>, NoMemory>
    ensures count { IfOk result (λ v. vec_len v ≡ n) }
    ensures idle { IfOk result (λ v. All (λ h. h.done.items ≡ []) v.items) }
{
    let mut hands = Vec::new(alloc);
    for number in 0..n {
        hands.push(Clerk {
            number,
            done: Vec::new(alloc),
            of: PhantomData,
        })?;
    }
    Ok(hands)
}

// Does so many tasks by so many hands.
fn run<N: Named + Send + Sync, R: Threads + Wait + Sync>(
    rt: &R,
    alloc: Global,
    count: u32,
    workers: u32,
    short: u32,
) -> Result<Done<Clerk<N>>, NoMemory>
    requires { 1 ≤ workers }
{
    let office = Office::<N> {
        short,
        of: PhantomData,
    };
    let hands = hands::<N>(alloc, workers)?;
    match run_tasks(rt, alloc, tasks(alloc, count)?, hands, &office) {
        Ok(done) => Ok(done),
        Err((e, _)) => Err(e),
    }
}

// Whether each hand is in its place, and each of these parts was done once, with its outcome in its place.
fn all_done<N: Named>(
    done: &Done<Clerk<N>>,
    alloc: Global,
    tasks: &[Task],
    short: u32,
) -> Result<bool, NoMemory> {
    let mut times = Vec::from_elem(alloc, 0u8, tasks.len())?;
    let mut fine = done.outcomes.len() == tasks.len();
    for (place, hand) in done.hands.iter().enumerate() {
        fine &= hand.number as usize == place;
        for (task, told) in hand.done.iter() {
            fine &= *told == outcome(short, *task);
            if let Some(seen) = times.get_mut(task.part as usize) {
                *seen = seen.saturating_add(1);
            }
        }
    }
    for (task, told) in tasks.iter().zip(done.outcomes.iter()) {
        fine &= *told == outcome(short, *task);
    }
    Ok(fine && times.iter().all(|&seen| seen == 1))
}

const NONE_SHORT: u32 = 1000;

#[test]
fn no_task_gives_no_outcome(rt: HostRuntime) -> Result<(), Fail> {
    let done = run::<Anyone, _>(&rt, rt.alloc(), 0, 2, NONE_SHORT)?;
    assert!(&rt; done.outcomes.is_empty() && done.hands.len() == 2);
    assert!(&rt; done.hands[0].number == 0 && done.hands[1].number == 1);
    Ok(())
}

#[test]
fn one_hand_does_ten_tasks_in_their_order(rt: HostRuntime) -> Result<(), Fail> {
    let done = run::<Anyone, _>(&rt, rt.alloc(), 10, 1, NONE_SHORT)?;
    let tasks = tasks(rt.alloc(), 10)?;
    assert!(&rt; all_done(&done, rt.alloc(), tasks.as_slice(), NONE_SHORT)?);
    let hand = done.hands.first().ok_or("a hand")?;
    let parts = hand.done.iter().map(|d| d.0.part);
    assert!(&rt; parts.eq(0..10));
    Ok(())
}

#[test]
fn four_hands_do_a_hundred_tasks_once_each(rt: HostRuntime) -> Result<(), Fail> {
    let done = run::<Anyone, _>(&rt, rt.alloc(), 100, 4, NONE_SHORT)?;
    let tasks = tasks(rt.alloc(), 100)?;
    assert!(&rt; all_done(&done, rt.alloc(), tasks.as_slice(), NONE_SHORT)?);
    Ok(())
}

#[test]
fn a_task_that_runs_out_of_memory_stops_no_other(rt: HostRuntime) -> Result<(), Fail> {
    let done = run::<Anyone, _>(&rt, rt.alloc(), 20, 3, 7)?;
    let tasks = tasks(rt.alloc(), 20)?;
    assert!(&rt; all_done(&done, rt.alloc(), tasks.as_slice(), 7)?);
    assert!(&rt;
        done.outcomes
            .iter()
            .filter(|&&o| o == Outcome::NoMemory)
            .count()
            == 1
    );
    Ok(())
}
