//! Lanes whose jobs are tickets.

ghost use Rattle.std.specs.Prelude.{◌≡◌};

use cj_model::NoMemory;
use cj_queue::{Lane, Numbered, SharedLane};
use std::process::Abort;
use std::sync::Wait;
use std::test::Fail;
use std::thread;

/// How many tickets the worker is handed.
const TICKETS: u64 = 1000;

/// A ticket of this number.
fn ticket(number: u64) -> Numbered<()>
    ensures { result.number ≡ number }
{
    Numbered { number, item: () }
}

/// The number of the next ticket of a lane, 0 if it has none.
fn next_of<R: Wait>(rt: &R, lane: &SharedLane<()>) -> u64 {
    match lane.take(rt) {
        Some(ticket) => ticket.number,
        None => 0,
    }
}

/// Whether the ticket of this number was posted.
fn is_posted<R: Wait>(rt: &R, lane: &SharedLane<()>, number: u64) -> bool {
    lane.post(rt, ticket(number)).is_ok()
}

#[test]
fn a_full_lane_hands_back_and_gives_the_rest_in_order(rt: HostRuntime) -> Result<(), Fail> {
    let (lane, mut poster, mut taker) = Lane::new(rt.alloc(), 2)?;
    assert!(rt; lane.post(&rt, &mut poster, ticket(1)) == Ok(()));
    assert!(rt; poster.last() == 1 && lane.post(&rt, &mut poster, ticket(2)) == Ok(()));
    assert!(rt; poster.last() == 2 && lane.post(&rt, &mut poster, ticket(3)) == Err(ticket(3)));
    assert!(rt; lane.take(&rt, &mut taker) == Some(ticket(1)));
    assert!(rt; poster.last() == 2 && lane.post(&rt, &mut poster, ticket(3)) == Ok(()));
    assert!(rt; lane.take(&rt, &mut taker) == Some(ticket(2)));
    assert!(rt; lane.take(&rt, &mut taker) == Some(ticket(3)));
    assert!(rt; lane.take(&rt, &mut taker) == None);
    assert!(rt; lane.close(&rt, poster, taker) == 0);
    Ok(())
}

#[test]
fn a_shared_lane_takes_a_number_once(rt: HostRuntime) -> Result<(), Fail> {
    let lane = SharedLane::new(rt.alloc(), 2)?;
    assert!(rt; is_posted(&rt, &lane, 1) && is_posted(&rt, &lane, 2));
    assert!(rt; !is_posted(&rt, &lane, 3), "the lane is full");
    assert!(rt; next_of(&rt, &lane) == 1);
    assert!(rt; !is_posted(&rt, &lane, 2), "a number comes once");
    assert!(rt; is_posted(&rt, &lane, 3));
    for number in [2, 3, 0] {
        assert!(rt; next_of(&rt, &lane) == number);
    }
    lane.stop();
    assert!(rt; lane.next(&rt) == None, "nothing is left");
    Ok(())
}

/// Posts all tickets, each as soon as there is room, and stops the lane.
fn post_all<R: Wait>(rt: &R, lane: &SharedLane<()>) {
    for number in 1..=TICKETS {
        for _ in rt.forever() {
            if is_posted(rt, lane, number) {
                break;
            }
            thread::yield_now();
        }
    }
    lane.stop();
}

/// Takes tickets until the lane is stopped. Returns the sum of their numbers.
fn take_all<R: Wait>(rt: &R, lane: &SharedLane<()>) -> u64 {
    let mut sum = 0u64;
    for _ in rt.forever() {
        match lane.next(rt) {
            Some(ticket) => sum = sum.saturating_add(ticket.number),
            None => break,
        }
    }
    sum
}

#[test]
fn a_worker_gets_each_ticket_and_ends(rt: HostRuntime) -> Result<(), Fail> {
    let lane = SharedLane::new(rt.alloc(), 2)?;
    let (sum, ()) = thread::join(&rt, || take_all(&rt, &lane), || post_all(&rt, &lane));
    assert!(rt; sum == TICKETS * (TICKETS + 1) / 2);
    Ok(())
}
