//! Jobs that are answered in their order and in another, given up, and given again.
ghost use Rattle.ring_laws.specs.UserKept.{HasPages, HasRing};

use crate::fixture::{Seen, byte_at, good, next_job, region_with, see_next, set_word};
use shm_region::Region;
use std::alloc::Global;
use std::test::Fail;
use tcmu_types::{Publish, Respond};
use user_lib::{User, UserNumbers};

/// Two commands' entries of the ids 7 and 8, of which the second names the first block, and behind them a note that names both jobs, in a
/// region whose mailbox has the flag of notes alone: words at bytes of the region.
const TWO_AND_A_NOTE: [(u32, u32); 17] = [
    (0, 0x4_0002),
    (12, 296),
    (128, 0x81),
    (132, 7),
    (152, 240),
    (240, 0x28),
    (256, 0x81),
    (260, 8),
    (264, 1),
    (280, 368),
    (304, 8192),
    (312, 512),
    (368, 0x28),
    (384, 0x2a),
    (392, 5),
    (396, 2),
    (416, 0x8_0007),
];

/// Takes two jobs and answers the second before the first. Tells both answers, and between them what a next sees and how many jobs are
/// parked.
fn answer_backwards(
    alloc: Global,
    region: &mut Region,
    user: &mut User,
) -> Option<(Respond, Seen, u64, Respond)>
    requires ring { HasRing region.old user.old }
    requires pages { HasPages region.old user.old }
    ensures ring { HasRing region.new user.new }
    ensures pages { HasPages region.new user.new }
{
    let first = next_job(alloc, region, user)?;
    let second = next_job(alloc, region, user)?;
    if first.id == second.id {
        return None;
    }
    let early = user.respond(region, second, good(alloc));
    let seen = see_next(alloc, region, user);
    let count = user.numbers().parked;
    let late = user.respond(region, first, good(alloc));
    Some((early, seen, count, late))
}

#[test]
fn an_answer_waits_for_that_of_an_older_job(rt: HostRuntime) -> Result<(), Fail> {
    let mut region = region_with(rt.alloc(), 1, &TWO_AND_A_NOTE)?;
    let mut user = User::attach(rt.alloc(), &region)?;
    let told = answer_backwards(rt.alloc(), &mut region, &mut user);
    // the note names just the job that is not parked
    assert_eq!(rt;
        told,
        Some((Respond::Parked, Seen::Note(5, 1), 1, Respond::Placed))
    );
    let moved = user.publish(&mut region);
    assert_eq!(rt;
        moved,
        Publish::Moved {
            items: 3,
            commands: 2
        }
    );
    assert_eq!(rt; region.tail(), 296);
    // the answers stand in the order in which the jobs were given
    assert_eq!(rt;
        (byte_at(&region, 132), byte_at(&region, 260)),
        (Some(7), Some(8))
    );
    user.detach(&mut region);
    Ok(())
}

#[test]
fn an_answer_out_of_order_takes_the_first_entry(rt: HostRuntime) -> Result<(), Fail> {
    let mut region = region_with(rt.alloc(), 1, &TWO_AND_A_NOTE)?;
    set_word(&mut region, 0, 0x5_0002);
    let mut user = User::attach(rt.alloc(), &region)?;
    let told = answer_backwards(rt.alloc(), &mut region, &mut user);
    assert_eq!(rt;
        told,
        Some((Respond::Placed, Seen::Note(5, 1), 0, Respond::Placed))
    );
    assert_eq!(rt;
        (byte_at(&region, 132), byte_at(&region, 260)),
        (Some(8), Some(7))
    );
    user.detach(&mut region);
    Ok(())
}

/// Takes two jobs and answers the second; the first gets no answer.
fn answer_second(alloc: Global, region: &mut Region, user: &mut User) -> Option<Respond>
    requires ring { HasRing region.old user.old }
    requires pages { HasPages region.old user.old }
    ensures ring { HasRing region.new user.new }
    ensures pages { HasPages region.new user.new }
{
    let _ = next_job(alloc, region, user)?;
    let second = next_job(alloc, region, user)?;
    Some(user.respond(region, second, good(alloc)))
}

#[test]
fn a_parked_job_is_given_up_and_comes_again(rt: HostRuntime) -> Result<(), Fail> {
    let mut region = region_with(rt.alloc(), 1, &TWO_AND_A_NOTE)?;
    let mut user = User::attach(rt.alloc(), &region)?;
    let told = answer_second(rt.alloc(), &mut region, &mut user);
    assert_eq!(rt; told, Some(Respond::Parked));
    assert_eq!(rt;
        (
            user.parked(7).is_some(),
            user.parked(8).is_some(),
            region.area(0).is_some()
        ),
        (false, true, false)
    );
    user.abandon(&mut region);
    // its block is back, and no job is answered any more
    assert_eq!(rt;
        (user.parked(8).is_some(), region.area(0).is_some()),
        (false, true)
    );
    let numbers = user.numbers();
    assert_eq!(rt;
        (numbers.place, numbers.dispatched, numbers.parked),
        (256, 2, 0)
    );
    assert_eq!(rt; user.reattach(&mut region), Ok(()));
    let fresh = UserNumbers {
        place: 0,
        dispatched: 0,
        placed: 0,
        published: 0,
        parked: 0,
        moves: false,
    };
    assert_eq!(rt; user.numbers(), fresh);
    assert_eq!(rt;
        see_next(rt.alloc(), &mut region, &mut user),
        Seen::Moved(7, 0, 0)
    );
    user.detach(&mut region);
    Ok(())
}
