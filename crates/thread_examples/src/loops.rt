//! Two threads over one list of numbers, each with a pass of its turn. What they were told is compared with the list at the end.
ghost use Rattle.std.specs.Prelude.{◌≡◌, ◌+◌, ◌<◌, ◌≤◌, [], ◌∷◌, length, All, vec_len, MatchBool};

use daemon_gate::{Lane, Lanes, run_all};
use std::alloc::Global;
use std::sync::Wait;
use std::test::Fail;
use std::thread::Threads;
use tcmu_types::NoMemory;
use turn_lock::{Pass, Stepped, Turn};

/// The numbers that were taken, none of them above the limit.
#[derive(Drop)]
struct Numbers {
    limit: u64,
    taken: Vec<u64>,
}

impl Stepped for Numbers {
    type Ask = u64;

    type Told = bool;

    type Script = u64;

    type Entry = u64;

    ghost script = { λ n. n.limit };

    ghost history = { λ n. n.taken.items };

    ghost makes_entry = { λ told. told };

    // a number up to the limit is taken, and another is not
    ghost fits = { λ limit _ ask told added.
        MatchBool told ((ask ≤ limit) × (added ≡ ask ∷ [])) ((limit < ask) × (added ≡ [])) };

    fn length(&self) -> u64 {
        self.taken.len() as u64
    }

    fn ask(&mut self, ask: &u64) -> Result<bool, NoMemory> {
        if *ask > self.limit {
            return Ok(false);
        }
        self.taken.push(*ask)?;
        Ok(true)
    }
}

/// A loop that asks these numbers in their order. Nothing is taken yet.
#[derive(Drop)]
struct Asks {
    pass: Pass<Numbers>,
    asks: Vec<u64>,
    taken: Vec<(u64, u64)>,
}

/// Its pass, and what was taken: how long the list was then, and the number.
#[derive(Drop)]
struct Taken {
    pass: Pass<Numbers>,
    taken: Vec<(u64, u64)>,
}

impl Lane for Asks {
    type About = Turn<Numbers>;

    type Done = Taken;

    ghost ready = { λ turn l. (l.pass.turn ≡ turn.turn) × (l.pass.parts ≡ 1) };

    ghost done = { λ turn r. (r.pass.turn ≡ turn.turn) × (r.pass.parts ≡ 1) };

    fn run<R: Wait>(self, rt: &R, turn: &Turn<Numbers>) -> Taken {
        let Asks { pass, asks, taken } = self;
        ask_all(rt, turn, pass, asks, taken)
    }
}

fn ask_all<R: Wait>(
    rt: &R,
    turn: &Turn<Numbers>,
    mut pass: Pass<Numbers>,
    asks: Vec<u64>,
    mut taken: Vec<(u64, u64)>,
) -> Taken
    requires { pass.turn ≡ turn.now.turn }
    ensures { (result.pass.turn ≡ pass.turn) × (result.pass.parts ≡ pass.parts) }
{
    for ask in asks {
        let (told, length) = turn.ask(rt, &mut pass, &ask);
        if told == Ok(true) {
            let _ = taken.push((length, ask));
        }
    }
    Taken { pass, taken }
}

fn run_both<R: Threads + Wait + Sync>(
    rt: &R,
    turn: &Turn<Numbers>,
    loops: Lanes<Asks>,
) -> Vec<Taken>
    requires { All (λ l. (l.pass.turn ≡ turn.now.turn) × (l.pass.parts ≡ 1)) loops.items }
    ensures len { vec_len result ≡ length loops.items }
    ensures each { All (λ r. (r.pass.turn ≡ turn.now.turn) × (r.pass.parts ≡ 1)) result.items }
{
    run_all(rt, turn, loops)
}

fn join_both(
    alloc: Global,
    turn: &Turn<Numbers>,
    mut pass: Pass<Numbers>,
    backs: Vec<Taken>,
) -> (Pass<Numbers>, Vec<(u64, u64)>)
    requires own { pass.turn ≡ turn.now.turn }
    requires backs { All (λ r. (r.pass.turn ≡ turn.now.turn) × (r.pass.parts ≡ 1)) backs.items }
    ensures own { result.0.turn ≡ turn.now.turn }
    ensures parts { result.0.parts ≡ pass.parts + vec_len backs }
{
    let mut all = Vec::new(alloc);
    for back in backs {
        let Taken { pass: one, taken } = back;
        turn.join(&mut pass, one);
        add_all(&mut all, taken);
    }
    (pass, all)
}

fn add_all(all: &mut Vec<(u64, u64)>, more: Vec<(u64, u64)>) {
    for entry in more {
        let _ = all.push(entry);
    }
}

#[test]
fn two_threads_receive_every_entry_once(rt: HostRuntime) -> Result<(), Fail> {
    let numbers = Numbers {
        limit: 9,
        taken: Vec::new(rt.alloc()),
    };
    let mut loops = Lanes::with_room(rt.alloc(), 2)?;
    let Ok((turn, mut pass)) = Turn::start_or_give_back(rt.alloc(), numbers, 3) else {
        panic!(rt; "no memory")
    };
    let one = Asks {
        pass: turn.split(&mut pass),
        asks: vec![in rt.alloc(); 1, 2, 30, 4]?,
        taken: Vec::new(rt.alloc()),
    };
    let other = Asks {
        pass: turn.split(&mut pass),
        asks: vec![in rt.alloc(); 5, 60, 7]?,
        taken: Vec::new(rt.alloc()),
    };
    loops.push(one);
    loops.push(other);
    let backs = run_both(&rt, &turn, loops);
    let (pass, mut received) = join_both(rt.alloc(), &turn, pass, backs);
    let mut numbers = turn.close(pass);
    received.sort()?;
    // their lengths are 1, 2, .., and each number stands in the list where they say
    assert_eq!(rt; received.len(), numbers.taken.len());
    for (place, (length, ask)) in received.iter().enumerate() {
        assert_eq!(rt; *length, place as u64 + 1);
        assert_eq!(rt; numbers.taken.get(place), Some(ask));
    }
    numbers.taken.sort()?;
    assert_eq!(rt; numbers.taken.as_slice(), [1, 2, 4, 5, 7].as_slice());
    Ok(())
}
