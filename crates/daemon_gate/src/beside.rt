//! Loops that run beside each other, each in a thread of its own where one can be made.
ghost use Rattle.std.specs.Prelude.{◌≡◌, ◌+◌, ◌-◌, ◌≤◌, [], ◌∷◌, ◌++◌, length, All, vec_len, vec_capacity, IfOk, IfErr};

use std::alloc::Global;
use std::marker::Model;
use std::snapshot::Snapshot;
use std::sync::Wait;
use std::thread;
use std::thread::{Promise, PromisedHandle, Scope, Threads};
use tcmu_types::NoMemory;

/// One loop: what it begins with, and what it gives back when it ends. All loops of a run share what they are about.
pub trait Lane: Drop {
    /// What the loops share, as the turn of their device.
    type About;

    /// What a loop gives back, as its pass.
    type Done: Drop;

    // What is true of a loop before it runs.
    ghost ready: { Self.About → Self → Type 0 };

    // What is true of what it gives back.
    ghost done: { Self.About → Self.Done → Type 0 };

    /// Runs the loop to its end.
    fn run<R: Wait>(self, rt: &R, about: &Self::About) -> Self::Done
        requires { ready about.now self }
        ensures { done about.now result };
}

/// The promise of a thread: what its loop gives back is as the loop says.
struct DoneOf<L: Lane> {
    about: Snapshot<L::About>,
}

impl<L: Lane> Drop for DoneOf<L> {
    fn drop(self) {
        let Self { about: _ } = self;
    }
}

impl<L: Lane> Promise<L::Done> for DoneOf<L> {
    ghost kept_by = { λ p r. L.done p.about.value r };
}

/// Loops that are to run beside each other, with all the room that their run needs. Contracts see the loops, and for how many more
/// there is room.
#[derive(Drop)]
pub struct Lanes<L: Lane> {
    lanes: Vec<L>,
    running: Vec<PromisedHandle<L::Done, DoneOf<L>>>,
    dones: Vec<L::Done>,
}

impl<L: Lane> Model for Lanes<L> {
    ghost use Rattle.std.specs.Prelude.{◌≡◌, ◌-◌, ◌≤◌, vec_len, vec_capacity};
    ghost use Rattle.tcmu_types.specs.Data.{Spared};

    ghost Value = { Spared L };

    ghost view = { λ a. record { items = a.lanes.items; spare = vec_capacity a.lanes - vec_len a.lanes } };

    ghost invariant = { λ a.
        (vec_len a.running ≡ 0) × (vec_capacity a.lanes ≤ vec_capacity a.running)
        × (vec_len a.dones ≡ 0) × (vec_capacity a.lanes ≤ vec_capacity a.dones) };
}

impl<L: Lane> Lanes<L> {
    /// No loop yet, and room for so many.
    pub fn with_room(alloc: Global, loops: usize) -> Result<Lanes<L>, NoMemory>
        ensures { IfOk result (λ l. l ≡ record { items = []; spare = loops }) }
    {
        Ok(Lanes {
            lanes: Vec::with_capacity(alloc, loops)?,
            running: Vec::with_capacity(alloc, loops)?,
            dones: Vec::with_capacity(alloc, loops)?,
        })
    }

    /// Adds a loop in the room that is there.
    pub fn push(&mut self, lane: L)
        requires { 1 ≤ self.old.spare }
        ensures { self.new ≡ record { items = self.old.items ++ lane ∷ []; spare = self.old.spare - 1 } }
    {
        self.lanes.push_reserved(lane);
    }
}

/// Runs all loops and, when the last has ended, answers what they gave back: as many results as there were loops, each as `done` says,
/// in no order. A loop that gets no thread is run here, so no loop is lost. In which order they start has no clause: the code starts them
/// in their order, and runs one that gets no thread before it starts the next.
pub fn run_all<L: Lane + Send, R: Threads + Wait + Sync>(
    rt: &R,
    about: &L::About,
    lanes: Lanes<L>,
) -> Vec<L::Done>
where
    L::About: Sync,
    L::Done: Send,
    requires { All (L.ready about.now) lanes.items }
    ensures len { vec_len result ≡ length lanes.items }
    ensures each { All (L.done about.now) result.items }
{
    let Lanes {
        lanes,
        running,
        dones,
    } = lanes;
    run_in(rt, about, lanes, running, dones)
}

/// Runs all loops, where there is room for their threads and for what they give back.
fn run_in<L: Lane + Send, R: Threads + Wait + Sync>(
    rt: &R,
    about: &L::About,
    lanes: Vec<L>,
    running: Vec<PromisedHandle<L::Done, DoneOf<L>>>,
    dones: Vec<L::Done>,
) -> Vec<L::Done>
where
    L::About: Sync,
    L::Done: Send,
    requires ready { All (L.ready about.now) lanes.items }
    requires running { (vec_len running ≡ 0) × (vec_len lanes ≤ vec_capacity running) }
    requires dones { (vec_len dones ≡ 0) × (vec_len lanes ≤ vec_capacity dones) }
    ensures len { vec_len result ≡ vec_len lanes }
    ensures each { All (L.done about.now) result.items }
{
    thread::scope(
        thread::scope_env(),
        rt,
        move |scope| -> Vec<L::Done>
            requires { All (L.ready about.now) lanes.items
                × (vec_len running ≡ 0) × (vec_len lanes ≤ vec_capacity running)
                × (vec_len dones ≡ 0) × (vec_len lanes ≤ vec_capacity dones) }
            ensures { (vec_len result ≡ vec_len lanes) × All (L.done about.entry.now) result.items }
        {
            let (running, dones) = start_all(rt, scope, about, lanes, running, dones);
            join_all(rt, about, running, dones)
        },
    )
}

/// Starts each loop, or runs it here.
fn start_all<'s, E: 's, L: Lane + Send + 's, R: Threads + Wait + Sync>(
    rt: &'s R,
    scope: &'s Scope<'s, E>,
    about: &'s L::About,
    lanes: Vec<L>,
    mut running: Vec<PromisedHandle<L::Done, DoneOf<L>>>,
    mut dones: Vec<L::Done>,
) -> (Vec<PromisedHandle<L::Done, DoneOf<L>>>, Vec<L::Done>)
where
    L::About: Sync,
    L::Done: Send,
    requires ready { All (L.ready about.now) lanes.items }
    requires running { (vec_len running ≡ 0) × (vec_len lanes ≤ vec_capacity running) }
    requires dones { (vec_len dones ≡ 0) × (vec_len lanes ≤ vec_capacity dones) }
    ensures len { vec_len result.0 + vec_len result.1 ≡ vec_len lanes }
    ensures running { All (λ h. h.promise.about.value ≡ about.now) result.0.items }
    ensures dones { All (L.done about.now) result.1.items }
    ensures room { vec_len lanes ≤ vec_capacity result.1 }
{
    for lane in lanes {
        match start(rt, scope, about, lane) {
            Ok(child) => running.push_reserved(child),
            Err(done) => dones.push_reserved(done),
        }
    }
    (running, dones)
}

/// Starts a loop in a thread of its own. Where none can be made it runs the loop here, and answers what that gave back.
fn start<'s, E: 's, L: Lane + Send + 's, R: Threads + Wait + Sync>(
    rt: &'s R,
    scope: &'s Scope<'s, E>,
    about: &'s L::About,
    lane: L,
) -> Result<PromisedHandle<L::Done, DoneOf<L>>, L::Done>
where
    L::About: Sync,
    L::Done: Send,
    requires { L.ready about.now lane }
    ensures started { IfOk result (λ h. h.promise.about.value ≡ about.now) }
    ensures ran { IfErr result (λ done. L.done about.now done) }
{
    let promise = DoneOf {
        about: Snapshot::of(about),
    };
    match scope.spawn_with(promise, move || lane.run(rt, about)) {
        Ok(child) => Ok(child),
        Err(refused) => Err((refused.value)()),
    }
}

/// Waits for each thread, and adds what its loop gave back.
fn join_all<L: Lane, R: Threads>(
    rt: &R,
    about: &L::About,
    running: Vec<PromisedHandle<L::Done, DoneOf<L>>>,
    mut dones: Vec<L::Done>,
) -> Vec<L::Done>
    requires room { vec_len running + vec_len dones ≤ vec_capacity dones }
    requires running { All (λ h. h.promise.about.value ≡ about.now) running.items }
    requires dones { All (L.done about.now) dones.items }
    ensures len { vec_len result ≡ vec_len running + vec_len dones }
    ensures each { All (L.done about.now) result.items }
{
    for child in running {
        dones.push_reserved(child.join(rt));
    }
    dones
}
