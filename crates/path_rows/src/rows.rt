//! Tables of calls with what each is to answer, and of completions, made over any path.
use crate::Rig;
use std::alloc::Global;
use std::test::Fail;
use tcmu_path::Path;
use tcmu_types::{
    Answer, Bytes, Cdb, Command, Dispatch, Done, Enter, Handle, Name, NoMemory, Publish, Reset,
    Respond, Stat, Submit, Tmr,
};

/// Bytes by runs: a byte, and how often it stands, one run behind the other.
pub type Runs = &'static [(u8, u16)];

/// A command by its parts: the bytes sent are runs of a byte and how often it stands.
#[derive(Clone, Copy)]
pub struct Sent {
    /// The initiator's name: 1 to 16 characters.
    pub init: &'static str,
    /// The initiator's own number of the command (SAM-5).
    pub tag: u32,
    /// 6, 10, 12 or 16 bytes, by the group of the first (SPC-4, 4.2.5.1).
    pub cdb: &'static [u8],
    /// None where nothing is sent.
    pub runs: Runs,
    /// How many bytes are asked for; 0 where bytes are sent.
    pub in_len: u32,
}

/// A call of a device; handles and answers name a serial.
#[derive(Clone, Copy)]
pub enum Call {
    Submit(Sent),
    Dispatch,
    /// A serial, from 1.
    Handle(u64),
    /// A serial, from 1.
    Respond(u64),
    Publish,
    Clean,
    /// How many ticks pass.
    Tick(u32),
    Block,
    Unblock,
    Reset,
    /// A reset of level 2.
    HardReset,
    Restart,
    /// A note that aborts the command of one serial.
    Abort(u64),
    /// A note that aborts the commands of three serials, this one and the next two.
    AbortThree(u64),
    /// A note that resets the unit, and names no command.
    ResetUnit,
    Enter,
    Stat,
    /// The next event of a drain.
    Step,
    /// The events of a drain.
    Drain,
}

/// What a call answers.
#[derive(Clone, Copy, PartialEq, Eq)]
pub enum Told {
    Submit(Submit),
    /// The serial of a dispatched command.
    Job(u64),
    /// The kind of a note, how many commands it names, and the first and the last of them.
    Note(u8, usize, Option<u64>, Option<u64>),
    Nothing,
    Detached,
    /// A status, and how many bytes go back.
    Reply(u8, usize),
    /// The serial that was asked for.
    NotOut(u64),
    Respond(Respond),
    Publish(Publish),
    /// How many completions were logged, or commands were lost.
    Number(u64),
    /// False where a block or an unblock finds the device so already.
    Changed(bool),
    Reset(Reset),
    Tmr(Tmr),
    Enter(Enter),
    Stat(Stat),
    Drained,
}

/// A completion: its serial, initiator and tag, its status, its sense codes (zeros where there is none), and the bytes that come back.
#[derive(Clone, Copy)]
pub struct Finished {
    /// From 1, in the order in which the commands were accepted.
    pub serial: u64,
    /// The initiator's name: 1 to 16 characters.
    pub init: &'static str,
    /// The tag that the command was sent with.
    pub tag: u32,
    /// A status byte (SAM-5, 5.3).
    pub status: u8,
    /// The key, the additional sense code and its qualifier (SPC-4, 4.5).
    pub sense: (u8, u8, u8),
    pub payload: Runs,
}

/// The command of these parts, or a failure where the parts make none.
pub fn command(alloc: Global, parts: &Sent) -> Result<Command, Fail> {
    let init = Name::new(parts.init).ok_or("a name")?;
    let cdb = Cdb::new(parts.cdb)
        .ok()
        .ok_or("a command descriptor block")?;
    let mut sent = Bytes::new(alloc);
    for &(byte, count) in parts.runs {
        sent.reserve(count as u64)?;
        sent.fill(byte, count as usize);
    }
    Ok(Command::new(init, parts.tag, cdb, sent, parts.in_len).ok_or("a command")?)
}

/// What a dispatch answers.
fn dispatched(answer: Dispatch) -> Told {
    match answer {
        Dispatch::Job(serial) => Told::Job(serial),
        Dispatch::Note { kind, serials } => {
            let named = serials.as_slice();
            let first = named.first().copied();
            Told::Note(kind, named.len(), first, named.last().copied())
        }
        Dispatch::Nothing => Told::Nothing,
        Dispatch::Detached => Told::Detached,
    }
}

/// What a handler's call answers.
fn handled(answer: Handle) -> Told {
    match answer {
        Handle::Done(reply) => Told::Reply(reply.status.0, reply.payload.len()),
        Handle::NotOut(serial) => Told::NotOut(serial),
    }
}

/// What any event answers.
fn told_of(answer: Answer) -> Told {
    match answer {
        Answer::Submit(answer) => Told::Submit(answer),
        Answer::Dispatch(answer) => dispatched(answer),
        Answer::Handle(answer) => handled(answer),
        Answer::Respond(answer) => Told::Respond(answer),
        Answer::Publish(answer) => Told::Publish(answer),
        Answer::Logged(number) | Answer::Lost(number) => Told::Number(number),
        Answer::Changed(changed) => Told::Changed(changed),
        Answer::Reset(answer) => Told::Reset(answer),
        Answer::Tmr(answer) => Told::Tmr(answer),
        Answer::Stat(answer) => Told::Stat(answer),
        Answer::Enter(answer) => Told::Enter(answer),
    }
}

/// Makes the next event of a drain; `Drained` where there is none.
fn step<P: Path + Drop>(rig: &mut Rig<P>, alloc: Global) -> Result<Told, NoMemory> {
    Ok(match rig.step(alloc)? {
        Some(answer) => told_of(answer),
        None => Told::Drained,
    })
}

/// Makes a call that takes memory; none where the call takes none.
fn call_with_memory<P: Path + Drop>(
    rig: &mut Rig<P>,
    alloc: Global,
    call: &Call,
) -> Result<Option<Told>, Fail> {
    Ok(Some(match *call {
        Call::Submit(parts) => Told::Submit(rig.submit(alloc, &command(alloc, &parts)?)?),
        Call::Dispatch => dispatched(rig.dispatch(alloc)?),
        Call::Handle(serial) => handled(rig.handle(alloc, serial)?),
        Call::Abort(serial) => Told::Tmr(rig.abort(alloc, serial)?),
        Call::AbortThree(first) => Told::Tmr(rig.abort_three(alloc, first)?),
        Call::ResetUnit => Told::Tmr(rig.reset_unit(alloc)?),
        Call::Enter => Told::Enter(rig.enter(alloc)?),
        Call::Step => step(rig, alloc)?,
        Call::Drain => {
            rig.drain(alloc)?;
            Told::Drained
        }
        _ => return Ok(None),
    }))
}

/// Makes a call that takes no memory; none where the call takes some.
fn call_without_memory<P: Path + Drop>(rig: &mut Rig<P>, call: &Call) -> Option<Told> {
    Some(match *call {
        Call::Respond(serial) => Told::Respond(rig.respond(serial)),
        Call::Publish => Told::Publish(rig.publish()),
        Call::Clean => Told::Number(rig.clean()),
        Call::Tick(n) => Told::Number(rig.tick(n)),
        Call::Block => Told::Changed(rig.block()),
        Call::Unblock => Told::Changed(rig.unblock()),
        Call::Reset => Told::Reset(rig.reset(1)),
        Call::HardReset => Told::Reset(rig.reset(2)),
        Call::Restart => Told::Number(rig.restart()),
        Call::Stat => Told::Stat(rig.stat()),
        _ => return None,
    })
}

/// What the call answers, or a failure where memory is wanting.
pub fn answered<P: Path + Drop>(
    rig: &mut Rig<P>,
    alloc: Global,
    call: &Call,
) -> Result<Told, Fail> {
    if let Some(answer) = call_with_memory(rig, alloc, call)? {
        return Ok(answer);
    }
    Ok(call_without_memory(rig, call).ok_or("a call")?)
}

/// Makes the calls of a table, and gives the number of the first that does not answer as its row says.
pub fn first_wrong<P: Path + Drop>(
    rig: &mut Rig<P>,
    alloc: Global,
    rows: &[(Call, Told)],
) -> Result<Option<usize>, Fail> {
    for (at, (call, wanted)) in rows.iter().enumerate() {
        if answered(rig, alloc, call)? != *wanted {
            return Ok(Some(at));
        }
    }
    Ok(None)
}

/// Whether the bytes are those of the runs.
fn are_runs(bytes: &[u8], runs: Runs) -> bool {
    let mut rest = bytes;
    for &(byte, count) in runs {
        let Some((run, behind)) = rest.split_at_checked(count as usize) else {
            return false;
        };
        if !run.iter().all(|item| *item == byte) {
            return false;
        }
        rest = behind;
    }
    rest.is_empty()
}

/// Whether a completion is as wanted.
fn is_finished(done: &Done, wanted: &Finished) -> bool {
    let sense = match done.sense {
        Some(sense) => (sense.key, sense.asc, sense.ascq),
        None => (0, 0, 0),
    };
    let names = done.serial == wanted.serial && done.tag == wanted.tag;
    let codes = done.status.0 == wanted.status && sense == wanted.sense;
    let owner = done.init.as_bytes() == wanted.init.as_bytes();
    let payload = are_runs(done.payload.as_slice(), wanted.payload);
    names && codes && owner && payload
}

/// Whether the log has these completions and no others.
pub fn is_log<P: Path + Drop>(rig: &Rig<P>, wanted: &[Finished]) -> bool {
    let log = rig.log();
    log.len() == wanted.len()
        && log
            .iter()
            .zip(wanted)
            .all(|(done, wanted)| is_finished(done, wanted))
}

/// Makes the calls of a table: the number of the first that does not answer as its row says, and whether what is logged is as wanted.
pub fn run<P: Path + Drop>(
    mut rig: Rig<P>,
    alloc: Global,
    rows: &[(Call, Told)],
    log: &[Finished],
) -> Result<(Option<usize>, bool), Fail> {
    let wrong = first_wrong(&mut rig, alloc, rows)?;
    Ok((wrong, is_log(&rig, log)))
}
