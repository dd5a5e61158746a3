//! Trials with gates that hold clients, gates that count, and gates that hear lines.

use crate::faults::TrialFault;
use crate::served_clients::serve;
use std::sync::atomic::{AtomicBool, AtomicU64, AtomicUsize, Ordering};
use std::sync::{Mutex, Wait};
use std::thread;
use std::thread::Threads;
use std::time::{Clock, Duration};
use zt_shared::Gate;

/// How often a gate looks for what it waits for before it gives up.
const TURNS: u32 = 5_000;

/// How many milliseconds a gate sleeps after each look.
const PAUSE: u64 = 1;

/// The lines of a client: two calls.
fn calls() -> &'static [u8] {
    b"1025 event_create\n1025 event_create\n"
}

/// The lines of a client: four commands, the second of which is refused, and lines that are no commands.
fn lines() -> &'static [u8] {
    b"1025 event_create\n# a comment\n\nbad\npinned show\ngoto 9\ngoto 0\npin\npinned show\n"
}

/// The text that a gate hears of `lines`: each line with its answer behind it. A skipped line has no answer.
fn lines_answered() -> &'static [u8] {
    b"1025 event_create\n1 ok 7\n# a comment\n\nbad\nrefused 10 BadLine 1\npinned show\nrefused 4 NoMoment\ngoto 9\nrefused 4 NoMoment\ngoto 0\nat 0\npin\npinned 0\npinned show\nrows 0 4\ncounters 1026 0\nobject 1024 job 0x00000010 0 live 0\nobject 1025 process 0x00000000 1024 live 1\nentry 1025 3 1024 0x0003d203\n"
}

/// A gate that does nothing.
pub struct NoGate;

impl Gate for NoGate {
    fn before(&self, _client: u8, _n: u32) {}

    fn after(&self, _client: u8, _n: u32) {}
}

/// A flag that one thread raises and others wait for.
#[derive(Drop)]
pub struct Flag(AtomicBool);

impl Flag {
    pub fn new() -> Flag {
        Flag(AtomicBool::new(false))
    }

    pub fn raise(&self) {
        self.0.store(true, Ordering::SeqCst);
    }

    pub fn stands(&self) -> bool {
        self.0.load(Ordering::SeqCst)
    }

    /// Whether the flag stands at one of `TURNS` looks.
    pub fn stands_in_time(&self, clock: &impl Clock) -> bool {
        for _ in 0..TURNS {
            if self.stands() {
                return true;
            }
            thread::sleep(clock, Duration::from_millis(PAUSE));
        }
        false
    }
}

/// Holds the first command of client 1 until the first command of client 2 is answered.
#[derive(Drop)]
struct SecondFirst<'a, C> {
    clock: &'a C,
    answered: Flag,
    in_vain: Flag,
}

impl<C: Clock> Gate for SecondFirst<'_, C> {
    fn before(&self, client: u8, n: u32) {
        if client == 1 && n == 1 && !self.answered.stands_in_time(self.clock) {
            self.in_vain.raise();
        }
    }

    fn after(&self, client: u8, n: u32) {
        if client == 2 && n == 1 {
            self.answered.raise();
        }
    }
}

/// Holds the first command of each client until the first commands of all others have come too. A client that waits in vain
/// goes on, and lets the others go on.
#[derive(Drop)]
struct Meeting<'a, C> {
    clock: &'a C,
    /// How many clients have not come yet.
    missing: AtomicUsize,
    /// Stands once all clients have come, or one has waited in vain.
    open: Flag,
    in_vain: Flag,
}

impl<C: Clock> Gate for Meeting<'_, C> {
    fn before(&self, _client: u8, n: u32) {
        if n != 1 {
            return;
        }
        if self.missing.fetch_sub(1, Ordering::SeqCst) == 1 {
            self.open.raise();
        }
        if !self.open.stands_in_time(self.clock) {
            self.in_vain.raise();
            self.open.raise();
        }
    }

    fn after(&self, _client: u8, _n: u32) {}
}

/// How often a gate was called, and the sum of the commands' numbers.
#[derive(Drop)]
struct Tally {
    calls: AtomicU64,
    numbers: AtomicU64,
}

impl Tally {
    fn new() -> Tally {
        Tally {
            calls: AtomicU64::new(0),
            numbers: AtomicU64::new(0),
        }
    }

    fn add(&self, n: u32) {
        self.calls.fetch_add(1, Ordering::SeqCst);
        self.numbers.fetch_add(u64::from(n), Ordering::SeqCst);
    }

    fn is(&self, calls: u64, numbers: u64) -> bool {
        self.calls.load(Ordering::SeqCst) == calls && self.numbers.load(Ordering::SeqCst) == numbers
    }
}

/// A gate that counts its calls.
#[derive(Drop)]
struct Counting {
    before: Tally,
    after: Tally,
}

impl Gate for Counting {
    fn before(&self, _client: u8, n: u32) {
        self.before.add(n);
    }

    fn after(&self, _client: u8, n: u32) {
        self.after.add(n);
    }
}

/// A gate that keeps what it hears of client 1: each line and its answer.
#[derive(Drop)]
struct Hearing<'a, R> {
    rt: &'a R,
    heard: Mutex<Vec<u8>>,
}

impl<R: Wait> Gate for Hearing<'_, R> {
    fn before(&self, _client: u8, _n: u32) {}

    fn after(&self, _client: u8, _n: u32) {}

    fn heard(&self, client: u8, line: &[u8], text: &[u8]) {
        if client == 1 {
            let mut heard = self.heard.lock(self.rt);
            // If an allocation fails, what was heard is not what the trial wants.
            let _ = heard.extend_from_slice(line);
            let _ = heard.push(b'\n');
            let _ = heard.extend_from_slice(text);
        }
    }
}

/// Serves two clients. The first is held until the second has its first answer. Returns how many rows the log has.
pub fn second_before_first<R: Threads + Wait + AllocGlobal + Clock + Sync>(
    rt: &R,
) -> Result<usize, TrialFault> {
    let gate = SecondFirst {
        clock: rt,
        answered: Flag::new(),
        in_vain: Flag::new(),
    };
    let rows = rows_of_all(rt, [calls(), calls()].as_slice(), &gate)?;
    in_time(rows, &gate.in_vain)
}

/// Serves this many clients. Each is held until all others have come. Returns how many rows the log has.
pub fn each_for_the_others<R: Threads + Wait + AllocGlobal + Clock + Sync>(
    rt: &R,
    clients: usize,
) -> Result<usize, TrialFault> {
    let gate = Meeting {
        clock: rt,
        missing: AtomicUsize::new(clients),
        open: Flag::new(),
        in_vain: Flag::new(),
    };
    let texts = vec![in rt.alloc(); calls(); clients]?;
    let rows = rows_of_all(rt, texts.as_slice(), &gate)?;
    in_time(rows, &gate.in_vain)
}

/// The number of rows, unless a client was held in vain.
fn in_time(rows: usize, in_vain: &Flag) -> Result<usize, TrialFault> {
    if in_vain.stands() {
        Err(TrialFault::HeldInVain)
    } else {
        Ok(rows)
    }
}

/// Serves one client. Its gate is called around its four commands, and around no other line. Their numbers are 1, 2, 2 and
/// 3, since a refused command takes none.
pub fn around_commands<R: Threads + Wait + AllocGlobal + Sync>(
    rt: &R,
) -> Result<usize, TrialFault> {
    let gate = Counting {
        before: Tally::new(),
        after: Tally::new(),
    };
    let rows = rows_of_all(rt, [lines()].as_slice(), &gate)?;
    if gate.before.is(4, 8) && gate.after.is(4, 8) {
        Ok(rows)
    } else {
        Err(TrialFault::GateElsewhere)
    }
}

/// Serves one client. Its gate hears each of its lines with its answer, also the skipped ones.
pub fn each_line_heard<R: Threads + Wait + AllocGlobal + Sync>(
    rt: &R,
) -> Result<usize, TrialFault> {
    let gate = Hearing {
        rt,
        heard: Mutex::new(Vec::new(rt.alloc())),
    };
    let rows = rows_of_all(rt, [lines()].as_slice(), &gate)?;
    let Hearing { rt: _, heard } = gate;
    if heard.into_inner().as_slice() == lines_answered() {
        Ok(rows)
    } else {
        Err(TrialFault::HeardOtherwise)
    }
}

/// Serves a client for each text. Returns how many rows the log has.
fn rows_of_all<R: Threads + Wait + AllocGlobal + Sync, G: Gate + Sync>(
    rt: &R,
    texts: &[&'static [u8]],
    gate: &G,
) -> Result<usize, TrialFault> {
    let mut ends = Vec::new(rt.alloc());
    for text in texts {
        ends.push((*text, Vec::new(rt.alloc())))?;
    }
    let (log, _) = serve(rt, ends, gate)?;
    Ok(log.len())
}
