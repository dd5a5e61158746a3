//! Tells the kind of an object by the uses of its handles.

use zt_bits::Kind;

/// The sign that a use of a handle gives of its object's kind.
#[derive(Clone, Copy, Debug, PartialEq, Eq)]
pub(crate) enum Sign {
    Nothing,
    Channel,
    Port,
    Job,
    Process,
    /// A job or a process.
    Task,
    /// A channel or an event pair, which have peers.
    Peer,
}

/// How many uses have each sign. A count stays at the highest number that fits.
#[derive(Clone, Copy)]
struct Signs {
    channel: u32,
    port: u32,
    job: u32,
    process: u32,
    task: u32,
    peer: u32,
}

impl Signs {
    fn none() -> Signs {
        Signs {
            channel: 0,
            port: 0,
            job: 0,
            process: 0,
            task: 0,
            peer: 0,
        }
    }

    fn add(&mut self, sign: Sign) {
        match sign {
            Sign::Nothing => {}
            Sign::Channel => self.channel = self.channel.saturating_add(1),
            Sign::Port => self.port = self.port.saturating_add(1),
            Sign::Job => self.job = self.job.saturating_add(1),
            Sign::Process => self.process = self.process.saturating_add(1),
            Sign::Task => self.task = self.task.saturating_add(1),
            Sign::Peer => self.peer = self.peer.saturating_add(1),
        }
    }

    /// The kind that most signs tell; in a tie, the first of channel, port, job, process and event pair. A sign of a peer
    /// counts for a channel too, if a sign of a channel is there or `is_channel` is set. A sign of a task counts for a job
    /// too, if a sign of a job is there.
    fn kind(self, is_channel: bool) -> Option<Kind> {
        let channel = if is_channel || self.channel > 0 {
            self.channel.saturating_add(self.peer)
        } else {
            0
        };
        let job = if self.job > 0 {
            self.job.saturating_add(self.task)
        } else {
            0
        };
        let process = self.process.saturating_add(self.task);
        most_told(&[
            (Kind::Channel, channel),
            (Kind::Port, self.port),
            (Kind::Job, job),
            (Kind::Process, process),
            (Kind::EventPair, self.peer),
        ])
    }
}

/// The first kind with the highest count, unless all counts are 0.
fn most_told(kinds: &[(Kind, u32)]) -> Option<Kind> {
    let mut most = 0;
    let mut found = None;
    for (kind, count) in kinds {
        if *count > most {
            most = *count;
            found = Some(*kind);
        }
    }
    found
}

/// The signs of an object's kind, by its calls and by the waits on it.
#[derive(Clone, Copy)]
pub(crate) struct KindSigns {
    by_calls: Signs,
    by_waits: Signs,
}

impl KindSigns {
    pub(crate) fn none() -> KindSigns {
        KindSigns {
            by_calls: Signs::none(),
            by_waits: Signs::none(),
        }
    }

    pub(crate) fn add_call(&mut self, sign: Sign) {
        self.by_calls.add(sign)
    }

    pub(crate) fn add_wait(&mut self, sign: Sign) {
        self.by_waits.add(sign)
    }

    /// The kind, and whether a use tells it. Waits count only if no call tells a kind. If no use tells one, it is an event.
    pub(crate) fn kind(self) -> (Kind, bool) {
        if let Some(kind) = self.by_calls.kind(self.by_waits.channel > 0) {
            return (kind, true);
        }
        match self.by_waits.kind(false) {
            Some(kind) => (kind, true),
            None => (Kind::Event, false),
        }
    }
}
