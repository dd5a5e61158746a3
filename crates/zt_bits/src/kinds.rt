//! The kinds of kernel objects.

ghost use Rattle.std.specs.Prelude.{◌≡◌};
ghost use Rattle.zt_bits.specs.Words.{kind_word};

/// The kind of a kernel object.
#[derive(Clone, Copy, Debug, PartialEq, Eq)]
pub enum Kind {
    Job,
    Process,
    Channel,
    Event,
    EventPair,
    Port,
}

impl Kind {
    /// The word for the kind, as rows of objects show it.
    pub fn word(self) -> &'static str
        ensures { result.now ≡ kind_word self }
    {
        match self {
            Kind::Job => "job",
            Kind::Process => "process",
            Kind::Channel => "channel",
            Kind::Event => "event",
            Kind::EventPair => "eventpair",
            Kind::Port => "port",
        }
    }
}
