//! The members that few lines have.

/// A member of a line that few lines have, and that no clause speaks of.
#[derive(Clone, Copy)]
pub(crate) enum RareMember {
    Began,
    /// The second name of `time`.
    Timestamp,
    /// The member `ts`.
    ShortTime,
    /// The name of the process.
    Name,
    /// The second name of `name`.
    ProcessName,
    Thread,
    /// The member `tid`.
    ShortThread,
    Koids,
    RelatedKoids,
}

impl RareMember {
    /// The member of this name. The length of a name tells apart most names.
    pub(crate) fn of(name: &str) -> Option<RareMember> {
        Some(match name.len() {
            2 if name == "ts" => RareMember::ShortTime,
            3 if name == "tid" => RareMember::ShortThread,
            4 if name == "name" => RareMember::Name,
            5 if name == "began" => RareMember::Began,
            5 if name == "koids" => RareMember::Koids,
            6 if name == "thread" => RareMember::Thread,
            9 if name == "timestamp" => RareMember::Timestamp,
            12 if name == "process_name" => RareMember::ProcessName,
            13 if name == "related_koids" => RareMember::RelatedKoids,
            _ => return None,
        })
    }

    pub(crate) fn name(self) -> &'static str {
        match self {
            RareMember::Began => "began",
            RareMember::Timestamp => "timestamp",
            RareMember::ShortTime => "ts",
            RareMember::Name => "name",
            RareMember::ProcessName => "process_name",
            RareMember::Thread => "thread",
            RareMember::ShortThread => "tid",
            RareMember::Koids => "koids",
            RareMember::RelatedKoids => "related_koids",
        }
    }

    /// The bit of the member, which no other member has.
    pub(crate) fn bit(self) -> u16 {
        match self {
            RareMember::Began => 1,
            RareMember::Timestamp => 1 << 1,
            RareMember::ShortTime => 1 << 2,
            RareMember::Name => 1 << 3,
            RareMember::ProcessName => 1 << 4,
            RareMember::Thread => 1 << 5,
            RareMember::ShortThread => 1 << 6,
            RareMember::Koids => 1 << 7,
            RareMember::RelatedKoids => 1 << 8,
        }
    }
}
