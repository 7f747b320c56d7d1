//! The three kinds of a descriptor, and the byte of each.
ghost use Rattle.std.specs.Prelude.{◌≡◌, Some, IfSome};
ghost use Rattle.bsa_descriptor.specs.Kinds.{copy_type_code, object_type_code, status_code};

/// What an object is a copy for.
#[derive(Clone, Copy, Debug, PartialEq, Eq)]
pub enum CopyType {
    /// Of a query: either.
    Any,
    /// To be kept.
    Archive,
    /// To restore from.
    Backup,
}

/// What an object holds.
#[derive(Clone, Copy, Debug, PartialEq, Eq)]
pub enum ObjectType {
    /// Of a query: either.
    Any,
    /// Pages of a dbspace.
    Database,
    /// A file of the logical log.
    Log,
}

/// Whether an object is the newest of its name.
#[derive(Clone, Copy, Debug, PartialEq, Eq)]
pub enum ObjectStatus {
    /// Of a query: either.
    Any,
    /// No later object has its name.
    MostRecent,
    /// A later object has its name.
    NotMostRecent,
}

impl CopyType {
    pub(crate) fn code(self) -> u8
        ensures { result ≡ copy_type_code self }
    {
        match self {
            CopyType::Any => 1,
            CopyType::Archive => 2,
            CopyType::Backup => 3,
        }
    }

    pub(crate) fn from_code(code: u8) -> Option<CopyType>
        ensures found { IfSome result (λ kind. code ≡ copy_type_code kind) }
        ensures only { (kind : CopyType) → code ≡ copy_type_code kind → result ≡ Some kind }
    {
        match code {
            1 => Some(CopyType::Any),
            2 => Some(CopyType::Archive),
            3 => Some(CopyType::Backup),
            _ => None,
        }
    }
}

impl ObjectType {
    pub(crate) fn code(self) -> u8
        ensures { result ≡ object_type_code self }
    {
        match self {
            ObjectType::Any => 1,
            ObjectType::Database => 2,
            ObjectType::Log => 3,
        }
    }

    pub(crate) fn from_code(code: u8) -> Option<ObjectType>
        ensures found { IfSome result (λ kind. code ≡ object_type_code kind) }
        ensures only { (kind : ObjectType) → code ≡ object_type_code kind → result ≡ Some kind }
    {
        match code {
            1 => Some(ObjectType::Any),
            2 => Some(ObjectType::Database),
            3 => Some(ObjectType::Log),
            _ => None,
        }
    }
}

impl ObjectStatus {
    pub(crate) fn code(self) -> u8
        ensures { result ≡ status_code self }
    {
        match self {
            ObjectStatus::Any => 1,
            ObjectStatus::MostRecent => 2,
            ObjectStatus::NotMostRecent => 3,
        }
    }

    pub(crate) fn from_code(code: u8) -> Option<ObjectStatus>
        ensures found { IfSome result (λ kind. code ≡ status_code kind) }
        ensures only { (kind : ObjectStatus) → code ≡ status_code kind → result ≡ Some kind }
    {
        match code {
            1 => Some(ObjectStatus::Any),
            2 => Some(ObjectStatus::MostRecent),
            3 => Some(ObjectStatus::NotMostRecent),
            _ => None,
        }
    }
}
