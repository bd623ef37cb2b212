//! What the keys of a gate file mean.

ghost use Rattle.std.specs.Prelude.{◌≡◌};
ghost use Rattle.gate_rules.specs.Reading.{each};
ghost use Rattle.review_ops.specs.Good.{is_label_byte};
ghost use Rattle.gate_rules.specs.Walk.{approval_key, condition_key, gate_key, is_label_key};

/// What a key of an approval means.
#[derive(Clone, Copy, Debug, PartialEq, Eq)]
pub enum ApprovalKey {
    Username,
    Label,
    Unsupported,
    Unknown,
}

/// What a key of a side's conditions means.
#[derive(Clone, Copy, Debug, PartialEq, Eq)]
pub enum ConditionKey {
    Flag,
    Status,
    Approval,
    Unsupported,
    Unknown,
}

/// What a key of the gate means.
#[derive(Clone, Copy, Debug, PartialEq, Eq)]
pub enum GateKey {
    Cycles,
    Bases,
    Connection,
    Side,
    Unknown,
}

impl ApprovalKey {
    /// What the key of an approval means.
    pub fn of(key: &str) -> ApprovalKey
        ensures { result ≡ approval_key key.now }
    {
        if key == "username" {
            return ApprovalKey::Username;
        }
        if key == "email" || key == "older-than" || key == "newer-than" {
            return ApprovalKey::Unsupported;
        }
        if is_label_key(key) {
            return ApprovalKey::Label;
        }
        ApprovalKey::Unknown
    }
}

impl ConditionKey {
    /// What the key of a condition means.
    pub fn of(key: &str) -> ConditionKey
        ensures { result ≡ condition_key key.now }
    {
        if key == "open" || key == "current-patchset" {
            return ConditionKey::Flag;
        }
        if key == "status" {
            return ConditionKey::Status;
        }
        if key == "approval" {
            return ConditionKey::Approval;
        }
        if key == "wip" || key == "hashtags" {
            return ConditionKey::Unsupported;
        }
        ConditionKey::Unknown
    }
}

impl GateKey {
    /// What the key of a gate means.
    pub fn of(key: &str) -> GateKey
        ensures { result ≡ gate_key key.now }
    {
        if key == "allow-circular-dependencies" {
            return GateKey::Cycles;
        }
        if key == "bases" {
            return GateKey::Bases;
        }
        if key == "connection" {
            return GateKey::Connection;
        }
        if key == "reject" || key == "require" {
            return GateKey::Side;
        }
        GateKey::Unknown
    }
}

/// Whether a key has 1 to 64 ASCII letters, digits and `-`.
fn is_label_key(key: &str) -> bool
    ensures { result ≡ is_label_key key.now }
{
    1 <= key.len() && key.len() <= 64 && has_label_bytes(key.as_bytes())
}

/// Whether each byte may be in a label.
fn has_label_bytes(bytes: &[u8]) -> bool
    ensures { result ≡ each is_label_byte bytes.now }
{
    for byte in bytes {
        if !is_label_byte(*byte) {
            return false;
        }
    }
    true
}

/// Whether a byte may be in a label.
fn is_label_byte(byte: u8) -> bool
    ensures { result ≡ is_label_byte byte }
{
    byte.is_ascii_alphanumeric() || byte == b'-'
}
