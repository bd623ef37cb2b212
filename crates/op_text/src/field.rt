//! The kinds of bodies, and the fields of their texts.

ghost use Rattle.std.specs.Prelude.{◌≡◌, ◌≢◌, ◌++◌, ◌∷◌, [], MatchOption, option_map};
ghost use Rattle.json.specs.Print.{quoted};
ghost use Rattle.serde_json.specs.View.{view};
ghost use Rattle.review_ops.specs.Draft.{deed_of};
ghost use Rattle.op_text.specs.Spelling.{kind_of};
ghost use Rattle.op_text.specs.Field.{key_of, name_of, rule_of, accepts, obeys};

use review_ops::Draft;
use serde_json::Value;

/// What a text spells: a body alone, or an operation, which has a stamp too.
#[derive(Clone, Copy, Debug, PartialEq, Eq)]
pub enum Form {
    Body,
    Operation,
}

/// The kind of a body, which the key `op` names.
#[derive(Clone, Copy, Debug, PartialEq, Eq)]
pub enum Kind {
    PatchSet,
    Vote,
    Withdraw,
    Abandon,
    Restore,
    Merged,
}

/// The fields of a text, in byte order of their keys.
#[derive(Clone, Copy, Debug, PartialEq, Eq)]
pub enum Field {
    Change,
    Label,
    Message,
    Op,
    Parent,
    Seq,
    Set,
    Site,
    Start,
    Time,
    Value,
    Voter,
}

/// Whether a text has a field.
#[derive(Clone, Copy, Debug, PartialEq, Eq)]
pub enum Rule {
    Refused,
    Optional,
    Required,
}

impl Kind {
    /// The kind of a draft.
    pub fn of(draft: &Draft) -> Kind
        ensures { result ≡ kind_of (deed_of draft.now) }
    {
        match draft {
            Draft::PatchSet { .. } => Kind::PatchSet,
            Draft::Vote { .. } => Kind::Vote,
            Draft::Withdraw { .. } => Kind::Withdraw,
            Draft::Abandon { .. } => Kind::Abandon,
            Draft::Restore { .. } => Kind::Restore,
            Draft::Merged { .. } => Kind::Merged,
        }
    }

    /// The name under the key `op`.
    pub fn name(self) -> &'static str
        ensures { result.now ≡ name_of self }
    {
        match self {
            Kind::PatchSet => "patchset",
            Kind::Vote => "vote",
            Kind::Withdraw => "withdraw",
            Kind::Abandon => "abandon",
            Kind::Restore => "restore",
            Kind::Merged => "merged",
        }
    }

    /// The kind of a name.
    pub fn named(name: &str) -> Option<Kind>
        ensures { MatchOption result
            ((kind : _) → name_of kind ≢ name.now) (λ kind. name_of kind ≡ name.now) }
    {
        match name {
            "patchset" => Some(Kind::PatchSet),
            "vote" => Some(Kind::Vote),
            "withdraw" => Some(Kind::Withdraw),
            "abandon" => Some(Kind::Abandon),
            "restore" => Some(Kind::Restore),
            "merged" => Some(Kind::Merged),
            _ => None,
        }
    }
}

impl Field {
    /// Each field, in byte order of their keys.
    pub const ALL: [Field; 12] = [
        Field::Change,
        Field::Label,
        Field::Message,
        Field::Op,
        Field::Parent,
        Field::Seq,
        Field::Set,
        Field::Site,
        Field::Start,
        Field::Time,
        Field::Value,
        Field::Voter,
    ];

    /// The key of the field.
    pub fn key(self) -> &'static str
        ensures { result.now ≡ key_of self }
    {
        match self {
            Field::Change => "change",
            Field::Label => "label",
            Field::Message => "message",
            Field::Op => "op",
            Field::Parent => "parent",
            Field::Seq => "seq",
            Field::Set => "set",
            Field::Site => "site",
            Field::Start => "start",
            Field::Time => "time",
            Field::Value => "value",
            Field::Voter => "voter",
        }
    }

    /// What comes before the value of a field that isn't the first.
    pub fn literal(self) -> &'static [u8]
        ensures { result.now ≡ 44 ∷ (quoted (key_of self) ++ 58 ∷ []) }
    {
        match self {
            Field::Change => b",\"change\":",
            Field::Label => b",\"label\":",
            Field::Message => b",\"message\":",
            Field::Op => b",\"op\":",
            Field::Parent => b",\"parent\":",
            Field::Seq => b",\"seq\":",
            Field::Set => b",\"set\":",
            Field::Site => b",\"site\":",
            Field::Start => b",\"start\":",
            Field::Time => b",\"time\":",
            Field::Value => b",\"value\":",
            Field::Voter => b",\"voter\":",
        }
    }

    /// The field of a key.
    pub fn named(key: &str) -> Option<Field>
        ensures { MatchOption result
            ((field : _) → key_of field ≢ key.now) (λ field. key_of field ≡ key.now) }
    {
        match key {
            "change" => Some(Field::Change),
            "label" => Some(Field::Label),
            "message" => Some(Field::Message),
            "op" => Some(Field::Op),
            "parent" => Some(Field::Parent),
            "seq" => Some(Field::Seq),
            "set" => Some(Field::Set),
            "site" => Some(Field::Site),
            "start" => Some(Field::Start),
            "time" => Some(Field::Time),
            "value" => Some(Field::Value),
            "voter" => Some(Field::Voter),
            _ => None,
        }
    }

    /// Whether a text of this form and kind has the field.
    pub fn rule(self, form: Form, kind: Kind) -> Rule
        ensures { result ≡ rule_of form kind self }
    {
        match self {
            Field::Change | Field::Op => Rule::Required,
            Field::Seq | Field::Site | Field::Start | Field::Time => match form {
                Form::Operation => Rule::Required,
                Form::Body => Rule::Refused,
            },
            Field::Set => match kind {
                Kind::PatchSet | Kind::Vote | Kind::Withdraw => Rule::Required,
                Kind::Abandon | Kind::Restore | Kind::Merged => Rule::Refused,
            },
            Field::Message => match kind {
                Kind::PatchSet => Rule::Required,
                _ => Rule::Refused,
            },
            Field::Parent => match kind {
                Kind::PatchSet => Rule::Optional,
                _ => Rule::Refused,
            },
            Field::Label | Field::Voter => match kind {
                Kind::Vote | Kind::Withdraw => Rule::Required,
                _ => Rule::Refused,
            },
            Field::Value => match kind {
                Kind::Vote => Rule::Required,
                _ => Rule::Refused,
            },
        }
    }

    /// Whether a value may be under the field's key.
    pub fn accepts(self, value: &Value) -> bool
        ensures { result ≡ accepts self (view value.now) }
    {
        match self {
            Field::Label | Field::Message | Field::Op | Field::Voter => value.as_str().is_some(),
            Field::Value => value
                .as_i64()
                .is_some_and(|number| -128 <= number && number <= 127),
            Field::Time => value.as_u64().is_some(),
            Field::Seq => value.as_u64().is_some_and(|number| 1 <= number),
            Field::Site => value.as_u64().is_some_and(|number| number <= 65535),
            Field::Change | Field::Parent | Field::Set | Field::Start => {
                value.as_u64().is_some_and(|number| number <= 4294967295)
            }
        }
    }
}

/// Whether a field obeys its rule, where `found` is the value under its key.
pub fn obeys(rule: Rule, field: Field, found: Option<&Value>) -> bool
    ensures { result ≡ obeys rule field (option_map (λ value. view value.now) found.entry) }
{
    match (rule, found) {
        (Rule::Refused, Some(_)) => false,
        (Rule::Required, None) => false,
        (Rule::Refused | Rule::Optional, None) => true,
        (Rule::Optional | Rule::Required, Some(value)) => field.accepts(value),
    }
}
