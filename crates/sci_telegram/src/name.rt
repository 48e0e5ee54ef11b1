//! The names of nodes and sections.

ghost use Rattle.std.specs.Prelude.{◌≡◌, ◌↔◌, IsTrue, IsSome, IfSome};
ghost use Rattle.std.specs.List.{list_all, position, before_first};
ghost use Rattle.sci_telegram.specs.Names.{IsName, is_name_byte, is_padding, name_field};
ghost use Rattle.sci_telegram.specs.TelegramRead.{name_spelled};

use std::marker::Model;

/// How many bytes the field of a name has in a telegram, and so how many a name has at most.
pub(crate) const FIELD_LENGTH: usize = 20;

/// What stands behind a name in its field.
const PADDING: u8 = b'_';

/// What a name is made of beside letters and digits.
const HYPHEN: u8 = b'-';

/// The name of a node or of a section: 1 to 20 of A to Z, a to z, 0 to 9 and `-`.
#[derive(Clone, Copy, Debug, PartialEq, Eq, Hash)]
pub struct Name {
    /// The name as it stands in a telegram.
    field: [u8; FIELD_LENGTH],
}

impl Model for Name {
    ghost use Rattle.std.specs.Prelude.{ℕ, List};
    ghost use Rattle.sci_telegram.specs.Names.{name_in, name_field, IsNameField};

    ghost Value = { List ℕ };

    ghost view = { λ name. name_in name.field };

    ghost invariant = { λ name. IsNameField name.field };

    ghost inverse = { λ bytes. record { field = name_field bytes } };

    ghost use Rattle.std.proofs.Common.{ap, sym};

    ghost inverse_ok = { λ name held. ap (λ (field : List ℕ). record { field = field }) (sym held.spelled) };
}

fn is_name_byte(byte: u8) -> bool
    ensures { result ≡ is_name_byte byte }
{
    byte.is_ascii_alphanumeric() || byte == HYPHEN
}

fn are_name_bytes(bytes: &[u8]) -> bool
    ensures { result ≡ list_all is_name_byte bytes.now }
{
    bytes.iter().all(|byte| is_name_byte(*byte))
}

fn first_padding(field: &[u8]) -> Option<usize>
    ensures { result ≡ position is_padding field.now }
{
    field.iter().position(|byte| *byte == PADDING)
}

/// What stands before the first padding.
fn name_in(field: &[u8]) -> &[u8]
    ensures { result.now ≡ before_first is_padding field.now }
{
    match first_padding(field) {
        Some(length) => &field[..length],
        None => field,
    }
}

impl Name {
    /// The name of these bytes, if they are one.
    #[tactic(auto)]
    pub fn of(bytes: &[u8]) -> Option<Name>
        ensures fits { IsSome result ↔ IsName bytes.now }
        ensures value { IfSome result (λ name. name ≡ bytes.now) }
    {
        if bytes.is_empty() || bytes.len() > FIELD_LENGTH || !are_name_bytes(bytes) {
            return None;
        }
        let mut field = [PADDING; FIELD_LENGTH];
        field[..bytes.len()].copy_from_slice(bytes);
        Some(Name { field })
    }

    /// The name that a field spells: what stands before the first padding, if only padding follows.
    #[tactic(auto, unfolding(crate::specs::TelegramRead::name_spelled))]
    pub(crate) fn spelled(field: &[u8]) -> Option<Name>
        ensures { result ≡ name_spelled field.now }
    {
        let name = Name::of(name_in(field))?;
        (name.field.as_slice() == field).then_some(name)
    }

    /// The field of a telegram in which the name stands.
    pub(crate) fn field(&self) -> [u8; FIELD_LENGTH]
        ensures value { result ≡ name_field self.now }
        ensures fits { IsName self.now }
    {
        self.field
    }

    /// The bytes of the name, of which there are 1 to 20.
    pub fn bytes(&self) -> &[u8]
        ensures value { result.now ≡ self.now }
        ensures fits { IsName self.now }
    {
        name_in(&self.field)
    }

    /// The name as text.
    #[tactic(auto, using(crate::proofs::Names::name_is_text))]
    pub fn as_str(&self) -> &str
        ensures { result.now ≡ self.now }
    {
        match str::from_utf8(self.bytes()) {
            Ok(text) => text,
            Err(_) => unreachable!(),
        }
    }
}
