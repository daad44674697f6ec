// A value that is owned.
ghost use Rattle.std.specs.Prelude.{◌≡◌, ◌++◌, IfOk, OnOk};
ghost use Rattle.fgb_values.specs.Values.{content_of, type_of};
ghost use Rattle.feature_tables.specs.Laying.{value_bytes};
ghost use Rattle.feature_tables.specs.Records.{AreBytes, IsValue};
ghost use Rattle.feature_info.specs.OwnedValue.{owned_content, owned_type};

use crate::bytes::push_text;
use fgb_feature::Value;
use std::alloc::{AllocError, Global};

/// A property's value, as [`Value`], but with a text of its own. (FlatGeobuf, header.fbs, ColumnType)
#[derive(Drop)]
pub(crate) enum ValueInfo {
    Byte(i8),
    UByte(u8),
    Bool(bool),
    Short(i16),
    UShort(u16),
    Int(i32),
    UInt(u32),
    Long(i64),
    ULong(u64),
    Float(u32),
    Double(u64),
    Str(Vec<u8>),
    Json(Vec<u8>),
    DateTime(Vec<u8>),
    Binary(Vec<u8>),
}

impl ValueInfo {
    /// A copy of a value.
    pub(crate) fn of(alloc: Global, value: Value<'_>) -> Result<ValueInfo, AllocError>
        ensures kind { IfOk result (λ v. owned_type v ≡ type_of value.entry) }
        ensures content { IfOk result (λ v. owned_content v ≡ content_of value.entry) }
        ensures sound { IfOk result (λ v. IsValue (owned_type v) (owned_content v)) }
    {
        match value {
            Value::Byte(n) => Ok(ValueInfo::Byte(n)),
            Value::UByte(n) => Ok(ValueInfo::UByte(n)),
            Value::Bool(truth) => Ok(ValueInfo::Bool(truth)),
            Value::Short(n) => Ok(ValueInfo::Short(n)),
            Value::UShort(n) => Ok(ValueInfo::UShort(n)),
            Value::Int(n) => Ok(ValueInfo::Int(n)),
            Value::UInt(n) => Ok(ValueInfo::UInt(n)),
            Value::Long(n) => Ok(ValueInfo::Long(n)),
            Value::ULong(n) => Ok(ValueInfo::ULong(n)),
            Value::Float(pattern) => Ok(ValueInfo::Float(pattern)),
            Value::Double(pattern) => Ok(ValueInfo::Double(pattern)),
            Value::Str(text) => Ok(ValueInfo::Str(text_of(alloc, text)?)),
            Value::Json(text) => Ok(ValueInfo::Json(text_of(alloc, text)?)),
            Value::DateTime(text) => Ok(ValueInfo::DateTime(text_of(alloc, text)?)),
            Value::Binary(bytes) => Ok(ValueInfo::Binary(text_of(alloc, bytes)?)),
        }
    }

    /// The number of its type.
    pub(crate) fn kind(&self) -> u8
        ensures { result ≡ owned_type self.now }
    {
        match self {
            ValueInfo::Byte(_) => 0,
            ValueInfo::UByte(_) => 1,
            ValueInfo::Bool(_) => 2,
            ValueInfo::Short(_) => 3,
            ValueInfo::UShort(_) => 4,
            ValueInfo::Int(_) => 5,
            ValueInfo::UInt(_) => 6,
            ValueInfo::Long(_) => 7,
            ValueInfo::ULong(_) => 8,
            ValueInfo::Float(_) => 9,
            ValueInfo::Double(_) => 10,
            ValueInfo::Str(_) => 11,
            ValueInfo::Json(_) => 12,
            ValueInfo::DateTime(_) => 13,
            ValueInfo::Binary(_) => 14,
        }
    }

    /// Appends its bytes: a number, 1 for yes and 0 for no, or a text behind its count.
    #[tactic(auto, unfolding(feature_tables::specs::Laying::value_bytes, fgb_values::specs::Values::width, fgb_values::specs::Values::has_length))]
    pub(crate) fn put(&self, out: &mut Vec<u8>) -> Result<(), AllocError>
        ensures { OnOk result (out.new.items ≡ out.old.items ++ value_bytes (owned_type self.now) (owned_content self.now)) }
    {
        match self {
            ValueInfo::Byte(n) => out.extend_from_slice(&n.to_le_bytes()),
            ValueInfo::UByte(n) => out.extend_from_slice(&n.to_le_bytes()),
            ValueInfo::Bool(truth) => out.extend_from_slice(&[u8::from(*truth)]),
            ValueInfo::Short(n) => out.extend_from_slice(&n.to_le_bytes()),
            ValueInfo::UShort(n) => out.extend_from_slice(&n.to_le_bytes()),
            ValueInfo::Int(n) => out.extend_from_slice(&n.to_le_bytes()),
            ValueInfo::UInt(n) => out.extend_from_slice(&n.to_le_bytes()),
            ValueInfo::Long(n) => out.extend_from_slice(&n.to_le_bytes()),
            ValueInfo::ULong(n) => out.extend_from_slice(&n.to_le_bytes()),
            ValueInfo::Float(pattern) => out.extend_from_slice(&pattern.to_le_bytes()),
            ValueInfo::Double(pattern) => out.extend_from_slice(&pattern.to_le_bytes()),
            ValueInfo::Str(text) => push_text(out, text),
            ValueInfo::Json(text) => push_text(out, text),
            ValueInfo::DateTime(text) => push_text(out, text),
            ValueInfo::Binary(bytes) => push_text(out, bytes),
        }
    }
}

/// A copy of a text.
fn text_of(alloc: Global, text: &[u8]) -> Result<Vec<u8>, AllocError>
    ensures text { IfOk result (λ copy. copy.items ≡ text.now) }
    ensures sound { IfOk result (λ copy. AreBytes copy.items) }
{
    Vec::from_slice(alloc, text)
}
