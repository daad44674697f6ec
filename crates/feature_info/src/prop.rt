// A property that is owned.
ghost use Rattle.std.specs.Prelude.{◌≡◌, ◌++◌, IfOk, OnOk};
ghost use Rattle.std.specs.List.{AllByRecursion};
ghost use Rattle.fgb_feature.specs.Pairs.{property_of};
ghost use Rattle.fgb_feature.specs.Views.{properties_of};
ghost use Rattle.feature_tables.specs.Laying.{pair_bytes, properties_bytes};
ghost use Rattle.feature_tables.specs.Records.{IsProperty};

use crate::value::ValueInfo;
use fgb_feature::{Props, Value};
use std::alloc::{AllocError, Global};
use std::marker::Model;

/// A property: the number of its column, and its value. (FlatGeobuf, feature.fbs, Feature, properties)
#[derive(Drop)]
pub(crate) struct PropInfo {
    column: u16,
    value: ValueInfo,
}

impl Model for PropInfo {
    ghost use Rattle.fgb_schema.specs.Properties.{Property};

    ghost Value = { Property };

    ghost use Rattle.feature_info.specs.OwnedProp.{owned_prop};

    ghost view = { owned_prop };
}

impl PropInfo {
    /// A copy of a property.
    pub(crate) fn of(alloc: Global, column: u16, value: Value<'_>) -> Result<PropInfo, AllocError>
        ensures ok { IfOk result (λ p. p ≡ property_of (column, value.entry)) }
        ensures sound { IfOk result (λ p. IsProperty p) }
    {
        let value = ValueInfo::of(alloc, value)?;
        Ok(PropInfo { column, value })
    }

    /// The number of its column.
    pub(crate) fn column(&self) -> u16
        ensures { result ≡ self.now.column }
    {
        self.column
    }

    /// The number of its value's type.
    pub(crate) fn kind(&self) -> u8
        ensures { result ≡ self.now.kind }
    {
        self.value.kind()
    }

    /// Appends its bytes: the number of its column, and its value.
    #[tactic(auto, unfolding(feature_tables::specs::Laying::pair_bytes))]
    fn put(&self, out: &mut Vec<u8>) -> Result<(), AllocError>
        ensures { OnOk result (out.new.items ≡ out.old.items ++ pair_bytes self.now) }
    {
        out.extend_from_slice(&self.column.to_le_bytes())?;
        self.value.put(out)
    }
}

/// Copies of properties that were read.
pub(crate) fn props_of(alloc: Global, view: Props) -> Result<Vec<PropInfo>, AllocError>
    ensures ok { IfOk result (λ props. props.items ≡ properties_of view.entry) }
    ensures sound { IfOk result (λ props. AllByRecursion IsProperty props.items) }
{
    let mut props = Vec::new(alloc);
    for (column, value) in view {
        props.push(PropInfo::of(alloc, column, value)?)?;
    }
    Ok(props)
}

/// The bytes of properties, one after another.
pub(crate) fn bytes_of(alloc: Global, props: &[PropInfo]) -> Result<Vec<u8>, AllocError>
    ensures { IfOk result (λ bytes. bytes.items ≡ properties_bytes props.now) }
{
    let mut bytes = Vec::new(alloc);
    for prop in props {
        prop.put(&mut bytes)?;
    }
    Ok(bytes)
}
