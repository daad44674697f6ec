// The values of features.
ghost use Rattle.std.specs.Prelude.{◌≡◌, ◌≤◌, length, IfErr, IfOk, OnOk, IsErrOf};
ghost use Rattle.fgb_outside.specs.Source.{Rose};
ghost use Rattle.wkb_features.specs.Refusals.{IfRefused, IsFirstWithout, IsNoValue, IsOfSpelling};
ghost use Rattle.wkb_features.specs.Values.{AreValues, IsValue, Writes, WritesPart};

use crate::error::ValuesError;
use feature_info::FeatureInfo;
use fgb_outside::Sink;
use flat_views::{Broken, Rule};
use std::alloc::Global;
use wkb_writer::{WkbError, write_shape};

/// Writes the values of features, one after another, each the little-endian spelling of its geometry. Each feature
/// stands at a place in its file.
///
/// Refuses NoWkb at the place of the first feature that has no geometry, or one with times or with points of two
/// dimensions. Then nothing is written; after another error a front of the values was.
pub fn write_values<W: Sink>(
    alloc: Global,
    features: &[FeatureInfo],
    places: &[u64],
    out: &mut W,
) -> Result<(), ValuesError>
    requires { length places.now ≡ length features.now }

    // Each feature has a value, and all were written.
    ensures written { OnOk result (Writes features.now (W.shown out.old) (W.shown out.new)) }

    // It is refused for the first feature that has none.
    ensures refused { IfRefused result (IsFirstWithout features.now places.now) }

    // Whatever comes of it, a front of the values was written, where each feature has one, or nothing.
    ensures part { WritesPart features.now (W.shown out.old) (W.shown out.new) }
    ensures unwritten { IfRefused result (λ _. W.shown out.new ≡ W.shown out.old) }
    ensures sink_failed { IsErrOf result ValuesError.SinkFailed → Rose (W.shown out.old).faults (W.shown out.new).faults }
    ensures later { (W.shown out.old).faults ≤ (W.shown out.new).faults }
{
    let values = spell(alloc, features, places)?;
    out.write(&values)?;
    Ok(())
}

/// The values of features, one after another.
#[tactic(auto, using(crate::proofs::Spelling::values_none))]
fn spell(alloc: Global, features: &[FeatureInfo], places: &[u64]) -> Result<Vec<u8>, ValuesError>
    requires { length places.now ≡ length features.now }
    ensures values { IfOk result (λ values. AreValues features.now values.items) }
    ensures refused { IfRefused result (IsFirstWithout features.now places.now) }
    ensures own { IfErr result IsOfSpelling }
{
    let mut values = Vec::new(alloc);
    for i in 0..features.len() {
        let value = value_of(alloc, &features[i], places[i])?;
        values.extend_from_slice(&value)?;
    }
    Ok(values)
}

/// The value of a feature that stands at this place.
#[tactic(auto, using(crate::proofs::Spelling::no_shape, crate::proofs::Spelling::no_spelling, crate::proofs::Spelling::has_spelling))]
fn value_of(alloc: Global, feature: &FeatureInfo, place: u64) -> Result<Vec<u8>, ValuesError>
    ensures value { IfOk result (λ value. IsValue feature.now value.items) }
    ensures refused { IfRefused result (IsNoValue feature.now place) }
    ensures own { IfErr result IsOfSpelling }
{
    let no_wkb = Broken {
        place,
        rule: Rule::NoWkb,
    };
    let Some(shape) = feature.geometry() else {
        return Err(ValuesError::Refused(no_wkb));
    };
    match write_shape(alloc, shape) {
        Ok(value) => Ok(value),
        Err(WkbError::Memory) => Err(ValuesError::Memory),
        Err(WkbError::Refused(_)) => Err(ValuesError::Refused(no_wkb)),
    }
}
