// Features laid one after another.
ghost use Rattle.std.specs.Prelude.{◌≡◌, Err, IfOk, OnOk, map, vec_items};
ghost use Rattle.std.specs.List.{AllByRecursion};
ghost use Rattle.fgb_schema.specs.Headers.{Header};
ghost use Rattle.fgb_schema.specs.Features.{Feature, box_of_shape};
ghost use Rattle.fgb_file.specs.File.{IsFeature, box_of};
ghost use Rattle.feature_tables.specs.Records.{Fits};
ghost use Rattle.laid_features.specs.Buffers.{HasRoom, IsTooLarge, buffers_of, pieces_of, shown_in};

use feature_info::FeatureInfo;
use flat_builder::BuildError;
use std::alloc::Global;

/// The buffers of features, in order. Refuses TooLarge where one would be longer than 268,435,456 bytes.
pub fn lay_features(alloc: Global, features: &[FeatureInfo]) -> Result<Vec<Vec<u8>>, BuildError>
    ensures ok { IfOk result (λ laid. map vec_items laid.items ≡ buffers_of features.now) }
    ensures within { OnOk result (AllByRecursion HasRoom features.now) }
    ensures fits { OnOk result (IsTooLarge features.now → ⊥) }
    ensures too_large { result ≡ Err BuildError.TooLarge → IsTooLarge features.now }

    // under a header that all of them fit, each breaks no rule in a file, and shows just its feature
    ensures each { (h : Header) → AllByRecursion (Fits h) features.now → OnOk result (AllByRecursion (IsFeature h) (pieces_of features.now)) }
    ensures shown { (h : Header) → AllByRecursion (Fits h) features.now → OnOk result (map (shown_in h) (pieces_of features.now) ≡ features.now) }
    ensures boxed { (h : Header) → AllByRecursion (Fits h) features.now
        → OnOk result (map (box_of h) (pieces_of features.now) ≡ map (λ (f : Feature). box_of_shape f.shape) features.now) }
{
    let mut laid = Vec::with_capacity(alloc, features.len())?;
    for feature in features {
        laid.push(feature.to_bytes(alloc)?)?;
    }
    Ok(laid)
}
