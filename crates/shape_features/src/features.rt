// A feature of each shape.
ghost use Rattle.std.specs.Prelude.{◌≡◌, List, reverse, IfOk};
ghost use Rattle.std.specs.List.{AllByRecursion};
ghost use Rattle.fgb_schema.specs.Shapes.{Shape as Tree};
ghost use Rattle.feature_tables.specs.Records.{Fits};
ghost use Rattle.shape_features.specs.Features.{features_over, header_over};

use feature_info::FeatureInfo;
use owned_shape::Shape;
use std::alloc::{AllocError, Global};

/// A feature of each shape, in order, without properties.
pub fn features_over(alloc: Global, shapes: Vec<Shape>) -> Result<Vec<FeatureInfo>, AllocError>
    ensures features { IfOk result (λ features. features.items ≡ features_over shapes.items) }
    // each fits the header over any shapes, which says nothing of types
    ensures fits { (all : List Tree) → IfOk result (λ features. AllByRecursion (Fits (header_over all)) features.items) }
{
    let mut features = last_first(alloc, shapes)?;
    features.reverse();
    Ok(features)
}

/// A feature of each shape, the last first.
fn last_first(alloc: Global, shapes: Vec<Shape>) -> Result<Vec<FeatureInfo>, AllocError>
    ensures { IfOk result (λ features. reverse features.items ≡ features_over shapes.items) }
{
    let mut left = shapes;
    let mut features = Vec::new(alloc);
    while let Some(shape) = left.pop() {
        features.push(FeatureInfo::new(alloc, Some(shape)))?;
    }
    Ok(features)
}
