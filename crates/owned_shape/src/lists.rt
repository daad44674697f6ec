// The lists of numbers beside the points of a shape.
ghost use Rattle.std.specs.Prelude.{◌≡◌, [], IfOk, OnErr, OnOk};
ghost use Rattle.fgb_schema.specs.Shapes.{no_ordinates};
ghost use Rattle.geometry_view.specs.Views.{listed};
ghost use Rattle.owned_shape.specs.Puts.{with_list};

use geometry_view::Ordinate;
use std::alloc::{AllocError, Global};

/// The lists, each empty or with one pattern for each point.
#[derive(Drop)]
pub(crate) struct Lists {
    pub(crate) z: Vec<u64>,
    pub(crate) m: Vec<u64>,
    pub(crate) t: Vec<u64>,
    pub(crate) tm: Vec<u64>,
}

impl Lists {
    ghost use Rattle.owned_shape.specs.ListsShown.{lists_shown};

    /// Four empty lists.
    pub(crate) fn new(alloc: Global) -> Lists
        ensures { lists_shown result ≡ no_ordinates }
    {
        Lists {
            z: Vec::new(alloc),
            m: Vec::new(alloc),
            t: Vec::new(alloc),
            tm: Vec::new(alloc),
        }
    }

    /// One of the lists.
    pub(crate) fn get(&self, which: Ordinate) -> &[u64]
        ensures { result.now ≡ listed which (lists_shown self.now) }
    {
        match which {
            Ordinate::Z => self.z.as_slice(),
            Ordinate::M => self.m.as_slice(),
            Ordinate::T => self.t.as_slice(),
            Ordinate::Tm => self.tm.as_slice(),
        }
    }

    /// Puts a list in the place of one of these.
    pub(crate) fn set(&mut self, which: Ordinate, list: Vec<u64>)
        ensures { lists_shown self.new ≡ with_list which list.items (lists_shown self.old) }
    {
        match which {
            Ordinate::Z => self.z = list,
            Ordinate::M => self.m = list,
            Ordinate::T => self.t = list,
            Ordinate::Tm => self.tm = list,
        }
    }
}
