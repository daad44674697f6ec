// A condition whose value was read.
ghost use Rattle.std.specs.Prelude.{◌≡◌, MatchResult, option_map};
ghost use Rattle.flat_layout.specs.Promises.{Judges};
ghost use Rattle.fgb_values.specs.Values.{content_of};
ghost use Rattle.fgb_schema.specs.Headers.{header_of};
ghost use Rattle.fgb_schema.specs.Properties.{Property};
ghost use Rattle.fgb_header.specs.Views.{base_shown, columns_shown, source_of};
ghost use Rattle.fgb_feature.specs.Views.{feature_shown, held_shown, properties_of};
ghost use Rattle.fgb_where.specs.Binding.{Binds, BindsAs, BreaksAs, BreaksCondition};
ghost use Rattle.fgb_where.specs.Columns.{first_named};
ghost use Rattle.fgb_where.specs.Holding.{allows, first_pair, holds_among, order_of};

use crate::class::Class;
use crate::places::{column_place, header_place};
use crate::values::{Wanted, compared, read_value};
use crate::words::{Condition, Op};
use fgb_feature::{FeatureView, Props, Value};
use fgb_header::{Columns, HeaderView};
use flat_views::{Broken, Rule};
use std::cmp::Ordering;
use std::marker::Model;

/// A condition whose value was read in the class of its column. It takes no memory.
#[derive(Drop)]
pub struct Bound<'a> {
    name: &'a str,
    op: Op,
    wanted: Wanted<'a>,
}

impl<'a> Model for Bound<'a> {
    ghost use Rattle.fgb_where.specs.Binding.{Bounded};
    ghost use Rattle.fgb_where.specs.Views.{sought_in};

    ghost Value = { Bounded };

    ghost view = { λ s. record { name = s.name.now; op = s.op; sought = sought_in s.wanted } };
}

impl<'a> Condition<'a> {
    /// Looks up its column in a header, the first of that name, and reads its value in the class of that column.
    ///
    /// Refuses WhereColumn at the header's table where there is no such column; at the column's table WhereType where its
    /// type has no class, and WhereValue where the value is none of that class.
    pub fn bind(self, header: &HeaderView<'_>) -> Result<Bound<'a>, Broken>
        ensures { let b = source_of header.now in
            Judges (base_shown header.now) (BreaksCondition b self.entry) (Binds (header_of b) self.entry) result }
    {
        let columns = header.columns();
        let Some(number) = first_named(columns, self.name) else {
            return Err(Broken {
                place: header_place(header),
                rule: Rule::WhereColumn,
            });
        };
        match self.read_as(columns.kind(number)) {
            Ok(bound) => Ok(bound),
            Err(rule) => Err(Broken {
                place: column_place(header, number),
                rule,
            }),
        }
    }

    /// The same, with its value read in the class of a column of this type; or the rule that it breaks.
    fn read_as(self, kind: u8) -> Result<Bound<'a>, Rule>
        ensures { MatchResult result (BindsAs self.entry kind) (BreaksAs self.entry kind) }
    {
        let Some(class) = Class::of(kind) else {
            return Err(Rule::WhereType);
        };
        match read_value(class, self.value) {
            Some(wanted) => Ok(Bound {
                name: self.name,
                op: self.op,
                wanted,
            }),
            None => Err(Rule::WhereValue),
        }
    }
}

impl<'a> Bound<'a> {
    /// Whether the condition holds for a feature: its first pair with the number of the first column of the name, among
    /// the columns that hold for it, is there; the column has the class that the value was read in; and the pair's value
    /// stands in the relation to that value. Where one of these is missing it does not hold, whatever the relation.
    #[tactic(auto, unfolding(crate::specs::Holding::holds_among))]
    pub fn holds(&self, feature: &FeatureView<'_>) -> bool
        ensures { result ≡ holds_among self.now (held_shown feature.now) (feature_shown feature.now).properties }
    {
        match self.order_of(feature) {
            Some(order) => self.op.allows(order),
            None => false,
        }
    }

    /// How the feature's value stands to the wanted one, if it has one to compare.
    fn order_of(&self, feature: &FeatureView<'_>) -> Option<Ordering>
        ensures { result ≡ order_of self.now (held_shown feature.now) (feature_shown feature.now).properties }
    {
        let columns = feature.columns();
        let number = first_named(columns, self.name)?;
        let class = Class::of(columns.kind(number));
        let value = first_value(feature.properties(), number)?;
        compared(class, value, &self.wanted)
    }
}

impl Op {
    /// Whether the feature's value may stand so to the wanted one.
    fn allows(self, order: Ordering) -> bool
        ensures { result ≡ allows self order }
    {
        match self {
            Op::Eq => order.is_eq(),
            Op::Ne => order.is_ne(),
            Op::Lt => order.is_lt(),
            Op::Le => order.is_le(),
            Op::Gt => order.is_gt(),
            Op::Ge => order.is_ge(),
        }
    }
}

/// The number of the first column of a name, if there is one.
fn first_named(columns: Columns, name: &str) -> Option<usize>
    ensures { result ≡ first_named name.now (columns_shown columns.entry) }
{
    for i in 0..columns.len() {
        if columns.get(i).name() == name {
            return Some(i);
        }
    }
    None
}

/// The value of the first pair with the number of a column, if there is one.
fn first_value<'a>(properties: Props<'a>, number: usize) -> Option<Value<'a>>
    ensures { option_map content_of result ≡ option_map (λ (p : Property). p.content) (first_pair number (properties_of properties.entry)) }
{
    for (column, value) in properties {
        if usize::from(column) == number {
            return Some(value);
        }
    }
    None
}
