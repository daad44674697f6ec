// The text of a condition.
ghost use Rattle.std.specs.Prelude.{◌≡◌, ℕ, List, IfSome, IsSomeAnd};
ghost use Rattle.fgb_where.specs.Words.{Spells, word_of};

/// How a feature's value is to stand to the value of a condition.
#[derive(Clone, Copy, Debug, PartialEq, Eq)]
pub enum Op {
    /// It is equal.
    Eq,
    /// It is another.
    Ne,
    /// It is less.
    Lt,
    /// It is less or equal.
    Le,
    /// It is greater.
    Gt,
    /// It is greater or equal.
    Ge,
}

/// A condition on a property.
#[derive(Clone, Copy, Debug, PartialEq, Eq)]
pub struct Condition<'a> {
    /// The name of the property's column.
    pub name: &'a str,
    /// How the property's value is to stand to this one.
    pub op: Op,
    /// The value, as a text. The column's type says how it is read.
    pub value: &'a str,
}

/// Reads `NAME:OP:VALUE`. The name ends at the first colon and the relation at the second, and the value is the rest. None
/// where there are fewer than two colons, the name is empty, or the relation is none of `eq`, `ne`, `lt`, `le`, `gt` and
/// `ge`.
pub fn read_condition<'a>(text: &'a str) -> Option<Condition<'a>>
    ensures some { IfSome result (λ c. Spells text.now c.name.now c.op c.value.now) }
    ensures only { (name : List ℕ) (op : Op) (value : List ℕ) → Spells text.now name op value
        → IsSomeAnd result (λ c. (c.name.now ≡ name) × (c.op ≡ op) × (c.value.now ≡ value)) }
{
    let (name, rest) = text.split_once(':')?;
    let (word, value) = rest.split_once(':')?;
    if name.is_empty() {
        return None;
    }
    let op = read_op(word)?;
    Some(Condition { name, op, value })
}

/// The relation of a word.
fn read_op(word: &str) -> Option<Op>
    ensures some { IfSome result (λ op. word.now ≡ word_of op) }
    ensures only { (op : Op) → word.now ≡ word_of op → IsSomeAnd result (λ o. o ≡ op) }
{
    match word {
        "eq" => Some(Op::Eq),
        "ne" => Some(Op::Ne),
        "lt" => Some(Op::Lt),
        "le" => Some(Op::Le),
        "gt" => Some(Op::Gt),
        "ge" => Some(Op::Ge),
        _ => None,
    }
}
