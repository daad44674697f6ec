// The items of a value: byte orders, and numbers of four and of eight bytes.
ghost use Rattle.std.specs.Prelude.{◌≡◌, ◌==◌, ◌+◌, ◌≤◌, ℕ, [], ◌∷◌, drop, length, IfErr, IfOk};
ghost use Rattle.wkb_grammar.specs.Grammar.{number_bytes, order_byte};
ghost use Rattle.wkb_reader.specs.Broken.{BreaksHead, Standing};
ghost use Rattle.wkb_reader.specs.Refusals.{IsCut, Refuses};
ghost use Rattle.wkb_writer.specs.declared.dialect.Dialect.{Dialect};
ghost use Rattle.wkb_writer.specs.declared.error.WkbError.TheVariants.{Refused};

use byteorder::{BigEndian, ByteOrder, LittleEndian};
use flat_views::{Broken, Rule};
use wkb_writer::WkbError;

/// The byte order of a value. (OGC 06-103r4, section 8.2)
#[derive(Clone, Copy)]
pub(crate) enum Order {
    /// The highest byte first.
    Big,
    /// The lowest byte first.
    Little,
}

/// The bytes that are left, and the place of the first of them.
#[derive(Drop)]
pub(crate) struct Cursor<'a> {
    pub(crate) rest: &'a [u8],
    pub(crate) at: usize,
    // no more than a value can have, so that what is counted on the way fits
    pub(crate) ghost small: { at + length rest.now ≤ 268435456 },
}

impl Cursor<'_> {
    ghost use Rattle.wkb_reader.specs.Cursors.{Passes};
    ghost use Rattle.wkb_reader.specs.Heads.{order_of};

    /// Whether no bytes are left.
    pub(crate) fn is_at_end(&self) -> bool
        ensures { result ≡ (length self.now.rest.now == 0) }
    {
        self.rest.is_empty()
    }

    /// Takes the byte order of a value. Refuses WkbEnd, WkbOrder.
    pub(crate) fn order(&mut self) -> Result<Order, WkbError>
        ensures ok { IfOk result (λ order. Passes self.old self.new (order_byte (order_of order) ∷ [])) }
        ensures err { (dialect : Dialect) (level : ℕ) (standing : Standing) → IfErr result (Refuses self.old.at (BreaksHead dialect level standing self.old.rest.now)) }
    {
        if self.is_at_end() {
            return Err(refused(self.at, Rule::WkbEnd));
        }
        let byte = self.rest[0];
        if byte > 1 {
            return Err(refused(self.at, Rule::WkbOrder));
        }
        self.pass(1);
        if byte == 0 {
            Ok(Order::Big)
        } else {
            Ok(Order::Little)
        }
    }

    /// Takes a number of four bytes. Refuses WkbEnd.
    pub(crate) fn word(&mut self, order: Order) -> Result<u32, WkbError>
        ensures ok { IfOk result (λ word. Passes self.old self.new (number_bytes (order_of order) 4 word)) }
        ensures err { IfErr result (Refuses self.old.at (IsCut 4 self.old.rest.now)) }
    {
        if self.rest.len() < 4 {
            return Err(refused(self.at, Rule::WkbEnd));
        }
        let word = order.word(self.rest);
        self.pass(4);
        Ok(word)
    }

    /// Takes the pattern of an ordinate.
    pub(crate) fn ordinate(&mut self, order: Order) -> u64
        requires { 8 ≤ length self.old.rest.now }
        ensures { Passes self.old self.new (number_bytes (order_of order) 8 result) }
    {
        let ordinate = order.ordinate(self.rest);
        self.pass(8);
        ordinate
    }

    /// Goes on by so many bytes.
    fn pass(&mut self, count: usize)
        requires { count ≤ length self.old.rest.now }
        ensures rest { self.new.rest.now ≡ drop count self.old.rest.now }
        ensures place { self.new.at ≡ self.old.at + count }
    {
        *self = Cursor {
            rest: &self.rest[count..],
            at: self.at + count,
        };
    }
}

impl Order {
    ghost use Rattle.std.specs.Prelude.{take};
    ghost use Rattle.wkb_reader.specs.Heads.{order_of};

    /// The number in the first four bytes.
    fn word(self, bytes: &[u8]) -> u32
        requires { 4 ≤ length bytes.now }
        ensures { take 4 bytes.now ≡ number_bytes (order_of self) 4 result }
    {
        match self {
            Order::Big => BigEndian::read_u32(bytes),
            Order::Little => LittleEndian::read_u32(bytes),
        }
    }

    /// The pattern in the first eight bytes.
    fn ordinate(self, bytes: &[u8]) -> u64
        requires { 8 ≤ length bytes.now }
        ensures { take 8 bytes.now ≡ number_bytes (order_of self) 8 result }
    {
        match self {
            Order::Big => BigEndian::read_u64(bytes),
            Order::Little => LittleEndian::read_u64(bytes),
        }
    }
}

/// The refusal of a broken rule at this place.
pub(crate) fn refused(at: usize, rule: Rule) -> WkbError
    ensures { result ≡ Refused (record { place = at; rule = rule }) }
{
    WkbError::Refused(Broken {
        place: at as u64,
        rule,
    })
}
