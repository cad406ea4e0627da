// The ten integer types, document 01's listed ones: their widths and signs in one fixed table, and whether one holds
// all numbers of another.
ghost use Rattle.std.specs.Prelude.{◌≡◌, true, ◌↔◌, ◌<◌};
ghost use Rattle.supertype_numbers.specs.Integer.{bits};
ghost use Rattle.supertype_numbers.specs.Range.{Listed, is_listed, Includes};
ghost use Rattle.supertype_numbers.specs.Table.{row_of};
ghost use Rattle.supertype_numbers.specs.Decimal.{digits_of};

use flat::kind::Kind;

// A row of the table: the width in bits, and whether the type has a sign.
#[derive(Clone, Copy, Debug, PartialEq, Eq)]
pub struct IntegerType {
    pub width: u8,
    pub signed: bool,
}

// The rows from UInt8 on, in the order of the kinds: document 01 asks for one fixed table.
const INTEGERS: [IntegerType; 10] = [
    IntegerType {
        width: 8, // UInt8
        signed: false,
    },
    IntegerType {
        width: 16, // UInt16
        signed: false,
    },
    IntegerType {
        width: 32, // UInt32
        signed: false,
    },
    IntegerType {
        width: 64, // UInt64
        signed: false,
    },
    IntegerType {
        width: 128, // UInt128
        signed: false,
    },
    IntegerType {
        width: 8, // Int8
        signed: true,
    },
    IntegerType {
        width: 16, // Int16
        signed: true,
    },
    IntegerType {
        width: 32, // Int32
        signed: true,
    },
    IntegerType {
        width: 64, // Int64
        signed: true,
    },
    IntegerType {
        width: 128, // Int128
        signed: true,
    },
];

// Whether a kind is a listed integer type.
#[tactic(auto, unfolding(crate::specs::Range::is_listed))]
pub fn is_listed(kind: u8) -> bool
    ensures { result ≡ is_listed kind }
{
    matches!(kind, Kind::UINT8..=Kind::INT128)
}

// The row of a listed kind.
pub fn integer(k: u8) -> IntegerType
    requires { Listed k }
    ensures { result ≡ row_of k }
{
    INTEGERS[(k - Kind::UINT8) as usize]
}

impl IntegerType {
    // The bits of its numbers beside their sign.
    fn bits(self) -> u64
        requires { 0 < self.width }
        ensures { result ≡ bits self.signed self.width }
    {
        self.width as u64 - self.signed as u64
    }
}

// How many decimal digits the largest number of a listed kind has: a bit is worth a little over three tenths of one.
pub fn digits(k: u8) -> u64
    requires { Listed k }
    ensures { result ≡ digits_of k }
{
    3 * integer(k).bits() / 10 + 1
}

// Whether every number of the kind k is one of the kind t.
pub fn includes(t: u8, k: u8) -> bool
    requires { Listed t × Listed k }
    ensures { (result ≡ true) ↔ Includes t k }
{
    let a = integer(t);
    let b = integer(k);
    (a.signed || !b.signed) && b.bits() <= a.bits()
}
